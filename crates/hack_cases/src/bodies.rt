// The last function of a row, or the last method of a row's last class, the scope in it, and what is shown of it.

use crate::below::fold_units;
use crate::plain::{push_made, push_number};
use crate::run::Table;
use crate::{expressions, written};
use hack_decls::{DeclStop, Decls, MapDecls, MemberAnswer, MemberTag};
use hack_shallow::shallow_of;
use hack_show::Out;
use hack_sub::Scope;
use hack_tree::{Callable, Member as MemberTree, Stmt, Unit, UnitTree};
use hack_types::{
    Diag, HackType, Member, MemberKind, NameId, Names, NoMemory, Param, Shallow, Signature,
    SymbolId, TypeParam, type_text,
};
use hack_walk::Setting;
use sqlite_items::Items;
use std::alloc::Global;

// A function or a method in its tree.
#[derive(Clone, Copy)]
struct Callee<'a> {
    callable: &'a Callable,
    body: &'a [Stmt],
}

// What its parameters take, and the scope in it.
#[derive(Drop)]
struct Inside {
    params: Items<Param>,
    scope: Scope,
}

fn callee_of(tree: &UnitTree) -> Option<Callee<'_>> {
    match tree {
        UnitTree::Function { callable, body, .. } => Some(Callee {
            callable,
            body: body.as_slice(),
        }),
        UnitTree::Class { members, .. } => method_of(members.as_slice()),
        UnitTree::Trait { members, .. } => method_of(members.as_slice()),
        _ => None,
    }
}

fn method_of(members: &[MemberTree]) -> Option<Callee<'_>> {
    match members.last() {
        Some(
            MemberTree::Method {
                callable,
                body: Some(body),
                ..
            },
        ) => Some(Callee {
            callable,
            body: body.as_slice(),
        }),
        _ => None,
    }
}

fn inside_of(
    alloc: Global,
    decls: &mut MapDecls,
    unit: &Unit,
    name: NameId,
) -> Result<Option<Inside>, NoMemory> {
    match shallow_of(alloc, unit)? {
        Shallow::Function(signature) => Ok(Some(in_scope(signature, None, true))),
        Shallow::ClassLike(class) => {
            let method = method_by(alloc, decls, unit.symbol, name);
            Ok(inside_method(unit.symbol.name, class.type_params, method))
        }
        _ => Ok(None),
    }
}

// The method of this name of a class.
fn method_by(
    alloc: Global,
    decls: &mut MapDecls,
    symbol: SymbolId,
    name: NameId,
) -> Option<Member> {
    found_in(decls.member(alloc, symbol, MemberTag::Method, name))
}

// The same of a method of the class of this name, with these type parameters.
fn inside_method(
    class: NameId,
    params: Items<TypeParam>,
    method: Option<Member>,
) -> Option<Inside> {
    let method = method?;
    let in_static = method.is_static;
    let signature = signature_of(method)?;
    Some(in_scope(signature, Some((class, params)), in_static))
}

fn found_in(answer: Result<MemberAnswer, DeclStop>) -> Option<Member> {
    match answer {
        Ok(MemberAnswer::At(member)) => Some(member),
        _ => None,
    }
}

fn signature_of(member: Member) -> Option<Signature> {
    match member.kind {
        MemberKind::Method(signature) => Some(signature),
        _ => None,
    }
}

fn in_scope(
    signature: Signature,
    class: Option<(NameId, Items<TypeParam>)>,
    in_static: bool,
) -> Inside {
    let scope = Scope {
        class,
        in_static,
        fun_params: signature.type_params,
        result: signature.result,
    };
    Inside {
        params: signature.params,
        scope,
    }
}

fn show(
    alloc: Global,
    table: Table,
    out: &mut Out<'_>,
    setting: &Setting<'_>,
    decls: &mut MapDecls,
    callee: Callee<'_>,
    params: &[Param],
) {
    let parameters = callee.callable.parameters.as_slice();
    match table {
        Table::WrittenTypes => written::show(alloc, out, setting, decls, parameters),
        _ => expressions::show(alloc, out, setting, decls, parameters, params, callee.body),
    }
}

fn of_callee(
    alloc: Global,
    table: Table,
    out: &mut Out<'_>,
    names: &Names,
    decls: &mut MapDecls,
    unit: &Unit,
    callee: Callee<'_>,
) -> Result<(), NoMemory> {
    let inside = inside_of(alloc, decls, unit, callee.callable.name.name)?;
    if let Some(inside) = &inside {
        let setting = Setting {
            names,
            scope: &inside.scope,
        };
        let params = inside.params.as_slice();
        show(alloc, table, out, &setting, decls, callee, params);
    }
    drop(inside);
    Ok(())
}

/// Shows what a table asks of the last function, or of the last method of a class or trait that is the last declaration, over all of them.
pub(crate) fn show_last(
    alloc: Global,
    table: Table,
    out: &mut Out<'_>,
    names: &Names,
    units: &[Unit],
) -> Result<(), NoMemory> {
    let Some(unit) = units.last() else {
        return Ok(());
    };
    let Some(callee) = callee_of(&unit.tree) else {
        return Ok(());
    };
    let mut decls = MapDecls::new(alloc);
    let done = match fold_units(alloc, units, &mut decls) {
        Ok(()) => of_callee(alloc, table, out, names, &mut decls, unit, callee),
        Err(stop) => Err(stop),
    };
    drop(decls);
    done
}

/// Adds the text of a type.
pub(crate) fn push_type(alloc: Global, out: &mut Out<'_>, names: &Names, ty: &HackType) {
    push_made(out, type_text(alloc, names, ty));
}

/// Adds `; LINE:COLUMN CODE TEXT` for each of these.
pub(crate) fn push_diags(alloc: Global, out: &mut Out<'_>, diags: &[Diag]) {
    for diag in diags {
        out.push(b"; ");
        push_number(alloc, out, diag.at.line as u64);
        out.push(b":");
        push_number(alloc, out, diag.at.column as u64);
        out.push(b" ");
        push_number(alloc, out, diag.code as u64);
        out.push(b" ");
        out.push(diag.text.as_slice());
    }
}
