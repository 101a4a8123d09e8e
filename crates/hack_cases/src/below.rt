// Subtyping.

use crate::folding::{declare, fold_all};
use hack_decls::MapDecls;
use hack_shallow::shallow_of;
use hack_show::Out;
use hack_sub::{Scope, is_sub};
use hack_tree::Unit;
use hack_types::{
    ClassSig, HackType, MemberKind, NameId, NoMemory, Param, Shallow, Signature, union_of,
};
use sqlite_items::Items;
use std::alloc::Global;
use std::collections::BTreeMap;

/// Adds what the parameters take.
pub(crate) fn copy_types(
    alloc: Global,
    params: &[Param],
    types: &mut Vec<HackType>,
) -> Result<(), NoMemory> {
    for param in params {
        types.push(param.ty.copy(alloc)?)?;
    }
    Ok(())
}

// The union of what the parameters take.
fn taken(alloc: Global, params: &[Param]) -> Result<HackType, NoMemory> {
    let mut types = Vec::new(alloc);
    let done = copy_types(alloc, params, &mut types);
    let union = union_of(alloc, types.as_slice());
    drop(types);
    done?;
    union
}

// Shows whether what the parameters take is below this type.
fn show_sub(
    alloc: Global,
    out: &mut Out<'_>,
    decls: &mut MapDecls,
    scope: &Scope,
    params: &[Param],
    upper: &HackType,
) -> Result<(), NoMemory> {
    let lower = taken(alloc, params)?;
    let found = is_sub(alloc, decls, scope, &lower, upper);
    drop(lower);
    match found {
        Ok(true) => out.word("below"),
        Ok(false) => out.word("not"),
        Err(_) => return Err(NoMemory),
    }
    Ok(())
}

// The same of what a function returns.
fn of_function(
    alloc: Global,
    out: &mut Out<'_>,
    decls: &mut MapDecls,
    signature: Signature,
) -> Result<(), NoMemory> {
    let scope = Scope {
        class: None,
        in_static: true,
        fun_params: signature.type_params,
        result: signature.result,
    };
    let done = show_sub(
        alloc,
        out,
        decls,
        &scope,
        signature.params.as_slice(),
        &scope.result,
    );
    drop(scope);
    done
}

// The same of what the first method of a class returns.
fn of_method(
    alloc: Global,
    out: &mut Out<'_>,
    decls: &mut MapDecls,
    name: NameId,
    class: ClassSig,
) -> Result<(), NoMemory> {
    let scope = Scope {
        class: Some((name, class.type_params)),
        in_static: false,
        fun_params: Items::new(alloc),
        result: HackType::Any,
    };
    let done = match class.members.as_slice().first().map(|member| &member.kind) {
        Some(MemberKind::Method(signature)) => {
            let params = signature.params.as_slice();
            show_sub(alloc, out, decls, &scope, params, &signature.result)
        }
        _ => Ok(()),
    };
    drop(scope);
    done
}

fn of_unit(
    alloc: Global,
    out: &mut Out<'_>,
    decls: &mut MapDecls,
    unit: &Unit,
) -> Result<(), NoMemory> {
    match shallow_of(alloc, unit)? {
        Shallow::Function(signature) => of_function(alloc, out, decls, signature),
        Shallow::ClassLike(class) => of_method(alloc, out, decls, unit.symbol.name, class),
        _ => Ok(()),
    }
}

/// Folds all of these.
pub(crate) fn fold_units(
    alloc: Global,
    units: &[Unit],
    decls: &mut MapDecls,
) -> Result<(), NoMemory> {
    let mut shallows = BTreeMap::new(alloc);
    let done = match declare(alloc, units, &mut shallows) {
        Ok(()) => fold_all(alloc, units, &shallows, decls),
        Err(stop) => Err(stop),
    };
    drop(shallows);
    done
}

/// Shows whether what the parameters of the last declaration take is below what it returns, over all of them: `below` or
/// `not`. Several parameters take a union; of a class the first method is meant.
pub(crate) fn show_last(alloc: Global, out: &mut Out<'_>, units: &[Unit]) -> Result<(), NoMemory> {
    let Some(unit) = units.last() else {
        return Ok(());
    };
    let mut decls = MapDecls::new(alloc);
    let done = match fold_units(alloc, units, &mut decls) {
        Ok(()) => of_unit(alloc, out, &mut decls, unit),
        Err(stop) => Err(stop),
    };
    drop(decls);
    done
}
