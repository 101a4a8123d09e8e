// Expressions.

use crate::bodies::{push_diags, push_type};
use crate::operators::{returned, taken};
use crate::plain::note;
use hack_decls::MapDecls;
use hack_expr::{ExprOut, check_expr};
use hack_show::Out;
use hack_tree::{Expr, Parameter, Stmt};
use hack_types::{HackType, NameId, Names, Param, name_text};
use hack_walk::{Setting, Variables};
use std::alloc::Global;

/// Shows the type of the expression that a body returns in the variables of these parameters, each variable that has another type behind it
/// than before, and the diagnostics. A name that several parameters have takes the union of their types.
pub(crate) fn show(
    alloc: Global,
    out: &mut Out<'_>,
    setting: &Setting<'_>,
    decls: &mut MapDecls,
    parameters: &[Parameter],
    params: &[Param],
    body: &[Stmt],
) {
    let mut variables = Variables::new(alloc);
    let bound = taken(alloc, &mut variables, parameters, params);
    if let Some(expr) = returned(body) {
        show_checked(alloc, out, setting, decls, &variables, expr);
    }
    drop(variables);
    note(out, bound);
}

fn show_checked(
    alloc: Global,
    out: &mut Out<'_>,
    setting: &Setting<'_>,
    decls: &mut MapDecls,
    variables: &Variables,
    expr: &Expr,
) {
    let found = check_expr(alloc, setting.names, decls, setting.scope, variables, expr);
    match &found {
        Ok(found) => show_found(alloc, out, setting.names, variables, found),
        Err(_) => out.word("no memory"),
    }
    drop(found);
}

fn show_found(
    alloc: Global,
    out: &mut Out<'_>,
    names: &Names,
    before: &Variables,
    found: &ExprOut,
) {
    push_type(alloc, out, names, &found.ty);
    show_changed(alloc, out, names, before, &found.env);
    push_diags(alloc, out, found.diags.as_slice());
}

// No row has as many as 1,000 names.
fn show_changed(
    alloc: Global,
    out: &mut Out<'_>,
    names: &Names,
    before: &Variables,
    behind: &Variables,
) {
    for number in 0..names.count().min(1_000) {
        let name = NameId::new(number);
        show_variable(
            alloc,
            out,
            names,
            name,
            before.type_in(name),
            behind.type_in(name),
        );
    }
}

// `; $x: TYPE` where the type behind is another one.
fn show_variable(
    alloc: Global,
    out: &mut Out<'_>,
    names: &Names,
    name: NameId,
    before: Option<&HackType>,
    behind: Option<&HackType>,
) {
    if is_same(before, behind) {
        return;
    }
    out.push(b"; $");
    out.push(name_text(names, name));
    out.push(b": ");
    match behind {
        Some(ty) => push_type(alloc, out, names, ty),
        None => out.push(b"not there"),
    }
}

fn is_same(before: Option<&HackType>, behind: Option<&HackType>) -> bool {
    match (before, behind) {
        (None, None) => true,
        (Some(before), Some(behind)) => before.same(behind),
        _ => false,
    }
}
