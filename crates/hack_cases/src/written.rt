// Written types.

use crate::bodies::{push_diags, push_type};
use hack_decls::MapDecls;
use hack_show::Out;
use hack_tree::Parameter;
use hack_walk::{Setting, State, Variables};
use hack_written::written;
use std::alloc::Global;

/// Shows the type that the first parameter's written type is, and its diagnostics.
pub(crate) fn show(
    alloc: Global,
    out: &mut Out<'_>,
    setting: &Setting<'_>,
    decls: &mut MapDecls,
    parameters: &[Parameter],
) {
    let Some(parameter) = parameters.first() else {
        return;
    };
    let mut state = State::new(alloc, Variables::new(alloc));
    let found = written(alloc, setting, decls, &mut state, &parameter.written);
    match &found {
        Ok(ty) => push_type(alloc, out, setting.names, ty),
        Err(_) => out.word("no memory"),
    }
    drop(found);
    let (variables, diags) = state.into_parts();
    drop(variables);
    push_diags(alloc, out, diags.as_slice());
    drop(diags);
}
