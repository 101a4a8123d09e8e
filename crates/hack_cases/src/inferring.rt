// Inference.

use crate::below::{copy_types, fold_units};
use hack_decls::{DeclStop, MapDecls};
use hack_infer::{apply, match_params, solve};
use hack_shallow::shallow_of;
use hack_show::{Out, show_type};
use hack_sub::Scope;
use hack_tree::Unit;
use hack_types::{HackType, NoMemory, Shallow, Signature, SubstStop, TypeParam};
use sqlite_items::Items;
use std::alloc::Global;

// How many type parameters there are; no row has as many as 256.
fn count_of(params: &[TypeParam]) -> u32 {
    if params.len() < 256 {
        params.len() as u32
    } else {
        0
    }
}

// What the callee's type parameters take from the caller's parameters.
fn taken(
    alloc: Global,
    decls: &mut MapDecls,
    callee: &Signature,
    caller: &Signature,
) -> Result<Vec<Vec<HackType>>, DeclStop> {
    let mut wanted = Vec::new(alloc);
    let mut given = Vec::new(alloc);
    let scope = Scope {
        class: None,
        in_static: true,
        fun_params: Items::new(alloc),
        result: HackType::Any,
    };
    let all_wanted = copy_types(alloc, callee.params.as_slice(), &mut wanted);
    let all_given = copy_types(alloc, caller.params.as_slice(), &mut given);
    let count = count_of(callee.type_params.as_slice());
    let found = match_params(
        alloc,
        decls,
        &scope,
        wanted.as_slice(),
        given.as_slice(),
        count,
    );
    drop(wanted);
    drop(given);
    drop(scope);
    match (all_wanted, all_given) {
        (Ok(()), Ok(())) => found,
        _ => {
            drop(found);
            Err(DeclStop::NoMemory)
        }
    }
}

// What they are solved to.
fn solved(
    alloc: Global,
    decls: &mut MapDecls,
    callee: &Signature,
    caller: &Signature,
) -> Result<Vec<HackType>, NoMemory> {
    let Ok(found) = taken(alloc, decls, callee, caller) else {
        return Err(NoMemory);
    };
    let solved = solve(alloc, found.as_slice());
    drop(found);
    solved
}

// Shows that, and what the callee returns with these put in.
fn show_call(
    alloc: Global,
    out: &mut Out<'_>,
    decls: &mut MapDecls,
    callee: &Signature,
    caller: &Signature,
) -> Result<(), NoMemory> {
    let solved = solved(alloc, decls, callee, caller)?;
    for ty in &solved {
        show_type(out, ty);
    }
    let made = apply(alloc, &callee.result, solved.as_slice());
    drop(solved);
    match made {
        Ok(ty) => {
            show_type(out, &ty);
            drop(ty);
        }
        Err(SubstStop::TooBig) => out.word("too big"),
        Err(SubstStop::NoMemory) => return Err(NoMemory),
    }
    Ok(())
}

fn of_units(
    alloc: Global,
    out: &mut Out<'_>,
    decls: &mut MapDecls,
    callee: &Unit,
    caller: &Unit,
) -> Result<(), NoMemory> {
    let callee = shallow_of(alloc, callee);
    let caller = shallow_of(alloc, caller);
    let done = match (&callee, &caller) {
        (Ok(Shallow::Function(callee)), Ok(Shallow::Function(caller))) => {
            show_call(alloc, out, decls, callee, caller)
        }
        _ => Ok(()),
    };
    drop(callee);
    drop(caller);
    done
}

/// Shows what the type parameters of the last function but one are solved to where it is called with what the last one takes, and then what
/// it returns.
pub(crate) fn show_last(alloc: Global, out: &mut Out<'_>, units: &[Unit]) -> Result<(), NoMemory> {
    let [.., callee, caller] = units else {
        return Ok(());
    };
    let mut decls = MapDecls::new(alloc);
    let done = match fold_units(alloc, units, &mut decls) {
        Ok(()) => of_units(alloc, out, &mut decls, callee, caller),
        Err(stop) => Err(stop),
    };
    drop(decls);
    done
}
