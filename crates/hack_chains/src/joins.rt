// Environments that are exchanged or joined.
ghost use Rattle.std.specs.Prelude.{◌≡◌, OnOk};
ghost use Rattle.hack_rules.specs.Variables.{joined};

use hack_types::NoMemory;
use hack_walk::{State, Variables, joined};
use std::alloc::Global;

/// These are the variables from here on; the answer is those up to here.
pub fn exchange(alloc: Global, state: &mut State, from: Variables) -> Variables
    ensures taken { result ≡ state.old.variables }
    ensures variables { state.new.variables ≡ from }
    ensures found { state.new.found ≡ state.old.found }
{
    let behind = state.take_variables(alloc);
    state.replace(from);
    behind
}

/// From here on the variables are these, joined with those up to here. An error says that memory ran out.
pub fn rejoin(alloc: Global, state: &mut State, left: Variables) -> Result<(), NoMemory>
    ensures variables { OnOk result (state.new.variables ≡ joined left state.old.variables) }
    ensures found { state.new.found ≡ state.old.found }
{
    let right = state.take_variables(alloc);
    let both = joined(alloc, left, right)?;
    state.replace(both);
    Ok(())
}
