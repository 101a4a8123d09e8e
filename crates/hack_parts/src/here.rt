// A condition that says nothing of variables.
ghost use Rattle.std.specs.Prelude.{◌≡◌, IfOk};
ghost use Rattle.hack_rules.specs.Meanings.{Branches};

use hack_types::NoMemory;
use hack_walk::{Branches, State, Variables};
use std::alloc::Global;

/// The variables here for both branches, as a condition leaves them that says nothing of variables
/// (docs/language.md, Typing expressions, Refinement). An error says that memory ran out.
pub fn both_here(alloc: Global, state: &State) -> Result<Branches, NoMemory>
    ensures when_true { IfOk result (λ branches. branches.when_true ≡ state.now.variables) }
    ensures when_false { IfOk result (λ branches. branches.when_false ≡ state.now.variables) }
{
    let when_true = state.variables().copy(alloc)?;
    let when_false = state.variables().copy(alloc)?;
    Ok(Branches::new(when_true, when_false))
}
