// What type parameters become.
ghost use Rattle.std.specs.Prelude.{◌≡◌, IfOk, map};
ghost use Rattle.hack_infer.specs.Solving.{solve, solved_by};

use hack_types::{HackType, NoMemory, limited, union_of};
use std::alloc::Global;

/// What each type parameter becomes that took these types: their union, and `_` where there are none or the union would have more
/// than 256 nodes. An error says that memory ran out (docs/language.md, Typing expressions, Calls).
pub fn solve(alloc: Global, found: &[Vec<HackType>]) -> Result<Vec<HackType>, NoMemory>
    ensures { IfOk result (λ solved. solved.items ≡ solve (map (λ types. types.items) found.now)) }
{
    let mut solved = Vec::with_capacity(alloc, found.len())?;
    for types in found {
        solved.push(solved_by(alloc, types.as_slice())?)?;
    }
    Ok(solved)
}

// What one type parameter becomes.
fn solved_by(alloc: Global, types: &[HackType]) -> Result<HackType, NoMemory>
    ensures { IfOk result (λ ty. ty ≡ solved_by types.now) }
{
    if types.is_empty() {
        return Ok(HackType::Any);
    }
    Ok(limited(union_of(alloc, types)?))
}
