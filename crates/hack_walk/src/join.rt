// Joins of ends, of which each may be reached or not.
ghost use Rattle.std.specs.Prelude.{◌≡◌, IfOk, Some};
ghost use Rattle.hack_rules.specs.Variables.{either, joined_with};

use crate::{Variables, joined};
use hack_types::NoMemory;
use std::alloc::Global;

/// The join of two ends, of which each may be reached or not (docs/language.md, Typing statements).
#[tactic(auto, unfolding(hack_rules::specs::Variables::either))]
pub fn either(
    alloc: Global,
    left: Option<Variables>,
    right: Option<Variables>,
) -> Result<Option<Variables>, NoMemory>
    ensures { IfOk result (λ answer. answer ≡ either left right) }
{
    match left {
        Some(left) => join_with(alloc, left, right),
        None => Ok(right),
    }
}

// The join of an end that is reached with one that may be.
#[tactic(auto, unfolding(hack_rules::specs::Variables::either))]
fn join_with(
    alloc: Global,
    left: Variables,
    right: Option<Variables>,
) -> Result<Option<Variables>, NoMemory>
    ensures { IfOk result (λ answer. answer ≡ either (Some left) right) }
{
    match right {
        Some(right) => Ok(Some(joined(alloc, left, right)?)),
        None => Ok(Some(left)),
    }
}

/// One environment joined with these ends in turn (docs/language.md, Typing statements).
pub fn joined_with(
    alloc: Global,
    variables: Variables,
    ends: Vec<Variables>,
) -> Result<Variables, NoMemory>
    ensures { IfOk result (λ answer. answer ≡ joined_with variables ends.items) }
{
    let mut here = variables;
    for end in ends {
        here = joined(alloc, here, end)?;
    }
    Ok(here)
}
