// Unions of two types.
ghost use Rattle.std.specs.Prelude.{◌≡◌, IfOk};
ghost use Rattle.hack_decls.specs.Asks.{Asks};
ghost use Rattle.hack_decls.specs.Names.{TypeIn};
ghost use Rattle.hack_infer.specs.WithoutNull.{without_null};
ghost use Rattle.hack_rules.specs.Variables.{union_of_two};

use hack_decls::{DeclStop, Decls};
use hack_infer::without_null;
use hack_types::{HackType, NoMemory, limited, union_of};
use std::alloc::Global;

/// The union of two types, and `_` where it has more than 256 nodes (docs/language.md, Limits). An error says that memory ran out.
#[tactic(auto, unfolding(hack_rules::specs::Variables::union_of_two))]
pub fn union_of_two(alloc: Global, left: HackType, right: HackType) -> Result<HackType, NoMemory>
    ensures { IfOk result (λ union. union ≡ union_of_two left right) }
{
    let both = [left, right];
    let union = union_of(alloc, &both);
    drop(both);
    Ok(limited(union?))
}

/// The union of the left without null and of the right (docs/language.md, Typing expressions). `EdgesFull` says that a lookup's note
/// was refused, and `NoMemory` that memory ran out; what was noted before stays noted.
pub fn coalesced<D: Decls>(
    alloc: Global,
    decls: &mut D,
    left: &HackType,
    right: HackType,
) -> Result<HackType, DeclStop>
    ensures { Asks (D.state decls.old) result (D.state decls.new)
        (λ map answer. answer ≡ union_of_two (without_null map left.now) right)
        (λ symbols. TypeIn symbols left.now × TypeIn symbols right) TypeIn }
{
    let present = without_null(alloc, decls, left)?;
    Ok(union_of_two(alloc, present, right)?)
}
