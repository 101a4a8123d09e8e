// Whether a type is below another, as a test over each map.
ghost use Rattle.hack_decls.specs.Asks.{Nothing};
ghost use Rattle.hack_sub.specs.IsBelow.{is_below};
ghost use Rattle.hack_sub.specs.Named.{PairIn};
ghost use Rattle.hack_sub.specs.Sub.{most_height};
ghost use Rattle.hack_walk.specs.Checks.{Reads};

use hack_decls::{DeclStop, Decls};
use hack_sub::{Scope, is_sub, one_relation};
use hack_types::HackType;
use std::alloc::Global;

/// Whether the first type is below the second (docs/language.md, Subtyping). `EdgesFull` says that a lookup's note was refused, and
/// `NoMemory` that memory ran out; what was noted before stays noted.
pub fn is_below<D: Decls>(
    alloc: Global,
    decls: &mut D,
    scope: &Scope,
    lower: &HackType,
    upper: &HackType,
) -> Result<bool, DeclStop>
    ensures { Reads (λ map scope. is_below map scope most_height lower.now upper.now) scope.now
        (D.state decls.old) result (D.state decls.new)
        (λ symbols. PairIn symbols scope.now lower.now upper.now) Nothing }
{
    one_relation();
    is_sub(alloc, decls, scope, lower, upper)
}
