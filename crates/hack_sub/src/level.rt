// What a rule needs besides the two types.
ghost use Rattle.std.specs.Prelude.{◌&&◌};
ghost use Rattle.hack_sub.specs.Named.{PairIn};
ghost use Rattle.hack_sub.specs.inside.Calls.{BothIn, Relates, Tells};
ghost use Rattle.hack_sub.specs.IsBelow.{is_below};

use crate::Scope;
use hack_decls::{DeclStop, Decls};
use hack_types::HackType;
use std::alloc::Global;

/// Where the premises of a rule are judged: in this scope, by trees of this height.
#[derive(Drop)]
pub(crate) struct Level<'a, F> {
    pub(crate) alloc: Global,
    pub(crate) scope: &'a Scope,
    pub(crate) height: u32,
    /// Judges a premise.
    pub(crate) below: F,
}

/// Whether this premise holds.
pub(crate) fn holds<D: Decls, F>(
    level: &Level<'_, F>,
    decls: &mut D,
    lower: &HackType,
    upper: &HackType,
) -> Result<bool, DeclStop>
where
    F: Fn(Global, &mut D, &Scope, u32, &HackType, &HackType) -> Result<bool, DeclStop>,
    requires { Relates D.state level.now.height (F.pre level.now.below) (F.post level.now.below) }
    ensures { Tells (D.state decls.old) result (D.state decls.new)
        (λ map. is_below map level.now.scope.now level.now.height lower.now upper.now)
        (λ symbols. PairIn symbols level.now.scope.now lower.now upper.now) }
{
    (level.below)(level.alloc, decls, level.scope, level.height, lower, upper)
}

/// Whether these two premises hold.
pub(crate) fn both<D: Decls, F>(
    level: &Level<'_, F>,
    decls: &mut D,
    lower: &HackType,
    upper: &HackType,
    next_lower: &HackType,
    next_upper: &HackType,
) -> Result<bool, DeclStop>
where
    F: Fn(Global, &mut D, &Scope, u32, &HackType, &HackType) -> Result<bool, DeclStop>,
    requires { Relates D.state level.now.height (F.pre level.now.below) (F.post level.now.below) }
    ensures { Tells (D.state decls.old) result (D.state decls.new)
        (λ map. is_below map level.now.scope.now level.now.height lower.now upper.now
        && is_below map level.now.scope.now level.now.height next_lower.now next_upper.now)
        (λ symbols. BothIn symbols level.now.scope.now
        lower.now upper.now next_lower.now next_upper.now) }
{
    let first = holds(level, decls, lower, upper)?;
    if !first {
        return Ok(false);
    }
    holds(level, decls, next_lower, next_upper)
}
