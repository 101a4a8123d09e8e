// Rules on options and unions.
ghost use Rattle.std.specs.List.{list_all, list_any};
ghost use Rattle.hack_sub.specs.Named.{PairIn};
ghost use Rattle.hack_sub.specs.inside.Calls.{ManyIn, Relates, Tells};
ghost use Rattle.hack_sub.specs.IsBelow.{from_option, from_union, into_option, into_union, is_below};

use crate::Scope;
use crate::level::{Level, both, holds};
use crate::parts::{option_inside, union_members};
use hack_decls::{DeclStop, Decls};
use hack_types::HackType;
use std::alloc::Global;

/// The upper type is `?U`, and the lower one is below U.
pub(crate) fn into_option<D: Decls, F>(
    level: &Level<'_, F>,
    decls: &mut D,
    lower: &HackType,
    upper: &HackType,
) -> Result<bool, DeclStop>
where
    F: Fn(Global, &mut D, &Scope, u32, &HackType, &HackType) -> Result<bool, DeclStop>,
    requires { Relates D.state level.now.height (F.pre level.now.below) (F.post level.now.below) }
    ensures { Tells (D.state decls.old) result (D.state decls.new)
        (λ map. into_option (is_below map level.now.scope.now level.now.height) lower.now upper.now)
        (λ symbols. PairIn symbols level.now.scope.now lower.now upper.now) }
{
    match option_inside(upper) {
        Some(inside) => holds(level, decls, lower, inside),
        None => Ok(false),
    }
}

/// The lower type is `?U`, and `null` and U are below the upper one.
pub(crate) fn from_option<D: Decls, F>(
    level: &Level<'_, F>,
    decls: &mut D,
    lower: &HackType,
    upper: &HackType,
) -> Result<bool, DeclStop>
where
    F: Fn(Global, &mut D, &Scope, u32, &HackType, &HackType) -> Result<bool, DeclStop>,
    requires { Relates D.state level.now.height (F.pre level.now.below) (F.post level.now.below) }
    ensures { Tells (D.state decls.old) result (D.state decls.new)
        (λ map. from_option (is_below map level.now.scope.now level.now.height) lower.now upper.now)
        (λ symbols. PairIn symbols level.now.scope.now lower.now upper.now) }
{
    match option_inside(lower) {
        Some(inside) => both(level, decls, &HackType::Null, upper, inside, upper),
        None => Ok(false),
    }
}

/// The lower type is a union, and each member is below the upper one.
pub(crate) fn from_union<D: Decls, F>(
    level: &Level<'_, F>,
    decls: &mut D,
    lower: &HackType,
    upper: &HackType,
) -> Result<bool, DeclStop>
where
    F: Fn(Global, &mut D, &Scope, u32, &HackType, &HackType) -> Result<bool, DeclStop>,
    requires { Relates D.state level.now.height (F.pre level.now.below) (F.post level.now.below) }
    ensures { Tells (D.state decls.old) result (D.state decls.new)
        (λ map. from_union (is_below map level.now.scope.now level.now.height) lower.now upper.now)
        (λ symbols. PairIn symbols level.now.scope.now lower.now upper.now) }
{
    match union_members(lower) {
        Some(members) => all_below(level, decls, members, upper),
        None => Ok(false),
    }
}

/// The upper type is a union, and the lower one is below a member.
pub(crate) fn into_union<D: Decls, F>(
    level: &Level<'_, F>,
    decls: &mut D,
    lower: &HackType,
    upper: &HackType,
) -> Result<bool, DeclStop>
where
    F: Fn(Global, &mut D, &Scope, u32, &HackType, &HackType) -> Result<bool, DeclStop>,
    requires { Relates D.state level.now.height (F.pre level.now.below) (F.post level.now.below) }
    ensures { Tells (D.state decls.old) result (D.state decls.new)
        (λ map. into_union (is_below map level.now.scope.now level.now.height) lower.now upper.now)
        (λ symbols. PairIn symbols level.now.scope.now lower.now upper.now) }
{
    match union_members(upper) {
        Some(members) => below_any(level, decls, lower, members),
        None => Ok(false),
    }
}

// Each of these is below the upper type.
fn all_below<D: Decls, F>(
    level: &Level<'_, F>,
    decls: &mut D,
    lowers: &[HackType],
    upper: &HackType,
) -> Result<bool, DeclStop>
where
    F: Fn(Global, &mut D, &Scope, u32, &HackType, &HackType) -> Result<bool, DeclStop>,
    requires { Relates D.state level.now.height (F.pre level.now.below) (F.post level.now.below) }
    ensures { Tells (D.state decls.old) result (D.state decls.new)
        (λ map. list_all
        (λ U. is_below map level.now.scope.now level.now.height U upper.now) lowers.now)
        (λ symbols. ManyIn symbols level.now.scope.now lowers.now upper.now) }
{
    for lower in lowers {
        let below = holds(level, decls, lower, upper)?;
        if !below {
            return Ok(false);
        }
    }
    Ok(true)
}

/// The lower type is below one of these.
pub(crate) fn below_any<D: Decls, F>(
    level: &Level<'_, F>,
    decls: &mut D,
    lower: &HackType,
    uppers: &[HackType],
) -> Result<bool, DeclStop>
where
    F: Fn(Global, &mut D, &Scope, u32, &HackType, &HackType) -> Result<bool, DeclStop>,
    requires { Relates D.state level.now.height (F.pre level.now.below) (F.post level.now.below) }
    ensures { Tells (D.state decls.old) result (D.state decls.new)
        (λ map. list_any
        (λ U. is_below map level.now.scope.now level.now.height lower.now U) uppers.now)
        (λ symbols. ManyIn symbols level.now.scope.now uppers.now lower.now) }
{
    for upper in uppers {
        let below = holds(level, decls, lower, upper)?;
        if below {
            return Ok(true);
        }
    }
    Ok(false)
}

/// One of these is below the upper type.
pub(crate) fn any_below<D: Decls, F>(
    level: &Level<'_, F>,
    decls: &mut D,
    lowers: &[HackType],
    upper: &HackType,
) -> Result<bool, DeclStop>
where
    F: Fn(Global, &mut D, &Scope, u32, &HackType, &HackType) -> Result<bool, DeclStop>,
    requires { Relates D.state level.now.height (F.pre level.now.below) (F.post level.now.below) }
    ensures { Tells (D.state decls.old) result (D.state decls.new)
        (λ map. list_any
        (λ U. is_below map level.now.scope.now level.now.height U upper.now) lowers.now)
        (λ symbols. ManyIn symbols level.now.scope.now lowers.now upper.now) }
{
    for lower in lowers {
        let below = holds(level, decls, lower, upper)?;
        if below {
            return Ok(true);
        }
    }
    Ok(false)
}
