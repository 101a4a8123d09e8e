// Rules on aliases and enums.
ghost use Rattle.std.specs.Prelude.{◌||◌};
ghost use Rattle.hack_types.specs.declared.hack_type.HackType.TheVariants.{Arraykey};
ghost use Rattle.hack_sub.specs.Named.{PairIn};
ghost use Rattle.hack_sub.specs.inside.Calls.{Relates, Tells};
ghost use Rattle.hack_sub.specs.IsBelow.{bounded_base, expanded_small, from_alias, from_enum, into_alias, is_below, some_and};

use crate::Scope;
use crate::known::Known;
use crate::level::{Level, holds};
use crate::lookups::{bounded_base, expanded};
use crate::plain::{is_alias, is_enum};
use hack_decls::{DeclStop, Decls};
use hack_types::HackType;
use std::alloc::Global;

/// The lower type is an alias, and its body is below the upper one.
pub(crate) fn from_alias<D: Decls, F>(
    level: &Level<'_, F>,
    decls: &mut D,
    lower_is: Known,
    lower: &HackType,
    upper: &HackType,
) -> Result<bool, DeclStop>
where
    F: Fn(Global, &mut D, &Scope, u32, &HackType, &HackType) -> Result<bool, DeclStop>,
    requires { Relates D.state level.now.height (F.pre level.now.below) (F.post level.now.below) }
    ensures { Tells (D.state decls.old) result (D.state decls.new)
        (λ map. from_alias map lower_is
        (is_below map level.now.scope.now level.now.height) lower.now upper.now)
        (λ symbols. PairIn symbols level.now.scope.now lower.now upper.now) }
{
    if is_alias(lower_is) {
        body_below(level, decls, lower, upper)
    } else {
        Ok(false)
    }
}

// The body of the lower type is below the upper one.
fn body_below<D: Decls, F>(
    level: &Level<'_, F>,
    decls: &mut D,
    lower: &HackType,
    upper: &HackType,
) -> Result<bool, DeclStop>
where
    F: Fn(Global, &mut D, &Scope, u32, &HackType, &HackType) -> Result<bool, DeclStop>,
    requires { Relates D.state level.now.height (F.pre level.now.below) (F.post level.now.below) }
    ensures { Tells (D.state decls.old) result (D.state decls.new)
        (λ map. some_and (expanded_small map lower.now)
        (λ U. is_below map level.now.scope.now level.now.height U upper.now))
        (λ symbols. PairIn symbols level.now.scope.now lower.now upper.now) }
{
    let body = expanded(level.alloc, decls, lower)?;
    match &body {
        Some(body) => holds(level, decls, body, upper),
        None => Ok(false),
    }
}

/// The upper type is an alias, and the lower one is below its body.
pub(crate) fn into_alias<D: Decls, F>(
    level: &Level<'_, F>,
    decls: &mut D,
    upper_is: Known,
    lower: &HackType,
    upper: &HackType,
) -> Result<bool, DeclStop>
where
    F: Fn(Global, &mut D, &Scope, u32, &HackType, &HackType) -> Result<bool, DeclStop>,
    requires { Relates D.state level.now.height (F.pre level.now.below) (F.post level.now.below) }
    ensures { Tells (D.state decls.old) result (D.state decls.new)
        (λ map. into_alias map upper_is
        (is_below map level.now.scope.now level.now.height) lower.now upper.now)
        (λ symbols. PairIn symbols level.now.scope.now lower.now upper.now) }
{
    if is_alias(upper_is) {
        below_body(level, decls, lower, upper)
    } else {
        Ok(false)
    }
}

// The lower type is below the body of the upper one.
fn below_body<D: Decls, F>(
    level: &Level<'_, F>,
    decls: &mut D,
    lower: &HackType,
    upper: &HackType,
) -> Result<bool, DeclStop>
where
    F: Fn(Global, &mut D, &Scope, u32, &HackType, &HackType) -> Result<bool, DeclStop>,
    requires { Relates D.state level.now.height (F.pre level.now.below) (F.post level.now.below) }
    ensures { Tells (D.state decls.old) result (D.state decls.new)
        (λ map. some_and (expanded_small map upper.now)
        (λ U. is_below map level.now.scope.now level.now.height lower.now U))
        (λ symbols. PairIn symbols level.now.scope.now lower.now upper.now) }
{
    let body = expanded(level.alloc, decls, upper)?;
    match &body {
        Some(body) => holds(level, decls, lower, body),
        None => Ok(false),
    }
}

/// The lower type is an enum, and `arraykey` or the base that it is declared `as` is below the upper one.
pub(crate) fn from_enum<D: Decls, F>(
    level: &Level<'_, F>,
    decls: &mut D,
    lower_is: Known,
    lower: &HackType,
    upper: &HackType,
) -> Result<bool, DeclStop>
where
    F: Fn(Global, &mut D, &Scope, u32, &HackType, &HackType) -> Result<bool, DeclStop>,
    requires { Relates D.state level.now.height (F.pre level.now.below) (F.post level.now.below) }
    ensures { Tells (D.state decls.old) result (D.state decls.new)
        (λ map. from_enum map lower_is
        (is_below map level.now.scope.now level.now.height) lower.now upper.now)
        (λ symbols. PairIn symbols level.now.scope.now lower.now upper.now) }
{
    if is_enum(lower_is) {
        key_or_base(level, decls, lower, upper)
    } else {
        Ok(false)
    }
}

// `arraykey` or the base that the lower type is declared `as` is below the upper one.
fn key_or_base<D: Decls, F>(
    level: &Level<'_, F>,
    decls: &mut D,
    lower: &HackType,
    upper: &HackType,
) -> Result<bool, DeclStop>
where
    F: Fn(Global, &mut D, &Scope, u32, &HackType, &HackType) -> Result<bool, DeclStop>,
    requires { Relates D.state level.now.height (F.pre level.now.below) (F.post level.now.below) }
    ensures { Tells (D.state decls.old) result (D.state decls.new)
        (λ map. is_below map level.now.scope.now level.now.height Arraykey upper.now
        || some_and (bounded_base map lower.now)
        (λ base. is_below map level.now.scope.now level.now.height base upper.now))
        (λ symbols. PairIn symbols level.now.scope.now lower.now upper.now) }
{
    let key = holds(level, decls, &HackType::Arraykey, upper)?;
    if key {
        return Ok(true);
    }
    base_below(level, decls, lower, upper)
}

// The base that the lower type is declared `as` is below the upper one.
fn base_below<D: Decls, F>(
    level: &Level<'_, F>,
    decls: &mut D,
    lower: &HackType,
    upper: &HackType,
) -> Result<bool, DeclStop>
where
    F: Fn(Global, &mut D, &Scope, u32, &HackType, &HackType) -> Result<bool, DeclStop>,
    requires { Relates D.state level.now.height (F.pre level.now.below) (F.post level.now.below) }
    ensures { Tells (D.state decls.old) result (D.state decls.new)
        (λ map. some_and (bounded_base map lower.now)
        (λ base. is_below map level.now.scope.now level.now.height base upper.now))
        (λ symbols. PairIn symbols level.now.scope.now lower.now upper.now) }
{
    let base = bounded_base(level.alloc, decls, lower)?;
    match &base {
        Some(base) => holds(level, decls, base, upper),
        None => Ok(false),
    }
}
