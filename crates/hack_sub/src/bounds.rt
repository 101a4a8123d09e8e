// The rule on type parameters and `this`.
ghost use Rattle.std.specs.Prelude.{◌≡◌, IfOk};
ghost use Rattle.hack_sub.specs.Named.{PairIn};
ghost use Rattle.hack_sub.specs.inside.Calls.{OneIn, Relates, Tells};
ghost use Rattle.hack_sub.specs.IsBelow.{class_type_small, from_param, from_this, into_param, is_below, some_and};

use crate::Scope;
use crate::level::{Level, holds};
use crate::options::{any_below, below_any};
use crate::parts::top_of;
use crate::plain::is_this;
use crate::scope::{class_type, param_of};
use hack_decls::{DeclStop, Decls};
use hack_types::{HackType, NoMemory};
use std::alloc::Global;

/// The lower type is a type parameter, and one of its bounds behind `as` is below the upper type.
pub(crate) fn from_param<D: Decls, F>(
    level: &Level<'_, F>,
    decls: &mut D,
    lower: &HackType,
    upper: &HackType,
) -> Result<bool, DeclStop>
where
    F: Fn(Global, &mut D, &Scope, u32, &HackType, &HackType) -> Result<bool, DeclStop>,
    requires { Relates D.state level.now.height (F.pre level.now.below) (F.post level.now.below) }
    ensures { Tells (D.state decls.old) result (D.state decls.new)
        (λ map. from_param level.now.scope.now
        (is_below map level.now.scope.now level.now.height) lower.now upper.now)
        (λ symbols. PairIn symbols level.now.scope.now lower.now upper.now) }
{
    match param_of(level.scope, lower) {
        Some(param) => any_below(level, decls, param.upper.as_slice(), upper),
        None => Ok(false),
    }
}

/// The upper type is a type parameter, and the lower one is below one of its bounds behind `super`.
pub(crate) fn into_param<D: Decls, F>(
    level: &Level<'_, F>,
    decls: &mut D,
    lower: &HackType,
    upper: &HackType,
) -> Result<bool, DeclStop>
where
    F: Fn(Global, &mut D, &Scope, u32, &HackType, &HackType) -> Result<bool, DeclStop>,
    requires { Relates D.state level.now.height (F.pre level.now.below) (F.post level.now.below) }
    ensures { Tells (D.state decls.old) result (D.state decls.new)
        (λ map. into_param level.now.scope.now
        (is_below map level.now.scope.now level.now.height) lower.now upper.now)
        (λ symbols. PairIn symbols level.now.scope.now lower.now upper.now) }
{
    match param_of(level.scope, upper) {
        Some(param) => below_any(level, decls, lower, param.lower.as_slice()),
        None => Ok(false),
    }
}

/// The lower type is `this`, and the scope's class with its own parameters is below the upper one.
pub(crate) fn from_this<D: Decls, F>(
    level: &Level<'_, F>,
    decls: &mut D,
    lower: &HackType,
    upper: &HackType,
) -> Result<bool, DeclStop>
where
    F: Fn(Global, &mut D, &Scope, u32, &HackType, &HackType) -> Result<bool, DeclStop>,
    requires { Relates D.state level.now.height (F.pre level.now.below) (F.post level.now.below) }
    ensures { Tells (D.state decls.old) result (D.state decls.new)
        (λ map. from_this level.now.scope.now
        (is_below map level.now.scope.now level.now.height) lower.now upper.now)
        (λ symbols. PairIn symbols level.now.scope.now lower.now upper.now) }
{
    if is_this(top_of(lower)) {
        class_below(level, decls, upper)
    } else {
        Ok(false)
    }
}

// The scope's class with its own parameters is below the upper type.
fn class_below<D: Decls, F>(
    level: &Level<'_, F>,
    decls: &mut D,
    upper: &HackType,
) -> Result<bool, DeclStop>
where
    F: Fn(Global, &mut D, &Scope, u32, &HackType, &HackType) -> Result<bool, DeclStop>,
    requires { Relates D.state level.now.height (F.pre level.now.below) (F.post level.now.below) }
    ensures { Tells (D.state decls.old) result (D.state decls.new)
        (λ map. some_and (class_type_small level.now.scope.now)
        (λ U. is_below map level.now.scope.now level.now.height U upper.now))
        (λ symbols. OneIn symbols level.now.scope.now upper.now) }
{
    let class = class_type_small(level.alloc, level.scope)?;
    match &class {
        Some(class) => holds(level, decls, class, upper),
        None => Ok(false),
    }
}

// How many nodes a type may have.
const MOST_NODES: usize = 256;

// The scope's class with its own parameters, where they aren't too many for a type.
fn class_type_small(alloc: Global, scope: &Scope) -> Result<Option<HackType>, NoMemory>
    ensures { IfOk result (λ class. class ≡ class_type_small scope.now) }
{
    match &scope.class {
        Some((_, params)) if params.len() < MOST_NODES => class_type(alloc, scope),
        _ => Ok(None),
    }
}
