// Rules on containers.
ghost use Rattle.hack_sub.specs.Named.{PairIn};
ghost use Rattle.hack_sub.specs.inside.Calls.{Relates, Tells};
ghost use Rattle.hack_sub.specs.IsBelow.{dicts, into_keyed, is_below, keysets, some_and, vectors};
ghost use Rattle.hack_sub.specs.Parts.{as_keyed};

use crate::Scope;
use crate::level::{Level, both, holds};
use crate::parts::{as_keyed, dict_parts, keyset_item, name_of, vector_item};
use hack_decls::{DeclStop, Decls};
use hack_types::HackType;
use std::alloc::Global;

/// Both are vecs, and what the lower one holds is below what the upper one does.
pub(crate) fn vectors<D: Decls, F>(
    level: &Level<'_, F>,
    decls: &mut D,
    lower: &HackType,
    upper: &HackType,
) -> Result<bool, DeclStop>
where
    F: Fn(Global, &mut D, &Scope, u32, &HackType, &HackType) -> Result<bool, DeclStop>,
    requires { Relates D.state level.now.height (F.pre level.now.below) (F.post level.now.below) }
    ensures { Tells (D.state decls.old) result (D.state decls.new)
        (λ map. vectors (is_below map level.now.scope.now level.now.height) lower.now upper.now)
        (λ symbols. PairIn symbols level.now.scope.now lower.now upper.now) }
{
    match (vector_item(lower), vector_item(upper)) {
        (Some(item), Some(other)) => holds(level, decls, item, other),
        _ => Ok(false),
    }
}

/// Both are keysets, and what the lower one holds is below what the upper one does.
pub(crate) fn keysets<D: Decls, F>(
    level: &Level<'_, F>,
    decls: &mut D,
    lower: &HackType,
    upper: &HackType,
) -> Result<bool, DeclStop>
where
    F: Fn(Global, &mut D, &Scope, u32, &HackType, &HackType) -> Result<bool, DeclStop>,
    requires { Relates D.state level.now.height (F.pre level.now.below) (F.post level.now.below) }
    ensures { Tells (D.state decls.old) result (D.state decls.new)
        (λ map. keysets (is_below map level.now.scope.now level.now.height) lower.now upper.now)
        (λ symbols. PairIn symbols level.now.scope.now lower.now upper.now) }
{
    match (keyset_item(lower), keyset_item(upper)) {
        (Some(item), Some(other)) => holds(level, decls, item, other),
        _ => Ok(false),
    }
}

/// Both are dicts, and the keys and values of the lower one are below those of the upper one.
pub(crate) fn dicts<D: Decls, F>(
    level: &Level<'_, F>,
    decls: &mut D,
    lower: &HackType,
    upper: &HackType,
) -> Result<bool, DeclStop>
where
    F: Fn(Global, &mut D, &Scope, u32, &HackType, &HackType) -> Result<bool, DeclStop>,
    requires { Relates D.state level.now.height (F.pre level.now.below) (F.post level.now.below) }
    ensures { Tells (D.state decls.old) result (D.state decls.new)
        (λ map. dicts (is_below map level.now.scope.now level.now.height) lower.now upper.now)
        (λ symbols. PairIn symbols level.now.scope.now lower.now upper.now) }
{
    match (dict_parts(lower), dict_parts(upper)) {
        (Some((key, value)), Some((other_key, other_value))) => {
            both(level, decls, key, other_key, value, other_value)
        }
        _ => Ok(false),
    }
}

/// The upper type has a name, and the lower one is a container which as a `KeyedContainer` is below it.
pub(crate) fn into_keyed<D: Decls, F>(
    level: &Level<'_, F>,
    decls: &mut D,
    lower: &HackType,
    upper: &HackType,
) -> Result<bool, DeclStop>
where
    F: Fn(Global, &mut D, &Scope, u32, &HackType, &HackType) -> Result<bool, DeclStop>,
    requires { Relates D.state level.now.height (F.pre level.now.below) (F.post level.now.below) }
    ensures { Tells (D.state decls.old) result (D.state decls.new)
        (λ map. into_keyed (is_below map level.now.scope.now level.now.height) lower.now upper.now)
        (λ symbols. PairIn symbols level.now.scope.now lower.now upper.now) }
{
    match name_of(upper) {
        Some(_) => keyed_below(level, decls, lower, upper),
        None => Ok(false),
    }
}

// The lower type is a container which as a `KeyedContainer` is below the upper one.
fn keyed_below<D: Decls, F>(
    level: &Level<'_, F>,
    decls: &mut D,
    lower: &HackType,
    upper: &HackType,
) -> Result<bool, DeclStop>
where
    F: Fn(Global, &mut D, &Scope, u32, &HackType, &HackType) -> Result<bool, DeclStop>,
    requires { Relates D.state level.now.height (F.pre level.now.below) (F.post level.now.below) }
    ensures { Tells (D.state decls.old) result (D.state decls.new)
        (λ map. some_and (as_keyed lower.now)
        (λ U. is_below map level.now.scope.now level.now.height U upper.now))
        (λ symbols. PairIn symbols level.now.scope.now lower.now upper.now) }
{
    let keyed = as_keyed(level.alloc, lower)?;
    match &keyed {
        Some(keyed) => holds(level, decls, keyed, upper),
        None => Ok(false),
    }
}
