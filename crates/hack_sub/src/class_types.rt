// The rule on named types.
ghost use Rattle.std.specs.Prelude.{◌≡◌, ◌↔◌, IsTrue, length};
ghost use Rattle.hack_sub.specs.Named.{PairIn};
ghost use Rattle.hack_sub.specs.inside.Calls.{ArgumentsIn, FitIn, NamesFitIn, Relates, Tells};
ghost use Rattle.hack_sub.specs.IsBelow.{ancestor_given, class_names, class_types, fit, is_below, some_and, varies};
ghost use Rattle.hack_sub.specs.Knowing.{parameters};

use crate::Scope;
use crate::level::{Level, both, holds};
use crate::lookups::{ancestor_given, parameters};
use crate::parts::{arguments_of, name_of};
use hack_decls::{DeclStop, Decls};
use hack_types::{HackType, NameId, TypeParam, Variance};
use std::alloc::Global;

/// Both types have names, and the arguments that the lower one gives the name of the upper one fit those that this has.
pub(crate) fn class_types<D: Decls, F>(
    level: &Level<'_, F>,
    decls: &mut D,
    lower: &HackType,
    upper: &HackType,
) -> Result<bool, DeclStop>
where
    F: Fn(Global, &mut D, &Scope, u32, &HackType, &HackType) -> Result<bool, DeclStop>,
    requires { Relates D.state level.now.height (F.pre level.now.below) (F.post level.now.below) }
    ensures { Tells (D.state decls.old) result (D.state decls.new)
        (λ map. class_types map
        (is_below map level.now.scope.now level.now.height) lower.now upper.now)
        (λ symbols. PairIn symbols level.now.scope.now lower.now upper.now) }
{
    match (name_of(lower), name_of(upper)) {
        (Some(class), Some(name)) => {
            class_names(
                level,
                decls,
                class,
                name,
                arguments_of(lower),
                arguments_of(upper),
            )
        }
        _ => Ok(false),
    }
}

// A named type of this class with these arguments is below one of this name with the others by what it gives that name.
fn class_names<D: Decls, F>(
    level: &Level<'_, F>,
    decls: &mut D,
    class: NameId,
    name: NameId,
    lowers: &[HackType],
    uppers: &[HackType],
) -> Result<bool, DeclStop>
where
    F: Fn(Global, &mut D, &Scope, u32, &HackType, &HackType) -> Result<bool, DeclStop>,
    requires { Relates D.state level.now.height (F.pre level.now.below) (F.post level.now.below) }
    ensures { Tells (D.state decls.old) result (D.state decls.new)
        (λ map. class_names map class name
        (is_below map level.now.scope.now level.now.height) lowers.now uppers.now)
        (λ symbols. NamesFitIn symbols level.now.scope.now class name lowers.now uppers.now) }
{
    if class == name {
        fit(level, decls, name, lowers, uppers)
    } else {
        from_ancestor(level, decls, class, name, lowers, uppers)
    }
}

// The arguments that a class with these gives this ancestor fit the others.
fn from_ancestor<D: Decls, F>(
    level: &Level<'_, F>,
    decls: &mut D,
    class: NameId,
    name: NameId,
    lowers: &[HackType],
    uppers: &[HackType],
) -> Result<bool, DeclStop>
where
    F: Fn(Global, &mut D, &Scope, u32, &HackType, &HackType) -> Result<bool, DeclStop>,
    requires { Relates D.state level.now.height (F.pre level.now.below) (F.post level.now.below) }
    ensures { Tells (D.state decls.old) result (D.state decls.new)
        (λ map. some_and (ancestor_given map class lowers.now name)
        (λ arguments. fit (is_below map level.now.scope.now level.now.height)
        (parameters map name) arguments uppers.now))
        (λ symbols. NamesFitIn symbols level.now.scope.now class name lowers.now uppers.now) }
{
    let given = ancestor_given(level.alloc, decls, class, lowers, name)?;
    match &given {
        Some(arguments) => fit(level, decls, name, arguments.as_slice(), uppers),
        None => Ok(false),
    }
}

// There is one argument on each side for each parameter of this name, and they fit by the signs.
fn fit<D: Decls, F>(
    level: &Level<'_, F>,
    decls: &mut D,
    name: NameId,
    lowers: &[HackType],
    uppers: &[HackType],
) -> Result<bool, DeclStop>
where
    F: Fn(Global, &mut D, &Scope, u32, &HackType, &HackType) -> Result<bool, DeclStop>,
    requires { Relates D.state level.now.height (F.pre level.now.below) (F.post level.now.below) }
    ensures { Tells (D.state decls.old) result (D.state decls.new)
        (λ map. fit (is_below map level.now.scope.now level.now.height)
        (parameters map name) lowers.now uppers.now)
        (λ symbols. FitIn symbols level.now.scope.now name lowers.now uppers.now) }
{
    let params = parameters(level.alloc, decls, name)?;
    fit_params(level, decls, params.as_slice(), lowers, uppers)
}

// There is one argument on each side for each of these parameters, and they fit by the signs.
fn fit_params<D: Decls, F>(
    level: &Level<'_, F>,
    decls: &mut D,
    params: &[TypeParam],
    lowers: &[HackType],
    uppers: &[HackType],
) -> Result<bool, DeclStop>
where
    F: Fn(Global, &mut D, &Scope, u32, &HackType, &HackType) -> Result<bool, DeclStop>,
    requires { Relates D.state level.now.height (F.pre level.now.below) (F.post level.now.below) }
    ensures { Tells (D.state decls.old) result (D.state decls.new)
        (λ map. fit
        (is_below map level.now.scope.now level.now.height) params.now lowers.now uppers.now)
        (λ symbols. ArgumentsIn symbols level.now.scope.now lowers.now uppers.now) }
{
    if are_as_many(params, lowers, uppers) {
        fit_each(level, decls, params, lowers, uppers)
    } else {
        Ok(false)
    }
}

// Whether there is one argument on each side for each of these parameters.
fn are_as_many(params: &[TypeParam], lowers: &[HackType], uppers: &[HackType]) -> bool
    ensures { IsTrue result
        ↔ (length lowers.now ≡ length params.now) × (length uppers.now ≡ length params.now) }
{
    lowers.len() == params.len() && uppers.len() == params.len()
}

// The arguments fit by the signs.
fn fit_each<D: Decls, F>(
    level: &Level<'_, F>,
    decls: &mut D,
    params: &[TypeParam],
    lowers: &[HackType],
    uppers: &[HackType],
) -> Result<bool, DeclStop>
where
    F: Fn(Global, &mut D, &Scope, u32, &HackType, &HackType) -> Result<bool, DeclStop>,
    requires relates { Relates D.state level.now.height
        (F.pre level.now.below) (F.post level.now.below) }
    requires lowers { length lowers.now ≡ length params.now }
    requires uppers { length uppers.now ≡ length params.now }
    ensures { Tells (D.state decls.old) result (D.state decls.new)
        (λ map. fit
        (is_below map level.now.scope.now level.now.height) params.now lowers.now uppers.now)
        (λ symbols. ArgumentsIn symbols level.now.scope.now lowers.now uppers.now) }
{
    for index in 0..params.len() {
        let fits = varies(
            level,
            decls,
            params[index].variance,
            &lowers[index],
            &uppers[index],
        )?;
        if !fits {
            return Ok(false);
        }
    }
    Ok(true)
}

// Two arguments fit by the sign of their parameter.
fn varies<D: Decls, F>(
    level: &Level<'_, F>,
    decls: &mut D,
    sign: Variance,
    lower: &HackType,
    upper: &HackType,
) -> Result<bool, DeclStop>
where
    F: Fn(Global, &mut D, &Scope, u32, &HackType, &HackType) -> Result<bool, DeclStop>,
    requires { Relates D.state level.now.height (F.pre level.now.below) (F.post level.now.below) }
    ensures { Tells (D.state decls.old) result (D.state decls.new)
        (λ map. varies (is_below map level.now.scope.now level.now.height) sign lower.now upper.now)
        (λ symbols. PairIn symbols level.now.scope.now lower.now upper.now) }
{
    match sign {
        Variance::Covariant => holds(level, decls, lower, upper),
        Variance::Contravariant => holds(level, decls, upper, lower),
        Variance::Invariant => both(level, decls, lower, upper, upper, lower),
    }
}
