// Types against bounds.
ghost use Rattle.std.specs.Prelude.{◌≡◌, All, IfOk};
ghost use Rattle.std.specs.List.{list_all};
ghost use Rattle.hack_types.specs.TypeText.{name_text};
ghost use Rattle.hack_types.specs.declared.hack_type.HackType.TheVariants.{Arraykey};
ghost use Rattle.hack_decls.specs.Asks.{Asks, Nothing};
ghost use Rattle.hack_decls.specs.Names.{TypeIn};
ghost use Rattle.hack_infer.specs.Filling.{filled_limited, filling_of};
ghost use Rattle.hack_sub.specs.IsBelow.{is_below};
ghost use Rattle.hack_sub.specs.Named.{PairIn};
ghost use Rattle.hack_sub.specs.Sub.{most_height};
ghost use Rattle.hack_rules.specs.WrittenTypes.{expect_key, expect_within, is_within};
ghost use Rattle.hack_walk.specs.Checks.{Walks, setting_of};
ghost use Rattle.hack_written.specs.Within.{BoundsIn, ListIn, WithinIn};

use crate::reports::report_out_of_bounds;
use hack_decls::{DeclStop, Decls};
use hack_infer::{Filling, fill};
use hack_sub::{Scope, is_sub, one_relation};
use hack_types::{HackType, NoMemory, Place, SubstStop, TypeParam, name_text};
use hack_walk::{Setting, State};
use std::alloc::Global;

/// Whether a type is within the bounds of a parameter with these put in: it is below each bound behind `as`, and each behind `super`
/// is below it; a bound that would have more than 256 nodes is `_` (docs/language.md, Written types). `EdgesFull` says that a lookup's
/// note was refused, and `NoMemory` that memory ran out; what was noted before stays noted.
pub fn is_within<D: Decls>(
    alloc: Global,
    decls: &mut D,
    scope: &Scope,
    filling: &Filling<'_>,
    param: &TypeParam,
    ty: &HackType,
) -> Result<bool, DeclStop>
    ensures { Asks (D.state decls.old) result (D.state decls.new)
        (λ map answer. answer
        ≡ is_within map scope.now (filled_limited (filling_of filling.now)) param.now ty.now)
        (λ symbols. WithinIn symbols scope.now
        (filled_limited (filling_of filling.now)) param.now ty.now) Nothing }
{
    let upper = param.upper.as_slice();
    let lower = param.lower.as_slice();
    let fits = is_below_all(alloc, decls, scope, filling, ty, upper)?;
    if !fits {
        return Ok(false);
    }
    is_above_all(alloc, decls, scope, filling, ty, lower)
}

// Whether the type is below each of these bounds.
fn is_below_all<D: Decls>(
    alloc: Global,
    decls: &mut D,
    scope: &Scope,
    filling: &Filling<'_>,
    ty: &HackType,
    bounds: &[HackType],
) -> Result<bool, DeclStop>
    ensures { Asks (D.state decls.old) result (D.state decls.new)
        (λ map answer. answer ≡ list_all (λ bound. is_below map scope.now most_height ty.now
        (filled_limited (filling_of filling.now) bound)) bounds.now)
        (λ symbols. ListIn symbols scope.now
        (filled_limited (filling_of filling.now)) bounds.now ty.now) Nothing }
{
    for bound in bounds {
        let fits = is_below_one(alloc, decls, scope, filling, ty, bound)?;
        if !fits {
            return Ok(false);
        }
    }
    Ok(true)
}

// Whether each of these bounds is below the type.
fn is_above_all<D: Decls>(
    alloc: Global,
    decls: &mut D,
    scope: &Scope,
    filling: &Filling<'_>,
    ty: &HackType,
    bounds: &[HackType],
) -> Result<bool, DeclStop>
    ensures { Asks (D.state decls.old) result (D.state decls.new)
        (λ map answer. answer ≡ list_all (λ bound. is_below map scope.now most_height
        (filled_limited (filling_of filling.now) bound) ty.now) bounds.now)
        (λ symbols. ListIn symbols scope.now
        (filled_limited (filling_of filling.now)) bounds.now ty.now) Nothing }
{
    for bound in bounds {
        let fits = is_above_one(alloc, decls, scope, filling, ty, bound)?;
        if !fits {
            return Ok(false);
        }
    }
    Ok(true)
}

fn is_below_one<D: Decls>(
    alloc: Global,
    decls: &mut D,
    scope: &Scope,
    filling: &Filling<'_>,
    ty: &HackType,
    bound: &HackType,
) -> Result<bool, DeclStop>
    ensures { Asks (D.state decls.old) result (D.state decls.new)
        (λ map answer. answer ≡ is_below map scope.now most_height ty.now
        (filled_limited (filling_of filling.now) bound.now))
        (λ symbols. PairIn symbols scope.now ty.now
        (filled_limited (filling_of filling.now) bound.now)) Nothing }
{
    let bound = put(alloc, bound, filling)?;
    let fits = is_below(alloc, decls, scope, ty, &bound);
    drop(bound);
    fits
}

fn is_above_one<D: Decls>(
    alloc: Global,
    decls: &mut D,
    scope: &Scope,
    filling: &Filling<'_>,
    ty: &HackType,
    bound: &HackType,
) -> Result<bool, DeclStop>
    ensures { Asks (D.state decls.old) result (D.state decls.new)
        (λ map answer. answer ≡ is_below map scope.now most_height
        (filled_limited (filling_of filling.now) bound.now) ty.now)
        (λ symbols. PairIn symbols scope.now
        (filled_limited (filling_of filling.now) bound.now) ty.now) Nothing }
{
    let bound = put(alloc, bound, filling)?;
    let fits = is_below(alloc, decls, scope, &bound, ty);
    drop(bound);
    fits
}

// Whether the first type is below the second.
fn is_below<D: Decls>(
    alloc: Global,
    decls: &mut D,
    scope: &Scope,
    lower: &HackType,
    upper: &HackType,
) -> Result<bool, DeclStop>
    ensures { Asks (D.state decls.old) result (D.state decls.new)
        (λ map answer. answer ≡ is_below map scope.now most_height lower.now upper.now)
        (λ symbols. PairIn symbols scope.now lower.now upper.now) Nothing }
{
    one_relation();
    is_sub(alloc, decls, scope, lower, upper)
}

// The bound with these put in, and `_` where that is too large.
#[tactic(auto, using(crate::proofs::Puts::too_large))]
fn put(alloc: Global, bound: &HackType, filling: &Filling<'_>) -> Result<HackType, NoMemory>
    ensures { IfOk result (λ ty. ty ≡ filled_limited (filling_of filling.now) bound.now) }
{
    match fill(alloc, bound, filling) {
        Ok(ty) => Ok(ty),
        Err(SubstStop::TooBig) => Ok(HackType::Any),
        Err(SubstStop::NoMemory) => Err(NoMemory),
    }
}

/// 3212 where a type isn't within the bounds of the parameter that it stands for, with these put into the bounds
/// (docs/language.md, Written types). `EdgesFull` says that a lookup's note was refused, and `NoMemory` that memory ran out; what was
/// noted before stays noted.
pub fn expect_within<D: Decls>(
    alloc: Global,
    setting: &Setting<'_>,
    decls: &mut D,
    state: &mut State,
    filling: &Filling<'_>,
    at: Place,
    param: &TypeParam,
    ty: &HackType,
) -> Result<(), DeclStop>
    ensures { Walks (expect_within (filled_limited (filling_of filling.now)) at param.now ty.now)
        (setting_of setting.now) (D.state decls.old) state.old result (D.state decls.new) state.new
        (λ symbols. BoundsIn symbols (filled_limited (filling_of filling.now)) param.now ty.now)
        Nothing }
{
    let fits = is_within(alloc, decls, setting.scope, filling, param, ty)?;
    if fits {
        return Ok(());
    }
    let param = name_text(setting.names, param.name);
    report_out_of_bounds(alloc, setting, state, at, ty, param)?;
    Ok(())
}

/// 3212 where the type of keys isn't below `arraykey` (docs/language.md, Written types). `EdgesFull` says that a lookup's note
/// was refused, and `NoMemory` that memory ran out; what was noted before stays noted.
pub fn expect_key<D: Decls>(
    alloc: Global,
    setting: &Setting<'_>,
    decls: &mut D,
    state: &mut State,
    at: Place,
    ty: &HackType,
) -> Result<(), DeclStop>
    ensures { Walks (expect_key at ty.now)
        (setting_of setting.now) (D.state decls.old) state.old result (D.state decls.new) state.new
        (λ symbols. TypeIn symbols ty.now) Nothing }
{
    let fits = is_below(alloc, decls, setting.scope, ty, &HackType::Arraykey)?;
    if fits {
        return Ok(());
    }
    report_out_of_bounds(alloc, setting, state, at, ty, b"Tk")?;
    Ok(())
}
