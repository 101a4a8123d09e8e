// Expressions as targets: variables and static properties, and those that can't be assigned to.
ghost use Rattle.hack_decls.specs.Names.{TypeIn};
ghost use Rattle.hack_parts.specs.ExprIn.{ExprIn, ReferenceIn};
ghost use Rattle.hack_parts.specs.Parts.{Values, walk_by};
ghost use Rattle.hack_rules.specs.Expressions.{meaning_of};
ghost use Rattle.hack_rules.specs.Meanings.{no_aim, variable};
ghost use Rattle.hack_rules.specs.Uses.{property_aim, static_property};
ghost use Rattle.hack_rules.specs.Walks.{pure};
ghost use Rattle.hack_targets.specs.AimIn.{AimIn};
ghost use Rattle.hack_walk.specs.Checks.{Walks, setting_of};

use hack_decls::{DeclStop, Decls};
use hack_parts::{Reading, place_of};
use hack_targets::Target;
use hack_tree::{ClassReference, Expr};
use hack_types::{HackType, NameId, Place};
use hack_uses::static_property;
use hack_walk::{Setting, State};
use std::alloc::Global;

/// A variable as a target (docs/language.md, Typing expressions, Assignment).
pub(crate) fn variable_target<D: Decls>(
    alloc: Global,
    _setting: &Setting<'_>,
    _decls: &mut D,
    _state: &mut State,
    at: Place,
    name: NameId,
) -> Result<Target, DeclStop>
    ensures { Walks (pure (variable at name)) (setting_of _setting.now)
        (D.state _decls.old) _state.old result (D.state _decls.new) _state.new
        (λ symbols. Unit {0}) AimIn }
{
    Ok(Target::variable(alloc, at, name))
}

/// `C::$p` as a target (docs/language.md, Typing expressions, Assignment). `EdgesFull` says that a lookup's note was refused, and `NoMemory`
/// that memory ran out; what was noted before stays noted.
pub(crate) fn property_target<D: Decls>(
    alloc: Global,
    setting: &Setting<'_>,
    decls: &mut D,
    state: &mut State,
    at: Place,
    class: &ClassReference,
    name: NameId,
) -> Result<Target, DeclStop>
    ensures { Walks (property_aim (static_property at class.now name)) (setting_of setting.now)
        (D.state decls.old) state.old result (D.state decls.new) state.new
        (λ symbols. ReferenceIn symbols class.now) AimIn }
{
    let ty = static_property(alloc, setting, decls, state, at, class, name)?;
    Ok(Target::property(alloc, ty))
}

/// An expression that can't be assigned to: its type in this reading, and its place (docs/language.md, Typing expressions, Assignment).
/// `EdgesFull` says that a lookup's note was refused, and `NoMemory` that memory ran out; what was noted before stays noted.
pub(crate) fn no_target<
    D: Decls,
    F: Fn(Global, &Setting<'_>, &mut D, &mut State, &Expr, Reading) -> Result<HackType, DeclStop>,
>(
    value: &F,
    alloc: Global,
    setting: &Setting<'_>,
    decls: &mut D,
    state: &mut State,
    e: &Expr,
    reading: Reading,
) -> Result<Target, DeclStop>
    requires { Values D.state e.now (F.pre value.now) (F.post value.now) }
    ensures { Walks (no_aim (meaning_of e.now).at (walk_by reading (meaning_of e.now)))
        (setting_of setting.now)
        (D.state decls.old) state.old result (D.state decls.new) state.new
        (λ symbols. ExprIn setting.now.scope.now symbols e.now) AimIn }
{
    let ty = value(alloc, setting, decls, state, e, reading)?;
    Ok(Target::other(alloc, place_of(e), ty))
}
