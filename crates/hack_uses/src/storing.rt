// What is stored to targets.
ghost use Rattle.hack_decls.specs.Names.{TypeIn};
ghost use Rattle.hack_operators.specs.Seen.{operation_seen};
ghost use Rattle.hack_targets.specs.AimIn.{AimIn};
ghost use Rattle.hack_uses.specs.inside.Steps.{increased, stored};
ghost use Rattle.hack_walk.specs.Checks.{Walks, setting_of};

use hack_decls::{DeclStop, Decls};
use hack_operators::{Operation, operate};
use hack_targets::{Target, read, store};
use hack_types::{HackType, Place};
use hack_walk::{Setting, State};
use std::alloc::Global;

/// A target whose parts were typed gets this type, which is that of the whole; the place is that of what is assigned (docs/language.md,
/// Typing expressions, Assignment). `EdgesFull` says that a lookup's note was refused, and `NoMemory` that memory ran out; what was
/// noted before stays noted.
pub(crate) fn stored<D: Decls>(
    alloc: Global,
    setting: &Setting<'_>,
    decls: &mut D,
    state: &mut State,
    at: Place,
    aim: Target,
    ty: HackType,
) -> Result<HackType, DeclStop>
    ensures { Walks (stored at aim ty)
        (setting_of setting.now) (D.state decls.old) state.old result (D.state decls.new) state.new
        (λ symbols. AimIn symbols aim × TypeIn symbols ty) TypeIn }
{
    store(alloc, setting, decls, state, at, aim, &ty)?;
    Ok(ty)
}

/// `++` and `--` of a target whose parts were typed: what the operator makes of it and of an int is stored, and is the type of the whole
/// (docs/language.md, Typing expressions, Assignment). The errors are as those of `stored`.
pub(crate) fn increased_target<D: Decls>(
    alloc: Global,
    setting: &Setting<'_>,
    decls: &mut D,
    state: &mut State,
    at: Place,
    target: Target,
    operation: Operation,
) -> Result<HackType, DeclStop>
    ensures { Walks (increased at (operation_seen operation) target) (setting_of setting.now)
        (D.state decls.old) state.old result (D.state decls.new) state.new
        (λ symbols. AimIn symbols target) TypeIn }
{
    let before = read(alloc, setting, decls, state, false, &target)?;
    let ty = operate(
        alloc,
        setting,
        decls,
        state,
        at,
        operation,
        &before,
        &HackType::Int,
    )?;
    drop(before);
    stored(alloc, setting, decls, state, at, target, ty)
}
