// What a target is as a value.
ghost use Rattle.std.specs.Prelude.{false};
ghost use Rattle.hack_decls.specs.Names.{TypeIn};
ghost use Rattle.hack_rules.specs.Indices.{element};
ghost use Rattle.hack_rules.specs.Targets.{read};
ghost use Rattle.hack_walk.specs.Checks.{Steps, Walks, setting_of};
ghost use Rattle.hack_targets.specs.AimIn.{AimIn};
ghost use Rattle.hack_targets.specs.inside.Aims.{root_aim};
ghost use Rattle.hack_targets.specs.inside.Pieces.{StepIn};

use crate::steps::{Root, Step};
use crate::{Target, element};
use hack_decls::{DeclStop, Decls};
use hack_types::{HackType, NoMemory};
use hack_values::look_up;
use hack_walk::{Setting, State};
use std::alloc::Global;

/// A target as a value, and whether it stands in the left of `??` (docs/language.md, Typing expressions, Assignment). `EdgesFull` says that
/// a lookup's note was refused, and `NoMemory` that memory ran out; what was noted before stays noted.
pub fn read<D: Decls>(
    alloc: Global,
    setting: &Setting<'_>,
    decls: &mut D,
    state: &mut State,
    left: bool,
    target: &Target,
) -> Result<HackType, DeclStop>
    ensures { Walks (read left target.now) (setting_of setting.now)
        (D.state decls.old) state.old result (D.state decls.new) state.new
        (λ symbols. AimIn symbols target.now) TypeIn }
{
    let (root, steps) = target.parts();
    match steps.last() {
        Some(step) => element(
            alloc,
            setting,
            decls,
            state,
            step.at,
            left,
            &step.ty,
            &step.index,
        ),
        None => Ok(read_root(alloc, setting, state, root)?),
    }
}

// The same of what stands innermost.
fn read_root(
    alloc: Global,
    setting: &Setting<'_>,
    state: &mut State,
    root: &Root,
) -> Result<HackType, NoMemory>
    ensures { Steps (read false (root_aim root.now)) (setting_of setting.now)
        state.old result state.new (λ symbols. AimIn symbols (root_aim root.now)) TypeIn }
{
    match root {
        Root::Variable(at, name) => look_up(alloc, setting, state, *at, *name),
        Root::Property(ty) => Ok(ty.copy(alloc)?),
        Root::Other(_, ty) => Ok(ty.copy(alloc)?),
    }
}

/// A target as a value, as `read` says, where nothing is stored to it: a type that stands in it is handed out. The errors are as those of
/// `read`.
pub fn into_value<D: Decls>(
    alloc: Global,
    setting: &Setting<'_>,
    decls: &mut D,
    state: &mut State,
    left: bool,
    target: Target,
) -> Result<HackType, DeclStop>
    ensures { Walks (read left target) (setting_of setting.now)
        (D.state decls.old) state.old result (D.state decls.new) state.new
        (λ symbols. AimIn symbols target) TypeIn }
{
    let (root, mut steps) = target.into_parts();
    match steps.pop() {
        Some(step) => element_of(alloc, setting, decls, state, left, step),
        None => Ok(root_value(alloc, setting, state, root)?),
    }
}

// An element of what stands before it.
fn element_of<D: Decls>(
    alloc: Global,
    setting: &Setting<'_>,
    decls: &mut D,
    state: &mut State,
    left: bool,
    step: Step,
) -> Result<HackType, DeclStop>
    ensures { Walks (element step.at left step.ty step.index) (setting_of setting.now)
        (D.state decls.old) state.old result (D.state decls.new) state.new
        (λ symbols. StepIn symbols step) TypeIn }
{
    let found = element(
        alloc,
        setting,
        decls,
        state,
        step.at,
        left,
        &step.ty,
        &step.index,
    );
    drop(step);
    found
}

// What stands innermost as a value.
fn root_value(
    alloc: Global,
    setting: &Setting<'_>,
    state: &mut State,
    root: Root,
) -> Result<HackType, NoMemory>
    ensures { Steps (read false (root_aim root)) (setting_of setting.now)
        state.old result state.new (λ symbols. AimIn symbols (root_aim root)) TypeIn }
{
    match root {
        Root::Variable(at, name) => look_up(alloc, setting, state, at, name),
        Root::Property(ty) => Ok(ty),
        Root::Other(_, ty) => Ok(ty),
    }
}
