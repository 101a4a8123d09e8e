// What is stored to a target.
ghost use Rattle.hack_decls.specs.Asks.{Nothing};
ghost use Rattle.hack_decls.specs.Names.{TypeIn};
ghost use Rattle.hack_rules.specs.Indices.{with_element};
ghost use Rattle.hack_rules.specs.Targets.{store};
ghost use Rattle.hack_rules.specs.Walks.{assign};
ghost use Rattle.hack_walk.specs.Checks.{Steps, Walks, setting_of};
ghost use Rattle.hack_targets.specs.AimIn.{AimIn};
ghost use Rattle.hack_targets.specs.inside.Aims.{aim_of, root_aim};
ghost use Rattle.hack_targets.specs.inside.Pieces.{StepIn};

use crate::reports::report_assigned;
use crate::steps::{Root, Step};
use crate::{Target, with_element};
use hack_calls::expect;
use hack_decls::{DeclStop, Decls};
use hack_types::{HackType, NameId, NoMemory, Place};
use hack_walk::{Setting, State};
use std::alloc::Global;

/// A target gets a type, from its last element inwards: what an element makes of its base is stored to what the base is of; a variable has
/// its type from here on, a property expects it, and anything else is 4016; the place is that of what is assigned (docs/language.md,
/// Typing expressions, Assignment). `EdgesFull` says that a lookup's note was refused, and `NoMemory` that memory ran out; what was noted
/// before stays noted.
pub fn store<D: Decls>(
    alloc: Global,
    setting: &Setting<'_>,
    decls: &mut D,
    state: &mut State,
    value_at: Place,
    target: Target,
    new: &HackType,
) -> Result<(), DeclStop>
    ensures { Walks (store value_at target new.now) (setting_of setting.now)
        (D.state decls.old) state.old result (D.state decls.new) state.new
        (λ symbols. AimIn symbols target × TypeIn symbols new.now) Nothing }
{
    let (root, steps) = target.into_parts();
    if steps.is_empty() {
        return store_root(alloc, setting, decls, state, value_at, &root, new);
    }
    let new = new.copy(alloc)?;
    store_steps(alloc, setting, decls, state, value_at, &root, steps, new)
}

// What stands innermost gets what the steps make of the type, from the last one to the first.
fn store_steps<D: Decls>(
    alloc: Global,
    setting: &Setting<'_>,
    decls: &mut D,
    state: &mut State,
    value_at: Place,
    root: &Root,
    steps: Vec<Step>,
    new: HackType,
) -> Result<(), DeclStop>
    ensures { Walks (store value_at (aim_of root.now steps.items) new) (setting_of setting.now)
        (D.state decls.old) state.old result (D.state decls.new) state.new
        (λ symbols. AimIn symbols (aim_of root.now steps.items) × TypeIn symbols new) Nothing }
{
    let mut left = steps;
    let mut made = new;
    while let Some(step) = left.pop() {
        made = store_step(alloc, setting, decls, state, value_at, step, made)?;
    }
    store_made(alloc, setting, decls, state, value_at, root, made)
}

// What the base of a step becomes.
fn store_step<D: Decls>(
    alloc: Global,
    setting: &Setting<'_>,
    decls: &mut D,
    state: &mut State,
    value_at: Place,
    step: Step,
    new: HackType,
) -> Result<HackType, DeclStop>
    ensures { Walks (with_element step.at value_at step.ty step.index new)
        (setting_of setting.now)
        (D.state decls.old) state.old result (D.state decls.new) state.new
        (λ symbols. StepIn symbols step × TypeIn symbols new) TypeIn }
{
    let Step { at, ty, index } = step;
    with_element(alloc, setting, decls, state, at, value_at, ty, index, new)
}

// What stands innermost gets a type that is taken over.
fn store_made<D: Decls>(
    alloc: Global,
    setting: &Setting<'_>,
    decls: &mut D,
    state: &mut State,
    value_at: Place,
    root: &Root,
    made: HackType,
) -> Result<(), DeclStop>
    ensures { Walks (store value_at (root_aim root.now) made) (setting_of setting.now)
        (D.state decls.old) state.old result (D.state decls.new) state.new
        (λ symbols. AimIn symbols (root_aim root.now) × TypeIn symbols made) Nothing }
{
    match root {
        Root::Variable(_, name) => Ok(assign(setting, state, *name, made)?),
        Root::Property(_) | Root::Other(_, _) => {
            store_lent(alloc, setting, decls, state, value_at, root, made)
        }
    }
}

// What stands innermost gets a type that is let go.
fn store_lent<D: Decls>(
    alloc: Global,
    setting: &Setting<'_>,
    decls: &mut D,
    state: &mut State,
    value_at: Place,
    root: &Root,
    made: HackType,
) -> Result<(), DeclStop>
    ensures { Walks (store value_at (root_aim root.now) made) (setting_of setting.now)
        (D.state decls.old) state.old result (D.state decls.new) state.new
        (λ symbols. AimIn symbols (root_aim root.now) × TypeIn symbols made) Nothing }
{
    let stored = store_root(alloc, setting, decls, state, value_at, root, &made);
    drop(made);
    stored
}

// What stands innermost gets a type.
fn store_root<D: Decls>(
    alloc: Global,
    setting: &Setting<'_>,
    decls: &mut D,
    state: &mut State,
    value_at: Place,
    root: &Root,
    new: &HackType,
) -> Result<(), DeclStop>
    ensures { Walks (store value_at (root_aim root.now) new.now) (setting_of setting.now)
        (D.state decls.old) state.old result (D.state decls.new) state.new
        (λ symbols. AimIn symbols (root_aim root.now) × TypeIn symbols new.now) Nothing }
{
    match root {
        Root::Variable(_, name) => Ok(assign(setting, state, *name, new.copy(alloc)?)?),
        Root::Property(ty) => expect(alloc, setting, decls, state, value_at, ty, new),
        Root::Other(at, _) => Ok(report_assigned(alloc, setting, state, *at)?),
    }
}

// A variable has this type from here on.
fn assign(
    _setting: &Setting<'_>,
    state: &mut State,
    name: NameId,
    ty: HackType,
) -> Result<(), NoMemory>
    ensures { Steps (assign name ty) (setting_of _setting.now) state.old result state.new
        (λ symbols. TypeIn symbols ty) Nothing }
{
    state.assign(name, ty)?;
    Ok(())
}
