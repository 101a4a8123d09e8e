// Variables, and `$this`.
ghost use Rattle.std.specs.Prelude.{◌≡◌, codes, is_some};
ghost use Rattle.hack_decls.specs.Names.{TypeIn};
ghost use Rattle.hack_diag.specs.Messages.{not_allowed, undefined_variable};
ghost use Rattle.hack_rules.specs.Targets.{look_up};
ghost use Rattle.hack_rules.specs.Values.{this_row, variable_branches};
ghost use Rattle.hack_rules.specs.Walks.{refuse};
ghost use Rattle.hack_walk.specs.Checks.{BranchesIn, Steps, Walks, setting_of};
ghost use Rattle.hack_values.specs.inside.Rows.{this_of};

use hack_decls::{DeclStop, Decls};
use hack_diag::{not_allowed, undefined_variable};
use hack_sub::Scope;
use hack_types::{HackType, NameId, NoMemory, Place};
use hack_walk::{Branches, Setting, State, bare_branches};
use std::alloc::Global;

/// The type that a variable has here; where it has none 4005 at this place, and `_` (docs/language.md, Typing expressions). An error
/// says that memory ran out.
pub fn look_up(
    alloc: Global,
    setting: &Setting<'_>,
    state: &mut State,
    at: Place,
    name: NameId,
) -> Result<HackType, NoMemory>
    ensures { Steps (look_up at name) (setting_of setting.now) state.old result state.new
        (λ symbols. Unit {0}) TypeIn }
{
    match state.variable_here(name) {
        Some(ty) => Ok(ty.copy(alloc)?),
        None => refuse_variable(alloc, setting, state, at, name),
    }
}

// 4005: the variable isn't there.
fn refuse_variable(
    alloc: Global,
    setting: &Setting<'_>,
    state: &mut State,
    at: Place,
    name: NameId,
) -> Result<HackType, NoMemory>
    ensures { Steps (refuse at (undefined_variable name)) (setting_of setting.now)
        state.old result state.new (λ symbols. Unit {0}) TypeIn }
{
    let diag = undefined_variable(alloc, setting.names, at, name)?;
    state.report(diag)?;
    Ok(HackType::Any)
}

/// A variable that stands alone as a condition: it isn't null where it holds (docs/language.md, Typing expressions, Refinement).
/// `EdgesFull` says that a lookup's note was refused, and `NoMemory` that memory ran out; what was noted before stays noted.
pub fn variable_branches<D: Decls>(
    alloc: Global,
    setting: &Setting<'_>,
    decls: &mut D,
    state: &mut State,
    at: Place,
    name: NameId,
) -> Result<Branches, DeclStop>
    ensures { Walks (variable_branches at name) (setting_of setting.now)
        (D.state decls.old) state.old result (D.state decls.new) state.new
        (λ symbols. Unit {0}) BranchesIn }
{
    let ty = look_up(alloc, setting, state, at, name)?;
    drop(ty);
    bare_branches(alloc, decls, setting, state, name)
}

/// `$this`: `this` in a method of a class that isn't static, and else 4020 at this place, and `_`
/// (docs/language.md, Typing expressions). An error says that memory ran out.
pub fn this_here(
    alloc: Global,
    setting: &Setting<'_>,
    state: &mut State,
    at: Place,
) -> Result<HackType, NoMemory>
    ensures { Steps (this_row at) (setting_of setting.now) state.old result state.new
        (λ symbols. Unit {0}) TypeIn }
{
    if has_this(setting.scope) {
        return Ok(HackType::This);
    }
    refuse_this(alloc, setting, state, at)
}

// Whether `this` stands for something here.
fn has_this(scope: &Scope) -> bool
    ensures { result ≡ is_some (this_of scope.now) }
{
    !scope.in_static && scope.class.is_some()
}

// 4020: there is no `$this`.
fn refuse_this(
    alloc: Global,
    _setting: &Setting<'_>,
    state: &mut State,
    at: Place,
) -> Result<HackType, NoMemory>
    ensures { Steps (refuse at (not_allowed (codes "$this"))) (setting_of _setting.now)
        state.old result state.new (λ symbols. Unit {0}) TypeIn }
{
    let diag = not_allowed(alloc, at, b"$this")?;
    state.report(diag)?;
    Ok(HackType::Any)
}
