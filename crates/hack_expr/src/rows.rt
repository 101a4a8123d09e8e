// Rows that look nothing up, and conditions that say nothing of variables.
ghost use Rattle.hack_decls.specs.Names.{TypeIn};
ghost use Rattle.hack_parts.specs.ExprIn.{ExprIn};
ghost use Rattle.hack_parts.specs.Parts.{Values, value_of};
ghost use Rattle.hack_rules.specs.Meanings.{plain_branches};
ghost use Rattle.hack_rules.specs.Targets.{look_up};
ghost use Rattle.hack_rules.specs.Values.{literal_type, this_row};
ghost use Rattle.hack_rules.specs.Walks.{pure};
ghost use Rattle.hack_walk.specs.Checks.{BranchesIn, Walks, setting_of};

use hack_decls::{DeclStop, Decls};
use hack_parts::{Reading, both_here};
use hack_tree::{Expr, Literal};
use hack_types::{HackType, NameId, Place};
use hack_values::{literal_type, look_up, this_here};
use hack_walk::{Branches, Setting, State};
use std::alloc::Global;

/// A literal's primitive (docs/language.md, Typing expressions).
pub(crate) fn literal<D: Decls>(
    _setting: &Setting<'_>,
    _decls: &mut D,
    _state: &mut State,
    literal: Literal,
) -> Result<HackType, DeclStop>
    ensures { Walks (pure (literal_type literal)) (setting_of _setting.now)
        (D.state _decls.old) _state.old result (D.state _decls.new) _state.new
        (λ symbols. Unit {0}) TypeIn }
{
    Ok(literal_type(literal))
}

/// A variable's type, else 4005 and `_` (docs/language.md, Typing expressions). `NoMemory` says that memory ran out.
pub(crate) fn variable<D: Decls>(
    alloc: Global,
    setting: &Setting<'_>,
    _decls: &mut D,
    state: &mut State,
    at: Place,
    name: NameId,
) -> Result<HackType, DeclStop>
    ensures { Walks (look_up at name) (setting_of setting.now)
        (D.state _decls.old) state.old result (D.state _decls.new) state.new
        (λ symbols. Unit {0}) TypeIn }
{
    Ok(look_up(alloc, setting, state, at, name)?)
}

/// `this` in a method that isn't static, else 4020 and `_` (docs/language.md, Typing expressions). `NoMemory` says that memory ran out.
pub(crate) fn this<D: Decls>(
    alloc: Global,
    setting: &Setting<'_>,
    _decls: &mut D,
    state: &mut State,
    at: Place,
) -> Result<HackType, DeclStop>
    ensures { Walks (this_row at) (setting_of setting.now)
        (D.state _decls.old) state.old result (D.state _decls.new) state.new
        (λ symbols. Unit {0}) TypeIn }
{
    Ok(this_here(alloc, setting, state, at)?)
}

/// An expression as a condition that says nothing of variables: both branches are what stands behind it (docs/language.md, Typing
/// expressions, Refinement). `EdgesFull` says that a lookup's note was refused, and `NoMemory` that memory ran out; what was noted before
/// stays noted.
pub(crate) fn plain<
    D: Decls,
    F: Fn(Global, &Setting<'_>, &mut D, &mut State, &Expr, Reading) -> Result<HackType, DeclStop>,
>(
    value: &F,
    alloc: Global,
    setting: &Setting<'_>,
    decls: &mut D,
    state: &mut State,
    e: &Expr,
) -> Result<Branches, DeclStop>
    requires { Values D.state e.now (F.pre value.now) (F.post value.now) }
    ensures { Walks (plain_branches (value_of e.now)) (setting_of setting.now)
        (D.state decls.old) state.old result (D.state decls.new) state.new
        (λ symbols. ExprIn setting.now.scope.now symbols e.now) BranchesIn }
{
    let ty = value(alloc, setting, decls, state, e, Reading::Value)?;
    drop(ty);
    let branches = both_here(alloc, state)?;
    Ok(branches)
}
