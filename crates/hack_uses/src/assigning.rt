// Assignments.
ghost use Rattle.std.specs.Prelude.{◌≡◌, false, true};
ghost use Rattle.hack_decls.specs.Names.{TypeIn};
ghost use Rattle.hack_operators.specs.Seen.{operation_seen};
ghost use Rattle.hack_parts.specs.ExprIn.{ExprIn};
ghost use Rattle.hack_parts.specs.Parts.{Values};
ghost use Rattle.hack_rules.specs.Expressions.{meaning_of};
ghost use Rattle.hack_rules.specs.Operators.{operate};
ghost use Rattle.hack_rules.specs.Targets.{assign_row, assign_with, assigned_by, coalesced, increment_row};
ghost use Rattle.hack_uses.specs.Aims.{Targets};
ghost use Rattle.hack_uses.specs.inside.Steps.{is_coalesce};
ghost use Rattle.hack_walk.specs.Checks.{Walks, setting_of};

use crate::storing::{increased_target, stored};
use hack_decls::{DeclStop, Decls};
use hack_operators::{Operation, assigning, operate};
use hack_parts::{Reading, place_of};
use hack_targets::{Target, read};
use hack_tree::{AssignOperator, Expr};
use hack_types::{HackType, Place};
use hack_walk::{Setting, State, coalesced};
use std::alloc::Global;

/// An assignment: the parts of the target, which are typed once, the value, and then the target gets its new type, which is that of the
/// whole; the place is that of the target (docs/language.md, Typing expressions, Assignment). `EdgesFull` says that a lookup's note was
/// refused, and `NoMemory` that memory ran out; what was noted before stays noted.
pub fn assigned<
    D: Decls,
    F: Fn(Global, &Setting<'_>, &mut D, &mut State, &Expr, Reading) -> Result<HackType, DeclStop>,
    T: Fn(Global, &Setting<'_>, &mut D, &mut State, &Expr, Reading) -> Result<Target, DeclStop>,
>(
    value: &F,
    target: &T,
    alloc: Global,
    setting: &Setting<'_>,
    decls: &mut D,
    state: &mut State,
    at: Place,
    operator: AssignOperator,
    to: &Expr,
    e: &Expr,
) -> Result<HackType, DeclStop>
    requires target { Targets D.state to.now (T.pre target.now) (T.post target.now) }
    requires value { Values D.state e.now (F.pre value.now) (F.post value.now) }
    ensures { Walks (assigned_by at operator (meaning_of to.now) (meaning_of e.now))
        (setting_of setting.now) (D.state decls.old) state.old result (D.state decls.new) state.new
        (λ symbols. ExprIn setting.now.scope.now symbols to.now
        × ExprIn setting.now.scope.now symbols e.now) TypeIn }
{
    match assigning(operator) {
        Some(operation) => operated(
            value, target, alloc, setting, decls, state, at, operation, to, e,
        ),
        None => {
            if is_coalesce(operator) {
                coalesce(value, target, alloc, setting, decls, state, at, to, e)
            } else {
                assign(value, target, alloc, setting, decls, state, to, e)
            }
        }
    }
}

// Whether it is `??=`.
fn is_coalesce(operator: AssignOperator) -> bool
    ensures { result ≡ is_coalesce operator }
{
    matches!(operator, AssignOperator::Coalesce)
}

// `target = value`
fn assign<
    D: Decls,
    F: Fn(Global, &Setting<'_>, &mut D, &mut State, &Expr, Reading) -> Result<HackType, DeclStop>,
    T: Fn(Global, &Setting<'_>, &mut D, &mut State, &Expr, Reading) -> Result<Target, DeclStop>,
>(
    value: &F,
    target: &T,
    alloc: Global,
    setting: &Setting<'_>,
    decls: &mut D,
    state: &mut State,
    to: &Expr,
    e: &Expr,
) -> Result<HackType, DeclStop>
    requires target { Targets D.state to.now (T.pre target.now) (T.post target.now) }
    requires value { Values D.state e.now (F.pre value.now) (F.post value.now) }
    ensures { Walks (assign_row (meaning_of to.now) (meaning_of e.now))
        (setting_of setting.now) (D.state decls.old) state.old result (D.state decls.new) state.new
        (λ symbols. ExprIn setting.now.scope.now symbols to.now
        × ExprIn setting.now.scope.now symbols e.now) TypeIn }
{
    let aim = target(alloc, setting, decls, state, to, Reading::Value)?;
    let ty = value(alloc, setting, decls, state, e, Reading::Value)?;
    stored(alloc, setting, decls, state, place_of(e), aim, ty)
}

// `target op= value`
fn operated<
    D: Decls,
    F: Fn(Global, &Setting<'_>, &mut D, &mut State, &Expr, Reading) -> Result<HackType, DeclStop>,
    T: Fn(Global, &Setting<'_>, &mut D, &mut State, &Expr, Reading) -> Result<Target, DeclStop>,
>(
    value: &F,
    target: &T,
    alloc: Global,
    setting: &Setting<'_>,
    decls: &mut D,
    state: &mut State,
    at: Place,
    operation: Operation,
    to: &Expr,
    e: &Expr,
) -> Result<HackType, DeclStop>
    requires target { Targets D.state to.now (T.pre target.now) (T.post target.now) }
    requires value { Values D.state e.now (F.pre value.now) (F.post value.now) }
    ensures { Walks (assign_with at false (meaning_of to.now).aim (meaning_of e.now).walk
        (operate at (operation_seen operation)))
        (setting_of setting.now) (D.state decls.old) state.old result (D.state decls.new) state.new
        (λ symbols. ExprIn setting.now.scope.now symbols to.now
        × ExprIn setting.now.scope.now symbols e.now) TypeIn }
{
    let aim = target(alloc, setting, decls, state, to, Reading::Value)?;
    let before = read(alloc, setting, decls, state, false, &aim)?;
    let other = value(alloc, setting, decls, state, e, Reading::Value)?;
    let ty = operate(alloc, setting, decls, state, at, operation, &before, &other)?;
    stored(alloc, setting, decls, state, at, aim, ty)
}

// `target ??= value`
fn coalesce<
    D: Decls,
    F: Fn(Global, &Setting<'_>, &mut D, &mut State, &Expr, Reading) -> Result<HackType, DeclStop>,
    T: Fn(Global, &Setting<'_>, &mut D, &mut State, &Expr, Reading) -> Result<Target, DeclStop>,
>(
    value: &F,
    target: &T,
    alloc: Global,
    setting: &Setting<'_>,
    decls: &mut D,
    state: &mut State,
    at: Place,
    to: &Expr,
    e: &Expr,
) -> Result<HackType, DeclStop>
    requires target { Targets D.state to.now (T.pre target.now) (T.post target.now) }
    requires value { Values D.state e.now (F.pre value.now) (F.post value.now) }
    ensures { Walks (assign_with at true (meaning_of to.now).left_aim (meaning_of e.now).walk
        coalesced)
        (setting_of setting.now) (D.state decls.old) state.old result (D.state decls.new) state.new
        (λ symbols. ExprIn setting.now.scope.now symbols to.now
        × ExprIn setting.now.scope.now symbols e.now) TypeIn }
{
    let aim = target(alloc, setting, decls, state, to, Reading::Left)?;
    let before = read(alloc, setting, decls, state, true, &aim)?;
    let other = value(alloc, setting, decls, state, e, Reading::Value)?;
    let ty = coalesced(alloc, decls, &before, other)?;
    stored(alloc, setting, decls, state, at, aim, ty)
}

/// `++` and `--` of an expression: it is a target, and the whole has the type of what is stored (docs/language.md, Typing expressions,
/// Assignment). The errors are as those of `assigned`.
pub fn increased<
    D: Decls,
    T: Fn(Global, &Setting<'_>, &mut D, &mut State, &Expr, Reading) -> Result<Target, DeclStop>,
>(
    target: &T,
    alloc: Global,
    setting: &Setting<'_>,
    decls: &mut D,
    state: &mut State,
    at: Place,
    operation: Operation,
    to: &Expr,
) -> Result<HackType, DeclStop>
    requires { Targets D.state to.now (T.pre target.now) (T.post target.now) }
    ensures { Walks (increment_row at (operation_seen operation) (meaning_of to.now))
        (setting_of setting.now) (D.state decls.old) state.old result (D.state decls.new) state.new
        (λ symbols. ExprIn setting.now.scope.now symbols to.now) TypeIn }
{
    let aim = target(alloc, setting, decls, state, to, Reading::Value)?;
    increased_target(alloc, setting, decls, state, at, aim, operation)
}
