// One more operator of a chain.
ghost use Rattle.std.specs.Prelude.{◌≡◌};
ghost use Rattle.hack_decls.specs.Names.{TypeIn};
ghost use Rattle.hack_parts.specs.ExprIn.{ExprIn};
ghost use Rattle.hack_parts.specs.Parts.{Conditions, Values};
ghost use Rattle.hack_rules.specs.Chains.{compared};
ghost use Rattle.hack_rules.specs.Expressions.{meaning_of};
ghost use Rattle.hack_walk.specs.Checks.{BranchesIn, Walks, setting_of};
ghost use Rattle.hack_chains.specs.inside.Chaining.{SoFarIn, as_condition, as_value, branches_so_far, reached, step_branches, step_on, step_value, value_so_far};

use crate::logic::{is_and, logic_branches, logic_value};
use crate::so_far::{SoFar, Wanted};
use crate::values::{branches_on, value_on};
use hack_decls::{DeclStop, Decls};
use hack_parts::{Reading, form_of};
use hack_tree::{BinaryOperator, Expr};
use hack_types::{HackType, NameId, Place};
use hack_walk::{Branches, Setting, State};
use std::alloc::Global;

/// The first operand in this form. `EdgesFull` says that a lookup's note was refused, and `NoMemory` that memory ran out; what was
/// noted before stays noted.
pub fn first_in<
    D: Decls,
    F: Fn(Global, &Setting<'_>, &mut D, &mut State, &Expr, Reading) -> Result<HackType, DeclStop>,
    G: Fn(Global, &Setting<'_>, &mut D, &mut State, &Expr) -> Result<Branches, DeclStop>,
>(
    value: &F,
    condition: &G,
    alloc: Global,
    setting: &Setting<'_>,
    decls: &mut D,
    state: &mut State,
    wanted: Wanted,
    first: &Expr,
) -> Result<SoFar, DeclStop>
    requires value { Values D.state first.now (F.pre value.now) (F.post value.now) }
    requires condition { Conditions D.state first.now (G.pre condition.now) (G.post condition.now) }
    ensures { Walks (reached wanted (meaning_of first.now)) (setting_of setting.now)
        (D.state decls.old) state.old result (D.state decls.new) state.new
        (λ symbols. ExprIn setting.now.scope.now symbols first.now) SoFarIn }
{
    match wanted {
        Wanted::Value => read(value, alloc, setting, decls, state, first, Reading::Value),
        Wanted::Left => read(value, alloc, setting, decls, state, first, Reading::Left),
        Wanted::Branches => test(condition, alloc, setting, decls, state, first),
    }
}

/// What an operator makes of what stands left of it and of its right side. The errors are as those of `first_in`.
pub fn step_value<
    D: Decls,
    F: Fn(Global, &Setting<'_>, &mut D, &mut State, &Expr, Reading) -> Result<HackType, DeclStop>,
>(
    value: &F,
    alloc: Global,
    setting: &Setting<'_>,
    decls: &mut D,
    state: &mut State,
    at: Place,
    operator: BinaryOperator,
    so_far: SoFar,
    right: &Expr,
) -> Result<HackType, DeclStop>
    requires right { Values D.state right.now (F.pre value.now) (F.post value.now) }
    ensures { Walks (step_value at operator (meaning_of right.now) so_far) (setting_of setting.now)
        (D.state decls.old) state.old result (D.state decls.new) state.new
        (λ symbols. SoFarIn symbols so_far
        × ExprIn setting.now.scope.now symbols right.now) TypeIn }
{
    match so_far {
        SoFar::Value(first) => value_on(
            value, alloc, setting, decls, state, at, operator, &first, right,
        ),
        SoFar::Branches(first) => logic_value(
            value,
            alloc,
            setting,
            decls,
            state,
            is_and(operator),
            first,
            right,
        ),
    }
}

/// The same as a condition. The errors are as those of `first_in`.
pub fn step_branches<
    D: Decls,
    F: Fn(Global, &Setting<'_>, &mut D, &mut State, &Expr, Reading) -> Result<HackType, DeclStop>,
    G: Fn(Global, &Setting<'_>, &mut D, &mut State, &Expr) -> Result<Branches, DeclStop>,
>(
    value: &F,
    condition: &G,
    alloc: Global,
    setting: &Setting<'_>,
    decls: &mut D,
    state: &mut State,
    at: Place,
    subject: Option<NameId>,
    operator: BinaryOperator,
    so_far: SoFar,
    right: &Expr,
) -> Result<Branches, DeclStop>
    requires value { Values D.state right.now (F.pre value.now) (F.post value.now) }
    requires condition { Conditions D.state right.now (G.pre condition.now) (G.post condition.now) }
    ensures { Walks (step_branches at subject operator (meaning_of right.now) so_far)
        (setting_of setting.now) (D.state decls.old) state.old result (D.state decls.new) state.new
        (λ symbols. SoFarIn symbols so_far
        × ExprIn setting.now.scope.now symbols right.now) BranchesIn }
{
    match so_far {
        SoFar::Value(first) => branches_on(
            value, alloc, setting, decls, state, at, subject, operator, &first, right,
        ),
        SoFar::Branches(first) => logic_branches(
            condition,
            alloc,
            setting,
            decls,
            state,
            is_and(operator),
            first,
            right,
        ),
    }
}

/// The same in the form in which the next operator asks for it. The errors are as those of `first_in`.
pub fn step<
    D: Decls,
    F: Fn(Global, &Setting<'_>, &mut D, &mut State, &Expr, Reading) -> Result<HackType, DeclStop>,
    G: Fn(Global, &Setting<'_>, &mut D, &mut State, &Expr) -> Result<Branches, DeclStop>,
>(
    value: &F,
    condition: &G,
    alloc: Global,
    setting: &Setting<'_>,
    decls: &mut D,
    state: &mut State,
    wanted: Wanted,
    at: Place,
    subject: Option<NameId>,
    operator: BinaryOperator,
    so_far: SoFar,
    right: &Expr,
) -> Result<SoFar, DeclStop>
    requires value { Values D.state right.now (F.pre value.now) (F.post value.now) }
    requires condition { Conditions D.state right.now (G.pre condition.now) (G.post condition.now) }
    ensures { Walks (step_on wanted at subject operator (meaning_of right.now) so_far)
        (setting_of setting.now) (D.state decls.old) state.old result (D.state decls.new) state.new
        (λ symbols. SoFarIn symbols so_far
        × ExprIn setting.now.scope.now symbols right.now) SoFarIn }
{
    match wanted {
        Wanted::Value => value_so_far(
            value, alloc, setting, decls, state, at, operator, so_far, right,
        ),
        Wanted::Left => value_so_far(
            value, alloc, setting, decls, state, at, operator, so_far, right,
        ),
        Wanted::Branches => branches_so_far(
            value, condition, alloc, setting, decls, state, at, subject, operator, so_far, right,
        ),
    }
}

/// The variable that is compared with `null`, in either order (docs/language.md, Typing expressions, Refinement).
pub fn compared(left: &Expr, right: &Expr) -> Option<NameId>
    ensures { result ≡ compared (meaning_of left.now) (meaning_of right.now) }
{
    let left = form_of(left);
    let right = form_of(right);
    if right.is_null {
        return left.subject;
    }
    if left.is_null {
        return right.subject;
    }
    None
}

// The first operand in this reading.
fn read<
    D: Decls,
    F: Fn(Global, &Setting<'_>, &mut D, &mut State, &Expr, Reading) -> Result<HackType, DeclStop>,
>(
    value: &F,
    alloc: Global,
    setting: &Setting<'_>,
    decls: &mut D,
    state: &mut State,
    first: &Expr,
    reading: Reading,
) -> Result<SoFar, DeclStop>
    requires value { Values D.state first.now (F.pre value.now) (F.post value.now) }
    ensures { Walks (as_value reading (meaning_of first.now))
        (setting_of setting.now)
        (D.state decls.old) state.old result (D.state decls.new) state.new
        (λ symbols. ExprIn setting.now.scope.now symbols first.now) SoFarIn }
{
    let ty = value(alloc, setting, decls, state, first, reading)?;
    Ok(SoFar::Value(ty))
}

// The first operand as a condition.
fn test<
    D: Decls,
    G: Fn(Global, &Setting<'_>, &mut D, &mut State, &Expr) -> Result<Branches, DeclStop>,
>(
    condition: &G,
    alloc: Global,
    setting: &Setting<'_>,
    decls: &mut D,
    state: &mut State,
    first: &Expr,
) -> Result<SoFar, DeclStop>
    requires condition { Conditions D.state first.now (G.pre condition.now) (G.post condition.now) }
    ensures { Walks (as_condition (meaning_of first.now))
        (setting_of setting.now)
        (D.state decls.old) state.old result (D.state decls.new) state.new
        (λ symbols. ExprIn setting.now.scope.now symbols first.now) SoFarIn }
{
    let branches = condition(alloc, setting, decls, state, first)?;
    Ok(SoFar::Branches(branches))
}

// What an operator makes of both sides, as its left side in turn.
fn value_so_far<
    D: Decls,
    F: Fn(Global, &Setting<'_>, &mut D, &mut State, &Expr, Reading) -> Result<HackType, DeclStop>,
>(
    value: &F,
    alloc: Global,
    setting: &Setting<'_>,
    decls: &mut D,
    state: &mut State,
    at: Place,
    operator: BinaryOperator,
    so_far: SoFar,
    right: &Expr,
) -> Result<SoFar, DeclStop>
    requires right { Values D.state right.now (F.pre value.now) (F.post value.now) }
    ensures { Walks (value_so_far at operator (meaning_of right.now) so_far)
        (setting_of setting.now) (D.state decls.old) state.old result (D.state decls.new) state.new
        (λ symbols. SoFarIn symbols so_far
        × ExprIn setting.now.scope.now symbols right.now) SoFarIn }
{
    let ty = step_value(
        value, alloc, setting, decls, state, at, operator, so_far, right,
    )?;
    Ok(SoFar::Value(ty))
}

// The same as a condition.
fn branches_so_far<
    D: Decls,
    F: Fn(Global, &Setting<'_>, &mut D, &mut State, &Expr, Reading) -> Result<HackType, DeclStop>,
    G: Fn(Global, &Setting<'_>, &mut D, &mut State, &Expr) -> Result<Branches, DeclStop>,
>(
    value: &F,
    condition: &G,
    alloc: Global,
    setting: &Setting<'_>,
    decls: &mut D,
    state: &mut State,
    at: Place,
    subject: Option<NameId>,
    operator: BinaryOperator,
    so_far: SoFar,
    right: &Expr,
) -> Result<SoFar, DeclStop>
    requires value { Values D.state right.now (F.pre value.now) (F.post value.now) }
    requires condition { Conditions D.state right.now (G.pre condition.now) (G.post condition.now) }
    ensures { Walks (branches_so_far at subject operator (meaning_of right.now) so_far)
        (setting_of setting.now) (D.state decls.old) state.old result (D.state decls.new) state.new
        (λ symbols. SoFarIn symbols so_far
        × ExprIn setting.now.scope.now symbols right.now) SoFarIn }
{
    let branches = step_branches(
        value, condition, alloc, setting, decls, state, at, subject, operator, so_far, right,
    )?;
    Ok(SoFar::Branches(branches))
}
