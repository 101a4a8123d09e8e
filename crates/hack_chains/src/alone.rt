// Operators before their operand.
ghost use Rattle.hack_decls.specs.Names.{TypeIn};
ghost use Rattle.hack_operators.specs.Seen.{sign_seen};
ghost use Rattle.hack_parts.specs.ExprIn.{ExprIn};
ghost use Rattle.hack_parts.specs.Parts.{Conditions, Values};
ghost use Rattle.hack_rules.specs.Chains.{not_branches, not_row, sign_row};
ghost use Rattle.hack_rules.specs.Expressions.{meaning_of};
ghost use Rattle.hack_walk.specs.Checks.{BranchesIn, Walks, setting_of};

use hack_decls::{DeclStop, Decls};
use hack_operators::{Sign, operate_alone};
use hack_parts::Reading;
use hack_tree::Expr;
use hack_types::{HackType, Place};
use hack_walk::{Branches, Setting, State};
use std::alloc::Global;

/// `!e`: bool, of whatever operand (docs/language.md, Typing expressions). `EdgesFull` says that a lookup's note was refused, and
/// `NoMemory` that memory ran out; what was noted before stays noted.
pub fn not<
    D: Decls,
    F: Fn(Global, &Setting<'_>, &mut D, &mut State, &Expr, Reading) -> Result<HackType, DeclStop>,
>(
    value: &F,
    alloc: Global,
    setting: &Setting<'_>,
    decls: &mut D,
    state: &mut State,
    operand: &Expr,
) -> Result<HackType, DeclStop>
    requires operand { Values D.state operand.now (F.pre value.now) (F.post value.now) }
    ensures { Walks (not_row (meaning_of operand.now)) (setting_of setting.now)
        (D.state decls.old) state.old result (D.state decls.new) state.new
        (λ symbols. ExprIn setting.now.scope.now symbols operand.now) TypeIn }
{
    drop(value(alloc, setting, decls, state, operand, Reading::Value)?);
    Ok(HackType::Bool)
}

/// `!e` as a condition: it holds where its operand doesn't (docs/language.md, Typing expressions, Refinement). The errors are as
/// those of `not`.
pub fn not_branches<
    D: Decls,
    G: Fn(Global, &Setting<'_>, &mut D, &mut State, &Expr) -> Result<Branches, DeclStop>,
>(
    condition: &G,
    alloc: Global,
    setting: &Setting<'_>,
    decls: &mut D,
    state: &mut State,
    operand: &Expr,
) -> Result<Branches, DeclStop>
    requires operand { Conditions D.state operand.now (G.pre condition.now) (G.post condition.now) }
    ensures { Walks (not_branches (meaning_of operand.now)) (setting_of setting.now)
        (D.state decls.old) state.old result (D.state decls.new) state.new
        (λ symbols. ExprIn setting.now.scope.now symbols operand.now) BranchesIn }
{
    let branches = condition(alloc, setting, decls, state, operand)?;
    Ok(branches.swapped())
}

/// `-e`, `+e` and `~e`: what the sign gives for the operand's class, else 4012 at this place, and `_` (docs/language.md, Typing
/// expressions, Operators). The errors are as those of `not`.
pub fn signed<
    D: Decls,
    F: Fn(Global, &Setting<'_>, &mut D, &mut State, &Expr, Reading) -> Result<HackType, DeclStop>,
>(
    value: &F,
    alloc: Global,
    setting: &Setting<'_>,
    decls: &mut D,
    state: &mut State,
    at: Place,
    sign: Sign,
    operand: &Expr,
) -> Result<HackType, DeclStop>
    requires operand { Values D.state operand.now (F.pre value.now) (F.post value.now) }
    ensures { Walks (sign_row at (sign_seen sign) (meaning_of operand.now)) (setting_of setting.now)
        (D.state decls.old) state.old result (D.state decls.new) state.new
        (λ symbols. ExprIn setting.now.scope.now symbols operand.now) TypeIn }
{
    let ty = value(alloc, setting, decls, state, operand, Reading::Value)?;
    operate_alone(alloc, setting, decls, state, at, sign, &ty)
}
