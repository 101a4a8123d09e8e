// Operators that group from the left.
ghost use Rattle.std.specs.Prelude.{◌≡◌, All, map};
ghost use Rattle.hack_parts.specs.ExprIn.{ExprIn, OperandIn};
ghost use Rattle.hack_parts.specs.Forms.{joined_of};
ghost use Rattle.hack_parts.specs.Parts.{Conditions, Values};
ghost use Rattle.hack_rules.specs.Chains.{from_left};
ghost use Rattle.hack_rules.specs.Expressions.{meaning_of};
ghost use Rattle.hack_walk.specs.Checks.{Walks, setting_of};
ghost use Rattle.hack_chains.specs.inside.Chaining.{SoFarIn, asked_at, compared_at, reached};

use crate::so_far::{SoFar, Wanted, asked};
use crate::steps::{compared, first_in, step};
use hack_decls::{DeclStop, Decls};
use hack_parts::{Reading, place_of};
use hack_tree::{Expr, Operand};
use hack_types::{HackType, NameId};
use hack_walk::{Branches, Setting, State};
use std::alloc::Global;

/// A chain that is grouped from the left, in this form (docs/language.md, Typing expressions, Operators). What is known so far is kept
/// in the form in which the next operator asks for it. `EdgesFull` says that a lookup's note was refused, and `NoMemory` that memory
/// ran out; what was noted before stays noted.
pub fn from_left<
    D: Decls,
    F: Fn(Global, &Setting<'_>, &mut D, &mut State, &Expr, Reading) -> Result<HackType, DeclStop>,
    G: Fn(Global, &Setting<'_>, &mut D, &mut State, &Expr) -> Result<Branches, DeclStop>,
>(
    value: &F,
    condition: &G,
    alloc: Global,
    setting: &Setting<'_>,
    decls: &mut D,
    state: &mut State,
    first: &Expr,
    others: &[Operand],
    last: Wanted,
) -> Result<SoFar, DeclStop>
    requires value { Values D.state first.now (F.pre value.now) (F.post value.now) }
    requires condition { Conditions D.state first.now (G.pre condition.now) (G.post condition.now) }
    requires values { All (λ o. Values D.state o.operand (F.pre value.now) (F.post value.now))
        others.now }
    requires conditions { All (λ o. Conditions D.state o.operand
        (G.pre condition.now) (G.post condition.now)) others.now }
    ensures { Walks (reached last (from_left (meaning_of first.now) (map joined_of others.now)))
        (setting_of setting.now) (D.state decls.old) state.old result (D.state decls.new) state.new
        (λ symbols. ExprIn setting.now.scope.now symbols first.now
        × All (OperandIn setting.now.scope.now symbols) others.now) SoFarIn }
{
    let at = place_of(first);
    let wanted = asked_at(others, 0, last);
    let mut so_far = first_in(
        value, condition, alloc, setting, decls, state, wanted, first,
    )?;
    for i in 0..others.len() {
        let next = &others[i];
        let wanted = asked_at(others, i + 1, last);
        let subject = compared_at(i, first, &next.operand);
        so_far = step(
            value,
            condition,
            alloc,
            setting,
            decls,
            state,
            wanted,
            at,
            subject,
            next.operator,
            so_far,
            &next.operand,
        )?;
    }
    Ok(so_far)
}

/// The variable that is compared with `null` by the operator at this index: a longer left side is neither.
pub fn compared_at(i: usize, first: &Expr, right: &Expr) -> Option<NameId>
    ensures { result ≡ compared_at i (meaning_of first.now) (meaning_of right.now) }
{
    if i > 0 {
        return None;
    }
    compared(first, right)
}

// The form in which this operator asks for what stands left of it, and behind the last the one that is wanted.
fn asked_at(others: &[Operand], i: usize, last: Wanted) -> Wanted
    ensures { result ≡ asked_at others.now i last }
{
    if i < others.len() {
        return asked(others[i].operator);
    }
    last
}
