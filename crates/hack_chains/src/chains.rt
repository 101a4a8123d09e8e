// Operands with operators of one level between them.
ghost use Rattle.std.specs.Prelude.{◌≡◌, ◌++◌, ◌∷◌, [], All, map};
ghost use Rattle.hack_decls.specs.Names.{TypeIn};
ghost use Rattle.hack_parts.specs.ExprIn.{ExprIn, OperandIn};
ghost use Rattle.hack_parts.specs.Forms.{joined_of};
ghost use Rattle.hack_parts.specs.Parts.{Conditions, Values, walk_by};
ghost use Rattle.hack_rules.specs.Chains.{chain_value, from_left, from_right, is_coalesce};
ghost use Rattle.hack_rules.specs.Expressions.{meaning_of};
ghost use Rattle.hack_walk.specs.Checks.{BranchesIn, Walks, setting_of};
ghost use Rattle.hack_chains.specs.inside.Chaining.{ChainIn, first_operator};

use crate::ends::split_last;
use crate::from_left::{compared_at, from_left};
use crate::from_right::rest_from_right;
use crate::so_far::asked;
use crate::steps::{step_branches, step_value};
use hack_decls::{DeclStop, Decls};
use hack_parts::{Reading, both_here, place_of};
use hack_tree::{BinaryOperator, Expr, Operand};
use hack_types::HackType;
use hack_walk::{Branches, Setting, State, coalesced};
use std::alloc::Global;

/// Operands with operators between them, `??` grouped from the right and all others from the left (docs/language.md, Typing
/// expressions, Operators). `EdgesFull` says that a lookup's note was refused, and `NoMemory` that memory ran out; what was noted before
/// stays noted.
pub fn chain<
    D: Decls,
    F: Fn(Global, &Setting<'_>, &mut D, &mut State, &Expr, Reading) -> Result<HackType, DeclStop>,
    G: Fn(Global, &Setting<'_>, &mut D, &mut State, &Expr) -> Result<Branches, DeclStop>,
>(
    value: &F,
    condition: &G,
    alloc: Global,
    setting: &Setting<'_>,
    decls: &mut D,
    state: &mut State,
    first: &Expr,
    others: &[Operand],
    reading: Reading,
) -> Result<HackType, DeclStop>
    requires value { Values D.state first.now (F.pre value.now) (F.post value.now) }
    requires condition { Conditions D.state first.now (G.pre condition.now) (G.post condition.now) }
    requires values { All (λ o. Values D.state o.operand (F.pre value.now) (F.post value.now))
        others.now }
    requires conditions { All (λ o. Conditions D.state o.operand
        (G.pre condition.now) (G.post condition.now)) others.now }
    ensures { Walks
        (walk_by reading (chain_value (meaning_of first.now) (map joined_of others.now)))
        (setting_of setting.now) (D.state decls.old) state.old result (D.state decls.new) state.new
        (λ symbols. ExprIn setting.now.scope.now symbols first.now
        × All (OperandIn setting.now.scope.now symbols) others.now) TypeIn }
{
    match split_last(others) {
        Some((front, last)) => value_of_chain(
            value, condition, alloc, setting, decls, state, first, front, last,
        ),
        None => value(alloc, setting, decls, state, first, reading),
    }
}

/// The branches of operands with operators between them, as a condition (docs/language.md, Typing expressions, Refinement). The
/// errors are as those of `chain`.
pub fn chain_branches<
    D: Decls,
    F: Fn(Global, &Setting<'_>, &mut D, &mut State, &Expr, Reading) -> Result<HackType, DeclStop>,
    G: Fn(Global, &Setting<'_>, &mut D, &mut State, &Expr) -> Result<Branches, DeclStop>,
>(
    value: &F,
    condition: &G,
    alloc: Global,
    setting: &Setting<'_>,
    decls: &mut D,
    state: &mut State,
    first: &Expr,
    others: &[Operand],
) -> Result<Branches, DeclStop>
    requires value { Values D.state first.now (F.pre value.now) (F.post value.now) }
    requires condition { Conditions D.state first.now (G.pre condition.now) (G.post condition.now) }
    requires values { All (λ o. Values D.state o.operand (F.pre value.now) (F.post value.now))
        others.now }
    requires conditions { All (λ o. Conditions D.state o.operand
        (G.pre condition.now) (G.post condition.now)) others.now }
    ensures { Walks (chain_value (meaning_of first.now) (map joined_of others.now)).branches
        (setting_of setting.now) (D.state decls.old) state.old result (D.state decls.new) state.new
        (λ symbols. ExprIn setting.now.scope.now symbols first.now
        × All (OperandIn setting.now.scope.now symbols) others.now) BranchesIn }
{
    match split_last(others) {
        Some((front, last)) => branches_of_chain(
            value, condition, alloc, setting, decls, state, first, front, last,
        ),
        None => condition(alloc, setting, decls, state, first),
    }
}

// A chain with an operator, grouped from the side that its first operator says.
fn value_of_chain<
    D: Decls,
    F: Fn(Global, &Setting<'_>, &mut D, &mut State, &Expr, Reading) -> Result<HackType, DeclStop>,
    G: Fn(Global, &Setting<'_>, &mut D, &mut State, &Expr) -> Result<Branches, DeclStop>,
>(
    value: &F,
    condition: &G,
    alloc: Global,
    setting: &Setting<'_>,
    decls: &mut D,
    state: &mut State,
    first: &Expr,
    front: &[Operand],
    last: &Operand,
) -> Result<HackType, DeclStop>
    requires value { Values D.state first.now (F.pre value.now) (F.post value.now) }
    requires condition { Conditions D.state first.now (G.pre condition.now) (G.post condition.now) }
    requires values { All (λ o. Values D.state o.operand (F.pre value.now) (F.post value.now))
        front.now }
    requires conditions { All (λ o. Conditions D.state o.operand
        (G.pre condition.now) (G.post condition.now)) front.now }
    requires last_value { Values D.state last.now.operand (F.pre value.now) (F.post value.now) }
    requires last_condition { Conditions D.state last.now.operand
        (G.pre condition.now) (G.post condition.now) }
    ensures { Walks
        (chain_value (meaning_of first.now) (map joined_of (front.now ++ last.now ∷ []))).walk
        (setting_of setting.now) (D.state decls.old) state.old result (D.state decls.new) state.new
        (λ symbols. ChainIn setting.now.scope.now symbols first.now front.now last.now) TypeIn }
{
    if groups_right(front, last) {
        return from_right(value, alloc, setting, decls, state, first, front, last);
    }
    value_from_left(
        value, condition, alloc, setting, decls, state, first, front, last,
    )
}

// The same as a condition.
fn branches_of_chain<
    D: Decls,
    F: Fn(Global, &Setting<'_>, &mut D, &mut State, &Expr, Reading) -> Result<HackType, DeclStop>,
    G: Fn(Global, &Setting<'_>, &mut D, &mut State, &Expr) -> Result<Branches, DeclStop>,
>(
    value: &F,
    condition: &G,
    alloc: Global,
    setting: &Setting<'_>,
    decls: &mut D,
    state: &mut State,
    first: &Expr,
    front: &[Operand],
    last: &Operand,
) -> Result<Branches, DeclStop>
    requires value { Values D.state first.now (F.pre value.now) (F.post value.now) }
    requires condition { Conditions D.state first.now (G.pre condition.now) (G.post condition.now) }
    requires values { All (λ o. Values D.state o.operand (F.pre value.now) (F.post value.now))
        front.now }
    requires conditions { All (λ o. Conditions D.state o.operand
        (G.pre condition.now) (G.post condition.now)) front.now }
    requires last_value { Values D.state last.now.operand (F.pre value.now) (F.post value.now) }
    requires last_condition { Conditions D.state last.now.operand
        (G.pre condition.now) (G.post condition.now) }
    ensures { Walks
        (chain_value (meaning_of first.now) (map joined_of (front.now ++ last.now ∷ []))).branches
        (setting_of setting.now) (D.state decls.old) state.old result (D.state decls.new) state.new
        (λ symbols. ChainIn setting.now.scope.now symbols first.now front.now last.now) BranchesIn }
{
    if groups_right(front, last) {
        return branches_from_right(value, alloc, setting, decls, state, first, front, last);
    }
    branches_from_left(
        value, condition, alloc, setting, decls, state, first, front, last,
    )
}

// Whether the first operator groups from the right.
fn groups_right(front: &[Operand], last: &Operand) -> bool
    ensures { result ≡ is_coalesce (first_operator front.now last.now) }
{
    if front.len() > 0 {
        return is_coalesce(front[0].operator);
    }
    is_coalesce(last.operator)
}

// Whether this is `??`.
fn is_coalesce(operator: BinaryOperator) -> bool
    ensures { result ≡ is_coalesce operator }
{
    matches!(operator, BinaryOperator::Coalesce)
}

// A chain that is grouped from the left.
fn value_from_left<
    D: Decls,
    F: Fn(Global, &Setting<'_>, &mut D, &mut State, &Expr, Reading) -> Result<HackType, DeclStop>,
    G: Fn(Global, &Setting<'_>, &mut D, &mut State, &Expr) -> Result<Branches, DeclStop>,
>(
    value: &F,
    condition: &G,
    alloc: Global,
    setting: &Setting<'_>,
    decls: &mut D,
    state: &mut State,
    first: &Expr,
    front: &[Operand],
    last: &Operand,
) -> Result<HackType, DeclStop>
    requires value { Values D.state first.now (F.pre value.now) (F.post value.now) }
    requires condition { Conditions D.state first.now (G.pre condition.now) (G.post condition.now) }
    requires values { All (λ o. Values D.state o.operand (F.pre value.now) (F.post value.now))
        front.now }
    requires conditions { All (λ o. Conditions D.state o.operand
        (G.pre condition.now) (G.post condition.now)) front.now }
    requires last_value { Values D.state last.now.operand (F.pre value.now) (F.post value.now) }
    requires last_condition { Conditions D.state last.now.operand
        (G.pre condition.now) (G.post condition.now) }
    ensures { Walks
        (from_left (meaning_of first.now) (map joined_of (front.now ++ last.now ∷ []))).walk
        (setting_of setting.now) (D.state decls.old) state.old result (D.state decls.new) state.new
        (λ symbols. ChainIn setting.now.scope.now symbols first.now front.now last.now) TypeIn }
{
    let wanted = asked(last.operator);
    let so_far = from_left(
        value, condition, alloc, setting, decls, state, first, front, wanted,
    )?;
    step_value(
        value,
        alloc,
        setting,
        decls,
        state,
        place_of(first),
        last.operator,
        so_far,
        &last.operand,
    )
}

// The same as a condition.
fn branches_from_left<
    D: Decls,
    F: Fn(Global, &Setting<'_>, &mut D, &mut State, &Expr, Reading) -> Result<HackType, DeclStop>,
    G: Fn(Global, &Setting<'_>, &mut D, &mut State, &Expr) -> Result<Branches, DeclStop>,
>(
    value: &F,
    condition: &G,
    alloc: Global,
    setting: &Setting<'_>,
    decls: &mut D,
    state: &mut State,
    first: &Expr,
    front: &[Operand],
    last: &Operand,
) -> Result<Branches, DeclStop>
    requires value { Values D.state first.now (F.pre value.now) (F.post value.now) }
    requires condition { Conditions D.state first.now (G.pre condition.now) (G.post condition.now) }
    requires values { All (λ o. Values D.state o.operand (F.pre value.now) (F.post value.now))
        front.now }
    requires conditions { All (λ o. Conditions D.state o.operand
        (G.pre condition.now) (G.post condition.now)) front.now }
    requires last_value { Values D.state last.now.operand (F.pre value.now) (F.post value.now) }
    requires last_condition { Conditions D.state last.now.operand
        (G.pre condition.now) (G.post condition.now) }
    ensures { Walks
        (from_left (meaning_of first.now) (map joined_of (front.now ++ last.now ∷ []))).branches
        (setting_of setting.now) (D.state decls.old) state.old result (D.state decls.new) state.new
        (λ symbols. ChainIn setting.now.scope.now symbols first.now front.now last.now) BranchesIn }
{
    let wanted = asked(last.operator);
    let so_far = from_left(
        value, condition, alloc, setting, decls, state, first, front, wanted,
    )?;
    let subject = compared_at(front.len(), first, &last.operand);
    step_branches(
        value,
        condition,
        alloc,
        setting,
        decls,
        state,
        place_of(first),
        subject,
        last.operator,
        so_far,
        &last.operand,
    )
}

// A chain that is grouped from the right.
fn from_right<
    D: Decls,
    F: Fn(Global, &Setting<'_>, &mut D, &mut State, &Expr, Reading) -> Result<HackType, DeclStop>,
>(
    value: &F,
    alloc: Global,
    setting: &Setting<'_>,
    decls: &mut D,
    state: &mut State,
    first: &Expr,
    front: &[Operand],
    last: &Operand,
) -> Result<HackType, DeclStop>
    requires value { Values D.state first.now (F.pre value.now) (F.post value.now) }
    requires values { All (λ o. Values D.state o.operand (F.pre value.now) (F.post value.now))
        front.now }
    requires last_value { Values D.state last.now.operand (F.pre value.now) (F.post value.now) }
    ensures { Walks
        (from_right (meaning_of first.now) (map joined_of (front.now ++ last.now ∷ []))).walk
        (setting_of setting.now) (D.state decls.old) state.old result (D.state decls.new) state.new
        (λ symbols. ChainIn setting.now.scope.now symbols first.now front.now last.now) TypeIn }
{
    let own = value(alloc, setting, decls, state, first, Reading::Left)?;
    let ty = rest_from_right(value, alloc, setting, decls, state, front, last)?;
    coalesced(alloc, decls, &own, ty)
}

// The same as a condition, which says nothing of variables.
fn branches_from_right<
    D: Decls,
    F: Fn(Global, &Setting<'_>, &mut D, &mut State, &Expr, Reading) -> Result<HackType, DeclStop>,
>(
    value: &F,
    alloc: Global,
    setting: &Setting<'_>,
    decls: &mut D,
    state: &mut State,
    first: &Expr,
    front: &[Operand],
    last: &Operand,
) -> Result<Branches, DeclStop>
    requires value { Values D.state first.now (F.pre value.now) (F.post value.now) }
    requires values { All (λ o. Values D.state o.operand (F.pre value.now) (F.post value.now))
        front.now }
    requires last_value { Values D.state last.now.operand (F.pre value.now) (F.post value.now) }
    ensures { Walks
        (from_right (meaning_of first.now) (map joined_of (front.now ++ last.now ∷ []))).branches
        (setting_of setting.now) (D.state decls.old) state.old result (D.state decls.new) state.new
        (λ symbols. ChainIn setting.now.scope.now symbols first.now front.now last.now) BranchesIn }
{
    drop(from_right(value, alloc, setting, decls, state, first, front, last)?);
    Ok(both_here(alloc, state)?)
}
