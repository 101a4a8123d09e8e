// Operators that ask for the value of their left side, once it is known.
ghost use Rattle.std.specs.Prelude.{◌≡◌, None};
ghost use Rattle.hack_decls.specs.Names.{TypeIn};
ghost use Rattle.hack_parts.specs.ExprIn.{ExprIn};
ghost use Rattle.hack_parts.specs.Parts.{Values};
ghost use Rattle.hack_rules.specs.Expressions.{meaning_of};
ghost use Rattle.hack_rules.specs.Operators.{operation_of};
ghost use Rattle.hack_walk.specs.Checks.{BranchesIn, Walks, setting_of};
ghost use Rattle.hack_chains.specs.inside.Chaining.{branches_on, comparison, equality_of, outcome, outcome_branches, plain_outcome, turned, value_on};

use hack_decls::{DeclStop, Decls};
use hack_operators::{operate, operation_of};
use hack_parts::{Reading, both_here};
use hack_tree::{BinaryOperator, Expr};
use hack_types::{HackType, NameId, Place};
use hack_walk::{Branches, Setting, State, coalesced, tested_branches};
use std::alloc::Global;

/// The right side is typed, and then comes what the operator makes of both types (docs/language.md, Typing expressions, Operators).
/// `EdgesFull` says that a lookup's note was refused, and `NoMemory` that memory ran out; what was noted before stays noted.
pub fn value_on<
    D: Decls,
    F: Fn(Global, &Setting<'_>, &mut D, &mut State, &Expr, Reading) -> Result<HackType, DeclStop>,
>(
    value: &F,
    alloc: Global,
    setting: &Setting<'_>,
    decls: &mut D,
    state: &mut State,
    at: Place,
    operator: BinaryOperator,
    first: &HackType,
    right: &Expr,
) -> Result<HackType, DeclStop>
    requires right { Values D.state right.now (F.pre value.now) (F.post value.now) }
    ensures { Walks (value_on at operator (meaning_of right.now) first.now) (setting_of setting.now)
        (D.state decls.old) state.old result (D.state decls.new) state.new
        (λ symbols. TypeIn symbols first.now
        × ExprIn setting.now.scope.now symbols right.now) TypeIn }
{
    let second = value(alloc, setting, decls, state, right, Reading::Value)?;
    outcome(alloc, setting, decls, state, at, operator, first, second)
}

/// The same as a condition: a comparison with `null` is a test of the variable that is compared (docs/language.md, Typing expressions,
/// Refinement). The errors are as those of `value_on`.
pub fn branches_on<
    D: Decls,
    F: Fn(Global, &Setting<'_>, &mut D, &mut State, &Expr, Reading) -> Result<HackType, DeclStop>,
>(
    value: &F,
    alloc: Global,
    setting: &Setting<'_>,
    decls: &mut D,
    state: &mut State,
    at: Place,
    subject: Option<NameId>,
    operator: BinaryOperator,
    first: &HackType,
    right: &Expr,
) -> Result<Branches, DeclStop>
    requires right { Values D.state right.now (F.pre value.now) (F.post value.now) }
    ensures { Walks (branches_on at subject operator (meaning_of right.now) first.now)
        (setting_of setting.now) (D.state decls.old) state.old result (D.state decls.new) state.new
        (λ symbols. TypeIn symbols first.now
        × ExprIn setting.now.scope.now symbols right.now) BranchesIn }
{
    let second = value(alloc, setting, decls, state, right, Reading::Value)?;
    outcome_branches(
        alloc, setting, decls, state, at, subject, operator, first, second,
    )
}

// What comes of the types of both sides.
fn outcome<D: Decls>(
    alloc: Global,
    setting: &Setting<'_>,
    decls: &mut D,
    state: &mut State,
    at: Place,
    operator: BinaryOperator,
    first: &HackType,
    second: HackType,
) -> Result<HackType, DeclStop>
    ensures { Walks (outcome at (equality_of operator) (operation_of operator) first.now second)
        (setting_of setting.now) (D.state decls.old) state.old result (D.state decls.new) state.new
        (λ symbols. TypeIn symbols first.now × TypeIn symbols second) TypeIn }
{
    match equality_of(operator) {
        Some(_) => Ok(HackType::Bool),
        None => combined(alloc, setting, decls, state, at, operator, first, second),
    }
}

// The same of operators that don't compare.
fn combined<D: Decls>(
    alloc: Global,
    setting: &Setting<'_>,
    decls: &mut D,
    state: &mut State,
    at: Place,
    operator: BinaryOperator,
    first: &HackType,
    second: HackType,
) -> Result<HackType, DeclStop>
    ensures { Walks (outcome at None (operation_of operator) first.now second)
        (setting_of setting.now) (D.state decls.old) state.old result (D.state decls.new) state.new
        (λ symbols. TypeIn symbols first.now × TypeIn symbols second) TypeIn }
{
    match operation_of(operator) {
        Some(operation) => operate(alloc, setting, decls, state, at, operation, first, &second),
        None => coalesced(alloc, decls, first, second),
    }
}

// Whether an operator compares, and then whether it holds where both are the same.
fn equality_of(operator: BinaryOperator) -> Option<bool>
    ensures { result ≡ equality_of operator }
{
    match operator {
        BinaryOperator::Equal | BinaryOperator::Identical => Some(true),
        BinaryOperator::NotEqual | BinaryOperator::NotIdentical => Some(false),
        BinaryOperator::Coalesce
        | BinaryOperator::Or
        | BinaryOperator::And
        | BinaryOperator::BitOr
        | BinaryOperator::BitXor
        | BinaryOperator::BitAnd
        | BinaryOperator::Less
        | BinaryOperator::LessEqual
        | BinaryOperator::Greater
        | BinaryOperator::GreaterEqual
        | BinaryOperator::Spaceship
        | BinaryOperator::Add
        | BinaryOperator::Subtract
        | BinaryOperator::Concat
        | BinaryOperator::Multiply
        | BinaryOperator::Divide
        | BinaryOperator::Remainder => None,
    }
}

// The branches that come of the types of both sides.
fn outcome_branches<D: Decls>(
    alloc: Global,
    setting: &Setting<'_>,
    decls: &mut D,
    state: &mut State,
    at: Place,
    subject: Option<NameId>,
    operator: BinaryOperator,
    first: &HackType,
    second: HackType,
) -> Result<Branches, DeclStop>
    ensures { Walks (outcome_branches at subject (equality_of operator) (operation_of operator)
        first.now second)
        (setting_of setting.now) (D.state decls.old) state.old result (D.state decls.new) state.new
        (λ symbols. TypeIn symbols first.now × TypeIn symbols second) BranchesIn }
{
    match equality_of(operator) {
        Some(same) => comparison(alloc, setting, decls, state, subject, same),
        None => plain_outcome(alloc, setting, decls, state, at, operator, first, second),
    }
}

// The branches of a comparison with `null` of this variable, if it is one.
fn comparison<D: Decls>(
    alloc: Global,
    setting: &Setting<'_>,
    decls: &mut D,
    state: &State,
    subject: Option<NameId>,
    same: bool,
) -> Result<Branches, DeclStop>
    ensures { Walks (comparison subject same) (setting_of setting.now)
        (D.state decls.old) state.now result (D.state decls.new) state.now
        (λ symbols. Unit {0}) BranchesIn }
{
    let null = HackType::Null;
    let branches = tested_branches(alloc, decls, setting, state, subject, &null)?;
    Ok(turned(same, branches))
}

// As they are where the comparison holds where both are the same, and else swapped.
fn turned(same: bool, branches: Branches) -> Branches
    ensures { result ≡ turned same branches }
{
    if same {
        return branches;
    }
    branches.swapped()
}

// The branches of an operator that says nothing of variables.
fn plain_outcome<D: Decls>(
    alloc: Global,
    setting: &Setting<'_>,
    decls: &mut D,
    state: &mut State,
    at: Place,
    operator: BinaryOperator,
    first: &HackType,
    second: HackType,
) -> Result<Branches, DeclStop>
    ensures { Walks (plain_outcome at (operation_of operator) first.now second)
        (setting_of setting.now) (D.state decls.old) state.old result (D.state decls.new) state.new
        (λ symbols. TypeIn symbols first.now × TypeIn symbols second) BranchesIn }
{
    drop(combined(alloc, setting, decls, state, at, operator, first, second)?);
    Ok(both_here(alloc, state)?)
}
