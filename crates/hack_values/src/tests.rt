// Tests, and casts.
ghost use Rattle.std.specs.Prelude.{◌≡◌, All, option_copied};
ghost use Rattle.hack_decls.specs.Names.{TypeIn};
ghost use Rattle.hack_parts.specs.ExprIn.{ExprIn, TestIn};
ghost use Rattle.hack_parts.specs.Parts.{Values};
ghost use Rattle.hack_rules.specs.Expressions.{meaning_of};
ghost use Rattle.hack_rules.specs.Meanings.{plain_branches};
ghost use Rattle.hack_rules.specs.Values.{cast_row, cast_type, is_branches, test_branches, test_by, test_row, tested_row, tests_row};
ghost use Rattle.hack_walk.specs.Checks.{BranchesIn, Walks, setting_of};
ghost use Rattle.hack_tree.specs.declared.expression.TestOperator.TheVariants.{As};
ghost use Rattle.hack_values.specs.inside.Rows as row;

use hack_decls::{DeclStop, Decls};
use hack_parts::{Reading, both_here, form_of};
use hack_tree::{CastType, Expr, TestOperator, TypeTest};
use hack_types::{HackType, NameId, into_option, limited};
use hack_walk::{Branches, Setting, State, behind_as, tested_branches};
use hack_written::written;
use std::alloc::Global;

/// Tests behind an operand: `is` gives bool, `as` the type, and `?as` its option; a variable is refined behind an `as` that is the first
/// test (docs/language.md, Typing expressions). `EdgesFull` says that a lookup's note was refused, and `NoMemory` that memory ran out;
/// what was noted before stays noted.
pub fn tested<
    D: Decls,
    F: Fn(Global, &Setting<'_>, &mut D, &mut State, &Expr, Reading) -> Result<HackType, DeclStop>,
>(
    value: &F,
    alloc: Global,
    setting: &Setting<'_>,
    decls: &mut D,
    state: &mut State,
    operand: &Expr,
    tests: &[TypeTest],
) -> Result<HackType, DeclStop>
    requires operand { Values D.state operand.now (F.pre value.now) (F.post value.now) }
    ensures { Walks (tested_row (meaning_of operand.now) tests.now) (setting_of setting.now)
        (D.state decls.old) state.old result (D.state decls.new) state.new
        (λ symbols. ExprIn setting.now.scope.now symbols operand.now
        × All (TestIn setting.now.scope.now symbols) tests.now) TypeIn }
{
    let ty = value(alloc, setting, decls, state, operand, Reading::Value)?;
    let subject = form_of(operand).subject;
    all_tests(alloc, setting, decls, state, subject, ty, tests)
}

// The tests behind what has this type. What stands before a further test is no variable.
fn all_tests<D: Decls>(
    alloc: Global,
    setting: &Setting<'_>,
    decls: &mut D,
    state: &mut State,
    subject: Option<NameId>,
    before: HackType,
    tests: &[TypeTest],
) -> Result<HackType, DeclStop>
    ensures { Walks (tests_row subject before tests.now) (setting_of setting.now)
        (D.state decls.old) state.old result (D.state decls.new) state.new
        (λ symbols. TypeIn symbols before
        × All (TestIn setting.now.scope.now symbols) tests.now) TypeIn }
{
    let mut ty = before;
    let mut here = subject;
    for test in tests {
        ty = test_type(alloc, setting, decls, state, here, test)?;
        here = None;
    }
    Ok(ty)
}

// One test.
fn test_type<D: Decls>(
    alloc: Global,
    setting: &Setting<'_>,
    decls: &mut D,
    state: &mut State,
    subject: Option<NameId>,
    test: &TypeTest,
) -> Result<HackType, DeclStop>
    ensures { Walks (test_row subject test.now) (setting_of setting.now)
        (D.state decls.old) state.old result (D.state decls.new) state.new
        (λ symbols. TestIn setting.now.scope.now symbols test.now) TypeIn }
{
    let tested = written(alloc, setting, decls, state, &test.tested)?;
    by_operator(alloc, setting, decls, state, subject, test.operator, tested)
}

// What the word before the tested type makes of it.
fn by_operator<D: Decls>(
    alloc: Global,
    setting: &Setting<'_>,
    decls: &mut D,
    state: &mut State,
    subject: Option<NameId>,
    operator: TestOperator,
    tested: HackType,
) -> Result<HackType, DeclStop>
    ensures { Walks (test_by subject operator tested) (setting_of setting.now)
        (D.state decls.old) state.old result (D.state decls.new) state.new
        (λ symbols. TypeIn symbols tested) TypeIn }
{
    match operator {
        TestOperator::Is => Ok(HackType::Bool),
        TestOperator::As => refined(alloc, setting, decls, state, subject, tested),
        TestOperator::NullAs => Ok(limited(into_option(alloc, tested)?)),
    }
}

// Behind `as` the variable is refined.
fn refined<D: Decls>(
    alloc: Global,
    setting: &Setting<'_>,
    decls: &mut D,
    state: &mut State,
    subject: Option<NameId>,
    tested: HackType,
) -> Result<HackType, DeclStop>
    ensures { Walks (test_by subject As tested) (setting_of setting.now)
        (D.state decls.old) state.old result (D.state decls.new) state.new
        (λ symbols. TypeIn symbols tested) TypeIn }
{
    let behind = behind_as(alloc, decls, setting, state, subject, &tested)?;
    state.replace(behind);
    Ok(tested)
}

/// Tests as a condition, where one `is` alone refines a variable (docs/language.md, Typing expressions, Refinement). The errors are as
/// those of `tested`.
pub fn test_branches<
    D: Decls,
    F: Fn(Global, &Setting<'_>, &mut D, &mut State, &Expr, Reading) -> Result<HackType, DeclStop>,
>(
    value: &F,
    alloc: Global,
    setting: &Setting<'_>,
    decls: &mut D,
    state: &mut State,
    operand: &Expr,
    tests: &[TypeTest],
) -> Result<Branches, DeclStop>
    requires operand { Values D.state operand.now (F.pre value.now) (F.post value.now) }
    ensures { Walks (test_branches (meaning_of operand.now) tests.now) (setting_of setting.now)
        (D.state decls.old) state.old result (D.state decls.new) state.new
        (λ symbols. ExprIn setting.now.scope.now symbols operand.now
        × All (TestIn setting.now.scope.now symbols) tests.now) BranchesIn }
{
    match only_is(tests) {
        Some(test) => is_branches(value, alloc, setting, decls, state, operand, test),
        None => plain_branches(value, alloc, setting, decls, state, operand, tests),
    }
}

// The test, where it is one `is` alone.
fn only_is(tests: &[TypeTest]) -> Option<&TypeTest>
    ensures { option_copied result ≡ row.only_is tests.now }
{
    if tests.len() != 1 {
        return None;
    }
    is_of(&tests[0])
}

fn is_of(test: &TypeTest) -> Option<&TypeTest>
    ensures { option_copied result ≡ row.is_of test.now test.now.operator }
{
    match test.operator {
        TestOperator::Is => Some(test),
        TestOperator::As | TestOperator::NullAs => None,
    }
}

// Both branches of one `is`.
fn is_branches<
    D: Decls,
    F: Fn(Global, &Setting<'_>, &mut D, &mut State, &Expr, Reading) -> Result<HackType, DeclStop>,
>(
    value: &F,
    alloc: Global,
    setting: &Setting<'_>,
    decls: &mut D,
    state: &mut State,
    operand: &Expr,
    test: &TypeTest,
) -> Result<Branches, DeclStop>
    requires operand { Values D.state operand.now (F.pre value.now) (F.post value.now) }
    ensures { Walks (is_branches (meaning_of operand.now) test.now) (setting_of setting.now)
        (D.state decls.old) state.old result (D.state decls.new) state.new
        (λ symbols. ExprIn setting.now.scope.now symbols operand.now
        × TestIn setting.now.scope.now symbols test.now) BranchesIn }
{
    let ty = value(alloc, setting, decls, state, operand, Reading::Value)?;
    drop(ty);
    let subject = form_of(operand).subject;
    branches_of(alloc, setting, decls, state, subject, test)
}

// What it says of a variable.
fn branches_of<D: Decls>(
    alloc: Global,
    setting: &Setting<'_>,
    decls: &mut D,
    state: &mut State,
    subject: Option<NameId>,
    test: &TypeTest,
) -> Result<Branches, DeclStop>
    ensures { Walks (row.branches_of subject test.now) (setting_of setting.now)
        (D.state decls.old) state.old result (D.state decls.new) state.new
        (λ symbols. TestIn setting.now.scope.now symbols test.now) BranchesIn }
{
    let tested = written(alloc, setting, decls, state, &test.tested)?;
    let branches = tested_branches(alloc, decls, setting, state, subject, &tested);
    drop(tested);
    branches
}

// Other tests say nothing.
fn plain_branches<
    D: Decls,
    F: Fn(Global, &Setting<'_>, &mut D, &mut State, &Expr, Reading) -> Result<HackType, DeclStop>,
>(
    value: &F,
    alloc: Global,
    setting: &Setting<'_>,
    decls: &mut D,
    state: &mut State,
    operand: &Expr,
    tests: &[TypeTest],
) -> Result<Branches, DeclStop>
    requires operand { Values D.state operand.now (F.pre value.now) (F.post value.now) }
    ensures { Walks (plain_branches (tested_row (meaning_of operand.now) tests.now))
        (setting_of setting.now)
        (D.state decls.old) state.old result (D.state decls.new) state.new
        (λ symbols. ExprIn setting.now.scope.now symbols operand.now
        × All (TestIn setting.now.scope.now symbols) tests.now) BranchesIn }
{
    let ty = tested(value, alloc, setting, decls, state, operand, tests)?;
    drop(ty);
    Ok(both_here(alloc, state)?)
}

/// `(int) e` and its kin: the named primitive (docs/language.md, Typing expressions). The errors are as those of `tested`.
pub fn cast<
    D: Decls,
    F: Fn(Global, &Setting<'_>, &mut D, &mut State, &Expr, Reading) -> Result<HackType, DeclStop>,
>(
    value: &F,
    alloc: Global,
    setting: &Setting<'_>,
    decls: &mut D,
    state: &mut State,
    to: CastType,
    operand: &Expr,
) -> Result<HackType, DeclStop>
    requires operand { Values D.state operand.now (F.pre value.now) (F.post value.now) }
    ensures { Walks (cast_row to (meaning_of operand.now)) (setting_of setting.now)
        (D.state decls.old) state.old result (D.state decls.new) state.new
        (λ symbols. ExprIn setting.now.scope.now symbols operand.now) TypeIn }
{
    let ty = value(alloc, setting, decls, state, operand, Reading::Value)?;
    drop(ty);
    Ok(cast_type(to))
}

fn cast_type(to: CastType) -> HackType
    ensures { result ≡ cast_type to }
{
    match to {
        CastType::Int => HackType::Int,
        CastType::Float => HackType::Float,
        CastType::String => HackType::Str,
        CastType::Bool => HackType::Bool,
    }
}
