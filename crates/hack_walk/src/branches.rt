// What tests leave of the variables.
ghost use Rattle.std.specs.Prelude.{◌≡◌, IfOk, Some, option_copied};
ghost use Rattle.hack_decls.specs.Asks.{Asks};
ghost use Rattle.hack_decls.specs.Names.{TypeIn};
ghost use Rattle.hack_infer.specs.WithoutNull.{without_null};
ghost use Rattle.hack_sub.specs.Named.{PairIn};
ghost use Rattle.hack_rules.specs.Refining.{bare_branches, behind_as, swapped, tested_branches, where_is, where_is_not};
ghost use Rattle.hack_rules.specs.Variables.{refined, with_variable};
ghost use Rattle.hack_walk.specs.Checks.{BranchesIn, Reads, VariablesIn, Walks, setting_of};
ghost use Rattle.hack_walk.specs.inside.Calls.{OwnIn, TestIn, branches_with, put_at, subject_type, where_by};

use crate::{Setting, State, Variables, where_is, where_is_not};
use hack_decls::{DeclStop, Decls};
use hack_infer::without_null;
use hack_sub::Scope;
use hack_types::{HackType, NameId, NoMemory};
use std::alloc::Global;
use std::marker::Model;

/// The variables where a condition holds, and where it doesn't (docs/language.md, Typing expressions, Refinement).
#[derive(Drop)]
pub struct Branches {
    when_true: Variables,
    when_false: Variables,
}

impl Model for Branches {
    ghost use Rattle.hack_rules.specs.Meanings as meanings;
    ghost use Rattle.hack_walk.specs.inside.Codes.{branches_code};

    ghost Value = { meanings.Branches };

    ghost coded = { branches_code };

    ghost view = { λ branches. record { when_true = branches.when_true; when_false = branches.when_false } };
}

impl Branches {
    /// These two.
    pub fn new(when_true: Variables, when_false: Variables) -> Branches
        ensures when_true { result.when_true ≡ when_true }
        ensures when_false { result.when_false ≡ when_false }
    {
        Branches {
            when_true,
            when_false,
        }
    }

    /// The variables where the condition holds, and where it doesn't.
    pub fn into_parts(self) -> (Variables, Variables)
        ensures when_true { result.0 ≡ self.when_true }
        ensures when_false { result.1 ≡ self.when_false }
    {
        let Branches {
            when_true,
            when_false,
        } = self;
        (when_true, when_false)
    }

    /// Where one holds the other doesn't.
    pub fn swapped(self) -> Branches
        ensures { result ≡ swapped self }
    {
        let (when_true, when_false) = self.into_parts();
        Branches::new(when_false, when_true)
    }
}

/// The variables behind `x as T` (docs/language.md, Typing expressions, Refinement). `EdgesFull` says that a lookup's note was refused, and
/// `NoMemory` that memory ran out; what was noted before stays noted.
pub fn behind_as<D: Decls>(
    alloc: Global,
    decls: &mut D,
    setting: &Setting<'_>,
    state: &State,
    subject: Option<NameId>,
    tested: &HackType,
) -> Result<Variables, DeclStop>
    ensures { Walks (behind_as subject tested.now) (setting_of setting.now)
        (D.state decls.old) state.now result (D.state decls.new) state.now
        (λ symbols. TypeIn symbols tested.now) VariablesIn }
{
    refined_by(
        alloc,
        decls,
        setting.scope,
        state.variables(),
        subject,
        tested,
        Outcome::Holds,
    )
}

/// Both branches of a test of a variable, or of what is none (docs/language.md, Typing expressions, Refinement). The errors are as
/// those of `behind_as`.
pub fn tested_branches<D: Decls>(
    alloc: Global,
    decls: &mut D,
    setting: &Setting<'_>,
    state: &State,
    subject: Option<NameId>,
    tested: &HackType,
) -> Result<Branches, DeclStop>
    ensures { Walks (tested_branches subject tested.now) (setting_of setting.now)
        (D.state decls.old) state.now result (D.state decls.new) state.now
        (λ symbols. TypeIn symbols tested.now) BranchesIn }
{
    both(
        alloc,
        decls,
        setting.scope,
        state.variables(),
        subject,
        tested,
    )
}

/// Both branches of a variable that stands alone as a condition (docs/language.md, Typing expressions, Refinement). The errors are as
/// those of `behind_as`.
pub fn bare_branches<D: Decls>(
    alloc: Global,
    decls: &mut D,
    setting: &Setting<'_>,
    state: &State,
    name: NameId,
) -> Result<Branches, DeclStop>
    ensures { Walks (bare_branches name) (setting_of setting.now)
        (D.state decls.old) state.now result (D.state decls.new) state.now
        (λ symbols. Unit {0}) BranchesIn }
{
    present_or_not(alloc, decls, state.variables(), name)
}

// Which outcome of a test.
#[derive(Clone, Copy)]
enum Outcome {
    Holds,
    Fails,
}

// Both.
fn both<D: Decls>(
    alloc: Global,
    decls: &mut D,
    scope: &Scope,
    here: &Variables,
    subject: Option<NameId>,
    tested: &HackType,
) -> Result<Branches, DeclStop>
    ensures { Reads (λ map scope. branches_with
        (refined here.now subject (where_is map scope tested.now))
        (refined here.now subject (where_is_not map scope tested.now)))
        scope.now (D.state decls.old) result (D.state decls.new)
        (λ symbols. TestIn symbols scope.now here.now tested.now) BranchesIn }
{
    // a copy of its own for each call
    let again = subject;
    let when_true = refined_by(alloc, decls, scope, here, subject, tested, Outcome::Holds)?;
    let when_false = refined_by(alloc, decls, scope, here, again, tested, Outcome::Fails)?;
    Ok(Branches::new(when_true, when_false))
}

// The variables where the test has this outcome.
fn refined_by<D: Decls>(
    alloc: Global,
    decls: &mut D,
    scope: &Scope,
    here: &Variables,
    subject: Option<NameId>,
    tested: &HackType,
    outcome: Outcome,
) -> Result<Variables, DeclStop>
    ensures { Reads (λ map scope. refined here.now subject (where_by outcome map scope tested.now))
        scope.now (D.state decls.old) result (D.state decls.new)
        (λ symbols. TestIn symbols scope.now here.now tested.now) VariablesIn }
{
    match subject_type(here, subject) {
        Some(own) => put_refined(alloc, decls, scope, here, subject, tested, own, outcome),
        None => Ok(here.copy(alloc)?),
    }
}

// Where the tested variable has this type.
fn put_refined<D: Decls>(
    alloc: Global,
    decls: &mut D,
    scope: &Scope,
    here: &Variables,
    subject: Option<NameId>,
    tested: &HackType,
    own: &HackType,
    outcome: Outcome,
) -> Result<Variables, DeclStop>
    ensures { Reads (λ map scope. put_at here.now subject
        (Some (where_by outcome map scope tested.now own.now)))
        scope.now (D.state decls.old) result (D.state decls.new)
        (λ symbols. OwnIn symbols scope.now here.now tested.now own.now) VariablesIn }
{
    let ty = type_by(alloc, decls, scope, tested, own, outcome)?;
    Ok(copy_with(alloc, here, subject, ty)?)
}

// What a type becomes by a test with this outcome.
fn type_by<D: Decls>(
    alloc: Global,
    decls: &mut D,
    scope: &Scope,
    tested: &HackType,
    own: &HackType,
    outcome: Outcome,
) -> Result<HackType, DeclStop>
    ensures { Reads (λ map scope. where_by outcome map scope tested.now own.now) scope.now
        (D.state decls.old) result (D.state decls.new)
        (λ symbols. PairIn symbols scope.now tested.now own.now) TypeIn }
{
    match outcome {
        Outcome::Holds => where_is(alloc, decls, scope, tested, own),
        Outcome::Fails => where_is_not(alloc, decls, scope, tested, own),
    }
}

// The variable without null, and as it is.
fn present_or_not<D: Decls>(
    alloc: Global,
    decls: &mut D,
    here: &Variables,
    name: NameId,
) -> Result<Branches, DeclStop>
    ensures { Asks (D.state decls.old) result (D.state decls.new)
        (λ map answer. answer
        ≡ branches_with (refined here.now (Some name) (without_null map)) here.now)
        (λ symbols. VariablesIn symbols here.now) BranchesIn }
{
    let when_true = where_present(alloc, decls, here, name)?;
    let when_false = here.copy(alloc)?;
    Ok(Branches::new(when_true, when_false))
}

fn where_present<D: Decls>(
    alloc: Global,
    decls: &mut D,
    here: &Variables,
    name: NameId,
) -> Result<Variables, DeclStop>
    ensures { Asks (D.state decls.old) result (D.state decls.new)
        (λ map answer. answer ≡ refined here.now (Some name) (without_null map))
        (λ symbols. VariablesIn symbols here.now) VariablesIn }
{
    match here.type_in(name) {
        Some(own) => put_present(alloc, decls, here, name, own),
        None => Ok(here.copy(alloc)?),
    }
}

fn put_present<D: Decls>(
    alloc: Global,
    decls: &mut D,
    here: &Variables,
    name: NameId,
    own: &HackType,
) -> Result<Variables, DeclStop>
    ensures { Asks (D.state decls.old) result (D.state decls.new)
        (λ map answer. answer ≡ with_variable here.now name (without_null map own.now))
        (λ symbols. VariablesIn symbols here.now × TypeIn symbols own.now) VariablesIn }
{
    let ty = without_null(alloc, decls, own)?;
    Ok(copy_and_put(alloc, here, name, ty)?)
}

// The type of the variable that is tested, if one is and it is there.
fn subject_type(here: &Variables, subject: Option<NameId>) -> Option<&HackType>
    ensures { option_copied result ≡ subject_type here.now subject }
{
    match subject {
        Some(name) => here.type_in(name),
        None => None,
    }
}

// The variables, with this type of the one that is tested.
fn copy_with(
    alloc: Global,
    here: &Variables,
    subject: Option<NameId>,
    ty: HackType,
) -> Result<Variables, NoMemory>
    ensures { IfOk result (λ copied. copied ≡ put_at here.now subject (Some ty)) }
{
    match subject {
        Some(name) => copy_and_put(alloc, here, name, ty),
        None => here.copy(alloc),
    }
}

fn copy_and_put(
    alloc: Global,
    here: &Variables,
    name: NameId,
    ty: HackType,
) -> Result<Variables, NoMemory>
    ensures { IfOk result (λ copied. copied ≡ with_variable here.now name ty) }
{
    let mut copied = here.copy(alloc)?;
    copied.put(name, ty)?;
    Ok(copied)
}
