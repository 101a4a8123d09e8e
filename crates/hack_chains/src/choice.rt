// `? :`.
ghost use Rattle.hack_decls.specs.Names.{TypeIn};
ghost use Rattle.hack_parts.specs.ExprIn.{ExprIn};
ghost use Rattle.hack_parts.specs.Parts.{Conditions, Values};
ghost use Rattle.hack_rules.specs.Chains.{conditional_row, short_row};
ghost use Rattle.hack_rules.specs.Expressions.{meaning_of};
ghost use Rattle.hack_walk.specs.Checks.{BranchesIn, VariablesIn, Walks, setting_of};
ghost use Rattle.hack_chains.specs.inside.Rest.{other_on, parts_on};

use crate::joins::{exchange, rejoin};
use hack_decls::{DeclStop, Decls};
use hack_parts::Reading;
use hack_tree::Expr;
use hack_types::HackType;
use hack_walk::{Branches, Setting, State, Variables, coalesced, union_of_two};
use std::alloc::Global;

/// `c ? a : b`: each part is typed in its branch, the ends are joined, and the type is the union of both (docs/language.md, Typing
/// expressions). `EdgesFull` says that a lookup's note was refused, and `NoMemory` that memory ran out; what was noted before stays
/// noted.
pub fn conditional<
    D: Decls,
    F: Fn(Global, &Setting<'_>, &mut D, &mut State, &Expr, Reading) -> Result<HackType, DeclStop>,
    G: Fn(Global, &Setting<'_>, &mut D, &mut State, &Expr) -> Result<Branches, DeclStop>,
>(
    value: &F,
    condition: &G,
    alloc: Global,
    setting: &Setting<'_>,
    decls: &mut D,
    state: &mut State,
    c: &Expr,
    middle: &Expr,
    other: &Expr,
) -> Result<HackType, DeclStop>
    requires c { Conditions D.state c.now (G.pre condition.now) (G.post condition.now) }
    requires middle { Values D.state middle.now (F.pre value.now) (F.post value.now) }
    requires other { Values D.state other.now (F.pre value.now) (F.post value.now) }
    ensures { Walks (conditional_row (meaning_of c.now) (meaning_of middle.now)
        (meaning_of other.now)) (setting_of setting.now)
        (D.state decls.old) state.old result (D.state decls.new) state.new
        (λ symbols. ExprIn setting.now.scope.now symbols c.now
        × ExprIn setting.now.scope.now symbols middle.now
        × ExprIn setting.now.scope.now symbols other.now)
        TypeIn }
{
    let branches = condition(alloc, setting, decls, state, c)?;
    parts_on(value, alloc, setting, decls, state, branches, middle, other)
}

/// `a ?: b`: the union of the left without null and of the right (docs/language.md, Typing expressions). The errors are as those of
/// `conditional`.
pub fn short<
    D: Decls,
    F: Fn(Global, &Setting<'_>, &mut D, &mut State, &Expr, Reading) -> Result<HackType, DeclStop>,
>(
    value: &F,
    alloc: Global,
    setting: &Setting<'_>,
    decls: &mut D,
    state: &mut State,
    c: &Expr,
    other: &Expr,
) -> Result<HackType, DeclStop>
    requires c { Values D.state c.now (F.pre value.now) (F.post value.now) }
    requires other { Values D.state other.now (F.pre value.now) (F.post value.now) }
    ensures { Walks (short_row (meaning_of c.now) (meaning_of other.now)) (setting_of setting.now)
        (D.state decls.old) state.old result (D.state decls.new) state.new
        (λ symbols. ExprIn setting.now.scope.now symbols c.now
        × ExprIn setting.now.scope.now symbols other.now) TypeIn }
{
    let first = value(alloc, setting, decls, state, c, Reading::Value)?;
    let second = value(alloc, setting, decls, state, other, Reading::Value)?;
    coalesced(alloc, decls, &first, second)
}

// The parts, once the branches are known.
fn parts_on<
    D: Decls,
    F: Fn(Global, &Setting<'_>, &mut D, &mut State, &Expr, Reading) -> Result<HackType, DeclStop>,
>(
    value: &F,
    alloc: Global,
    setting: &Setting<'_>,
    decls: &mut D,
    state: &mut State,
    branches: Branches,
    middle: &Expr,
    other: &Expr,
) -> Result<HackType, DeclStop>
    requires middle { Values D.state middle.now (F.pre value.now) (F.post value.now) }
    requires other { Values D.state other.now (F.pre value.now) (F.post value.now) }
    ensures { Walks (parts_on (meaning_of middle.now) (meaning_of other.now) branches)
        (setting_of setting.now) (D.state decls.old) state.old result (D.state decls.new) state.new
        (λ symbols. BranchesIn symbols branches
        × ExprIn setting.now.scope.now symbols middle.now
        × ExprIn setting.now.scope.now symbols other.now) TypeIn }
{
    let (when_true, when_false) = branches.into_parts();
    state.replace(when_true);
    let first = value(alloc, setting, decls, state, middle, Reading::Value)?;
    let behind = exchange(alloc, state, when_false);
    other_on(value, alloc, setting, decls, state, other, behind, first)
}

// The last part, from the variables where the condition doesn't hold, once the end of the middle and its type are known.
fn other_on<
    D: Decls,
    F: Fn(Global, &Setting<'_>, &mut D, &mut State, &Expr, Reading) -> Result<HackType, DeclStop>,
>(
    value: &F,
    alloc: Global,
    setting: &Setting<'_>,
    decls: &mut D,
    state: &mut State,
    other: &Expr,
    behind: Variables,
    first: HackType,
) -> Result<HackType, DeclStop>
    requires other { Values D.state other.now (F.pre value.now) (F.post value.now) }
    ensures { Walks (other_on (meaning_of other.now) behind first)
        (setting_of setting.now) (D.state decls.old) state.old result (D.state decls.new) state.new
        (λ symbols. ExprIn setting.now.scope.now symbols other.now × VariablesIn symbols behind
        × TypeIn symbols first)
        TypeIn }
{
    let second = value(alloc, setting, decls, state, other, Reading::Value)?;
    rejoin(alloc, state, behind)?;
    Ok(union_of_two(alloc, first, second)?)
}
