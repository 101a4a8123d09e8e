// Operands with suffixes behind them, however many: the whole is kept as a target, so that each suffix is looked at once.
ghost use Rattle.std.specs.Prelude.{◌≡◌, All};
ghost use Rattle.hack_decls.specs.Names.{TypeIn};
ghost use Rattle.hack_parts.specs.ExprIn.{ExprIn, SuffixIn};
ghost use Rattle.hack_parts.specs.Parts.{Values, walk_by};
ghost use Rattle.hack_rules.specs.Expressions.{meaning_of};
ghost use Rattle.hack_targets.specs.AimIn.{AimIn};
ghost use Rattle.hack_uses.specs.Aims.{Targets, aim_by, behind};
ghost use Rattle.hack_uses.specs.SubParts.{AllInSuffix};
ghost use Rattle.hack_uses.specs.inside.Steps.{is_left};
ghost use Rattle.hack_walk.specs.Checks.{Walks, setting_of};

use crate::suffixes::with_suffix;
use hack_decls::{DeclStop, Decls};
use hack_parts::{Reading, place_of};
use hack_targets::{Target, into_value};
use hack_tree::{Expr, Suffix};
use hack_types::HackType;
use hack_walk::{Setting, State};
use std::alloc::Global;

/// An operand with these behind it, as a target (docs/language.md, Typing expressions, Assignment). `EdgesFull` says that a lookup's
/// note was refused, and `NoMemory` that memory ran out; what was noted before stays noted.
pub fn postfix<
    D: Decls,
    F: Fn(Global, &Setting<'_>, &mut D, &mut State, &Expr, Reading) -> Result<HackType, DeclStop>,
    T: Fn(Global, &Setting<'_>, &mut D, &mut State, &Expr, Reading) -> Result<Target, DeclStop>,
>(
    value: &F,
    target: &T,
    alloc: Global,
    setting: &Setting<'_>,
    decls: &mut D,
    state: &mut State,
    operand: &Expr,
    suffixes: &[Suffix],
    reading: Reading,
) -> Result<Target, DeclStop>
    requires operand { Targets D.state operand.now (T.pre target.now) (T.post target.now) }
    requires suffixes { All (AllInSuffix
        (λ e. Values D.state e (F.pre value.now) (F.post value.now))) suffixes.now }
    ensures { Walks (aim_by reading (behind (meaning_of operand.now) suffixes.now))
        (setting_of setting.now) (D.state decls.old) state.old result (D.state decls.new) state.new
        (λ symbols. ExprIn setting.now.scope.now symbols operand.now
        × All (SuffixIn setting.now.scope.now symbols) suffixes.now) AimIn }
{
    if suffixes.len() > 0 {
        with_suffixes(
            value, target, alloc, setting, decls, state, operand, suffixes,
        )
    } else {
        target(alloc, setting, decls, state, operand, reading)
    }
}

// Behind at least one suffix a target is the same in either reading.
fn with_suffixes<
    D: Decls,
    F: Fn(Global, &Setting<'_>, &mut D, &mut State, &Expr, Reading) -> Result<HackType, DeclStop>,
    T: Fn(Global, &Setting<'_>, &mut D, &mut State, &Expr, Reading) -> Result<Target, DeclStop>,
>(
    value: &F,
    target: &T,
    alloc: Global,
    setting: &Setting<'_>,
    decls: &mut D,
    state: &mut State,
    operand: &Expr,
    suffixes: &[Suffix],
) -> Result<Target, DeclStop>
    requires operand { Targets D.state operand.now (T.pre target.now) (T.post target.now) }
    requires suffixes { All (AllInSuffix
        (λ e. Values D.state e (F.pre value.now) (F.post value.now))) suffixes.now }
    ensures { Walks (behind (meaning_of operand.now) suffixes.now).aim
        (setting_of setting.now) (D.state decls.old) state.old result (D.state decls.new) state.new
        (λ symbols. ExprIn setting.now.scope.now symbols operand.now
        × All (SuffixIn setting.now.scope.now symbols) suffixes.now) AimIn }
{
    let at = place_of(operand);
    let mut so_far = target(alloc, setting, decls, state, operand, Reading::Value)?;
    for suffix in suffixes {
        so_far = with_suffix(value, alloc, setting, decls, state, at, so_far, suffix)?;
    }
    Ok(so_far)
}

/// An operand with these behind it, as a value or in the left of `??` (docs/language.md, Typing expressions, Members and Index). The
/// errors are as those of `postfix`.
pub fn postfix_value<
    D: Decls,
    F: Fn(Global, &Setting<'_>, &mut D, &mut State, &Expr, Reading) -> Result<HackType, DeclStop>,
    T: Fn(Global, &Setting<'_>, &mut D, &mut State, &Expr, Reading) -> Result<Target, DeclStop>,
>(
    value: &F,
    target: &T,
    alloc: Global,
    setting: &Setting<'_>,
    decls: &mut D,
    state: &mut State,
    operand: &Expr,
    suffixes: &[Suffix],
    reading: Reading,
) -> Result<HackType, DeclStop>
    requires operand { Targets D.state operand.now (T.pre target.now) (T.post target.now) }
    requires suffixes { All (AllInSuffix
        (λ e. Values D.state e (F.pre value.now) (F.post value.now))) suffixes.now }
    ensures { Walks (walk_by reading (behind (meaning_of operand.now) suffixes.now))
        (setting_of setting.now) (D.state decls.old) state.old result (D.state decls.new) state.new
        (λ symbols. ExprIn setting.now.scope.now symbols operand.now
        × All (SuffixIn setting.now.scope.now symbols) suffixes.now) TypeIn }
{
    let whole = postfix(
        value, target, alloc, setting, decls, state, operand, suffixes, reading,
    )?;
    into_value(alloc, setting, decls, state, is_left(reading), whole)
}

// Whether an expression stands in the left of `??`.
fn is_left(reading: Reading) -> bool
    ensures { result ≡ is_left reading }
{
    matches!(reading, Reading::Left)
}
