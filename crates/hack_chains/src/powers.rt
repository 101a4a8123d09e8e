// Operands with `**` between them.
ghost use Rattle.std.specs.Prelude.{All, map};
ghost use Rattle.hack_decls.specs.Names.{TypeIn};
ghost use Rattle.hack_parts.specs.ExprIn.{ExprIn};
ghost use Rattle.hack_parts.specs.Parts.{Values};
ghost use Rattle.hack_rules.specs.Chains.{power_row};
ghost use Rattle.hack_rules.specs.Expressions.{meaning_of};
ghost use Rattle.hack_walk.specs.Checks.{Walks, setting_of};
ghost use Rattle.hack_chains.specs.inside.Rights.{values_row};

use crate::ends::split_last;
use crate::from_right::{grouped, typed_values};
use crate::typed::Grouping;
use hack_decls::{DeclStop, Decls};
use hack_parts::Reading;
use hack_tree::Expr;
use hack_types::HackType;
use hack_walk::{Setting, State};
use std::alloc::Global;

/// `a ** b ** c`: the operands are typed from left to right, and grouped from the right (docs/language.md, Typing expressions,
/// Operators). `EdgesFull` says that a lookup's note was refused, and `NoMemory` that memory ran out; what was noted before stays noted.
pub fn power<
    D: Decls,
    F: Fn(Global, &Setting<'_>, &mut D, &mut State, &Expr, Reading) -> Result<HackType, DeclStop>,
>(
    value: &F,
    alloc: Global,
    setting: &Setting<'_>,
    decls: &mut D,
    state: &mut State,
    operands: &[Expr],
) -> Result<HackType, DeclStop>
    requires operands { All (λ e. Values D.state e (F.pre value.now) (F.post value.now))
        operands.now }
    ensures { Walks (power_row (map meaning_of operands.now)) (setting_of setting.now)
        (D.state decls.old) state.old result (D.state decls.new) state.new
        (λ symbols. All (ExprIn setting.now.scope.now symbols) operands.now) TypeIn }
{
    match split_last(operands) {
        Some((front, last)) => power_of(value, alloc, setting, decls, state, front, last),
        None => Ok(HackType::Any),
    }
}

// At least one operand.
fn power_of<
    D: Decls,
    F: Fn(Global, &Setting<'_>, &mut D, &mut State, &Expr, Reading) -> Result<HackType, DeclStop>,
>(
    value: &F,
    alloc: Global,
    setting: &Setting<'_>,
    decls: &mut D,
    state: &mut State,
    front: &[Expr],
    last: &Expr,
) -> Result<HackType, DeclStop>
    requires operands { All (λ e. Values D.state e (F.pre value.now) (F.post value.now)) front.now }
    requires last { Values D.state last.now (F.pre value.now) (F.post value.now) }
    ensures { Walks (values_row front.now last.now) (setting_of setting.now)
        (D.state decls.old) state.old result (D.state decls.new) state.new
        (λ symbols. All (ExprIn setting.now.scope.now symbols) front.now
        × ExprIn setting.now.scope.now symbols last.now) TypeIn }
{
    let items = typed_values(value, alloc, setting, decls, state, front)?;
    let ty = value(alloc, setting, decls, state, last, Reading::Value)?;
    grouped(
        alloc,
        setting,
        decls,
        state,
        Grouping::Power,
        items.as_slice(),
        ty,
    )
}
