// Operators that group from the right.
ghost use Rattle.std.specs.Prelude.{◌≡◌, ◌++◌, ◌∷◌, [], All, OnOk};
ghost use Rattle.hack_decls.specs.Names.{TypeIn};
ghost use Rattle.hack_parts.specs.ExprIn.{ExprIn, OperandIn};
ghost use Rattle.hack_parts.specs.Parts.{Values};
ghost use Rattle.hack_parts.specs.declared.reading.Reading.TheVariants as reading;
ghost use Rattle.hack_rules.specs.Expressions.{meaning_of};
ghost use Rattle.hack_rules.specs.Walks.{each};
ghost use Rattle.hack_walk.specs.Checks.{Walks, setting_of};
ghost use Rattle.hack_chains.specs.inside.Rights.{TypedIn, combined, grouped, left_of, lefts_row, typed_by, value_of};

use crate::typed::{Grouping, Typed};
use hack_decls::{DeclStop, Decls};
use hack_operators::{Operation, operate};
use hack_parts::{Reading, place_of};
use hack_tree::{Expr, Operand};
use hack_types::{HackType, NoMemory, Place};
use hack_walk::{Setting, State, coalesced};
use sqlite_items::Items;
use std::alloc::Global;

/// Operands with `??` between them, behind another one (docs/language.md, Typing expressions, Operators). `EdgesFull` says that a
/// lookup's note was refused, and `NoMemory` that memory ran out; what was noted before stays noted.
pub fn rest_from_right<
    D: Decls,
    F: Fn(Global, &Setting<'_>, &mut D, &mut State, &Expr, Reading) -> Result<HackType, DeclStop>,
>(
    value: &F,
    alloc: Global,
    setting: &Setting<'_>,
    decls: &mut D,
    state: &mut State,
    front: &[Operand],
    last: &Operand,
) -> Result<HackType, DeclStop>
    requires values { All (λ o. Values D.state o.operand (F.pre value.now) (F.post value.now))
        front.now }
    requires last_value { Values D.state last.now.operand (F.pre value.now) (F.post value.now) }
    ensures { Walks (lefts_row front.now last.now) (setting_of setting.now)
        (D.state decls.old) state.old result (D.state decls.new) state.new
        (λ symbols. All (OperandIn setting.now.scope.now symbols) front.now
        × OperandIn setting.now.scope.now symbols last.now) TypeIn }
{
    let items = typed_lefts(value, alloc, setting, decls, state, front)?;
    let ty = value(alloc, setting, decls, state, &last.operand, Reading::Value)?;
    grouped(
        alloc,
        setting,
        decls,
        state,
        Grouping::Coalesce,
        items.as_slice(),
        ty,
    )
}

/// Operands as values, in their order. The errors are as those of `rest_from_right`.
pub fn typed_values<
    D: Decls,
    F: Fn(Global, &Setting<'_>, &mut D, &mut State, &Expr, Reading) -> Result<HackType, DeclStop>,
>(
    value: &F,
    alloc: Global,
    setting: &Setting<'_>,
    decls: &mut D,
    state: &mut State,
    operands: &[Expr],
) -> Result<Items<Typed>, DeclStop>
    requires operands { All (λ e. Values D.state e (F.pre value.now) (F.post value.now))
        operands.now }
    ensures { Walks (each value_of operands.now) (setting_of setting.now)
        (D.state decls.old) state.old result (D.state decls.new) state.new
        (λ symbols. All (ExprIn setting.now.scope.now symbols) operands.now)
        (λ symbols items. All (TypedIn symbols) items) }
{
    let mut items = Items::new(alloc);
    for operand in operands {
        let item = typed(value, alloc, setting, decls, state, operand, Reading::Value)?;
        push(&mut items, item)?;
    }
    Ok(items)
}

/// These, and behind them one of this type, put together from the right. The errors are as those of
/// `rest_from_right`.
pub fn grouped<D: Decls>(
    alloc: Global,
    setting: &Setting<'_>,
    decls: &mut D,
    state: &mut State,
    grouping: Grouping,
    items: &[Typed],
    last: HackType,
) -> Result<HackType, DeclStop>
    ensures { Walks (grouped grouping items.now last) (setting_of setting.now)
        (D.state decls.old) state.old result (D.state decls.new) state.new
        (λ symbols. All (TypedIn symbols) items.now × TypeIn symbols last) TypeIn }
{
    let mut ty = last;
    for i in (0..items.len()).rev() {
        let left = &items[i];
        ty = combined(
            alloc, setting, decls, state, grouping, left.at, &left.ty, ty,
        )?;
    }
    Ok(ty)
}

// Operands in the left of `??`, in their order.
fn typed_lefts<
    D: Decls,
    F: Fn(Global, &Setting<'_>, &mut D, &mut State, &Expr, Reading) -> Result<HackType, DeclStop>,
>(
    value: &F,
    alloc: Global,
    setting: &Setting<'_>,
    decls: &mut D,
    state: &mut State,
    others: &[Operand],
) -> Result<Items<Typed>, DeclStop>
    requires others { All (λ o. Values D.state o.operand (F.pre value.now) (F.post value.now))
        others.now }
    ensures { Walks (each left_of others.now) (setting_of setting.now)
        (D.state decls.old) state.old result (D.state decls.new) state.new
        (λ symbols. All (OperandIn setting.now.scope.now symbols) others.now)
        (λ symbols items. All (TypedIn symbols) items) }
{
    let mut items = Items::new(alloc);
    for other in others {
        let item = typed(
            value,
            alloc,
            setting,
            decls,
            state,
            &other.operand,
            Reading::Left,
        )?;
        push(&mut items, item)?;
    }
    Ok(items)
}

// An operand in this reading.
fn typed<
    D: Decls,
    F: Fn(Global, &Setting<'_>, &mut D, &mut State, &Expr, Reading) -> Result<HackType, DeclStop>,
>(
    value: &F,
    alloc: Global,
    setting: &Setting<'_>,
    decls: &mut D,
    state: &mut State,
    operand: &Expr,
    reading: Reading,
) -> Result<Typed, DeclStop>
    requires operand { Values D.state operand.now (F.pre value.now) (F.post value.now) }
    ensures { Walks (typed_by reading (meaning_of operand.now)) (setting_of setting.now)
        (D.state decls.old) state.old result (D.state decls.new) state.new
        (λ symbols. ExprIn setting.now.scope.now symbols operand.now) TypedIn }
{
    let at = place_of(operand);
    let ty = value(alloc, setting, decls, state, operand, reading)?;
    Ok(Typed { at, ty })
}

fn push(items: &mut Items<Typed>, item: Typed) -> Result<(), NoMemory>
    ensures { OnOk result (items.new ≡ items.old ++ item ∷ []) }
{
    Ok(items.push(item)?)
}

// What comes of an operand's type and of that of all that stands right of it.
fn combined<D: Decls>(
    alloc: Global,
    setting: &Setting<'_>,
    decls: &mut D,
    state: &mut State,
    grouping: Grouping,
    at: Place,
    left: &HackType,
    right: HackType,
) -> Result<HackType, DeclStop>
    ensures { Walks (combined grouping at left.now right) (setting_of setting.now)
        (D.state decls.old) state.old result (D.state decls.new) state.new
        (λ symbols. TypeIn symbols left.now × TypeIn symbols right) TypeIn }
{
    match grouping {
        Grouping::Coalesce => coalesced(alloc, decls, left, right),
        Grouping::Power => operate(
            alloc,
            setting,
            decls,
            state,
            at,
            Operation::Power,
            left,
            &right,
        ),
    }
}
