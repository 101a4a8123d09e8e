// What operators make of their operands.
ghost use Rattle.std.specs.Prelude.{◌≡◌, ◌||◌};
ghost use Rattle.hack_decls.specs.Names.{TypeIn};
ghost use Rattle.hack_diag.specs.Messages.{operator_refuses, sign_refuses};
ghost use Rattle.hack_rules.specs.Operators.{is_error, operate, operate_alone, operation_text, sign_text};
ghost use Rattle.hack_rules.specs.Walks.{refuse};
ghost use Rattle.hack_walk.specs.Checks.{Steps, Walks, setting_of};
ghost use Rattle.hack_operators.specs.Operands.{OperandsIn};
ghost use Rattle.hack_operators.specs.Seen.{class_seen, operation_seen, sign_seen};
ghost use Rattle.hack_operators.specs.inside.Calls.{operated, signed};

use crate::{OperandClass, Operation, Sign, class_of, result_of, sign_of};
use hack_decls::{DeclStop, Decls};
use hack_diag::{operator_refuses, sign_refuses};
use hack_types::{HackType, NoMemory, Place};
use hack_walk::{Setting, State};
use std::alloc::Global;

/// The type of an operator between operands of these types (docs/language.md, Typing expressions, Operators): `_` where one is in
/// error, and else what the table has for their classes; where it has nothing 4012 at this place, and `_`. `EdgesFull` says that
/// a lookup's note was refused, and `NoMemory` that memory ran out; what was noted before stays noted.
pub fn operate<D: Decls>(
    alloc: Global,
    setting: &Setting<'_>,
    decls: &mut D,
    state: &mut State,
    at: Place,
    operation: Operation,
    left: &HackType,
    right: &HackType,
) -> Result<HackType, DeclStop>
    ensures { Walks (operate at (operation_seen operation) left.now right.now)
        (setting_of setting.now) (D.state decls.old) state.old result (D.state decls.new) state.new
        (λ symbols. OperandsIn symbols left.now right.now) TypeIn }
{
    let first = class_of(alloc, setting, decls, left)?;
    let second = class_of(alloc, setting, decls, right)?;
    Ok(operated(
        alloc, setting, state, at, operation, left, right, first, second,
    )?)
}

/// The type of a sign before an operand of this type (docs/language.md, Typing expressions, Operators): `_` where it is in error,
/// and else what the sign gives for its class; where it gives nothing 4012 at this place, and `_`. The errors are those of
/// `operate`.
pub fn operate_alone<D: Decls>(
    alloc: Global,
    setting: &Setting<'_>,
    decls: &mut D,
    state: &mut State,
    at: Place,
    sign: Sign,
    operand: &HackType,
) -> Result<HackType, DeclStop>
    ensures { Walks (operate_alone at (sign_seen sign) operand.now)
        (setting_of setting.now) (D.state decls.old) state.old result (D.state decls.new) state.new
        (λ symbols. TypeIn symbols operand.now) TypeIn }
{
    let class = class_of(alloc, setting, decls, operand)?;
    Ok(signed(alloc, setting, state, at, sign, operand, class)?)
}

// What the table has for two classes, and 4012 where it has nothing.
fn operated(
    alloc: Global,
    setting: &Setting<'_>,
    state: &mut State,
    at: Place,
    operation: Operation,
    left: &HackType,
    right: &HackType,
    first: OperandClass,
    second: OperandClass,
) -> Result<HackType, NoMemory>
    ensures { Steps (operated at (operation_seen operation) left.now right.now
        (class_seen first) (class_seen second)) (setting_of setting.now) state.old result state.new
        (λ symbols. OperandsIn symbols left.now right.now) TypeIn }
{
    if any_error(first, second) {
        return Ok(HackType::Any);
    }
    match result_of(operation, first, second) {
        Some(ty) => Ok(ty),
        None => refuse(alloc, setting, state, at, operation, left, right),
    }
}

// Whether one of two operands is in error.
fn any_error(first: OperandClass, second: OperandClass) -> bool
    ensures { result ≡ (is_error (class_seen first) || is_error (class_seen second)) }
{
    first.is_error() || second.is_error()
}

// 4012 for two operands.
fn refuse(
    alloc: Global,
    setting: &Setting<'_>,
    state: &mut State,
    at: Place,
    operation: Operation,
    left: &HackType,
    right: &HackType,
) -> Result<HackType, NoMemory>
    ensures { Steps (refuse at (operator_refuses (operation_text (operation_seen operation))
        left.now right.now)) (setting_of setting.now) state.old result state.new
        (λ symbols. OperandsIn symbols left.now right.now) TypeIn }
{
    let diag = operator_refuses(alloc, setting.names, at, operation.text(), left, right)?;
    state.report(diag)?;
    Ok(HackType::Any)
}

// What a sign gives for a class, and 4012 where it gives nothing.
fn signed(
    alloc: Global,
    setting: &Setting<'_>,
    state: &mut State,
    at: Place,
    sign: Sign,
    operand: &HackType,
    class: OperandClass,
) -> Result<HackType, NoMemory>
    ensures { Steps (signed at (sign_seen sign) operand.now (class_seen class))
        (setting_of setting.now) state.old result state.new
        (λ symbols. TypeIn symbols operand.now) TypeIn }
{
    if class.is_error() {
        return Ok(HackType::Any);
    }
    match sign_of(sign, class) {
        Some(ty) => Ok(ty),
        None => refuse_alone(alloc, setting, state, at, sign, operand),
    }
}

// 4012 for one operand.
fn refuse_alone(
    alloc: Global,
    setting: &Setting<'_>,
    state: &mut State,
    at: Place,
    sign: Sign,
    operand: &HackType,
) -> Result<HackType, NoMemory>
    ensures { Steps (refuse at (sign_refuses (sign_text (sign_seen sign)) operand.now))
        (setting_of setting.now) state.old result state.new
        (λ symbols. TypeIn symbols operand.now) TypeIn }
{
    let diag = sign_refuses(alloc, setting.names, at, sign.text(), operand)?;
    state.report(diag)?;
    Ok(HackType::Any)
}
