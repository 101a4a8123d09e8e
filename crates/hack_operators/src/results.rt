// What operators give for the classes of their operands: a table for each group of them.
ghost use Rattle.std.specs.Prelude.{◌≡◌, ◌==◌};
ghost use Rattle.case_table.specs.Grids.{cell, rows};
ghost use Rattle.hack_rules.specs.Operators.{bits_of, given_if, order_of, quotient_of, result_of, sum_of, text_of};
ghost use Rattle.hack_operators.specs.Seen.{class_seen, operation_seen};
ghost use Rattle.hack_operators.specs.inside.Tables.{place, type_by};

use crate::{OperandClass, Operation};
use case_table::{Grid, grid};
use hack_types::HackType;

// What stands in the tables: a type, or NO where the operator does not take the operands. Rows and columns stand in the order of
// the classes: error, int, float, num, string, bool, arraykey, other.
const NO: u8 = 0;

const INT: u8 = 1;

const FLOAT: u8 = 2;

const NUM: u8 = 3;

const STR: u8 = 4;

// In a table of operands that an operator takes, whatever it gives.
const YES: u8 = 1;

/// What an operator gives for operands of these classes, where it takes them (docs/language.md, Typing expressions, Operators).
#[tactic(auto, unfolding(hack_rules::specs::Operators::result_of))]
pub fn result_of(operation: Operation, left: OperandClass, right: OperandClass) -> Option<HackType>
    ensures { result ≡ result_of (operation_seen operation) (class_seen left) (class_seen right) }
{
    match operation {
        Operation::Add | Operation::Subtract | Operation::Multiply => sum_of(left, right),
        Operation::Divide | Operation::Power => quotient_of(left, right),
        Operation::Remainder | Operation::BitAnd | Operation::BitOr | Operation::BitXor => {
            bits_of(left, right)
        }
        Operation::Concat => text_of(left, right),
        Operation::Less | Operation::LessEqual | Operation::Greater | Operation::GreaterEqual =>
            order_of(HackType::Bool, left, right),
        Operation::Spaceship => order_of(HackType::Int, left, right),
    }
}

// `+ - *`
fn sum_of(left: OperandClass, right: OperandClass) -> Option<HackType>
    ensures { result ≡ sum_of (class_seen left) (class_seen right) }
{
    let table = grid!(
        [NO, NO, NO, NO, NO, NO, NO, NO],
        [NO, INT, FLOAT, NUM, NO, NO, NO, NO],
        [NO, FLOAT, FLOAT, FLOAT, NO, NO, NO, NO],
        [NO, NUM, FLOAT, NUM, NO, NO, NO, NO],
        [NO, NO, NO, NO, NO, NO, NO, NO],
        [NO, NO, NO, NO, NO, NO, NO, NO],
        [NO, NO, NO, NO, NO, NO, NO, NO],
        [NO, NO, NO, NO, NO, NO, NO, NO],
    );
    type_at(&table, left, right)
}

// `/ **`
fn quotient_of(left: OperandClass, right: OperandClass) -> Option<HackType>
    ensures { result ≡ quotient_of (class_seen left) (class_seen right) }
{
    let table = grid!(
        [NO, NO, NO, NO, NO, NO, NO, NO],
        [NO, NUM, FLOAT, NUM, NO, NO, NO, NO],
        [NO, FLOAT, FLOAT, FLOAT, NO, NO, NO, NO],
        [NO, NUM, FLOAT, NUM, NO, NO, NO, NO],
        [NO, NO, NO, NO, NO, NO, NO, NO],
        [NO, NO, NO, NO, NO, NO, NO, NO],
        [NO, NO, NO, NO, NO, NO, NO, NO],
        [NO, NO, NO, NO, NO, NO, NO, NO],
    );
    type_at(&table, left, right)
}

// `% & | ^`
fn bits_of(left: OperandClass, right: OperandClass) -> Option<HackType>
    ensures { result ≡ bits_of (class_seen left) (class_seen right) }
{
    let table = grid!(
        [NO, NO, NO, NO, NO, NO, NO, NO],
        [NO, INT, NO, NO, NO, NO, NO, NO],
        [NO, NO, NO, NO, NO, NO, NO, NO],
        [NO, NO, NO, NO, NO, NO, NO, NO],
        [NO, NO, NO, NO, NO, NO, NO, NO],
        [NO, NO, NO, NO, NO, NO, NO, NO],
        [NO, NO, NO, NO, NO, NO, NO, NO],
        [NO, NO, NO, NO, NO, NO, NO, NO],
    );
    type_at(&table, left, right)
}

// `.`
fn text_of(left: OperandClass, right: OperandClass) -> Option<HackType>
    ensures { result ≡ text_of (class_seen left) (class_seen right) }
{
    let table = grid!(
        [NO, NO, NO, NO, NO, NO, NO, NO],
        [NO, STR, STR, STR, STR, NO, STR, NO],
        [NO, STR, STR, STR, STR, NO, STR, NO],
        [NO, STR, STR, STR, STR, NO, STR, NO],
        [NO, STR, STR, STR, STR, NO, STR, NO],
        [NO, NO, NO, NO, NO, NO, NO, NO],
        [NO, STR, STR, STR, STR, NO, STR, NO],
        [NO, NO, NO, NO, NO, NO, NO, NO],
    );
    type_at(&table, left, right)
}

// `< <= > >= <=>`: this type.
fn order_of(ty: HackType, left: OperandClass, right: OperandClass) -> Option<HackType>
    ensures { result ≡ order_of ty (class_seen left) (class_seen right) }
{
    let table = grid!(
        [NO, NO, NO, NO, NO, NO, NO, NO],
        [NO, YES, YES, YES, NO, NO, NO, NO],
        [NO, YES, YES, YES, NO, NO, NO, NO],
        [NO, YES, YES, YES, NO, NO, NO, NO],
        [NO, NO, NO, NO, YES, NO, NO, NO],
        [NO, NO, NO, NO, NO, NO, NO, NO],
        [NO, NO, NO, NO, NO, NO, NO, NO],
        [NO, NO, NO, NO, NO, NO, NO, NO],
    );
    given_if(is_marked(&table, left, right), ty)
}

// The type, where the operator takes the operands.
fn given_if(fits: bool, ty: HackType) -> Option<HackType>
    ensures { result ≡ given_if fits ty }
{
    if fits { Some(ty) } else { None }
}

// Whether YES stands in a table's row and column.
fn is_marked(table: &Grid<8, 8>, left: OperandClass, right: OperandClass) -> bool
    ensures { result ≡ (cell (rows table.now) (place left) (place right) == 1) }
{
    table.at(left.place(), right.place()) == YES
}

// The type in a table's row and column.
fn type_at(table: &Grid<8, 8>, left: OperandClass, right: OperandClass) -> Option<HackType>
    ensures { result ≡ type_by (cell (rows table.now) (place left) (place right)) }
{
    type_by(table.at(left.place(), right.place()))
}

// The type that a number in a table stands for.
fn type_by(cell: u8) -> Option<HackType>
    ensures { result ≡ type_by cell }
{
    match cell {
        INT => Some(HackType::Int),
        FLOAT => Some(HackType::Float),
        NUM => Some(HackType::Num),
        STR => Some(HackType::Str),
        _ => None,
    }
}
