// Operators that have a table.
ghost use Rattle.std.specs.Prelude.{◌≡◌, option_map};
ghost use Rattle.hack_rules.specs.Operators.{assigning, operation_of, operation_text};
ghost use Rattle.hack_operators.specs.Seen.{operation_seen};

use hack_tree::{AssignOperator, BinaryOperator};

/// An operator that has a table: between two operands, `**`, or of an assignment (docs/language.md, Typing expressions,
/// Operators).
#[derive(Clone, Copy, PartialEq, Eq)]
pub enum Operation {
    /// `+`
    Add,
    /// `-`
    Subtract,
    /// `*`
    Multiply,
    /// `/`
    Divide,
    /// `**`
    Power,
    /// `%`
    Remainder,
    /// `&`
    BitAnd,
    /// `|`
    BitOr,
    /// `^`
    BitXor,
    /// `.`
    Concat,
    /// `<`
    Less,
    /// `<=`
    LessEqual,
    /// `>`
    Greater,
    /// `>=`
    GreaterEqual,
    /// `<=>`
    Spaceship,
}

impl Operation {
    /// The operator as it is written.
    pub fn text(self) -> &'static [u8]
        ensures { result.now ≡ operation_text (operation_seen self) }
    {
        match self {
            Operation::Add => b"+",
            Operation::Subtract => b"-",
            Operation::Multiply => b"*",
            Operation::Divide => b"/",
            Operation::Power => b"**",
            Operation::Remainder => b"%",
            Operation::BitAnd => b"&",
            Operation::BitOr => b"|",
            Operation::BitXor => b"^",
            Operation::Concat => b".",
            Operation::Less => b"<",
            Operation::LessEqual => b"<=",
            Operation::Greater => b">",
            Operation::GreaterEqual => b">=",
            Operation::Spaceship => b"<=>",
        }
    }
}

/// The operation of an operator between two operands, where it has a table (docs/language.md, Typing expressions, Operators).
pub fn operation_of(operator: BinaryOperator) -> Option<Operation>
    ensures { option_map operation_seen result ≡ operation_of operator }
{
    match operator {
        BinaryOperator::BitOr => Some(Operation::BitOr),
        BinaryOperator::BitXor => Some(Operation::BitXor),
        BinaryOperator::BitAnd => Some(Operation::BitAnd),
        BinaryOperator::Less => Some(Operation::Less),
        BinaryOperator::LessEqual => Some(Operation::LessEqual),
        BinaryOperator::Greater => Some(Operation::Greater),
        BinaryOperator::GreaterEqual => Some(Operation::GreaterEqual),
        BinaryOperator::Spaceship => Some(Operation::Spaceship),
        BinaryOperator::Add => Some(Operation::Add),
        BinaryOperator::Subtract => Some(Operation::Subtract),
        BinaryOperator::Concat => Some(Operation::Concat),
        BinaryOperator::Multiply => Some(Operation::Multiply),
        BinaryOperator::Divide => Some(Operation::Divide),
        BinaryOperator::Remainder => Some(Operation::Remainder),
        BinaryOperator::Coalesce
        | BinaryOperator::Or
        | BinaryOperator::And
        | BinaryOperator::Equal
        | BinaryOperator::NotEqual
        | BinaryOperator::Identical
        | BinaryOperator::NotIdentical => None,
    }
}

/// The operation of an assignment's operator, where it has a table (docs/language.md, Typing expressions, Assignment).
pub fn assigning(operator: AssignOperator) -> Option<Operation>
    ensures { option_map operation_seen result ≡ assigning operator }
{
    match operator {
        AssignOperator::Add => Some(Operation::Add),
        AssignOperator::Subtract => Some(Operation::Subtract),
        AssignOperator::Multiply => Some(Operation::Multiply),
        AssignOperator::Divide => Some(Operation::Divide),
        AssignOperator::Remainder => Some(Operation::Remainder),
        AssignOperator::Concat => Some(Operation::Concat),
        AssignOperator::BitAnd => Some(Operation::BitAnd),
        AssignOperator::BitOr => Some(Operation::BitOr),
        AssignOperator::BitXor => Some(Operation::BitXor),
        AssignOperator::Power => Some(Operation::Power),
        AssignOperator::Assign | AssignOperator::Coalesce => None,
    }
}
