// Operators before an operand that have a table.
ghost use Rattle.std.specs.Prelude.{◌≡◌, option_map};
ghost use Rattle.hack_types.specs.declared.hack_type.HackType.TheVariants as type;
ghost use Rattle.hack_rules.specs.Operators.{given_if, is_int, number_type, sign_of, sign_text};
ghost use Rattle.hack_operators.specs.Seen.{class_seen, sign_before, sign_seen};

use crate::OperandClass;
use hack_tree::PrefixOperator;
use hack_types::HackType;

/// An operator before an operand that has a table (docs/language.md, Typing expressions, Operators).
#[derive(Clone, Copy, PartialEq, Eq)]
pub enum Sign {
    /// `-`
    Minus,
    /// `+`
    Plus,
    /// `~`
    Complement,
}

impl Sign {
    /// The operator as it is written.
    pub fn text(self) -> &'static [u8]
        ensures { result.now ≡ sign_text (sign_seen self) }
    {
        match self {
            Sign::Minus => b"-",
            Sign::Plus => b"+",
            Sign::Complement => b"~",
        }
    }
}

/// The sign that an operator before an operand is, where it has a table (docs/language.md, Typing expressions, Operators).
pub fn sign_before(operator: PrefixOperator) -> Option<Sign>
    ensures { option_map sign_seen result ≡ sign_before operator }
{
    match operator {
        PrefixOperator::Minus => Some(Sign::Minus),
        PrefixOperator::Plus => Some(Sign::Plus),
        PrefixOperator::BitNot => Some(Sign::Complement),
        PrefixOperator::Not | PrefixOperator::Increment | PrefixOperator::Decrement => None,
    }
}

/// What a sign gives for a class, where it takes it: `-` and `+` the number's type, `~` an int for an int (docs/language.md, Typing
/// expressions, Operators).
#[tactic(auto, unfolding(hack_rules::specs::Operators::sign_of))]
pub fn sign_of(sign: Sign, class: OperandClass) -> Option<HackType>
    ensures { result ≡ sign_of (sign_seen sign) (class_seen class) }
{
    match sign {
        Sign::Minus | Sign::Plus => number_type(class),
        Sign::Complement => int_alone(class),
    }
}

// The type of a number's class.
fn number_type(class: OperandClass) -> Option<HackType>
    ensures { result ≡ number_type (class_seen class) }
{
    match class {
        OperandClass::Int => Some(HackType::Int),
        OperandClass::Float => Some(HackType::Float),
        OperandClass::Num => Some(HackType::Num),
        OperandClass::Error
        | OperandClass::Str
        | OperandClass::Bool
        | OperandClass::Arraykey
        | OperandClass::Other => None,
    }
}

// An int for an int.
fn int_alone(class: OperandClass) -> Option<HackType>
    ensures { result ≡ given_if (is_int (class_seen class)) type.Int }
{
    match class {
        OperandClass::Int => Some(HackType::Int),
        OperandClass::Error
        | OperandClass::Float
        | OperandClass::Num
        | OperandClass::Str
        | OperandClass::Bool
        | OperandClass::Arraykey
        | OperandClass::Other => None,
    }
}
