// What is known of a chain so far.
ghost use Rattle.std.specs.Prelude.{◌≡◌};
ghost use Rattle.hack_chains.specs.inside.Chaining.{asked};

use hack_tree::BinaryOperator;
use hack_types::HackType;
use hack_walk::Branches;

/// The form in which an operator asks for what stands left of it.
#[derive(Clone, Copy)]
pub enum Wanted {
    /// Its type, as a value.
    Value,
    /// Its type, in the left of `??`.
    Left,
    /// Its branches, as a condition.
    Branches,
}

/// What is known of a chain so far, in the form in which the next operator asks for it.
#[derive(Drop)]
pub enum SoFar {
    /// Its type.
    Value(HackType),
    /// Its branches.
    Branches(Branches),
}

/// The form in which this operator asks for what stands left of it.
pub fn asked(operator: BinaryOperator) -> Wanted
    ensures { result ≡ asked operator }
{
    match operator {
        BinaryOperator::Coalesce => Wanted::Left,
        BinaryOperator::Or | BinaryOperator::And => Wanted::Branches,
        BinaryOperator::BitOr
        | BinaryOperator::BitXor
        | BinaryOperator::BitAnd
        | BinaryOperator::Equal
        | BinaryOperator::NotEqual
        | BinaryOperator::Identical
        | BinaryOperator::NotIdentical
        | BinaryOperator::Less
        | BinaryOperator::LessEqual
        | BinaryOperator::Greater
        | BinaryOperator::GreaterEqual
        | BinaryOperator::Spaceship
        | BinaryOperator::Add
        | BinaryOperator::Subtract
        | BinaryOperator::Concat
        | BinaryOperator::Multiply
        | BinaryOperator::Divide
        | BinaryOperator::Remainder => Wanted::Value,
    }
}
