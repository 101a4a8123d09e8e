// Operands that were typed.

use hack_types::{HackType, Place};

/// What groups from the right.
#[derive(Clone, Copy)]
pub enum Grouping {
    /// `??`
    Coalesce,
    /// `**`
    Power,
}

/// An operand that was typed.
#[derive(Drop)]
pub struct Typed {
    /// The place of its first token.
    pub at: Place,
    /// Its type.
    pub ty: HackType,
}
