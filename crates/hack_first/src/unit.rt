// First units.

use hack_types::{NameId, Place};

/// A type that a first unit may name (docs/language.md, First units).
#[derive(Clone, Copy, PartialEq, Eq)]
pub enum Primitive {
    /// `int`.
    Int,
    /// `string`.
    Str,
}

/// What a first unit returns (docs/language.md, First units).
#[derive(Clone, Copy, PartialEq, Eq)]
pub enum Returned {
    /// A literal of this type.
    Literal(Primitive),
    /// A call of the function of this name.
    Call(NameId),
}

/// A first unit: a function without parameters whose body is one return (docs/language.md, First units).
#[derive(Clone, Copy, PartialEq, Eq)]
pub struct FirstUnit {
    /// The function's name.
    pub name: NameId,
    /// The place of its name in the file.
    pub name_at: Place,
    /// The type that it states.
    pub result: Primitive,
    /// What it returns.
    pub returned: Returned,
    /// The place of the returned expression in the file.
    pub at: Place,
}
