// Signatures: what of a declaration others see.

use crate::{HackType, NameId};
use sqlite_items::Items;

/// How a type parameter varies (docs/language.md, Signatures).
#[derive(Clone, Copy, PartialEq, Eq)]
pub enum Variance {
    /// Without a sign.
    Invariant,
    /// `+`
    Covariant,
    /// `-`
    Contravariant,
}

/// A type parameter of a class, an alias, a function or a method.
#[derive(Drop)]
pub struct TypeParam {
    /// Its name.
    pub name: NameId,
    /// Its sign.
    pub variance: Variance,
    /// The bounds behind `as`, in order.
    pub upper: Items<HackType>,
    /// The bounds behind `super`, in order.
    pub lower: Items<HackType>,
}

/// A parameter of a function or method.
#[derive(Drop)]
pub struct Param {
    /// Its type.
    pub ty: HackType,
    /// Whether a call may leave it out: it has a default value.
    pub optional: bool,
}

/// What a call of a function or method needs and gives.
#[derive(Drop)]
pub struct Signature {
    /// Its own type parameters, in order.
    pub type_params: Items<TypeParam>,
    /// Its parameters, in order.
    pub params: Items<Param>,
    /// The type of what it returns.
    pub result: HackType,
}
