// What a target is made of.

use crate::Index;
use hack_types::{HackType, NameId, Place};

/// What stands innermost in a target.
#[derive(Drop)]
pub enum Root {
    /// A variable.
    Variable(Place, NameId),
    /// A property of this type.
    Property(HackType),
    /// What can't be assigned to, and the type that it has.
    Other(Place, HackType),
}

/// An element of what stands before it.
#[derive(Drop)]
pub struct Step {
    /// The place of the whole.
    pub at: Place,
    /// The type of what stands before it.
    pub ty: HackType,
    /// The index, where there is one.
    pub index: Option<Index>,
}
