//! Targets of assignments: an index as a value and as a target, targets whose parts were typed, what they are as values, and what is stored
//! to them (docs/language.md, Typing expressions, Index and Assignment).
#![tactic(auto)]

mod bases;
mod classes;
mod elements;
mod fields;
mod index;
mod made;
mod reading;
mod reports;
mod steps;
mod storing;
mod target;

pub use bases::with_element;
pub use elements::element;
pub use index::Index;
pub use reading::{into_value, read};
pub use storing::store;
pub use target::Target;
