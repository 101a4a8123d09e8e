//! Written types: the types that they are, and what is wrong with them (docs/language.md, Written types).
#![tactic(auto)]

mod arguments;
mod around;
mod bounds;
mod laws;
mod parameters;
mod parts;
mod reports;
mod whole;

pub use arguments::expect_arguments;
pub use bounds::{expect_key, expect_within, is_within};
pub use laws::{keywords_are_types, types_are_small};
pub use whole::{used_trait, written, written_class};
