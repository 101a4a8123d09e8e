//! Reads declarations.
#![tactic(auto)]

mod declaration;
mod member;
mod signature;

pub use declaration::declared;
pub use signature::{attributes_if_any, begins_attributes};
