//! Reads statements.
#![tactic(auto)]

mod laws;
mod statements;

pub use laws::as_the_table;
pub use statements::{block, statement};
