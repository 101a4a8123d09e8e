//! The judgements of expressions, statements and written types, as definitions, and what holds of them (docs/language.md, Written
//! types, Typing expressions and Typing statements).
#![tactic(auto)]

mod laws;

pub use laws::{diagnostics_are_added, idle_loops, no_variable_leaves, variables_stand_once};

/// How many loops a loop may stand in (docs/language.md, Typing statements, Loops).
pub const MOST_LOOPS: u32 = 8;
