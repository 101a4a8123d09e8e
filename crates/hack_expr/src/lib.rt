//! The check of expressions (docs/language.md, Typing expressions).
#![tactic(auto)]

mod checks;
mod prefixes;
mod rows;
mod targets;
mod tie;

pub use checks::{ExprOut, check, check_expr};
pub use tie::{branches_of, target_of};
