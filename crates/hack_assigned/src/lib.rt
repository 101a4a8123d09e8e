//! Which variables expressions and statements assign, in the order in which the judgement names them (docs/language.md, Typing statements): what
//! `catch` and `finally` can't know begins with is `mixed`.
#![tactic(auto)]

mod expressions;
mod roots;
mod statements;

pub use expressions::assigned_in_expression;
pub use statements::{assigned_in_block, assigned_in_catches};
