//! Calls, members, indices and assignments: the rows of expressions whose parts are put together from the checks below
//! (docs/language.md, Typing expressions).
#![tactic(auto)]

mod arguments;
mod assigning;
mod calls;
mod postfixes;
mod references;
mod storing;
mod suffixes;

pub use assigning::{assigned, increased};
pub use calls::{call, new_instance};
pub use postfixes::{postfix, postfix_value};
pub use references::{scoped, static_property};
