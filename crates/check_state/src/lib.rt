//! The current files: what they declare, and what a check of them finds.
#![tactic(auto)]

mod edit;
mod file;
mod laws;
mod report;
mod state;
mod texts;

pub use edit::{Edit, EditStop};
pub use laws::{builtin_text_has_a_tree, room_by_length};
pub use state::State;
