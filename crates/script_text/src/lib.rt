//! How a script is read: its commands one after another, from a source that gives its bytes in any pieces.
#![tactic(auto)]

mod buffer;
mod head;
mod laws;
mod line;
mod reader;
mod reply;
mod stand;

pub use head::{Head, ReadStop};
pub use laws::{
    bodies_are_settled, commands_are_settled, commands_are_spelled, files_are_read_in_two,
    heads_are_settled, heads_are_spelled, one_script, whole_commands_come_first,
};
pub use reader::ScriptReader;
pub use reply::{Reply, reply_text};
pub use stand::Stand;
