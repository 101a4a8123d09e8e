//! The server: reads a script, keeps the files and replies to each command.
#![tactic(auto)]

mod command;
mod run;
mod session;
mod status;

pub use run::{hack_main, one_answer};
pub use status::Status;
