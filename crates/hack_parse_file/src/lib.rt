//! Reads files.
#![tactic(auto)]

mod file;
mod lexemes;

pub use file::{absolute, one_tree, parse_file, room_by_length, trees_stay};
pub use hack_parse_expr::ParseStop;
