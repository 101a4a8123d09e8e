//! The numbers of all diagnostics.
#![tactic(auto)]

mod code;

pub use code::Code;
