//! Operators between and before operands, and `? :` (docs/language.md, Typing expressions).
#![tactic(auto)]

mod alone;
mod chains;
mod choice;
mod ends;
mod from_left;
mod from_right;
mod joins;
mod logic;
mod powers;
mod so_far;
mod steps;
mod typed;
mod values;

pub use alone::{not, not_branches, signed};
pub use chains::{chain, chain_branches};
pub use choice::{conditional, short};
pub use powers::power;
