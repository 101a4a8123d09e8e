//! Calls, the mentions of classes before `::` and behind `new`, and heads (docs/language.md, Typing expressions).
#![tactic(auto)]

mod argument;
mod calls;
mod functions;
mod heads;
mod matching;
mod mentions;
mod parents;
mod reports;

pub use argument::Argument;
pub use calls::{call_solved, call_with, filled_limited};
pub use functions::call_function;
pub use heads::{head_of, or_self};
pub use matching::solved_types;
pub use mentions::{Declared, mention, referred, shown_name};
pub use reports::{expect, expect_count};
