//! What all checks of bodies share: what stays the same in a body, the variables and the diagnostics so far, and the one clause of a check
//! (docs/language.md, Typing expressions).
#![tactic(auto)]

mod below;
mod branches;
mod join;
mod refining;
mod setting;
mod state;
mod unions;
mod variables;
mod widen;

pub use below::is_below;
pub use branches::{Branches, bare_branches, behind_as, tested_branches};
pub use join::{either, joined_with};
pub use refining::{where_is, where_is_not};
pub use setting::Setting;
pub use state::State;
pub use unions::{coalesced, union_of_two};
pub use variables::{Variables, joined};
pub use widen::{mixed_in, taking, widened};
