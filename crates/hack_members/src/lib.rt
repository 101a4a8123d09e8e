//! Members of types, and who may use them (docs/language.md, Typing expressions, Members).
#![tactic(auto)]

mod cases;
mod found;
mod heads;
mod missing;
mod usable;
mod visible;
mod wanted;

pub use heads::member_of;
pub use usable::expect_usable;
pub use wanted::{Sought, StaticUse, Wanted};
