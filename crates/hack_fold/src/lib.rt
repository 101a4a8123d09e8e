//! Lines and folded declarations: what stands above a class, and what it has from there (docs/language.md, Folding).
#![tactic(auto)]

mod ancestors;
mod folded;
mod inherit;
mod laws;
mod line;
mod merge;
mod put;
mod walk;

pub use folded::fold;
pub use laws::{ancestors_once, line_is_short, members_declared, one_folded, own_alone};
pub use line::{Line, line_of};
