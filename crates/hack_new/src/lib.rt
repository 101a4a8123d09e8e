//! `new` (docs/language.md, Typing expressions, New).
#![tactic(auto)]

mod constructors;
mod instances;
mod lifting;
mod new;
mod solved;
mod words;

pub use new::new_class;
