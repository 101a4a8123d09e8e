//! What the rows of expressions share: what a tree names, what rows ask of the form of a part, and how the checks of parts are handed down to
//! the row around them (docs/language.md, Typing expressions).
#![tactic(auto)]

mod each;
mod form;
mod here;
mod reading;

pub use each::types_of_each;
pub use form::{Form, form_of, place_of};
pub use here::both_here;
pub use reading::Reading;
