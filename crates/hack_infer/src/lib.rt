//! Inference of type arguments (docs/language.md, Typing expressions).
#![tactic(auto)]

mod filling;
mod laws;
mod matching;
mod nulls;
mod parts;
mod sight;
mod sights;
mod solving;
mod steps;
mod taken;

pub use filling::{Filling, apply, fill};
pub use laws::{counts, null_is_ruled_out};
pub use matching::match_params;
pub use nulls::without_null;
pub use sight::Sight;
pub use sights::{MOST_STEPS, ancestor_given, sight_of};
pub use solving::solve;
