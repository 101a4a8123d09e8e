//! The rows of expressions that are values by themselves: literals, variables, `$this`, constants, containers, shapes, tests and casts
//! (docs/language.md, Typing expressions).
#![tactic(auto)]

mod constants;
mod containers;
mod shapes;
mod tests;
mod variables;

pub use constants::{constant, literal_type};
pub use containers::{container, dict};
pub use shapes::shape;
pub use tests::{cast, test_branches, tested};
pub use variables::{look_up, this_here, variable_branches};
