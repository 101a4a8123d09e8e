//! First units: functions without parameters that return a literal or a call, read off the trees of declarations.
#![tactic(auto)]

mod first;
mod laws;
mod unit;

pub use first::{are_first, first_unit};
pub use laws::{as_trees, first_units_are_units};
pub use unit::{FirstUnit, Primitive, Returned};
