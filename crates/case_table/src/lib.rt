//! Tables of cases: words and the value of each, found by binary search; and tables of numbers by row and column.
#![tactic(auto)]

mod cases;
mod grid;
mod macros;

pub use cases::Cases;
pub use grid::Grid;
