//! Operands and operators (docs/language.md, Typing expressions, Operators).
#![tactic(auto)]

mod asked;
mod checks;
mod class;
mod laws;
mod operation;
mod results;
mod sign;

pub use asked::class_of;
pub use checks::{operate, operate_alone};
pub use class::OperandClass;
pub use laws::{either_order, error_is_silent};
pub use operation::{Operation, assigning, operation_of};
pub use results::result_of;
pub use sign::{Sign, sign_before, sign_of};
