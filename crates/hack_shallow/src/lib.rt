//! Shallow declarations: what a declaration says of itself to others, without its bodies, values and places; and the types that written
//! types are.
#![tactic(auto)]

mod laws;
mod members;
mod resolve;
mod scope;
mod shallow;
mod signature;

pub use laws::{one_member, one_shallow};
pub use resolve::{Scope, container_type, in_order, primitive_type};
pub use scope::Parameters;
pub use shallow::shallow_of;
