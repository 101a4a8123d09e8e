//! Bytes and names, and in `specs/` the definitions that every layer shares: the files by name, the commands of a
//! script and the replies to them (docs/definitions.md).
#![tactic(auto)]

mod bytes;
mod name;

pub use bytes::Bytes;
pub use name::Name;
