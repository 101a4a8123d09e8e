//! Which declaration of a name counts: the table of what every file declares.
#![tactic(auto)]

mod index;
mod keys;
mod laws;
mod table;
mod unit;

pub use laws::{in_order, winner_and_losers};
pub use table::NamingTable;
pub use unit::{UnitAt, UnitHead, UnitRef};
