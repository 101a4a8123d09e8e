//! The phases of workers as a pure machine of events, in which numbers stand for texts and
//! signatures.
#![tactic(auto)]

mod ask;
mod closure;
mod copied;
mod edge;
mod edge_set;
mod edits;
mod event;
mod image;
mod laws;
mod machine;
mod phases;
mod state;
mod symbol_map;
mod symbol_set;
mod workers;

pub use copied::Copied;
pub use edge::CoreEdge;
pub use edge_set::EdgeSet;
pub use event::Event;
pub use laws::sound;
pub use machine::{run, step};
pub use state::{CoreImage, CoreRecord, CoreSeen, CoreState, CoreVerdict, CoreWorker, Decl};
pub use symbol_map::SymbolMap;
pub use symbol_set::SymbolSet;
