// What may happen.
use crate::{CoreEdge, Decl, SymbolMap};
use hack_types::SymbolId;

/// What may happen: an action of the master while no worker holds a seat, or one step of a worker,
/// or of the seat that raises, with the worker's own work after it.
#[derive(Drop)]
pub enum Event {
    /// The master takes another world.
    Edit {
        /// The new world.
        world: SymbolMap<Decl>,
    },
    /// The master takes out the claimed records.
    Sweep,
    /// The master begins a phase.
    Start {
        /// How many workers it has.
        workers: u32,
    },
    /// A worker takes a job.
    Take {
        /// The worker.
        worker: u32,
        /// The symbol.
        symbol: SymbolId,
        /// Whether it is to check the symbol's unit, and else to declare the symbol.
        check: bool,
    },
    /// A worker notes an edge.
    Note {
        /// The worker.
        worker: u32,
        /// The edge.
        edge: CoreEdge,
    },
    /// A worker reads a record.
    Read {
        /// The worker.
        worker: u32,
        /// Whose record.
        symbol: SymbolId,
    },
    /// A worker folds by itself.
    Fold {
        /// The worker.
        worker: u32,
        /// What it folds.
        symbol: SymbolId,
    },
    /// A worker claims the record of a symbol.
    Claim {
        /// The worker.
        worker: u32,
        /// Whose record.
        symbol: SymbolId,
    },
    /// A worker has written the record that it claimed.
    Publish {
        /// The worker.
        worker: u32,
        /// Whose record.
        symbol: SymbolId,
    },
    /// A worker ends its job.
    Finish {
        /// The worker.
        worker: u32,
    },
    /// Somebody asks the workers to stop.
    Raise,
    /// A worker hears that it is to stop.
    Hear {
        /// The worker.
        worker: u32,
    },
}
