// The state of the machine.
use crate::{EdgeSet, SymbolMap, SymbolSet};
use hack_types::SymbolId;
use sqlite_items::Items;

/// A declaration of the world. Equal numbers stand for equal texts, and for equal signatures.
#[derive(Drop)]
pub struct Decl {
    /// The number of its text.
    pub text: u64,
    /// The symbols that its text names.
    pub names: Items<SymbolId>,
    /// The number of its signature.
    pub version: u64,
    /// Its parents.
    pub parents: Items<SymbolId>,
    /// The symbols that its signature names.
    pub mentions: Items<SymbolId>,
}

/// What an image shows of a declaration.
#[derive(Drop)]
pub struct CoreSeen {
    /// The number of its signature.
    pub version: u64,
    /// Its parents.
    pub parents: Items<SymbolId>,
    /// The symbols that its signature names.
    pub mentions: Items<SymbolId>,
}

/// What stands for a folded declaration: each symbol of the closure over parents with what is seen
/// of its declaration, or with none where it isn't declared.
pub type CoreImage = SymbolMap<Option<CoreSeen>>;

/// What stands for a record of the shared heap.
#[derive(Drop)]
pub enum CoreRecord {
    /// A worker, by its number, is about to write it.
    Claimed(u32),
    /// It is written.
    Held(CoreImage),
}

/// What stands for the diagnostics of a unit.
#[derive(Drop)]
pub struct CoreVerdict {
    /// The number of the unit's text.
    pub text: u64,
    /// The symbols that the unit's text names.
    pub names: Items<SymbolId>,
    /// The images that the worker looked at.
    pub known: SymbolMap<CoreImage>,
}

/// What a worker is about.
#[derive(Drop)]
pub enum CoreWorker {
    /// It has nothing to do.
    Idle,
    /// It is at work on a symbol.
    Work {
        /// The symbol.
        symbol: SymbolId,
        /// Whether it checks the symbol's unit, and else it declares the symbol.
        check: bool,
        /// The images that it looked at.
        known: SymbolMap<CoreImage>,
    },
}

/// The state: what is declared, the records and edges, the units to check and the verdicts, and the
/// workers by their numbers, from 0.
#[derive(Drop)]
pub struct CoreState {
    /// What is declared.
    pub world: SymbolMap<Decl>,
    /// The records of symbols.
    pub records: SymbolMap<CoreRecord>,
    /// What was noted.
    pub edges: EdgeSet,
    /// The units to check.
    pub stale: SymbolSet,
    /// The verdicts of units.
    pub verdicts: SymbolMap<CoreVerdict>,
    /// The workers.
    pub workers: Items<CoreWorker>,
    /// Whether the workers are to stop.
    pub raised: bool,
}
