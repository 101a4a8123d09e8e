// The edges between symbols.
use hack_types::SymbolId;

/// What somebody noted on the way: a check edge says that the unit `from` looked at `to`, a fold
/// edge that the record of `from` was made of `to`.
#[derive(Clone, Copy, PartialEq, Eq, PartialOrd, Ord)]
pub struct CoreEdge {
    /// Whether it is a fold edge, and else a check edge.
    pub fold: bool,
    /// Who looked.
    pub from: SymbolId,
    /// What was looked at.
    pub to: SymbolId,
}
