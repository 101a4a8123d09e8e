// Units by their heads: what the table is given and what it answers.
use hack_base::Bytes;
use hack_types::{Place, SymbolId};

/// The head of a unit: what the unit declares, and where it stands (docs/language.md, Which declaration counts).
#[derive(Clone, Copy, PartialEq, Eq)]
pub struct UnitHead {
    /// What it declares.
    pub symbol: SymbolId,
    /// Where it starts.
    pub at: Place,
    /// Where its name stands.
    pub name_at: Place,
    /// Its position in its file's list of units, from 0.
    pub index: u32,
}

/// A unit, borrowed from the table.
#[derive(Drop)]
pub struct UnitAt<'a> {
    /// Its file's name.
    pub file: &'a [u8],
    /// Its head.
    pub head: UnitHead,
}

/// A unit that stands alone.
#[derive(Drop)]
pub struct UnitRef {
    /// Its file's name.
    pub file: Bytes,
    /// Its head.
    pub head: UnitHead,
}
