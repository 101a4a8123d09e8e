// What the declarations are ordered by.
ghost use Rattle.std.specs.Prelude.{◌≡◌, IfOk};

use hack_base::Bytes;
use hack_types::{NoMemory, Place, SymbolId};
use std::alloc::Global;

/// Where a declaration stands: by file, then by place, then by position in the file's list.
#[derive(PartialEq, Eq, PartialOrd, Ord, Drop)]
pub(crate) struct Spot {
    /// The file's name.
    pub(crate) file: Bytes,
    /// Where the declaration starts in the file.
    pub(crate) at: Place,
    /// Its position in the file's list, from 0.
    pub(crate) position: usize,
}

impl Spot {
    /// The same spot once more.
    pub(crate) fn copy(&self, alloc: Global) -> Result<Self, NoMemory>
        ensures { IfOk result (λ spot. spot ≡ self.now) }
    {
        let file = Bytes::copy_of(alloc, self.file.as_slice())?;
        Ok(Spot {
            file,
            at: self.at,
            position: self.position,
        })
    }
}

/// A declaration of a symbol at a spot: by symbol, then by spot, so that a symbol's declarations lie together.
#[derive(PartialEq, Eq, PartialOrd, Ord, Drop)]
pub(crate) struct Declared {
    /// What is declared.
    pub(crate) symbol: SymbolId,
    /// Where.
    pub(crate) spot: Spot,
}
