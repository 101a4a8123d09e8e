// Copies of what owns memory.
ghost use Rattle.std.specs.Prelude.{◌≡◌, IfOk};

use crate::{CoreRecord, CoreSeen, CoreState, CoreVerdict, CoreWorker, Decl};
use hack_types::{NoMemory, SymbolId};
use sqlite_items::Items;
use std::alloc::Global;

/// What can be had once more.
pub trait Copied: Sized {
    /// The same value once more; an error says that memory ran out.
    fn copied(&self, alloc: Global) -> Result<Self, NoMemory>
        ensures { IfOk result (λ copy. copy ≡ self.now) };
}

impl Copied for SymbolId {
    fn copied(&self, _alloc: Global) -> Result<Self, NoMemory> {
        Ok(*self)
    }
}

impl<T: Copied + Drop> Copied for Items<T> {
    fn copied(&self, alloc: Global) -> Result<Self, NoMemory> {
        let mut copies = Vec::with_capacity(alloc, self.len())?;
        for item in self.as_slice() {
            copies.push(item.copied(alloc)?)?;
        }
        Ok(Items::from_vec(copies))
    }
}

impl<T: Copied> Copied for Option<T> {
    fn copied(&self, alloc: Global) -> Result<Self, NoMemory> {
        match self {
            Some(value) => Ok(Some(value.copied(alloc)?)),
            None => Ok(None),
        }
    }
}

impl Copied for Decl {
    fn copied(&self, alloc: Global) -> Result<Self, NoMemory> {
        Ok(Decl {
            text: self.text,
            names: self.names.copied(alloc)?,
            version: self.version,
            parents: self.parents.copied(alloc)?,
            mentions: self.mentions.copied(alloc)?,
        })
    }
}

impl Copied for CoreSeen {
    fn copied(&self, alloc: Global) -> Result<Self, NoMemory> {
        Ok(CoreSeen {
            version: self.version,
            parents: self.parents.copied(alloc)?,
            mentions: self.mentions.copied(alloc)?,
        })
    }
}

impl Copied for CoreRecord {
    fn copied(&self, alloc: Global) -> Result<Self, NoMemory> {
        match self {
            CoreRecord::Claimed(worker) => Ok(CoreRecord::Claimed(*worker)),
            CoreRecord::Held(image) => Ok(CoreRecord::Held(image.copied(alloc)?)),
        }
    }
}

impl Copied for CoreVerdict {
    fn copied(&self, alloc: Global) -> Result<Self, NoMemory> {
        Ok(CoreVerdict {
            text: self.text,
            names: self.names.copied(alloc)?,
            known: self.known.copied(alloc)?,
        })
    }
}

impl Copied for CoreWorker {
    fn copied(&self, alloc: Global) -> Result<Self, NoMemory> {
        match self {
            CoreWorker::Idle => Ok(CoreWorker::Idle),
            CoreWorker::Work {
                symbol,
                check,
                known,
            } => Ok(CoreWorker::Work {
                symbol: *symbol,
                check: *check,
                known: known.copied(alloc)?,
            }),
        }
    }
}

impl Copied for CoreState {
    fn copied(&self, alloc: Global) -> Result<Self, NoMemory> {
        Ok(CoreState {
            world: self.world.copied(alloc)?,
            records: self.records.copied(alloc)?,
            edges: self.edges.copied(alloc)?,
            stale: self.stale.copied(alloc)?,
            verdicts: self.verdicts.copied(alloc)?,
            workers: self.workers.copied(alloc)?,
            raised: self.raised,
        })
    }
}
