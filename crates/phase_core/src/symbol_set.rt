// Sets of symbols.
ghost use Rattle.std.specs.Prelude.{◌≡◌, IsTrue, IfOk, OnOk, OnErr};
ghost use Rattle.std.specs.FinSet as set;
ghost use Rattle.phase_core.specs.Says.{ListsAll};

use crate::Copied;
use hack_types::{NoMemory, SymbolId};
use std::alloc::{AllocError, Global};
use std::collections::BTreeSet;
use std::marker::Model;

/// A `BTreeSet` of symbols that contracts see as the finite set.
#[derive(Drop)]
pub struct SymbolSet {
    symbols: BTreeSet<SymbolId>,
}

impl Model for SymbolSet {
    ghost use Rattle.std.specs.FinSet as set;
    ghost use Rattle.phase_core.specs.Orders.{symbol_order};
    ghost use Rattle.hack_types.specs.contracts.ids.SymbolId as symbol;

    ghost Value = { set.FinSet symbol_order };

    ghost coded = { set.code symbol.the_row.coded };

    ghost view = { λ s. set.from_list s.symbols.keys };
}

impl SymbolSet {
    /// The set of no symbol. It takes no memory.
    pub fn new(alloc: Global) -> Self
        ensures { result ≡ set.empty }
    {
        SymbolSet {
            symbols: BTreeSet::new(alloc),
        }
    }

    /// Whether this symbol is in it.
    pub fn contains(&self, symbol: SymbolId) -> bool
        ensures { result ≡ set.contains self.now symbol }
    {
        self.symbols.contains(&symbol)
    }

    /// Puts a symbol; after an error the set is as before.
    pub fn insert(&mut self, symbol: SymbolId) -> Result<(), NoMemory>
        ensures ok { OnOk result (self.new ≡ set.insert self.old symbol) }
        ensures err { OnErr result (self.new ≡ self.old) }
    {
        self.symbols.insert(symbol)?;
        Ok(())
    }

    /// Takes a symbol out, where it is there.
    pub fn remove(&mut self, symbol: SymbolId)
        ensures { self.new ≡ set.remove self.old symbol }
    {
        self.symbols.remove(&symbol);
    }

    /// Its symbols in their order, each once.
    pub fn symbols(&self, alloc: Global) -> Result<Vec<SymbolId>, NoMemory>
        ensures { IfOk result (λ l. ListsAll (λ s. IsTrue (set.contains self.now s)) l.items) }
    {
        Ok(keys_of(&self.symbols, alloc)?)
    }
}

// The keys, in their order.
fn keys_of(set: &BTreeSet<SymbolId>, alloc: Global) -> Result<Vec<SymbolId>, AllocError>
    ensures { IfOk result (λ keys. keys.items ≡ set.now.keys) }
{
    set.iter().copied().collect(alloc)
}

impl Copied for SymbolSet {
    fn copied(&self, _alloc: Global) -> Result<Self, NoMemory> {
        Ok(SymbolSet {
            symbols: self.symbols.clone()?,
        })
    }
}
