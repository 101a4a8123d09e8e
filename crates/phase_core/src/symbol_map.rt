// Maps from symbols.
ghost use Rattle.std.specs.Prelude.{◌≡◌, IsSome, IfOk, OnOk, OnErr, None, if◌then◌else◌, is_some};
ghost use Rattle.std.specs.Option.{option_copied};
ghost use Rattle.std.specs.BTreeMap as tree;
ghost use Rattle.std.specs.FinMap as finite;
ghost use Rattle.std.specs.FinSet as set;
ghost use Rattle.hack_types.specs.declared.ids.SymbolId.{SymbolId as Symbol};
ghost use Rattle.phase_core.specs.Says.{ListsAll};
ghost use Rattle.phase_core.specs.Inside.{put_from};

use crate::{Copied, SymbolSet};
use hack_types::{NoMemory, SymbolId};
use std::alloc::{AllocError, Global};
use std::collections::BTreeMap;
use std::marker::Model;

/// A `BTreeMap` by symbols that contracts see as the finite map.
#[derive(Drop)]
pub struct SymbolMap<V> {
    by_symbol: BTreeMap<SymbolId, V>,
}

impl<V> Model for SymbolMap<V> {
    ghost use Rattle.std.specs.FinMap as finite;
    ghost use Rattle.phase_core.specs.Orders.{symbol_order};
    ghost use Rattle.hack_types.specs.contracts.ids.SymbolId as symbol;

    ghost Value = { finite.FinMap symbol_order V };

    ghost coded = { finite.code symbol.the_row.coded V.code };

    ghost view = { λ m. finite.from_entries m.by_symbol.entries };
}

impl<V> SymbolMap<V> {
    /// The map of no symbol. It takes no memory.
    pub fn new(alloc: Global) -> Self
        ensures { result ≡ finite.empty }
    {
        SymbolMap {
            by_symbol: BTreeMap::new(alloc),
        }
    }

    /// The value of this symbol.
    pub fn get(&self, symbol: SymbolId) -> Option<&V>
        ensures { option_copied result ≡ finite.get self.now symbol }
    {
        self.by_symbol.get(&symbol)
    }

    /// Whether this symbol has a value.
    pub fn has(&self, symbol: SymbolId) -> bool
        ensures { result ≡ is_some (finite.get self.now symbol) }
    {
        self.by_symbol.contains_key(&symbol)
    }

    /// Its symbols in their order, each once.
    pub fn symbols(&self, alloc: Global) -> Result<Vec<SymbolId>, NoMemory>
        ensures { IfOk result (λ list. ListsAll (λ s. IsSome (finite.get self.now s)) list.items) }
    {
        Ok(keys_of(&self.by_symbol, alloc)?)
    }
}

impl<V: Drop> SymbolMap<V> {
    /// Puts a value, in place of the one that the symbol has; after an error the map is as before.
    pub fn insert(&mut self, symbol: SymbolId, value: V) -> Result<(), NoMemory>
        ensures ok { OnOk result (self.new ≡ finite.insert self.old symbol value) }
        ensures err { OnErr result (self.new ≡ self.old) }
    {
        self.by_symbol.insert(symbol, value)?;
        Ok(())
    }
}

impl<V: Copied + Drop> SymbolMap<V> {
    /// The map without the symbols of a set.
    pub fn without(&self, alloc: Global, gone: &SymbolSet) -> Result<Self, NoMemory>
        ensures { IfOk result (λ rest. (s : Symbol) →
            finite.get rest s ≡ (if set.contains gone.now s then None else finite.get self.now s)) }
    {
        let mut rest = SymbolMap::new(alloc);
        let symbols = self.symbols(alloc)?;
        for symbol in &symbols {
            if !gone.contains(*symbol) {
                self.copy_to(alloc, *symbol, &mut rest)?;
            }
        }
        Ok(rest)
    }

    // Puts the value of this symbol, where it has one, into another map too.
    fn copy_to(&self, alloc: Global, symbol: SymbolId, other: &mut Self) -> Result<(), NoMemory>
        ensures { OnOk result (other.new ≡ put_from self.now symbol other.old) }
    {
        if let Some(value) = self.get(symbol) {
            other.insert(symbol, value.copied(alloc)?)?;
        }
        Ok(())
    }
}

impl<V: Copied + Drop> Copied for SymbolMap<V> {
    fn copied(&self, alloc: Global) -> Result<Self, NoMemory> {
        self.without(alloc, &SymbolSet::new(alloc))
    }
}

// The keys, in their order.
fn keys_of<V>(map: &BTreeMap<SymbolId, V>, alloc: Global) -> Result<Vec<SymbolId>, AllocError>
    ensures { IfOk result (λ keys. keys.items ≡ tree.keys map.now) }
{
    map.keys().copied().collect(alloc)
}
