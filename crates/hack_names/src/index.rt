// The declarations of all files by their symbols.
ghost use Rattle.std.specs.Prelude.{◌≡◌, Some, None, IfOk, OnOk, OnErr, IfSome, IfNone, false, length};
ghost use Rattle.std.specs.BTreeMap as tree;
ghost use Rattle.hack_names.specs.Inside.{declared_order, spot_order, from_symbol, AreNoted, IsSet, IsSame, IsFirst, HasNone, HasNoTwo, HasOnlyLosers, HasAllLosers, HasLosersOf, KeepsSpots, KeepsNoted, IsNoted, HasFirst, HasOnly, HasNothing, KeepsOtherFiles};

use crate::UnitHead;
use crate::keys::{Declared, Spot};
use hack_base::Bytes;
use hack_types::{NoMemory, Place, SymbolId};
use std::alloc::Global;
use std::collections::btree_map::Range;
use std::collections::{BTreeMap, BTreeSet};

/// The declarations in the order of their symbols and spots, and the symbols that have more than one.
#[derive(Drop)]
pub(crate) struct Index {
    // gives the name with no byte, which takes no memory
    alloc: Global,
    pub(crate) declared: BTreeMap<Declared, UnitHead>,
    // each symbol with two declarations or more; after an error of `add`, until its key is removed, maybe that key's symbol
    pub(crate) contested: BTreeSet<SymbolId>,
}

impl Index {
    /// No declaration. It takes no memory.
    pub(crate) fn new(alloc: Global) -> Self
        ensures empty { tree.IsEmpty result.declared }
        ensures noted { AreNoted result.declared result.contested }
    {
        Index {
            alloc,
            declared: BTreeMap::new(alloc),
            contested: BTreeSet::new(alloc),
        }
    }

    /// Puts a declaration; after an error they are as before.
    pub(crate) fn add(&mut self, key: Declared, head: UnitHead) -> Result<(), NoMemory>
        requires { AreNoted self.old.declared self.old.contested }
        ensures added { OnOk result (IsSet self.old.declared key (Some head) self.new.declared) }
        ensures err { OnErr result (IsSame self.old.declared self.new.declared) }
        ensures noted { AreNoted self.new.declared self.new.contested }
    {
        self.note(&key.symbol)?;
        self.declared.insert(key, head)?;
        Ok(())
    }

    /// Takes a declaration out, where it is there.
    pub(crate) fn remove(&mut self, key: &Declared)
        requires { AreNoted self.old.declared self.old.contested }
        ensures removed { IsSet self.old.declared key.now None self.new.declared }
        ensures noted { AreNoted self.new.declared self.new.contested }
    {
        self.declared.remove(key);
        if !self.has_two(key.symbol) {
            self.contested.remove(&key.symbol);
        }
    }

    /// Puts the declarations of a file that has none. After an error some of them may be there.
    pub(crate) fn enter(
        &mut self,
        alloc: Global,
        file: &[u8],
        units: &[UnitHead],
    ) -> Result<(), NoMemory>
        requires noted { AreNoted self.old.declared self.old.contested }
        requires nothing { HasNothing self.old.declared file.now }
        ensures all { OnOk result (HasFirst self.new.declared file.now units.now (length units.now)) }
        ensures only { HasOnly self.new.declared file.now units.now }
        ensures others { KeepsOtherFiles file.now self.old.declared self.new.declared }
        ensures noted { AreNoted self.new.declared self.new.contested }
    {
        for position in 0..units.len() {
            let head = units[position];
            let file = Bytes::copy_of(alloc, file)?;
            let at = head.at;
            let spot = Spot { file, at, position };
            let symbol = head.symbol;
            self.add(Declared { symbol, spot }, head)?;
        }
        Ok(())
    }

    /// Takes out the declarations of a file, all of which are units in this list. It takes no memory.
    pub(crate) fn leave(&mut self, file: Bytes, units: &[UnitHead])
        requires noted { AreNoted self.old.declared self.old.contested }
        requires only { HasOnly self.old.declared file units.now }
        ensures nothing { HasNothing self.new.declared file }
        ensures others { KeepsOtherFiles file self.old.declared self.new.declared }
        ensures noted { AreNoted self.new.declared self.new.contested }
    {
        // the name goes into each key and comes out again
        let mut name = file;
        for position in 0..units.len() {
            let head = units[position];
            let spot = Spot {
                file: name,
                at: head.at,
                position,
            };
            let key = Declared {
                symbol: head.symbol,
                spot,
            };
            self.remove(&key);
            name = key.spot.file;
        }
    }

    /// The first declaration of a symbol.
    pub(crate) fn first(&self, symbol: SymbolId) -> Option<(&Declared, &UnitHead)>
        ensures found { IfSome result (λ entry. IsFirst self.now.declared symbol entry.0.now entry.1.now) }
        ensures none { IfNone result (HasNone self.now.declared symbol) }
    {
        match self.from_symbol(symbol).next() {
            Some((key, head)) if key.symbol == symbol => Some((key, head)),
            _ => None,
        }
    }

    /// All declarations but the first of each symbol, by their spots.
    pub(crate) fn losers(&self, alloc: Global) -> Result<BTreeMap<Spot, UnitHead>, NoMemory>
        requires { AreNoted self.now.declared self.now.contested }
        ensures only { IfOk result (λ losers. HasOnlyLosers self.now.declared losers) }
        ensures all { IfOk result (λ losers. HasAllLosers self.now.declared losers) }
        ensures ordered { IfOk result (λ losers. tree.IsOrdered spot_order losers) }
    {
        let mut losers = BTreeMap::new(alloc);
        for symbol in self.contested.iter() {
            self.add_losers(alloc, *symbol, &mut losers)?;
        }
        Ok(losers)
    }

    // Notes a symbol that is declared already: it has two declarations once one more is put.
    fn note(&mut self, symbol: &SymbolId) -> Result<(), NoMemory>
        ensures same { self.new.declared.entries ≡ self.old.declared.entries }
        ensures kept { KeepsNoted self.old.contested self.new.contested }
        ensures noted { OnOk result (IsNoted self.new.declared self.new.contested symbol.now) }
    {
        if self.first(*symbol).is_some() {
            self.contested.insert(*symbol)?;
        }
        Ok(())
    }

    // Puts all declarations of a symbol but the first among the losers.
    fn add_losers(
        &self,
        alloc: Global,
        symbol: SymbolId,
        losers: &mut BTreeMap<Spot, UnitHead>,
    ) -> Result<(), NoMemory>
        requires only { HasOnlyLosers self.now.declared losers.old }
        requires ordered { tree.IsOrdered spot_order losers.old }
        ensures only { OnOk result (HasOnlyLosers self.now.declared losers.new) }
        ensures of_symbol { OnOk result (HasLosersOf self.now.declared symbol losers.new) }
        ensures kept { OnOk result (KeepsSpots losers.old losers.new) }
        ensures ordered { OnOk result (tree.IsOrdered spot_order losers.new) }
    {
        let mut entries = self.from_symbol(symbol);
        let _first = entries.next();
        for (key, head) in entries {
            if key.symbol != symbol {
                break;
            }
            losers.insert(key.spot.copy(alloc)?, *head)?;
        }
        Ok(())
    }

    // Whether a symbol has two declarations.
    fn has_two(&self, symbol: SymbolId) -> bool
        ensures { result ≡ false → HasNoTwo self.now.declared symbol }
    {
        let mut entries = self.from_symbol(symbol);
        let _first = entries.next();
        match entries.next() {
            Some((key, _)) => key.symbol == symbol,
            None => false,
        }
    }

    // The declarations of a symbol, and after them those of all later symbols.
    fn from_symbol(&self, symbol: SymbolId) -> Range<'_, Declared, UnitHead>
        ensures entries { result ≡ from_symbol symbol self.now.declared.entries }
        ensures ordered { tree.IsOrdered declared_order self.now.declared }
    {
        let file = Bytes::from_vec(Vec::new(self.alloc));
        let at = Place { line: 0, column: 0 };
        let spot = Spot {
            file,
            at,
            position: 0,
        };
        self.declared.range(Declared { symbol, spot }..)
    }
}
