// The table of what every file declares.
ghost use Rattle.std.specs.Prelude.{◌≡◌, None, IfOk, OnOk, OnErr};
ghost use Rattle.std.specs.Option.{option_map};
ghost use Rattle.std.specs.FinMap.{empty, get, insert, remove};
ghost use Rattle.hack_names.specs.Declarations.{declaration_of, winner, losers};

use crate::index::Index;
use crate::{UnitAt, UnitHead, UnitRef};
use hack_base::Bytes;
use hack_types::{NoMemory, SymbolId};
use std::alloc::Global;
use std::collections::BTreeMap;
use std::marker::Model;

/// The heads of the units of every file. Contracts see the finite map from each file's name to its list of heads
/// (docs/language.md, Which declaration counts).
///
/// A call costs a logarithm of what is there for each unit that it speaks of, however many other files there are.
#[derive(Drop)]
pub struct NamingTable {
    files: BTreeMap<Vec<u8>, Vec<UnitHead>>,
    index: Index,
}

impl Model for NamingTable {
    ghost use Rattle.hack_names.specs.Declarations.{Table};
    ghost use Rattle.std.specs.FinMap as finite;
    ghost use Rattle.std.specs.Coded.{coded_ℕ, coded_list};
    ghost use Rattle.hack_names.specs.contracts.unit.UnitHead as unit_head;

    ghost Value = { Table };

    ghost coded = { finite.code (coded_list coded_ℕ) (coded_list (unit_head.the_row).coded) };

    ghost use Rattle.hack_names.specs.Inside.{table_of, IsTable};

    ghost view = { λ table. table_of table.files.entries };

    ghost invariant = { λ table. IsTable (table_of table.files.entries) table.index };
}

impl NamingTable {
    /// The table of no files. It takes no memory.
    pub fn new(alloc: Global) -> Self
        ensures { result ≡ empty }
    {
        NamingTable {
            files: BTreeMap::new(alloc),
            index: Index::new(alloc),
        }
    }

    /// Adds a file, which isn't there yet, with the heads of its units in their order.
    ///
    /// An error says that memory ran out, and the table is as before.
    pub fn add_file(
        &mut self,
        alloc: Global,
        file: &[u8],
        units: &[UnitHead],
    ) -> Result<(), NoMemory>
        requires { get self.old file.now ≡ None }
        ensures added { OnOk result (self.new ≡ insert self.old file.now units.now) }
        ensures err { OnErr result (self.new ≡ self.old) }
    {
        let name = Vec::from_slice(alloc, file)?;
        let kept = Vec::from_slice(alloc, units)?;
        if self.index.enter(alloc, file, units).is_err() {
            self.index.leave(Bytes::from_vec(name), units);
            return Err(NoMemory);
        }
        match self.files.insert(name, kept) {
            Ok(_) => Ok(()),
            Err(refused) => {
                let (name, _) = refused.value;
                self.index.leave(Bytes::from_vec(name), units);
                Err(NoMemory)
            }
        }
    }

    /// Takes a file out with its units; where there is no such file, the table stays. It takes no memory.
    pub fn remove_file(&mut self, file: &[u8])
        ensures { self.new ≡ remove self.old file.now }
    {
        if let Some((name, units)) = self.files.remove_entry(file) {
            self.index.leave(Bytes::from_vec(name), &units);
        }
    }

    /// The declaration of a symbol that counts, or `None` where nothing declares it
    /// (docs/language.md, Which declaration counts). It takes no memory.
    pub fn winner(&self, symbol: SymbolId) -> Option<UnitAt<'_>>
        ensures { option_map declaration_of result ≡ winner self.now symbol }
    {
        match self.index.first(symbol) {
            Some((key, head)) => Some(UnitAt {
                file: key.spot.file.as_slice(),
                head: *head,
            }),
            None => None,
        }
    }

    /// All declarations that don't count, of all symbols, in the order of their files and places
    /// (docs/language.md, Which declaration counts). An error says that memory ran out.
    pub fn losers(&self, alloc: Global) -> Result<Vec<UnitRef>, NoMemory>
        ensures { IfOk result (λ list. list.items ≡ losers self.now) }
    {
        let mut list = Vec::new(alloc);
        for (spot, head) in self.index.losers(alloc)? {
            let file = Bytes::from_vec(spot.file.into_vec());
            list.push(UnitRef { file, head })?;
        }
        Ok(list)
    }
}
