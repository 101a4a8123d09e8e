// What a check finds.
ghost use Rattle.std.specs.Prelude.{◌≡◌, ◌++◌, Some, IfOk, OnOk};
ghost use Rattle.hack_first.specs.FirstTrees.{first_in};
ghost use Rattle.hack_names.specs.Declarations.{losers, winner};
ghost use Rattle.check_state.specs.Inside.{all_findings, finding_for, first_finding, first_in_parsed, function_symbol, is_there, parsed_findings, result_at, result_in, taken_findings, type_found, unit_findings};

use crate::State;
use crate::file::{File, Parsed};
use crate::texts::{fault, mismatch, taken, unbound};
use hack_base::Bytes;
use hack_first::{FirstUnit, Primitive, Returned, first_unit};
use hack_tree::Unit;
use hack_types::{Diag, FileDiag, Kind, NameId, NoMemory, SymbolId};
use std::alloc::Global;

impl State {
    /// All findings, in no order.
    pub(crate) fn findings(&self, alloc: Global) -> Result<Vec<FileDiag>, NoMemory>
        ensures { IfOk result (λ list. list.items ≡ all_findings self.now) }
    {
        let mut list = Vec::new(alloc);
        for (name, file) in self.files.iter() {
            self.add_findings(alloc, name, file, &mut list)?;
        }
        self.add_taken(alloc, &mut list)?;
        Ok(list)
    }

    // Adds the findings in a file: its fault, or those in its units.
    fn add_findings(
        &self,
        alloc: Global,
        name: &Bytes,
        file: &File,
        list: &mut Vec<FileDiag>,
    ) -> Result<(), NoMemory>
        ensures { OnOk result (list.new.items ≡ list.old.items
            ++ parsed_findings self.now name.now file.now.parsed) }
    {
        match &file.parsed {
            Parsed::Tree(tree) => self.add_in_units(alloc, name, tree.units.as_slice(), list),
            Parsed::Fault { place, code } => {
                let diag = fault(alloc, *place, *code)?;
                let file = Bytes::copy_of(alloc, name.as_slice())?;
                list.push(FileDiag { file, diag })?;
                Ok(())
            }
        }
    }

    // Adds the findings in the units of a file that count.
    fn add_in_units(
        &self,
        alloc: Global,
        name: &Bytes,
        units: &[Unit],
        list: &mut Vec<FileDiag>,
    ) -> Result<(), NoMemory>
        ensures { OnOk result (list.new.items ≡ list.old.items
            ++ unit_findings self.now name.now 0 units.now) }
    {
        for index in 0..units.len() {
            if let Some(diag) = self.finding_at(alloc, name, index, &units[index])? {
                let file = Bytes::copy_of(alloc, name.as_slice())?;
                list.push(FileDiag { file, diag })?;
            }
        }
        Ok(())
    }

    // The finding in the unit at this index of the file, if there is one and it counts.
    fn finding_at(
        &self,
        alloc: Global,
        name: &Bytes,
        index: usize,
        unit: &Unit,
    ) -> Result<Option<Diag>, NoMemory>
        ensures { IfOk result (λ found. found
            ≡ first_finding self.now name.now index (first_in unit.now.start unit.now.tree)) }
    {
        match first_unit(unit) {
            Some(first) if self.counts(name, index, first.name) => self.finding(alloc, &first),
            _ => Ok(None),
        }
    }

    // Whether the function of this name that counts is that at this index of the file.
    fn counts(&self, name: &Bytes, index: usize, function: NameId) -> bool
        ensures { result
            ≡ is_there name.now index (winner self.now.table (function_symbol function)) }
    {
        let symbol = SymbolId {
            kind: Kind::Func,
            name: function,
        };
        match self.table.winner(symbol) {
            Some(unit) => unit.file == name.as_slice() && unit.head.index as usize == index,
            None => false,
        }
    }

    // The finding in a unit that counts.
    fn finding(&self, alloc: Global, unit: &FirstUnit) -> Result<Option<Diag>, NoMemory>
        ensures { IfOk result (λ found. found
            ≡ finding_for self.now.names unit.now (type_found self.now unit.now.returned)) }
    {
        match unit.returned {
            Returned::Literal(found) => self.judged(alloc, unit, found),
            Returned::Call(name) => match self.result_at(alloc, name)? {
                None => Ok(Some(unbound(alloc, &self.names, unit, name)?)),
                Some(found) => self.judged(alloc, unit, found),
            },
        }
    }

    // The finding in a unit that counts and returns a value of this type.
    fn judged(
        &self,
        alloc: Global,
        unit: &FirstUnit,
        found: Primitive,
    ) -> Result<Option<Diag>, NoMemory>
        ensures { IfOk result (λ diag. diag ≡ finding_for self.now.names unit.now (Some found)) }
    {
        if found == unit.result {
            return Ok(None);
        }
        Ok(Some(mismatch(alloc, &self.names, unit, found)?))
    }

    // The result of the function of this name that counts.
    fn result_at(&self, alloc: Global, function: NameId) -> Result<Option<Primitive>, NoMemory>
        ensures { IfOk result (λ found. found ≡ result_at self.now function) }
    {
        let symbol = SymbolId {
            kind: Kind::Func,
            name: function,
        };
        let Some(unit) = self.table.winner(symbol) else {
            return Ok(None);
        };
        let name = Bytes::copy_of(alloc, unit.file)?;
        match self.files.get(&name) {
            Some(file) => Ok(result_in(file, unit.head.index as usize)),
            None => Ok(None),
        }
    }

    // Adds what is said of the declarations that don't count.
    fn add_taken(&self, alloc: Global, list: &mut Vec<FileDiag>) -> Result<(), NoMemory>
        ensures { OnOk result (list.new.items ≡ list.old.items
            ++ taken_findings self.now.names (losers self.now.table)) }
    {
        for unit in self.table.losers(alloc)? {
            // the builtin text is no file of the script
            if !unit.file.as_slice().is_empty() {
                let diag = taken(alloc, &self.names, &unit)?;
                list.push(FileDiag {
                    file: unit.file,
                    diag,
                })?;
            }
        }
        Ok(())
    }
}

// The result of the first unit at an index of a file, if there is one.
fn result_in(file: &File, index: usize) -> Option<Primitive>
    ensures { result ≡ result_in (first_in_parsed file.now.parsed index) }
{
    match first_at(file, index) {
        Some(first) => Some(first.result),
        None => None,
    }
}

// The first unit at an index of a file, if it is one.
fn first_at(file: &File, index: usize) -> Option<FirstUnit>
    ensures { result ≡ first_in_parsed file.now.parsed index }
{
    match &file.parsed {
        Parsed::Tree(tree) => first_unit(tree.units.as_slice().get(index)?),
        Parsed::Fault { .. } => None,
    }
}
