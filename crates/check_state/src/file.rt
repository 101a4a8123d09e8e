// One file as it is kept: its tree or its fault, and the heads of its declarations.
ghost use Rattle.std.specs.Prelude.{◌≡◌, ◌≤◌, ◌+◌, ◌*◌, None, IfOk, OnOk, length};
ghost use Rattle.std.specs.FinMap.{get};
ghost use Rattle.hack_parse_file.specs.Lexemes.{Extends};
ghost use Rattle.hack_parse_file.specs.Room.{most_bytes, HasRoom};
ghost use Rattle.check_state.specs.Stands.{IsRead, heads_from, others_in, with_file};

use hack_first::are_first;
use hack_names::{NamingTable, UnitHead};
use hack_parse_file::{ParseStop, parse_file};
use hack_tree::{FileTree, Unit};
use hack_types::{Names, NoMemory, Place};
use std::alloc::Global;

/// A file without its bytes.
#[derive(Drop)]
pub(crate) struct File {
    /// How many bytes it has.
    pub(crate) len: u64,
    /// What they are.
    pub(crate) parsed: Parsed,
}

/// What the bytes of a file are to the grammar (docs/language.md, Grammar).
#[derive(Drop)]
pub(crate) enum Parsed {
    /// They have this tree.
    Tree(FileTree),
    /// They have no tree.
    Fault {
        /// Where their fault is.
        place: Place,
        /// Which it is.
        code: u16,
    },
}

impl File {
    /// Reads the bytes of a file, whose names are among `names` from now on.
    pub(crate) fn read(alloc: Global, names: &mut Names, bytes: &[u8]) -> Result<Self, NoMemory>
        requires short { length bytes.now ≤ most_bytes }
        requires room { HasRoom names.old bytes.now }
        ensures file { IfOk result (λ file. IsRead names.new bytes.now file) }
        ensures kept { Extends names.old names.new }
        ensures few { 2 * length names.new ≤ 2 * length names.old + length bytes.now + 3 }
    {
        let parsed = match parse_file(alloc, names, bytes) {
            Ok(tree) => Parsed::Tree(tree),
            Err(ParseStop::Fault { place, code }) => Parsed::Fault { place, code },
            Err(ParseStop::NoMemory) => return Err(NoMemory),
        };
        Ok(File {
            len: bytes.len() as u64,
            parsed,
        })
    }

    /// 1 where it has a tree and isn't a list of first units, and 0 where it is one or has no tree.
    pub(crate) fn others(&self) -> u64
        ensures { result ≡ others_in self.now.parsed }
    {
        match &self.parsed {
            Parsed::Tree(tree) if !are_first(tree.units.as_slice()) => 1,
            _ => 0,
        }
    }

    /// Enters its declarations under this name, which isn't in the table.
    pub(crate) fn enter(
        &self,
        alloc: Global,
        name: &[u8],
        table: &mut NamingTable,
    ) -> Result<(), NoMemory>
        requires { get table.old name.now ≡ None }
        ensures { OnOk result (table.new ≡ with_file table.old name.now self.now.parsed) }
    {
        match &self.parsed {
            Parsed::Tree(tree) => {
                let heads = heads(alloc, tree.units.as_slice())?;
                table.add_file(alloc, name, &heads)
            }
            Parsed::Fault { .. } => Ok(()),
        }
    }
}

// The heads of the declarations of a file, in their order.
fn heads(alloc: Global, units: &[Unit]) -> Result<Vec<UnitHead>, NoMemory>
    ensures { IfOk result (λ heads. heads.items ≡ heads_from 0 units.now) }
{
    let mut heads = Vec::new(alloc);
    let mut index = 0u32;
    for unit in units {
        heads.push(UnitHead {
            symbol: unit.symbol,
            at: unit.start,
            name_at: unit.name_at,
            index,
        })?;
        // as many declarations wouldn't fit into memory
        index = index.checked_add(1).ok_or(NoMemory)?;
    }
    Ok(heads)
}
