// Which declaration counts: files are put and taken out, with declarations that no text has side by side.

use crate::plain::{push_number, split};
use crate::types::symbol_of;
use hack_names::{NamingTable, UnitHead, UnitRef};
use hack_show::Out;
use hack_types::{Kind, NoMemory, Place};
use std::alloc::Global;

// The symbols that are asked for.
const ASKED: [(Kind, u32); 4] = [
    (Kind::Class, 1),
    (Kind::Func, 1),
    (Kind::Const, 1),
    (Kind::Class, 2),
];

/// A declaration: its symbol, its line, and the columns where it and its name stand.
type Unit = (Kind, u32, u32, u32, u32);

// The declarations of the files `a`, `ab` and `B`. Of the two classes at 5:1 the later one's name stands first.
fn units(file: &[u8]) -> &'static [Unit] {
    match file {
        b"a" => &[
            (Kind::Class, 1, 5, 1, 9),
            (Kind::Const, 1, 1, 1, 7),
            (Kind::Class, 1, 5, 1, 2),
            (Kind::Func, 1, 4, 2, 11),
        ],
        b"ab" => &[(Kind::Class, 1, 1, 1, 7), (Kind::Class, 2, 1, 2, 8)],
        b"B" => &[
            (Kind::Class, 1, 2, 1, 7),
            (Kind::Func, 1, 1, 9, 18),
            (Kind::Class, 1, 1, 20, 26),
        ],
        _ => &[],
    }
}

fn add_heads(alloc: Global, file: &[u8], heads: &mut Vec<UnitHead>) -> Result<(), NoMemory> {
    let mut index: u32 = 0;
    for (kind, number, line, column, name_column) in units(file) {
        let head = UnitHead {
            symbol: symbol_of(*kind, *number),
            at: Place {
                line: *line,
                column: *column,
            },
            name_at: Place {
                line: *line,
                column: *name_column,
            },
            index,
        };
        heads.push(head)?;
        index = index.wrapping_add(1);
    }
    Ok(())
}

// `+FILE` puts a file, and `-FILE` takes it out.
fn change(alloc: Global, table: &mut NamingTable, word: &[u8]) -> Result<(), NoMemory> {
    match word {
        [b'+', file @ ..] => {
            let mut heads = Vec::new(alloc);
            let added = add_heads(alloc, file, &mut heads);
            let done = put(alloc, table, file, heads.as_slice());
            drop(heads);
            added?;
            done
        }
        [_, file @ ..] => {
            table.remove_file(file);
            Ok(())
        }
        [] => Ok(()),
    }
}

fn put(
    alloc: Global,
    table: &mut NamingTable,
    file: &[u8],
    heads: &[UnitHead],
) -> Result<(), NoMemory> {
    table.remove_file(file);
    table.add_file(alloc, file, heads)
}

/// What counts of each symbol after all changes, and what doesn't.
pub(crate) fn counted(alloc: Global, out: &mut Out<'_>, text: &[u8]) -> Result<(), NoMemory> {
    let mut table = NamingTable::new(alloc);
    let done = change_all(alloc, &mut table, text);
    show_winners(alloc, out, &table);
    out.push(b" but not");
    let losers = table.losers(alloc);
    drop(table);
    if let Ok(losers) = &losers {
        show_losers(alloc, out, losers.as_slice());
    }
    drop(losers);
    done
}

fn change_all(alloc: Global, table: &mut NamingTable, text: &[u8]) -> Result<(), NoMemory> {
    let mut rest = text;
    for _ in 0..text.len() {
        let (word, behind) = split(rest, b' ');
        change(alloc, table, word)?;
        rest = behind;
    }
    Ok(())
}

fn show_winners(alloc: Global, out: &mut Out<'_>, table: &NamingTable) {
    for (kind, number) in ASKED {
        match table.winner(symbol_of(kind, number)) {
            Some(unit) => show(alloc, out, unit.file, unit.head.index),
            None => out.push(b"-;"),
        }
    }
}

fn show_losers(alloc: Global, out: &mut Out<'_>, losers: &[UnitRef]) {
    for unit in losers {
        out.push(b" ");
        show(alloc, out, unit.file.as_slice(), unit.head.index);
    }
}

// The file, the declaration's place in it, and a `;`.
fn show(alloc: Global, out: &mut Out<'_>, file: &[u8], index: u32) {
    out.push(file);
    push_number(alloc, out, index as u64);
    out.push(b";");
}
