// Files of declarations: their trees, faults, first units and signatures.

use crate::plain::{note, push_fault, push_made};
use crate::run::Table;
use crate::{below, bodies, folding, inferring, operators, types};
use hack_first::{FirstUnit, Primitive, Returned, are_first, first_unit};
use hack_parse_file::{ParseStop, parse_file, room_by_length};
use hack_shallow::shallow_of;
use hack_show::{Out, show_shallow, show_tree};
use hack_tree::{FileTree, Unit};
use hack_types::{Names, NoMemory};
use std::alloc::Global;

/// Shows what a table asks of a file of at most 1 MiB.
pub(crate) fn of_file(
    alloc: Global,
    table: Table,
    out: &mut Out<'_>,
    text: &[u8],
) -> Result<(), NoMemory> {
    let mut names = Names::new(alloc);
    let parsed = parsed(alloc, &mut names, text);
    let mut shown = Out::new(alloc, &names);
    show_parsed(alloc, table, &mut shown, &names, &parsed);
    drop(parsed);
    push_made(out, shown.finish());
    drop(names);
    Ok(())
}

fn parsed(alloc: Global, names: &mut Names, text: &[u8]) -> Result<FileTree, ParseStop> {
    if text.len() > 1_048_576 || names.count() > 1_000_000 {
        return Err(ParseStop::NoMemory);
    }
    room_by_length();
    parse_file(alloc, names, text)
}

fn show_parsed(
    alloc: Global,
    table: Table,
    out: &mut Out<'_>,
    names: &Names,
    parsed: &Result<FileTree, ParseStop>,
) {
    match parsed {
        Ok(tree) => {
            let done = show(alloc, table, out, names, tree);
            note(out, done);
        }
        Err(ParseStop::Fault { place, code }) => match table {
            Table::Files => push_fault(alloc, out, *code, *place),
            _ => out.word("fault"),
        },
        Err(ParseStop::NoMemory) => out.word("no memory"),
    }
}

fn show(
    alloc: Global,
    table: Table,
    out: &mut Out<'_>,
    names: &Names,
    tree: &FileTree,
) -> Result<(), NoMemory> {
    let units = tree.units.as_slice();
    match table {
        Table::Trees => {
            show_tree(out, tree);
            Ok(())
        }
        Table::Units => {
            first_units(out, units);
            Ok(())
        }
        Table::Signatures => signatures(alloc, out, units),
        Table::Folded => folding::show_last(alloc, out, units, false),
        Table::Lines => folding::show_last(alloc, out, units, true),
        Table::Below => below::show_last(alloc, out, units),
        Table::Solved => inferring::show_last(alloc, out, units),
        Table::Operators => operators::show_last(alloc, out, names, units),
        Table::WrittenTypes | Table::Expressions | Table::Uses | Table::Targets => {
            bodies::show_last(alloc, table, out, names, units)
        }
        Table::Different => types::different(alloc, out, units),
        Table::Files => {
            out.word("ok");
            out.number(units.len() as u64);
            Ok(())
        }
        _ => types::asked(alloc, table, out, units),
    }
}

// The signature of each declaration.
fn signatures(alloc: Global, out: &mut Out<'_>, units: &[Unit]) -> Result<(), NoMemory> {
    for unit in units {
        let shallow = shallow_of(alloc, unit)?;
        show_shallow(out, &shallow);
        drop(shallow);
    }
    Ok(())
}

// Each declaration, `-` for one that is no first unit, and `all` where each is one.
fn first_units(out: &mut Out<'_>, units: &[Unit]) {
    for unit in units {
        match first_unit(unit) {
            Some(unit) => show_first(out, &unit),
            None => out.word("-"),
        }
    }
    if are_first(units) {
        out.word("all");
    }
}

// The unit's name and its place, its result, the type of its literal or the call, and the place of that.
fn show_first(out: &mut Out<'_>, unit: &FirstUnit) {
    out.name(unit.name);
    out.place(unit.name_at);
    out.word(type_name(unit.result));
    match &unit.returned {
        Returned::Literal(primitive) => out.word(type_name(*primitive)),
        Returned::Call(name) => {
            out.name(*name);
            out.push(b"()");
        }
    }
    out.place(unit.at);
}

fn type_name(primitive: Primitive) -> &'static str {
    match primitive {
        Primitive::Int => "int",
        Primitive::Str => "string",
    }
}
