// Names, symbols and types. A type is that of a declaration: what an alias stands for, what a function returns, or a
// constant's.

use crate::plain::{nth, split};
use crate::run::Table;
use hack_shallow::shallow_of;
use hack_show::{Out, show_type};
use hack_tree::Unit;
use hack_types::{
    HackType, Kind, NameId, Names, NoMemory, Shallow, SubstStop, SymbolId, into_option, option_of,
    substitute, union_of,
};
use sqlite_items::Items;
use std::alloc::Global;

// The type of a declaration, where it has one.
fn type_of(shallow: &Shallow) -> Option<&HackType> {
    match shallow {
        Shallow::Alias(alias) => Some(&alias.body),
        Shallow::Function(signature) => Some(&signature.result),
        Shallow::Constant(ty) => Some(ty),
        _ => None,
    }
}

// Adds the type of each declaration.
fn add_all(alloc: Global, units: &[Unit], types: &mut Vec<HackType>) -> Result<(), NoMemory> {
    for unit in units {
        let shallow = shallow_of(alloc, unit)?;
        let done = add_type(alloc, &shallow, types);
        drop(shallow);
        done?;
    }
    Ok(())
}

fn add_type(alloc: Global, shallow: &Shallow, types: &mut Vec<HackType>) -> Result<(), NoMemory> {
    match type_of(shallow) {
        Some(ty) => Ok(types.push(ty.copy(alloc)?)?),
        None => Ok(()),
    }
}

/// Shows what a table asks of the types of declarations.
pub(crate) fn asked(
    alloc: Global,
    table: Table,
    out: &mut Out<'_>,
    units: &[Unit],
) -> Result<(), NoMemory> {
    let mut types = Vec::new(alloc);
    let done = add_all(alloc, units, &mut types);
    let shown = show(alloc, table, out, types.as_slice());
    drop(types);
    done?;
    shown
}

fn show(
    alloc: Global,
    table: Table,
    out: &mut Out<'_>,
    types: &[HackType],
) -> Result<(), NoMemory> {
    match table {
        Table::Joins => show_made(out, union_of(alloc, types)),
        Table::Options => options(alloc, out, types),
        Table::PutIn => put_in(alloc, out, types),
        _ => nodes(out, types),
    }
}

fn show_made(out: &mut Out<'_>, made: Result<HackType, NoMemory>) -> Result<(), NoMemory> {
    let ty = made?;
    show_type(out, &ty);
    drop(ty);
    Ok(())
}

// Whether the second type is the option of the first, made of it and of a copy of it, and its own option.
fn options(alloc: Global, out: &mut Out<'_>, types: &[HackType]) -> Result<(), NoMemory> {
    let [ty, wanted] = types else {
        return Ok(());
    };
    let is_option = is_same(option_of(alloc, ty), wanted)?;
    let is_made = is_same(option_made_of(alloc, ty), wanted)?;
    let is_own = is_same(option_of(alloc, wanted), wanted)?;
    for (holds, words) in [
        (is_option, "its option"),
        (is_made, ", made of it"),
        (is_own, ", once"),
        (!is_option && !is_made && !is_own, "-"),
    ] {
        if holds {
            out.push(words.as_bytes());
        }
    }
    Ok(())
}

fn option_made_of(alloc: Global, ty: &HackType) -> Result<HackType, NoMemory> {
    into_option(alloc, ty.copy(alloc)?)
}

fn is_same(found: Result<HackType, NoMemory>, wanted: &HackType) -> Result<bool, NoMemory> {
    let found = found?;
    let same = found.same(wanted);
    drop(found);
    Ok(same)
}

// The first type with the others in the place of its class parameters.
fn put_in(alloc: Global, out: &mut Out<'_>, types: &[HackType]) -> Result<(), NoMemory> {
    let [ty, arguments @ ..] = types else {
        return Ok(());
    };
    match substitute(alloc, ty, arguments) {
        Ok(ty) => {
            show_type(out, &ty);
            drop(ty);
        }
        Err(SubstStop::TooBig) => out.word("too big"),
        Err(SubstStop::NoMemory) => out.word("no memory"),
    }
    Ok(())
}

// How many nodes the first type has.
fn nodes(out: &mut Out<'_>, types: &[HackType]) -> Result<(), NoMemory> {
    let Some(ty) = types.first() else {
        return Ok(());
    };
    for limit in 0..300u32 {
        if ty.is_within(limit) {
            out.number(limit as u64);
            return Ok(());
        }
    }
    Ok(())
}

/// How many types there are, where each equals itself made once more and no other; else the places of the two.
pub(crate) fn different(alloc: Global, out: &mut Out<'_>, units: &[Unit]) -> Result<(), NoMemory> {
    let mut types = Vec::new(alloc);
    let mut again = Vec::new(alloc);
    let done = add_with_unions(alloc, units, &mut types);
    let done_again = add_with_unions(alloc, units, &mut again);
    compare(out, types.as_slice(), again.as_slice());
    drop(types);
    drop(again);
    done?;
    done_again
}

fn compare(out: &mut Out<'_>, types: &[HackType], again: &[HackType]) {
    for (place, ty) in types.iter().enumerate() {
        for (other_place, other) in again.iter().enumerate() {
            if ty.same(other) != (place == other_place) {
                out.number(place as u64);
                out.number(other_place as u64);
            }
        }
    }
    out.number(types.len() as u64);
    out.number(again.len() as u64);
}

// The types of declarations, and `()`, `(int)`, `(string)`, `(int|string)` and `(string|int)`, which no text of a type is.
fn add_with_unions(
    alloc: Global,
    units: &[Unit],
    types: &mut Vec<HackType>,
) -> Result<(), NoMemory> {
    add_all(alloc, units, types)?;
    for (first, second) in [(0, 0), (1, 0), (2, 0), (1, 2), (2, 1)] {
        let mut members = Items::new(alloc);
        let done = add_members(&mut members, first, second);
        types.push(HackType::Union(members))?;
        done?;
    }
    Ok(())
}

fn add_members(members: &mut Items<HackType>, first: u32, second: u32) -> Result<(), NoMemory> {
    add_member(members, first)?;
    add_member(members, second)
}

fn add_member(members: &mut Items<HackType>, number: u32) -> Result<(), NoMemory> {
    match number {
        1 => Ok(members.push(HackType::Int)?),
        2 => Ok(members.push(HackType::Str)?),
        _ => Ok(()),
    }
}

/// The id of each name, and then how many names there are.
pub(crate) fn interned(alloc: Global, out: &mut Out<'_>, text: &[u8]) -> Result<(), NoMemory> {
    let mut names = Names::new(alloc);
    let done = add_names(alloc, &mut names, out, text);
    out.word("of");
    out.number(names.count() as u64);
    drop(names);
    done
}

fn add_names(
    alloc: Global,
    names: &mut Names,
    out: &mut Out<'_>,
    text: &[u8],
) -> Result<(), NoMemory> {
    let mut rest = text;
    for _ in 0..text.len() {
        if rest.is_empty() {
            break;
        }
        let (word, behind) = split(rest, b',');
        add_name(alloc, names, out, word)?;
        rest = behind;
    }
    Ok(())
}

fn add_name(
    alloc: Global,
    names: &mut Names,
    out: &mut Out<'_>,
    word: &[u8],
) -> Result<(), NoMemory> {
    if names.count() >= 100 {
        return Ok(());
    }
    let id = names.intern(alloc, word)?;
    out.number(id.number() as u64);
    if names.text_of(id) != word {
        out.word("of another text");
    }
    Ok(())
}

/// The symbol that a text `KIND NUMBER` names.
pub(crate) fn symbol(text: &[u8]) -> SymbolId {
    let kind = match text.get(1) {
        Some(b'l') => Kind::Class,
        Some(b'u') => Kind::Func,
        _ => Kind::Const,
    };
    symbol_of(kind, u32::try_from(nth(text, 1)).unwrap_or(0))
}

/// The symbol of this kind and number, which is 9 at most.
pub(crate) fn symbol_of(kind: Kind, number: u32) -> SymbolId {
    SymbolId {
        kind,
        name: NameId::new(number.min(9)),
    }
}
