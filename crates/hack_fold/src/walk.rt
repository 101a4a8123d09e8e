// The walk that lists the names above a symbol.
ghost use Rattle.std.specs.Prelude.{◌≡◌, ◌++◌, ◌∷◌, [], IfOk, OnOk, true, option_copied};
ghost use Rattle.std.specs.BTreeSet as sorted;
ghost use Rattle.hack_fold.specs.inside.Walking.{Next, NextIn, NextName, ahead_of, new_symbol};
ghost use Rattle.hack_fold.specs.Line.{line, parent_symbols, type_symbol};
ghost use Rattle.hack_fold.specs.Parents.{class_by};
ghost use Rattle.hack_decls.specs.PlainMap.{symbol_order};
ghost use Rattle.hack_fold.specs.ShallowMap.{shallows_of};

use hack_types::{ClassSig, HackType, Kind, NoMemory, Shallow, SymbolId};
use std::alloc::Global;
use std::collections::{BTreeMap, BTreeSet};

/// How many names end a walk.
const LAST_NAME: usize = 257;

/// The symbol, and then each parent with its own parents, in order, each once and at most 257 of them.
pub(crate) fn walk(
    alloc: Global,
    s: &SymbolId,
    map: &BTreeMap<SymbolId, Shallow>,
) -> Result<Vec<SymbolId>, NoMemory>
    ensures { IfOk result (λ names. names.items ≡ line (shallows_of map.now) s.now) }
{
    let mut names = Vec::new(alloc);
    let mut listed = BTreeSet::new(alloc);
    let mut ahead = Vec::new(alloc);
    let mut next = Some(*s);
    while let Some(name) = next {
        list(&mut names, &mut listed, &name)?;
        push_parents(&mut ahead, &name, map)?;
        next = next_name(names.len(), &listed, &mut ahead)?;
    }
    Ok(names)
}

// Lists one more name.
fn list(
    names: &mut Vec<SymbolId>,
    listed: &mut BTreeSet<SymbolId>,
    name: &SymbolId,
) -> Result<(), NoMemory>
    ensures names { OnOk result (names.new.items ≡ names.old.items ++ name.now ∷ []) }
    ensures listed { OnOk result (sorted.Updates symbol_order listed.old listed.new name.now true) }
{
    names.push(*name)?;
    listed.insert(*name)?;
    Ok(())
}

// Puts the parents of a name before all that is to come.
fn push_parents<'a>(
    ahead: &mut Vec<&'a [HackType]>,
    name: &SymbolId,
    map: &'a BTreeMap<SymbolId, Shallow>,
) -> Result<(), NoMemory>
    ensures { OnOk result (ahead_of ahead.new.items
        ≡ parent_symbols (shallows_of map.now) name.now ++ ahead_of ahead.old.items) }
{
    if let Some(sig) = class_at(name, map) {
        ahead.push(sig.implements.as_slice())?;
        ahead.push(sig.extends.as_slice())?;
        ahead.push(sig.uses.as_slice())?;
    }
    Ok(())
}

/// The class, the interface or the trait of this name.
pub(crate) fn class_at<'a>(
    name: &SymbolId,
    map: &'a BTreeMap<SymbolId, Shallow>,
) -> Option<&'a ClassSig>
    ensures { option_copied result ≡ class_by (shallows_of map.now name.now) }
{
    match map.get(name)? {
        Shallow::ClassLike(sig) => Some(sig),
        _ => None,
    }
}

// The next name where so many are listed.
fn next_name(
    count: usize,
    listed: &BTreeSet<SymbolId>,
    ahead: &mut Vec<&[HackType]>,
) -> Result<Option<SymbolId>, NoMemory>
    ensures { IfOk result (λ next. NextName count (λ t. sorted.contains symbol_order listed.now t)
        (ahead_of ahead.old.items) next (ahead_of ahead.new.items)) }
{
    if count < LAST_NAME {
        next_unlisted(listed, ahead)
    } else {
        Ok(None)
    }
}

// Takes what comes next and isn't listed.
fn next_unlisted(
    listed: &BTreeSet<SymbolId>,
    ahead: &mut Vec<&[HackType]>,
) -> Result<Option<SymbolId>, NoMemory>
    ensures { IfOk result (λ next. Next (λ t. sorted.contains symbol_order listed.now t)
        (ahead_of ahead.old.items) next (ahead_of ahead.new.items)) }
{
    while let Some(types) = ahead.pop() {
        if let Some((next, rest)) = first_unlisted(types, listed) {
            ahead.push(rest)?;
            return Ok(Some(next));
        }
    }
    Ok(None)
}

// The first of these that names what isn't listed, and the types behind it.
fn first_unlisted<'a>(
    types: &'a [HackType],
    listed: &BTreeSet<SymbolId>,
) -> Option<(SymbolId, &'a [HackType])>
    ensures { NextIn (λ t. sorted.contains symbol_order listed.now t) types.now result }
{
    let mut rest = types;
    while let Some((ty, more)) = rest.split_first() {
        if let Some(symbol) = unlisted_symbol(ty, listed) {
            return Some((symbol, more));
        }
        rest = more;
    }
    None
}

// What the type names, if that isn't listed.
fn unlisted_symbol(ty: &HackType, listed: &BTreeSet<SymbolId>) -> Option<SymbolId>
    ensures { result
        ≡ new_symbol (λ t. sorted.contains symbol_order listed.now t) (type_symbol ty.now) }
{
    let symbol = type_symbol(ty)?;
    if listed.contains(&symbol) {
        return None;
    }
    Some(symbol)
}

// The symbol that the type names; a type parameter and `_` name none.
fn type_symbol(ty: &HackType) -> Option<SymbolId>
    ensures { result ≡ type_symbol ty.now }
{
    match ty {
        HackType::Class(name, _) => Some(SymbolId {
            kind: Kind::Class,
            name: *name,
        }),
        _ => None,
    }
}
