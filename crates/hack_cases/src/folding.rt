// Lines and folded declarations.

use hack_decls::{DeclStop, Decls, Folded, MapDecls};
use hack_fold::{fold, line_of};
use hack_shallow::shallow_of;
use hack_show::{Out, show_folded};
use hack_tree::Unit;
use hack_types::{NoMemory, Shallow, SymbolId};
use std::alloc::Global;
use std::collections::BTreeMap;

/// Keeps the signatures of declarations.
pub(crate) fn declare(
    alloc: Global,
    units: &[Unit],
    shallows: &mut BTreeMap<SymbolId, Shallow>,
) -> Result<(), NoMemory> {
    for unit in units {
        let before = shallows.insert(unit.symbol, shallow_of(alloc, unit)?)?;
        drop(before);
    }
    Ok(())
}

/// Folds each declaration behind its parents, whose lines are shorter than its own, and which have 20 names at most.
pub(crate) fn fold_all(
    alloc: Global,
    units: &[Unit],
    shallows: &BTreeMap<SymbolId, Shallow>,
    decls: &mut MapDecls,
) -> Result<(), NoMemory> {
    for length in 0..21usize {
        for unit in units {
            fold_one(alloc, length, unit.symbol, shallows, decls)?;
        }
    }
    Ok(())
}

// Folds a declaration whose line has so many names.
fn fold_one(
    alloc: Global,
    length: usize,
    symbol: SymbolId,
    shallows: &BTreeMap<SymbolId, Shallow>,
    decls: &mut MapDecls,
) -> Result<(), NoMemory> {
    let line = line_of(alloc, symbol, shallows)?;
    let (is_next, cyclic) = (line.names.len() == length, line.cyclic);
    drop(line);
    match shallows.get(&symbol) {
        Some(shallow) if is_next => {
            let folded = fold(alloc, symbol, shallow, cyclic, decls);
            keep(symbol, folded, decls)
        }
        _ => Ok(()),
    }
}

fn keep(
    symbol: SymbolId,
    folded: Result<Folded, DeclStop>,
    decls: &mut MapDecls,
) -> Result<(), NoMemory> {
    match folded {
        Ok(folded) => decls.put(symbol, folded),
        Err(_) => Err(NoMemory),
    }
}

// Shows what a declaration folds to over these.
fn show_one(
    alloc: Global,
    out: &mut Out<'_>,
    units: &[Unit],
    symbol: SymbolId,
    shallows: &BTreeMap<SymbolId, Shallow>,
) -> Result<(), NoMemory> {
    let mut decls = MapDecls::new(alloc);
    let done = fold_all(alloc, units, shallows, &mut decls);
    let found = decls.folded(alloc, symbol);
    drop(decls);
    if let Ok(Some(folded)) = &found {
        show_folded(out, folded);
    }
    drop(found);
    done
}

fn show_line(
    alloc: Global,
    out: &mut Out<'_>,
    symbol: SymbolId,
    shallows: &BTreeMap<SymbolId, Shallow>,
) -> Result<(), NoMemory> {
    let line = line_of(alloc, symbol, shallows)?;
    for symbol in &line.names {
        out.name(symbol.name);
    }
    if line.cyclic {
        out.word("cyclic");
    }
    drop(line);
    Ok(())
}

/// Shows what the last declaration folds to over all of them, or its line.
pub(crate) fn show_last(
    alloc: Global,
    out: &mut Out<'_>,
    units: &[Unit],
    line: bool,
) -> Result<(), NoMemory> {
    let Some(unit) = units.last() else {
        return Ok(());
    };
    let mut shallows = BTreeMap::new(alloc);
    let done = match declare(alloc, units, &mut shallows) {
        Ok(()) if line => show_line(alloc, out, unit.symbol, &shallows),
        Ok(()) => show_one(alloc, out, units, unit.symbol, &shallows),
        Err(stop) => Err(stop),
    };
    drop(shallows);
    done
}
