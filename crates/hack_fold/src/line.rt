// The line of a symbol.
ghost use Rattle.std.specs.Prelude.{◌≡◌, IfOk};
ghost use Rattle.std.specs.List.{list_any};
ghost use Rattle.hack_fold.specs.ShallowMap.{shallows_of};
ghost use Rattle.hack_fold.specs.Line.{is_cyclic, is_parent, line, names_symbol};

use crate::walk::{class_at, walk};
use hack_types::{HackType, Kind, NoMemory, Shallow, SymbolId};
use sqlite_items::Items;
use std::alloc::Global;
use std::collections::BTreeMap;

/// How many names the line of a symbol that isn't cyclic may have (docs/language.md, Folding).
const MOST_NAMES: usize = 256;

/// A symbol with all that stands above it.
#[derive(Drop)]
pub struct Line {
    /// The symbol, and then each parent with its own parents, in order, each once and at most 257 of them.
    pub names: Vec<SymbolId>,
    /// Whether the symbol is reached from itself or has more than 256 names in its line.
    pub cyclic: bool,
}

/// The line of a symbol over these declarations; an error says that memory ran out (docs/language.md, Folding).
pub fn line_of(
    alloc: Global,
    s: SymbolId,
    map: &BTreeMap<SymbolId, Shallow>,
) -> Result<Line, NoMemory>
    ensures names { IfOk result (λ found. found.names.items ≡ line (shallows_of map.now) s) }
    ensures cyclic { IfOk result (λ found. found.cyclic ≡ is_cyclic (shallows_of map.now) s) }
{
    let names = walk(alloc, &s, map)?;
    let cyclic = reaches(&s, names.as_slice(), map) || names.len() > MOST_NAMES;
    Ok(Line { names, cyclic })
}

// Whether one of these names has the symbol as a parent.
fn reaches(s: &SymbolId, names: &[SymbolId], map: &BTreeMap<SymbolId, Shallow>) -> bool
    ensures { result ≡ list_any (is_parent (shallows_of map.now) s.now) names.now }
{
    for name in names {
        if is_parent(s, name, map) {
            return true;
        }
    }
    false
}

fn is_parent(s: &SymbolId, child: &SymbolId, map: &BTreeMap<SymbolId, Shallow>) -> bool
    ensures { result ≡ is_parent (shallows_of map.now) s.now child.now }
{
    match class_at(child, map) {
        Some(sig) => {
            any_names(s, &sig.uses) || any_names(s, &sig.extends) || any_names(s, &sig.implements)
        }
        None => false,
    }
}

fn any_names(s: &SymbolId, types: &Items<HackType>) -> bool
    ensures { result ≡ list_any (names_symbol s.now) types.now }
{
    for ty in types.as_slice() {
        if names_symbol(s, ty) {
            return true;
        }
    }
    false
}

fn names_symbol(s: &SymbolId, ty: &HackType) -> bool
    ensures { result ≡ names_symbol s.now ty.now }
{
    match ty {
        HackType::Class(name, _) => matches!(s.kind, Kind::Class) && s.name == *name,
        _ => false,
    }
}
