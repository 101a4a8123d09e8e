// What is reached over paths.
ghost use Rattle.std.specs.Prelude.{IfOk, OnOk, ◌∷◌, []};
ghost use Rattle.hack_types.specs.declared.ids.SymbolId.{SymbolId as Symbol};
ghost use Rattle.phase_core.specs.Says.{ListsAll};
ghost use Rattle.phase_core.specs.World.{IsParent};
ghost use Rattle.phase_core.specs.Edges.{HasFold};
ghost use Rattle.phase_core.specs.Reached.{Added, IsReach};

use crate::{Decl, EdgeSet, SymbolMap, SymbolSet};
use hack_types::{NoMemory, SymbolId};
use std::alloc::Global;

/// What leads from symbols to symbols.
pub(crate) trait Links {
    ghost leads: { Self → Symbol → Symbol → Type 0 };

    /// Where it leads from this symbol.
    fn next(&self, alloc: Global, symbol: SymbolId) -> Result<Vec<SymbolId>, NoMemory>
        ensures { IfOk result (λ list. ListsAll (leads self.now symbol) list.items) };
}

// from a declared symbol to its parents
impl Links for SymbolMap<Decl> {
    ghost leads = { IsParent };

    fn next(&self, alloc: Global, symbol: SymbolId) -> Result<Vec<SymbolId>, NoMemory> {
        match self.get(symbol) {
            Some(decl) => Ok(Vec::from_slice(alloc, decl.parents.as_slice())?),
            None => Ok(Vec::new(alloc)),
        }
    }
}

// along the fold edges
impl Links for EdgeSet {
    ghost leads = { HasFold };

    fn next(&self, alloc: Global, symbol: SymbolId) -> Result<Vec<SymbolId>, NoMemory> {
        self.folds_from(alloc, symbol)
    }
}

/// What was reached, in the order in which it was met, each symbol once; and the same as a set.
#[derive(Drop)]
pub(crate) struct Reached {
    pub(crate) symbols: Vec<SymbolId>,
    pub(crate) set: SymbolSet,
}

impl Reached {
    // Adds those of the symbols that aren't there.
    fn add(&mut self, symbols: &[SymbolId]) -> Result<(), NoMemory>
        ensures { OnOk result (Added self.old symbols.now self.new) }
    {
        for symbol in symbols {
            if !self.set.contains(*symbol) {
                self.set.insert(*symbol)?;
                self.symbols.push(*symbol)?;
            }
        }
        Ok(())
    }
}

/// All that is reached from these symbols. Each symbol is looked at once, in the order in which it
/// was met.
pub(crate) fn reach<L: Links>(
    alloc: Global,
    links: &L,
    starts: &[SymbolId],
) -> Result<Reached, NoMemory>
    ensures { IfOk result (IsReach (L.leads links.now) starts.now) }
{
    let mut reached = Reached {
        symbols: Vec::new(alloc),
        set: SymbolSet::new(alloc),
    };
    reached.add(starts)?;
    let mut at = 0;
    while at < reached.symbols.len() {
        let next = links.next(alloc, reached.symbols[at])?;
        reached.add(&next)?;
        at += 1;
    }
    Ok(reached)
}

/// All that is reached from one symbol.
pub(crate) fn reach_from<L: Links>(
    alloc: Global,
    links: &L,
    symbol: SymbolId,
) -> Result<Reached, NoMemory>
    ensures { IfOk result (IsReach (L.leads links.now) (symbol ∷ [])) }
{
    reach(alloc, links, &[symbol])
}
