// The event that the master takes another world.
ghost use Rattle.std.specs.Prelude.{◌≡◌, ◌≢◌, ◌↔◌, IsTrue, IsSome, IfOk, OnOk, Contains};
ghost use Rattle.std.specs.Prelude.{Some, true, false};
ghost use Rattle.std.specs.FinMap as finite;
ghost use Rattle.std.specs.FinSet as finite_set;
ghost use Rattle.hack_types.specs.declared.ids.SymbolId.{SymbolId as Symbol};
ghost use Rattle.phase_core.specs.World.{IsDeclared, seen, seen_at, told, told_at};
ghost use Rattle.phase_core.specs.Edits.{MayEdit, Edited, IsEvicted};
ghost use Rattle.phase_core.specs.InsideEdits.{LooksInto, Refreshed, IsRenewed, IsOutdated};
ghost use Rattle.phase_core.specs.InsideEdits.{IsInOne, StaysEdge, RecordsLeft, VerdictsLeft, Left};
ghost use Rattle.phase_core.specs.Says.{Tells, HasAll};
ghost use Rattle.phase_core.specs.Closures.{Reaches};
ghost use Rattle.phase_core.specs.Edges.{HasFold};
ghost use Rattle.phase_core.specs.Acts.{Acts};

use crate::ask::{all_are_idle, has_same, parents_are_mentioned};
use crate::closure::reach;
use crate::phases::without_claims;
use crate::{
    Copied, CoreEdge, CoreRecord, CoreState, CoreVerdict, Decl, EdgeSet, SymbolMap, SymbolSet,
};
use hack_types::{NoMemory, SymbolId};
use std::alloc::Global;

/// The master takes another world.
pub(crate) fn edit(
    alloc: Global,
    state: &mut CoreState,
    world: &SymbolMap<Decl>,
) -> Result<bool, NoMemory>
    ensures { IfOk result
        (Acts (MayEdit state.old world.now) (Edited state.old world.now) state.new) }
{
    if !may_edit(alloc, state, world)? {
        return Ok(false);
    }
    let evicted = evicted(alloc, state, world)?;
    edit_over(alloc, state, world, &evicted)?;
    Ok(true)
}

// Takes the world where these symbols are evicted.
fn edit_over(
    alloc: Global,
    state: &mut CoreState,
    world: &SymbolMap<Decl>,
    evicted: &SymbolSet,
) -> Result<(), NoMemory>
    ensures { OnOk result
        (HasAll (IsEvicted state.old world.now) evicted.now →
        Edited state.old world.now state.new) }
{
    let refreshed = refreshed(alloc, state, world, evicted)?;
    leave(alloc, state, world, evicted, &refreshed)
}

// Takes the world where these symbols are evicted and these units become stale.
fn leave(
    alloc: Global,
    state: &mut CoreState,
    world: &SymbolMap<Decl>,
    evicted: &SymbolSet,
    refreshed: &SymbolSet,
) -> Result<(), NoMemory>
    ensures { OnOk result (Left state.old world.now evicted.now refreshed.now state.new) }
{
    state.records = records_left(alloc, &state.records, evicted)?;
    state.edges = edges_left(alloc, &state.edges, world, evicted, refreshed)?;
    state.stale = stale_left(alloc, &state.stale, world, refreshed)?;
    state.verdicts = verdicts_left(alloc, &state.verdicts, world, refreshed)?;
    state.world = world.copied(alloc)?;
    Ok(())
}

// The records that stay.
fn records_left(
    alloc: Global,
    records: &SymbolMap<CoreRecord>,
    evicted: &SymbolSet,
) -> Result<SymbolMap<CoreRecord>, NoMemory>
    ensures { IfOk result (RecordsLeft records.now evicted.now) }
{
    let records = without_claims(alloc, records)?;
    records.without(alloc, evicted)
}

// The verdicts that stay.
fn verdicts_left(
    alloc: Global,
    verdicts: &SymbolMap<CoreVerdict>,
    world: &SymbolMap<Decl>,
    refreshed: &SymbolSet,
) -> Result<SymbolMap<CoreVerdict>, NoMemory>
    ensures { IfOk result (VerdictsLeft verdicts.now world.now refreshed.now) }
{
    let outdated = outdated(alloc, verdicts, world, refreshed)?;
    verdicts.without(alloc, &outdated)
}

// Whether the master may take this world.
fn may_edit(alloc: Global, state: &CoreState, world: &SymbolMap<Decl>) -> Result<bool, NoMemory>
    ensures { IfOk result (Tells (MayEdit state.now world.now)) }
{
    if all_are_idle(state.workers.as_slice()) {
        parents_are_mentioned(alloc, world)
    } else {
        Ok(false)
    }
}

// The symbols from which a changed one is reached over fold edges.
fn evicted(alloc: Global, state: &CoreState, world: &SymbolMap<Decl>) -> Result<SymbolSet, NoMemory>
    ensures { IfOk result (HasAll (IsEvicted state.now world.now)) }
{
    let changed = changed(alloc, &state.world, world)?.symbols(alloc)?;
    reaching(alloc, &state.edges, &changed)
}

// The symbols from which one of these is reached over fold edges, maybe in no step.
fn reaching(alloc: Global, edges: &EdgeSet, ends: &[SymbolId]) -> Result<SymbolSet, NoMemory>
    ensures { IfOk result
        (HasAll (λ s. (t : Symbol) × Contains ends.now t × Reaches (HasFold edges.now) s t)) }
{
    let turned = turned(alloc, edges)?;
    Ok(reach(alloc, &turned, ends)?.set)
}

// The changed symbols.
fn changed(
    alloc: Global,
    old: &SymbolMap<Decl>,
    new: &SymbolMap<Decl>,
) -> Result<SymbolSet, NoMemory>
    ensures { IfOk result (HasAll (λ s. seen_at old.now s ≢ seen_at new.now s)) }
{
    let mut set = SymbolSet::new(alloc);
    let mut symbols = old.symbols(alloc)?;
    symbols.extend_from_slice(&new.symbols(alloc)?)?;
    for symbol in &symbols {
        if !is_seen_alike(old, new, symbol) {
            set.insert(*symbol)?;
        }
    }
    Ok(set)
}

// Whether the same is seen of a symbol.
fn is_seen_alike(old: &SymbolMap<Decl>, new: &SymbolMap<Decl>, symbol: &SymbolId) -> bool
    ensures { IsTrue result ↔ (seen_at old.now symbol.now ≡ seen_at new.now symbol.now) }
{
    match old.get(*symbol) {
        Some(decl) => is_seen_as(new, symbol, decl),
        None => !new.has(*symbol),
    }
}

// Whether the symbol is declared, and seen like this declaration.
fn is_seen_as(world: &SymbolMap<Decl>, symbol: &SymbolId, decl: &Decl) -> bool
    ensures { IsTrue result ↔ (seen_at world.now symbol.now ≡ Some (seen decl.now)) }
{
    match world.get(*symbol) {
        Some(other) => has_same_sight(other, decl),
        None => false,
    }
}

// Whether two declarations are seen alike.
fn has_same_sight(a: &Decl, b: &Decl) -> bool
    ensures { IsTrue result ↔ (seen a.now ≡ seen b.now) }
{
    a.version == b.version
        && has_same(a.parents.as_slice(), b.parents.as_slice())
        && has_same(a.mentions.as_slice(), b.mentions.as_slice())
}

// The fold edges the other way round.
fn turned(alloc: Global, edges: &EdgeSet) -> Result<EdgeSet, NoMemory>
    ensures { IfOk result (λ back. (s t : Symbol) → HasFold back s t ↔ HasFold edges.now t s) }
{
    let mut back = EdgeSet::new(alloc);
    let list = edges.edges(alloc)?;
    for edge in &list {
        if edge.fold {
            back.insert(CoreEdge {
                fold: true,
                from: edge.to,
                to: edge.from,
            })?;
        }
    }
    Ok(back)
}

// The units that become stale.
fn refreshed(
    alloc: Global,
    state: &CoreState,
    world: &SymbolMap<Decl>,
    evicted: &SymbolSet,
) -> Result<SymbolSet, NoMemory>
    ensures { IfOk result (HasAll (Refreshed state.now world.now evicted.now)) }
{
    let lookers = lookers(alloc, &state.edges, evicted)?;
    renewed(alloc, &state.world, world, &lookers)
}

// The units that looked at an evicted symbol, or that have another text or other names.
fn renewed(
    alloc: Global,
    old: &SymbolMap<Decl>,
    new: &SymbolMap<Decl>,
    lookers: &SymbolSet,
) -> Result<SymbolSet, NoMemory>
    ensures { IfOk result
        (HasAll (λ u. IsDeclared new.now u × IsRenewed old.now new.now lookers.now u)) }
{
    let mut set = SymbolSet::new(alloc);
    let symbols = new.symbols(alloc)?;
    for symbol in &symbols {
        if is_refreshed(old, new, lookers, symbol) {
            set.insert(*symbol)?;
        }
    }
    Ok(set)
}

// Whether the unit looked at an evicted symbol, or has another text or other names.
fn is_refreshed(
    old: &SymbolMap<Decl>,
    new: &SymbolMap<Decl>,
    lookers: &SymbolSet,
    symbol: &SymbolId,
) -> bool
    ensures { IsTrue result ↔ IsRenewed old.now new.now lookers.now symbol.now }
{
    lookers.contains(*symbol) || !is_told_alike(old, new, symbol)
}

// The symbols with a check edge to an evicted one.
fn lookers(alloc: Global, edges: &EdgeSet, evicted: &SymbolSet) -> Result<SymbolSet, NoMemory>
    ensures { IfOk result (HasAll (LooksInto edges.now evicted.now)) }
{
    let mut set = SymbolSet::new(alloc);
    let list = edges.edges(alloc)?;
    for edge in &list {
        if looks_into(evicted, edge) {
            set.insert(edge.from)?;
        }
    }
    Ok(set)
}

// Whether it is a check edge to an evicted symbol.
fn looks_into(evicted: &SymbolSet, edge: &CoreEdge) -> bool
    ensures { IsTrue result ↔
        ((edge.now.fold ≡ false) × (finite_set.contains evicted.now edge.now.to ≡ true)) }
{
    !edge.fold && evicted.contains(edge.to)
}

// Whether the text and the names of a symbol are the same.
fn is_told_alike(old: &SymbolMap<Decl>, new: &SymbolMap<Decl>, symbol: &SymbolId) -> bool
    ensures { IsTrue result ↔ (told_at old.now symbol.now ≡ told_at new.now symbol.now) }
{
    match old.get(*symbol) {
        Some(decl) => is_told_as(new, symbol, decl),
        None => !new.has(*symbol),
    }
}

// Whether the symbol is declared, with the text and the names of this declaration.
fn is_told_as(world: &SymbolMap<Decl>, symbol: &SymbolId, decl: &Decl) -> bool
    ensures { IsTrue result ↔ (told_at world.now symbol.now ≡ Some (told decl.now)) }
{
    match world.get(*symbol) {
        Some(other) => has_same_text(other, decl),
        None => false,
    }
}

// Whether two declarations have the same text and the same names.
fn has_same_text(a: &Decl, b: &Decl) -> bool
    ensures { IsTrue result ↔ (told a.now ≡ told b.now) }
{
    a.text == b.text && has_same(a.names.as_slice(), b.names.as_slice())
}

// The units whose verdicts go.
fn outdated(
    alloc: Global,
    verdicts: &SymbolMap<CoreVerdict>,
    world: &SymbolMap<Decl>,
    refreshed: &SymbolSet,
) -> Result<SymbolSet, NoMemory>
    ensures { IfOk result (HasAll
        (λ u. IsSome (finite.get verdicts.now u) × IsOutdated world.now refreshed.now u)) }
{
    let mut set = SymbolSet::new(alloc);
    let symbols = verdicts.symbols(alloc)?;
    for symbol in &symbols {
        if is_outdated(world, refreshed, symbol) {
            set.insert(*symbol)?;
        }
    }
    Ok(set)
}

// Whether the unit isn't declared, or becomes stale.
fn is_outdated(world: &SymbolMap<Decl>, refreshed: &SymbolSet, symbol: &SymbolId) -> bool
    ensures { IsTrue result ↔ IsOutdated world.now refreshed.now symbol.now }
{
    !world.has(*symbol) || refreshed.contains(*symbol)
}

// The units that are stale then.
fn stale_left(
    alloc: Global,
    stale: &SymbolSet,
    world: &SymbolMap<Decl>,
    refreshed: &SymbolSet,
) -> Result<SymbolSet, NoMemory>
    ensures { IfOk result
        (HasAll (λ u. IsDeclared world.now u × IsInOne stale.now refreshed.now u)) }
{
    let mut set = SymbolSet::new(alloc);
    let symbols = world.symbols(alloc)?;
    for symbol in &symbols {
        if is_in_one(stale, refreshed, symbol) {
            set.insert(*symbol)?;
        }
    }
    Ok(set)
}

// Whether the symbol is in one of the sets.
fn is_in_one(a: &SymbolSet, b: &SymbolSet, symbol: &SymbolId) -> bool
    ensures { IsTrue result ↔ IsInOne a.now b.now symbol.now }
{
    a.contains(*symbol) || b.contains(*symbol)
}

// The edges that stay.
fn edges_left(
    alloc: Global,
    edges: &EdgeSet,
    world: &SymbolMap<Decl>,
    evicted: &SymbolSet,
    refreshed: &SymbolSet,
) -> Result<EdgeSet, NoMemory>
    ensures { IfOk result (HasAll (λ e. (finite_set.contains edges.now e ≡ true) ×
        StaysEdge world.now evicted.now refreshed.now e)) }
{
    let mut left = EdgeSet::new(alloc);
    let list = edges.edges(alloc)?;
    for edge in &list {
        if stays(world, evicted, refreshed, edge) {
            left.insert(*edge)?;
        }
    }
    Ok(left)
}

// Whether this edge stays.
fn stays(
    world: &SymbolMap<Decl>,
    evicted: &SymbolSet,
    refreshed: &SymbolSet,
    edge: &CoreEdge,
) -> bool
    ensures { IsTrue result ↔ StaysEdge world.now evicted.now refreshed.now edge.now }
{
    let goes = if edge.fold { evicted } else { refreshed };
    world.has(edge.from) && !goes.contains(edge.from)
}
