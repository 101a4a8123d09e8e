// The events of a worker at its job.
ghost use Rattle.std.specs.Prelude.{◌≡◌, ◌↔◌, IsTrue, IfOk, Some};
ghost use Rattle.std.specs.FinMap as finite;
ghost use Rattle.phase_core.specs.World.{Names};
ghost use Rattle.phase_core.specs.States.{AtWork};
ghost use Rattle.phase_core.specs.Says.{Tells};
ghost use Rattle.phase_core.specs.Workers.{Mentions, ShowsMention, IsMentioned, IsWithin};
ghost use Rattle.phase_core.specs.Workers.{IsOwnCheck, IsInnerFold, MayNote, Noted, HasNoted};
ghost use Rattle.phase_core.specs.Workers.{Learned, MayRead, DidRead, MayFold, Folded};
ghost use Rattle.phase_core.specs.Workers.{MayClaim, DidClaim, MayPublish, Published};
ghost use Rattle.phase_core.specs.Acts.{Acts};

use crate::ask::{has_symbol, held_image, is_claim, job_of, same};
use crate::closure::reach_from;
use crate::image::{image_of, is_covered};
use crate::phases::set_worker;
use crate::{Copied, CoreEdge, CoreImage, CoreRecord, CoreState, CoreWorker, Decl, SymbolMap};
use hack_types::{NoMemory, SymbolId};
use std::alloc::Global;

/// A worker notes an edge.
pub(crate) fn note(
    alloc: Global,
    state: &mut CoreState,
    worker: u32,
    edge: &CoreEdge,
) -> Result<bool, NoMemory>
    ensures { IfOk result
        (Acts (MayNote state.old worker edge.now) (Noted state.old edge.now) state.new) }
{
    if !may_note(alloc, state, worker, edge)? {
        return Ok(false);
    }
    state.edges.insert(*edge)?;
    Ok(true)
}

// Whether the worker may note this edge.
fn may_note(
    alloc: Global,
    state: &CoreState,
    worker: u32,
    edge: &CoreEdge,
) -> Result<bool, NoMemory>
    ensures { IfOk result (Tells (MayNote state.now worker edge.now)) }
{
    match job_of(&state.workers, worker) {
        Some((symbol, check, known)) => {
            if edge.fold {
                is_inner_fold(alloc, &state.world, edge)
            } else {
                is_own_check(alloc, &state.world, &symbol, check, known, edge)
            }
        }
        None => Ok(false),
    }
}

// Whether it is a check edge of the worker's own unit.
fn is_own_check(
    alloc: Global,
    world: &SymbolMap<Decl>,
    symbol: &SymbolId,
    check: bool,
    known: &SymbolMap<CoreImage>,
    edge: &CoreEdge,
) -> Result<bool, NoMemory>
    ensures { IfOk result (Tells (IsOwnCheck world.now symbol.now check known.now edge.now)) }
{
    if !check {
        return Ok(false);
    }
    if edge.fold {
        return Ok(false);
    }
    if !same(edge.from, *symbol) {
        return Ok(false);
    }
    is_within(alloc, world, symbol, known, &edge.to)
}

// Whether a check may look there.
fn is_within(
    alloc: Global,
    world: &SymbolMap<Decl>,
    symbol: &SymbolId,
    known: &SymbolMap<CoreImage>,
    to: &SymbolId,
) -> Result<bool, NoMemory>
    ensures { IfOk result (Tells (IsWithin world.now symbol.now known.now to.now)) }
{
    if same(*to, *symbol) {
        return Ok(true);
    }
    if names(world, symbol, to) {
        return Ok(true);
    }
    is_mentioned(alloc, known, to)
}

// Whether the unit names the other symbol.
fn names(world: &SymbolMap<Decl>, symbol: &SymbolId, to: &SymbolId) -> bool
    ensures { IsTrue result ↔ Names (finite.get world.now symbol.now) to.now }
{
    match world.get(*symbol) {
        Some(decl) => has_symbol(decl.names.as_slice(), to),
        None => false,
    }
}

// Whether an image shows a declaration that mentions the symbol.
fn is_mentioned(
    alloc: Global,
    known: &SymbolMap<CoreImage>,
    symbol: &SymbolId,
) -> Result<bool, NoMemory>
    ensures { IfOk result (Tells (IsMentioned known.now symbol.now)) }
{
    let keys = known.symbols(alloc)?;
    for key in &keys {
        if shows_mention(alloc, known, *key, symbol)? {
            return Ok(true);
        }
    }
    Ok(false)
}

// Whether the image of this key does.
fn shows_mention(
    alloc: Global,
    known: &SymbolMap<CoreImage>,
    key: SymbolId,
    symbol: &SymbolId,
) -> Result<bool, NoMemory>
    ensures { IfOk result (Tells (ShowsMention (finite.get known.now key) symbol.now)) }
{
    match known.get(key) {
        Some(image) => image_mentions(alloc, image, symbol),
        None => Ok(false),
    }
}

// Whether a declaration in this image does.
fn image_mentions(alloc: Global, image: &CoreImage, symbol: &SymbolId) -> Result<bool, NoMemory>
    ensures { IfOk result (Tells (ShowsMention (Some image.now) symbol.now)) }
{
    let members = image.symbols(alloc)?;
    for member in &members {
        if mentions(image, *member, symbol) {
            return Ok(true);
        }
    }
    Ok(false)
}

// Whether the declaration of this member does.
fn mentions(image: &CoreImage, member: SymbolId, symbol: &SymbolId) -> bool
    ensures { IsTrue result ↔ Mentions (finite.get image.now member) symbol.now }
{
    match image.get(member) {
        Some(Some(sight)) => has_symbol(sight.mentions.as_slice(), symbol),
        Some(None) => false,
        None => false,
    }
}

// Whether it is a fold edge from a declared symbol into its closure.
fn is_inner_fold(alloc: Global, world: &SymbolMap<Decl>, edge: &CoreEdge) -> Result<bool, NoMemory>
    ensures { IfOk result (Tells (IsInnerFold world.now edge.now)) }
{
    if !edge.fold {
        return Ok(false);
    }
    if !world.has(edge.from) {
        return Ok(false);
    }
    let closure = reach_from(alloc, world, edge.from)?;
    Ok(closure.set.contains(edge.to))
}

// Whether the check edge from the symbol that the worker is at work on is there.
fn has_noted(state: &CoreState, worker: u32, symbol: SymbolId) -> bool
    ensures { IsTrue result ↔ HasNoted state.now worker symbol }
{
    match job_of(&state.workers, worker) {
        Some((own, _, _)) => state.edges.contains(CoreEdge {
            fold: false,
            from: own,
            to: symbol,
        }),
        None => false,
    }
}

// The worker knows this image too; no where it isn't at work.
fn learn(
    alloc: Global,
    state: &mut CoreState,
    worker: u32,
    symbol: SymbolId,
    image: CoreImage,
) -> Result<bool, NoMemory>
    ensures { IfOk result (Acts (AtWork state.old worker (λ _ _ _. Unit {0}))
        (Learned state.old worker symbol image) state.new) }
{
    match job_of(&state.workers, worker) {
        Some((own, check, known)) => {
            let known = known_with(alloc, known, symbol, image)?;
            set_worker(
                state,
                worker,
                CoreWorker::Work {
                    symbol: own,
                    check,
                    known,
                },
            );
            Ok(true)
        }
        None => Ok(false),
    }
}

// What is known, and this image.
fn known_with(
    alloc: Global,
    known: &SymbolMap<CoreImage>,
    symbol: SymbolId,
    image: CoreImage,
) -> Result<SymbolMap<CoreImage>, NoMemory>
    ensures { IfOk result (λ more. more ≡ finite.insert known.now symbol image) }
{
    let mut more = known.copied(alloc)?;
    more.insert(symbol, image)?;
    Ok(more)
}

/// A worker reads a record.
pub(crate) fn read(
    alloc: Global,
    state: &mut CoreState,
    worker: u32,
    symbol: &SymbolId,
) -> Result<bool, NoMemory>
    ensures { IfOk result (Acts (MayRead state.old worker symbol.now)
        (DidRead state.old worker symbol.now) state.new) }
{
    if !has_noted(state, worker, *symbol) {
        return Ok(false);
    }
    match held_image(&state.records, *symbol) {
        Some(image) => {
            let image = image.copied(alloc)?;
            learn(alloc, state, worker, *symbol, image)
        }
        None => Ok(false),
    }
}

/// A worker folds by itself.
pub(crate) fn fold(
    alloc: Global,
    state: &mut CoreState,
    worker: u32,
    symbol: &SymbolId,
) -> Result<bool, NoMemory>
    ensures { IfOk result (Acts (MayFold state.old worker symbol.now)
        (Folded state.old worker symbol.now) state.new) }
{
    if !may_fold(alloc, state, worker, symbol)? {
        return Ok(false);
    }
    let image = image_of(alloc, &state.world, *symbol)?;
    learn(alloc, state, worker, *symbol, image)
}

// Whether the worker may fold the symbol.
fn may_fold(
    alloc: Global,
    state: &CoreState,
    worker: u32,
    symbol: &SymbolId,
) -> Result<bool, NoMemory>
    ensures { IfOk result (Tells (MayFold state.now worker symbol.now)) }
{
    if has_noted(state, worker, *symbol) {
        is_covered(alloc, &state.world, &state.edges, symbol)
    } else {
        Ok(false)
    }
}

/// A worker claims the record of a symbol.
pub(crate) fn claim(state: &mut CoreState, worker: u32, symbol: &SymbolId) -> Result<bool, NoMemory>
    ensures { IfOk result (Acts (MayClaim state.old worker symbol.now)
        (DidClaim state.old worker symbol.now) state.new) }
{
    if !may_claim(state, worker, symbol) {
        return Ok(false);
    }
    state.records.insert(*symbol, CoreRecord::Claimed(worker))?;
    Ok(true)
}

// Whether the worker may claim it.
fn may_claim(state: &CoreState, worker: u32, symbol: &SymbolId) -> bool
    ensures { IsTrue result ↔ MayClaim state.now worker symbol.now }
{
    match job_of(&state.workers, worker) {
        Some(_) => state.world.has(*symbol) && !state.records.has(*symbol),
        None => false,
    }
}

/// A worker has written the record that it claimed.
pub(crate) fn publish(
    alloc: Global,
    state: &mut CoreState,
    worker: u32,
    symbol: &SymbolId,
) -> Result<bool, NoMemory>
    ensures { IfOk result (Acts (MayPublish state.old worker symbol.now)
        (Published state.old symbol.now) state.new) }
{
    if !may_publish(alloc, state, worker, symbol)? {
        return Ok(false);
    }
    let image = image_of(alloc, &state.world, *symbol)?;
    state.records.insert(*symbol, CoreRecord::Held(image))?;
    Ok(true)
}

// Whether the worker may publish the record.
fn may_publish(
    alloc: Global,
    state: &CoreState,
    worker: u32,
    symbol: &SymbolId,
) -> Result<bool, NoMemory>
    ensures { IfOk result (Tells (MayPublish state.now worker symbol.now)) }
{
    if is_claim(&state.records, worker, *symbol) {
        is_covered(alloc, &state.world, &state.edges, symbol)
    } else {
        Ok(false)
    }
}
