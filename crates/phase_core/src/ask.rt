// What the cases of events ask.
ghost use Rattle.std.specs.Prelude.{◌≡◌, ◌↔◌, ℕ, IsTrue, IfOk, IfSome, IfNone, Contains};
ghost use Rattle.std.specs.Prelude.{Some, All, slice_get, true};
ghost use Rattle.std.specs.FinMap as finite;
ghost use Rattle.hack_types.specs.declared.ids.SymbolId.{SymbolId as Symbol};
ghost use Rattle.phase_core.specs.declared.state.CoreWorker.TheVariants.{Idle, Work};
ghost use Rattle.phase_core.specs.declared.state.CoreRecord.TheVariants.{Claimed, Held};
ghost use Rattle.phase_core.specs.Says.{Tells, HasAll};
ghost use Rattle.phase_core.specs.World.{ParentsAreMentioned, MentionsParents};
ghost use Rattle.phase_core.specs.States.{Works, Holds, is_claimed};
ghost use Rattle.phase_core.specs.Phases.{IsCheckOf};

use crate::{CoreImage, CoreRecord, CoreWorker, Decl, SymbolMap, SymbolSet};
use hack_types::{NoMemory, SymbolId};
use sqlite_items::Items;
use std::alloc::Global;

/// Whether two symbols are the same.
pub(crate) fn same(a: SymbolId, b: SymbolId) -> bool
    ensures { IsTrue result ↔ (a ≡ b) }
{
    a == b
}

/// Whether a symbol is among these.
pub(crate) fn has_symbol(symbols: &[SymbolId], symbol: &SymbolId) -> bool
    ensures { IsTrue result ↔ Contains symbols.now symbol.now }
{
    for other in symbols {
        if same(*other, *symbol) {
            return true;
        }
    }
    false
}

/// Whether all of these are among those.
pub(crate) fn has_symbols(those: &[SymbolId], these: &[SymbolId]) -> bool
    ensures { IsTrue result ↔ ((s : Symbol) → Contains these.now s → Contains those.now s) }
{
    for symbol in these {
        if !has_symbol(those, symbol) {
            return false;
        }
    }
    true
}

/// Whether two lists are the same.
pub(crate) fn has_same(a: &[SymbolId], b: &[SymbolId]) -> bool
    ensures { IsTrue result ↔ (a.now ≡ b.now) }
{
    a == b
}

/// Whether no worker is at work.
pub(crate) fn all_are_idle(workers: &[CoreWorker]) -> bool
    ensures { IsTrue result ↔ All (λ w. w ≡ Idle) workers.now }
{
    for worker in workers {
        if !is_idle(worker) {
            return false;
        }
    }
    true
}

// Whether it has nothing to do.
fn is_idle(worker: &CoreWorker) -> bool
    ensures { IsTrue result ↔ (worker.now ≡ Idle) }
{
    match worker {
        CoreWorker::Idle => true,
        CoreWorker::Work { .. } => false,
    }
}

/// Whether there is a worker of this number, with nothing to do.
pub(crate) fn is_free(workers: &Items<CoreWorker>, worker: u32) -> bool
    ensures { IsTrue result ↔ (slice_get workers.now worker ≡ Some Idle) }
{
    match workers.get(worker as usize) {
        Some(worker) => is_idle(worker),
        None => false,
    }
}

/// What the worker of this number is at work on, whether with `check`, and what it knows.
pub(crate) fn job_of(
    workers: &Items<CoreWorker>,
    worker: u32,
) -> Option<(SymbolId, bool, &SymbolMap<CoreImage>)>
    ensures none { IfNone result (¬ Works (slice_get workers.now worker) (λ _ _ _. Unit {0})) }
    ensures some { IfSome result
        (λ job. slice_get workers.now worker ≡ Some (Work job.0 job.1 job.2.now)) }
{
    match workers.get(worker as usize) {
        Some(
            CoreWorker::Work {
                symbol,
                check,
                known,
            },
        ) => Some((*symbol, *check, known)),
        Some(CoreWorker::Idle) => None,
        None => None,
    }
}

/// Whether a worker checks this symbol's unit.
pub(crate) fn is_checked(workers: &[CoreWorker], symbol: &SymbolId) -> bool
    ensures { IsTrue result ↔ ((n : ℕ) × Works (slice_get workers.now n) (IsCheckOf symbol.now)) }
{
    for worker in workers {
        if checks(worker, symbol) {
            return true;
        }
    }
    false
}

// Whether this worker does.
fn checks(worker: &CoreWorker, symbol: &SymbolId) -> bool
    ensures { IsTrue result ↔ Works (Some worker.now) (IsCheckOf symbol.now) }
{
    match worker {
        CoreWorker::Idle => false,
        CoreWorker::Work {
            symbol: own,
            check,
            ..
        } => *check && same(*own, *symbol),
    }
}

/// The image that is held for a symbol.
pub(crate) fn held_image(records: &SymbolMap<CoreRecord>, symbol: SymbolId) -> Option<&CoreImage>
    ensures none { IfNone result (¬ Holds (finite.get records.now symbol) (λ _. Unit {0})) }
    ensures some { IfSome result
        (λ image. finite.get records.now symbol ≡ Some (Held image.now)) }
{
    match records.get(symbol) {
        Some(CoreRecord::Held(image)) => Some(image),
        Some(CoreRecord::Claimed(_)) => None,
        None => None,
    }
}

/// Whether a symbol's record is claimed by this worker.
pub(crate) fn is_claim(records: &SymbolMap<CoreRecord>, worker: u32, symbol: SymbolId) -> bool
    ensures { IsTrue result ↔ (finite.get records.now symbol ≡ Some (Claimed worker)) }
{
    match records.get(symbol) {
        Some(CoreRecord::Claimed(owner)) => *owner == worker,
        Some(CoreRecord::Held(_)) => false,
        None => false,
    }
}

/// The symbols whose records are claimed.
pub(crate) fn claimed(alloc: Global, records: &SymbolMap<CoreRecord>) -> Result<SymbolSet, NoMemory>
    ensures { IfOk result (HasAll (λ s. is_claimed (finite.get records.now s) ≡ true)) }
{
    let mut set = SymbolSet::new(alloc);
    let symbols = records.symbols(alloc)?;
    for symbol in &symbols {
        if is_claimed_in(records, *symbol) {
            set.insert(*symbol)?;
        }
    }
    Ok(set)
}

// Whether the symbol's record is claimed.
fn is_claimed_in(records: &SymbolMap<CoreRecord>, symbol: SymbolId) -> bool
    ensures { result ≡ is_claimed (finite.get records.now symbol) }
{
    match records.get(symbol) {
        Some(CoreRecord::Claimed(_)) => true,
        Some(CoreRecord::Held(_)) => false,
        None => false,
    }
}

/// Whether each parent of a declared symbol is among its mentions.
pub(crate) fn parents_are_mentioned(
    alloc: Global,
    world: &SymbolMap<Decl>,
) -> Result<bool, NoMemory>
    ensures { IfOk result (Tells (ParentsAreMentioned world.now)) }
{
    let symbols = world.symbols(alloc)?;
    for symbol in &symbols {
        if !mentions_parents(world, *symbol) {
            return Ok(false);
        }
    }
    Ok(true)
}

// Whether each parent of this symbol is, where it is declared.
fn mentions_parents(world: &SymbolMap<Decl>, symbol: SymbolId) -> bool
    ensures { IsTrue result ↔ MentionsParents (finite.get world.now symbol) }
{
    match world.get(symbol) {
        Some(decl) => has_symbols(decl.mentions.as_slice(), decl.parents.as_slice()),
        None => true,
    }
}
