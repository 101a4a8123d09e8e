// The events that begin, end and share out the work of a phase.
ghost use Rattle.std.specs.Prelude.{◌≡◌, ◌↔◌, IsTrue, IfOk, OnOk, replicate};
ghost use Rattle.std.specs.FinMap as finite;
ghost use Rattle.hack_types.specs.declared.ids.SymbolId.{SymbolId as Symbol};
ghost use Rattle.phase_core.specs.declared.state.CoreWorker.TheVariants.{Idle};
ghost use Rattle.phase_core.specs.States.{NoneIsClaimed, unclaimed, with_worker};
ghost use Rattle.phase_core.specs.Says.{Tells};
ghost use Rattle.phase_core.specs.Phases.{MaySweep, Swept, MayStart, Started};
ghost use Rattle.phase_core.specs.Phases.{IsJob, MayTake, Taken};
ghost use Rattle.phase_core.specs.Phases.{verdict_in, with_verdict, finished};
ghost use Rattle.phase_core.specs.Phases.{MayFinish, Finished, MayHear, Heard};
ghost use Rattle.phase_core.specs.Acts.{Acts};

use crate::ask::{all_are_idle, claimed, is_checked, is_free, job_of};
use crate::{Copied, CoreImage, CoreRecord, CoreState, CoreVerdict, CoreWorker, Decl, SymbolMap};
use hack_types::{NoMemory, SymbolId};
use sqlite_items::Items;
use std::alloc::Global;

/// The master takes out the claimed records.
pub(crate) fn sweep(alloc: Global, state: &mut CoreState) -> Result<bool, NoMemory>
    ensures { IfOk result (Acts (MaySweep state.old) (Swept state.old) state.new) }
{
    if !all_are_idle(state.workers.as_slice()) {
        return Ok(false);
    }
    state.records = without_claims(alloc, &state.records)?;
    Ok(true)
}

/// The records without the claimed ones.
pub(crate) fn without_claims(
    alloc: Global,
    records: &SymbolMap<CoreRecord>,
) -> Result<SymbolMap<CoreRecord>, NoMemory>
    ensures { IfOk result (λ rest. (s : Symbol) →
        finite.get rest s ≡ unclaimed (finite.get records.now s)) }
{
    let claims = claimed(alloc, records)?;
    records.without(alloc, &claims)
}

/// The master begins a phase.
pub(crate) fn start(alloc: Global, state: &mut CoreState, workers: u32) -> Result<bool, NoMemory>
    ensures { IfOk result (Acts (MayStart state.old) (Started state.old workers) state.new) }
{
    if !may_start(alloc, state)? {
        return Ok(false);
    }
    state.workers = idle_workers(alloc, workers)?;
    state.raised = false;
    Ok(true)
}

// Whether the master may begin a phase.
fn may_start(alloc: Global, state: &CoreState) -> Result<bool, NoMemory>
    ensures { IfOk result (Tells (MayStart state.now)) }
{
    if all_are_idle(state.workers.as_slice()) {
        none_is_claimed(alloc, state)
    } else {
        Ok(false)
    }
}

// Whether no record is claimed.
fn none_is_claimed(alloc: Global, state: &CoreState) -> Result<bool, NoMemory>
    ensures { IfOk result (Tells (NoneIsClaimed state.now)) }
{
    let claims = claimed(alloc, &state.records)?.symbols(alloc)?;
    Ok(Items::from_vec(claims).is_empty())
}

// So many idle workers.
fn idle_workers(alloc: Global, count: u32) -> Result<Items<CoreWorker>, NoMemory>
    ensures { IfOk result (λ workers. workers ≡ replicate count Idle) }
{
    let mut workers = Vec::new(alloc);
    for _number in 0..count {
        workers.push(CoreWorker::Idle)?;
    }
    Ok(Items::from_vec(workers))
}

/// A worker takes a job.
pub(crate) fn take(
    alloc: Global,
    state: &mut CoreState,
    worker: u32,
    symbol: &SymbolId,
    check: bool,
) -> bool
    ensures { Acts (MayTake state.old worker symbol.now check)
        (Taken state.old worker symbol.now check) state.new result }
{
    if !may_take(state, worker, symbol, check) {
        return false;
    }
    let known = SymbolMap::new(alloc);
    set_worker(
        state,
        worker,
        CoreWorker::Work {
            symbol: *symbol,
            check,
            known,
        },
    );
    true
}

// Whether the worker may take this job.
fn may_take(state: &CoreState, worker: u32, symbol: &SymbolId, check: bool) -> bool
    ensures { IsTrue result ↔ MayTake state.now worker symbol.now check }
{
    is_free(&state.workers, worker) && is_job(state, symbol, check)
}

// Whether the job may be had.
fn is_job(state: &CoreState, symbol: &SymbolId, check: bool) -> bool
    ensures { IsTrue result ↔ IsJob state.now symbol.now check }
{
    if check {
        state.stale.contains(*symbol) && !is_checked(state.workers.as_slice(), symbol)
    } else {
        state.world.has(*symbol)
    }
}

/// The worker of this number becomes another.
pub(crate) fn set_worker(state: &mut CoreState, worker: u32, becomes: CoreWorker)
    ensures { state.new ≡ with_worker state.old worker becomes }
{
    if (worker as usize) < state.workers.len() {
        state.workers.set(worker as usize, becomes);
    }
}

/// A worker ends its job.
pub(crate) fn finish(alloc: Global, state: &mut CoreState, worker: u32) -> Result<bool, NoMemory>
    ensures { IfOk result
        (Acts (MayFinish state.old worker) (Finished state.old worker) state.new) }
{
    match job_of(&state.workers, worker) {
        Some((symbol, check, known)) => {
            let known = known.copied(alloc)?;
            judge(alloc, state, &symbol, check, &known)?;
            set_worker(state, worker, CoreWorker::Idle);
            Ok(true)
        }
        None => Ok(false),
    }
}

// With `check` the unit has a verdict and is no longer stale.
fn judge(
    alloc: Global,
    state: &mut CoreState,
    symbol: &SymbolId,
    check: bool,
    known: &SymbolMap<CoreImage>,
) -> Result<(), NoMemory>
    ensures { OnOk result (state.new ≡ finished state.old symbol.now check known.now) }
{
    if check {
        put_verdict(alloc, state, symbol, known)?;
        state.stale.remove(*symbol);
    }
    Ok(())
}

// The unit has a verdict.
fn put_verdict(
    alloc: Global,
    state: &mut CoreState,
    symbol: &SymbolId,
    known: &SymbolMap<CoreImage>,
) -> Result<(), NoMemory>
    ensures { OnOk result
        (state.new ≡
        with_verdict state.old symbol.now (finite.get state.old.world symbol.now) known.now) }
{
    match verdict_of(alloc, &state.world, *symbol, known)? {
        Some(verdict) => state.verdicts.insert(*symbol, verdict),
        None => Ok(()),
    }
}

// The verdict of a unit.
fn verdict_of(
    alloc: Global,
    world: &SymbolMap<Decl>,
    symbol: SymbolId,
    known: &SymbolMap<CoreImage>,
) -> Result<Option<CoreVerdict>, NoMemory>
    ensures { IfOk result (λ v. v ≡ verdict_in (finite.get world.now symbol) known.now) }
{
    match world.get(symbol) {
        Some(decl) => Ok(Some(CoreVerdict {
            text: decl.text,
            names: decl.names.copied(alloc)?,
            known: known.copied(alloc)?,
        })),
        None => Ok(None),
    }
}

/// A worker hears that it is to stop.
pub(crate) fn hear(state: &mut CoreState, worker: u32) -> bool
    ensures { Acts (MayHear state.old worker) (Heard state.old worker) state.new result }
{
    if !may_hear(state, worker) {
        return false;
    }
    set_worker(state, worker, CoreWorker::Idle);
    true
}

// Whether the worker is at work and is to stop.
fn may_hear(state: &CoreState, worker: u32) -> bool
    ensures { IsTrue result ↔ MayHear state.now worker }
{
    match job_of(&state.workers, worker) {
        Some(_) => state.raised,
        None => false,
    }
}
