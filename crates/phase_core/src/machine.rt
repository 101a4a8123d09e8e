// The step, and runs of events.
ghost use Rattle.std.specs.Prelude.{◌≡◌, IfOk, IfSome, MatchOption};
ghost use Rattle.phase_core.specs.States.{empty_state};
ghost use Rattle.phase_core.specs.Steps.{HasCase, HasEffect, Steps, Runs, IsStuck};
ghost use Rattle.phase_core.specs.Acts.{Acts, ActsAll};
ghost use Rattle.phase_core.specs.Sound.{Sound};

use crate::edits::edit;
use crate::phases::{finish, hear, start, sweep, take};
use crate::workers::{claim, fold, note, publish, read};
use crate::{Copied, CoreState, EdgeSet, Event, SymbolMap, SymbolSet};
use hack_types::NoMemory;
use sqlite_items::Items;
use std::alloc::Global;

impl CoreState {
    /// The state at the start. It takes no memory.
    pub fn empty(alloc: Global) -> Self
        ensures { result ≡ empty_state }
    {
        CoreState {
            world: SymbolMap::new(alloc),
            records: SymbolMap::new(alloc),
            edges: EdgeSet::new(alloc),
            stale: SymbolSet::new(alloc),
            verdicts: SymbolMap::new(alloc),
            workers: Items::new(alloc),
            raised: false,
        }
    }
}

/// The state after an event; none exactly where the event has no case. An error says that memory
/// ran out.
pub fn step(alloc: Global, state: &CoreState, event: &Event) -> Result<Option<CoreState>, NoMemory>
    ensures { IfOk result (Steps state.now event.now) }
{
    let mut next = state.copied(alloc)?;
    let done = act(alloc, &mut next, event)?;
    Ok(done.then_some(next))
}

// Changes the state by an event; no exactly where the event has no case.
fn act(alloc: Global, state: &mut CoreState, event: &Event) -> Result<bool, NoMemory>
    ensures { IfOk result
        (Acts (HasCase state.old event.now) (HasEffect state.old event.now) state.new) }
{
    match event {
        Event::Edit { world } => edit(alloc, state, world),
        Event::Sweep => sweep(alloc, state),
        Event::Start { workers } => start(alloc, state, *workers),
        Event::Take {
            worker,
            symbol,
            check,
        } => Ok(take(alloc, state, *worker, symbol, *check)),
        Event::Note { worker, edge } => note(alloc, state, *worker, edge),
        Event::Read { worker, symbol } => read(alloc, state, *worker, symbol),
        Event::Fold { worker, symbol } => fold(alloc, state, *worker, symbol),
        Event::Claim { worker, symbol } => claim(state, *worker, symbol),
        Event::Publish { worker, symbol } => publish(alloc, state, *worker, symbol),
        Event::Finish { worker } => finish(alloc, state, *worker),
        Event::Raise => {
            state.raised = true;
            Ok(true)
        }
        Event::Hear { worker } => Ok(hear(state, *worker)),
    }
}

/// The state after these events in order, from the empty one; none exactly where one of them has no
/// case. An error says that memory ran out.
pub fn run(alloc: Global, events: &[Event]) -> Result<Option<CoreState>, NoMemory>
    ensures follows { IfOk result (λ answer.
        MatchOption answer (IsStuck empty_state events.now) (Runs empty_state events.now)) }
    ensures sound { IfOk result (λ answer. IfSome answer Sound) }
{
    let mut state = CoreState::empty(alloc);
    let done = act_all(alloc, &mut state, events)?;
    Ok(done.then_some(state))
}

// Changes the state by these events in order; no exactly where one of them has no case.
fn act_all(alloc: Global, state: &mut CoreState, events: &[Event]) -> Result<bool, NoMemory>
    ensures { IfOk result (ActsAll state.old events.now state.new) }
{
    for event in events {
        if !act(alloc, state, event)? {
            return Ok(false);
        }
    }
    Ok(true)
}
