// The machine of phases: six short runs in a world of one symbol, with answers that were worked out by hand.

use crate::types::symbol_of;
use hack_show::Out;
use hack_types::{Kind, NoMemory, SymbolId};
use phase_core::{CoreEdge, CoreRecord, CoreState, Decl, Event, SymbolMap, run};
use sqlite_items::Items;
use std::alloc::Global;

fn a() -> SymbolId {
    symbol_of(Kind::Class, 0)
}

// One symbol with text 1, which names itself, version 1, no parents and no mentions.
fn world(alloc: Global) -> Result<SymbolMap<Decl>, NoMemory> {
    let decl = decl(alloc)?;
    let mut world = SymbolMap::new(alloc);
    let done = world.insert(a(), decl);
    match done {
        Ok(_) => Ok(world),
        Err(stop) => Err(stop),
    }
}

fn decl(alloc: Global) -> Result<Decl, NoMemory> {
    let mut names = Items::new(alloc);
    names.push(a())?;
    Ok(Decl {
        text: 1,
        names,
        version: 1,
        parents: Items::new(alloc),
        mentions: Items::new(alloc),
    })
}

// The event that a letter stands for: E edit, S start one worker, T take with check, N note, C claim, P publish, R read,
// F finish, ! raise, H hear, W sweep.
fn event(alloc: Global, letter: u8) -> Result<Event, NoMemory> {
    let worker = 0;
    let symbol = a();
    Ok(match letter {
        b'E' => Event::Edit {
            world: world(alloc)?,
        },
        b'S' => Event::Start { workers: 1 },
        b'T' => Event::Take {
            worker,
            symbol,
            check: true,
        },
        b'N' => Event::Note {
            worker,
            edge: CoreEdge {
                fold: false,
                from: a(),
                to: a(),
            },
        },
        b'C' => Event::Claim { worker, symbol },
        b'P' => Event::Publish { worker, symbol },
        b'R' => Event::Read { worker, symbol },
        b'F' => Event::Finish { worker },
        b'H' => Event::Hear { worker },
        b'W' => Event::Sweep,
        _ => Event::Raise,
    })
}

/// `none` for no state; else what is so of the symbol: d declared, h held, v with a verdict, s stale, and . at the end.
pub(crate) fn ended(alloc: Global, out: &mut Out<'_>, letters: &[u8]) -> Result<(), NoMemory> {
    let mut events = Vec::new(alloc);
    let added = add_events(alloc, letters, &mut events);
    let end = run(alloc, events.as_slice());
    drop(events);
    show(out, &end);
    drop(end);
    added
}

fn add_events(alloc: Global, letters: &[u8], events: &mut Vec<Event>) -> Result<(), NoMemory> {
    for letter in letters {
        events.push(event(alloc, *letter)?)?;
    }
    Ok(())
}

fn show(out: &mut Out<'_>, end: &Result<Option<CoreState>, NoMemory>) {
    match end {
        Ok(Some(state)) => marks(out, state),
        Ok(None) => out.word("none"),
        Err(NoMemory) => out.word("no memory"),
    }
}

fn marks(out: &mut Out<'_>, state: &CoreState) {
    if state.world.has(a()) {
        out.push(b"d");
    }
    if let Some(CoreRecord::Held(_)) = state.records.get(a()) {
        out.push(b"h");
    }
    if state.verdicts.has(a()) {
        out.push(b"v");
    }
    if state.stale.contains(a()) {
        out.push(b"s");
    }
    out.push(b".");
}
