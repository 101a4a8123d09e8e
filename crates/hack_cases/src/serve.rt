// Runs of the top call over sources and sinks in memory, and statuses.
use crate::plain::ahead;
use crate::streams::{sink_of, source_of};
use hack_io::{MemorySource, Source};
use hack_serve::{Status, hack_main};
use hack_show::Out;
use hack_types::NoMemory;
use std::alloc::Global;

/// Runs a script from pieces of so many bytes, into a sink that keeps four bytes of a failing piece: the status, a `|` and
/// what is written. So many `!` and then `#` stand ahead as the number of the pull and of the push that fails; where any do,
/// a `|` and what the source still has follow.
pub(crate) fn served(
    alloc: Global,
    out: &mut Out<'_>,
    text: &[u8],
    piece: usize,
) -> Result<(), NoMemory> {
    let (pull, rest) = ahead(text, b'!');
    let (push, script) = ahead(rest, b'#');
    let mut source = source_of(alloc, script, piece, &[pull])?;
    let done = serve(alloc, out, &mut source, push);
    if pull > 0 || push > 0 {
        out.push(b"|");
        push_left(out, &mut source);
    }
    drop(source);
    done
}

fn serve(
    alloc: Global,
    out: &mut Out<'_>,
    source: &mut MemorySource,
    push: u64,
) -> Result<(), NoMemory> {
    let mut sink = sink_of(alloc, 4096, 4, &[push])?;
    let status = hack_main(alloc, &[], source, &mut sink);
    show_status(alloc, out, status);
    out.push(b"|");
    out.push(sink.bytes());
    drop(sink);
    Ok(())
}

fn show_status(alloc: Global, out: &mut Out<'_>, status: Status) {
    out.number(status.number() as u64);
    match format!(in alloc; " {status}") {
        Ok(text) => out.push(text.as_bytes()),
        Err(_) => out.push(b"no memory"),
    }
}

// Adds what a source still has.
fn push_left(out: &mut Out<'_>, source: &mut MemorySource) {
    for _ in 0..1000u32 {
        let mut into = [0u8; 64];
        match source.pull(&mut into) {
            Ok(count) if count > 0 => out.push(&into[..count]),
            _ => return,
        }
    }
}

/// The number and the line of a status by its letter.
pub(crate) fn status(alloc: Global, out: &mut Out<'_>, text: &[u8]) -> Result<(), NoMemory> {
    let status = match text.first() {
        Some(b'd') => Status::Done,
        Some(b's') => Status::BadScript { line: 12 },
        Some(b'r') => Status::ReadFault,
        Some(b'w') => Status::WriteFault,
        Some(b't') => Status::TooLong,
        Some(b'b') => Status::NotBuilt,
        _ => Status::NoMemory,
    };
    show_status(alloc, out, status);
    Ok(())
}
