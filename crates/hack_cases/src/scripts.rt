// Scripts read to their end, over sources in memory, and replies.
ghost use Rattle.std.specs.Prelude.{◌≡◌, IfOk, IsTrue};
ghost use Rattle.script_text.specs.declared.stand.Stand.TheVariants.{BeforeHead};

use crate::plain::{ahead, nth, push_made};
use crate::streams::source_of;
use hack_io::MemorySource;
use hack_show::Out;
use hack_types::NoMemory;
use script_text::{Head, ReadStop, Reply, ScriptReader, reply_text};
use std::alloc::Global;

// Shows the next head, and of a `file` its body, and answers whether the script goes on.
fn show_next(
    alloc: Global,
    reader: &mut ScriptReader,
    source: &mut MemorySource,
    out: &mut Out<'_>,
) -> Result<bool, ReadStop>
    requires { reader.old.stand ≡ BeforeHead }
    ensures { IfOk result (λ more. IsTrue more → reader.new.stand ≡ BeforeHead) }
{
    match reader.read_head(alloc, source)? {
        Head::File { name, len } => {
            out.push(b"file ");
            out.push(name.as_slice());
            drop(name);
            let body = reader.read_body(alloc, source, len)?;
            out.push(b"=");
            out.push(body.as_slice());
            drop(body);
        }
        Head::Drop { name } => {
            out.push(b"drop ");
            out.push(name.as_slice());
            drop(name);
        }
        Head::Check => out.push(b"check"),
        Head::Begin => out.push(b"begin"),
        Head::Wait => out.push(b"wait"),
        Head::Quit => {
            out.push(b"quit");
            return Ok(false);
        }
        Head::End => {
            out.push(b"end");
            return Ok(false);
        }
    }
    out.push(b";");
    Ok(true)
}

// What a reader answers of the first commands of a script.
fn outline(alloc: Global, reader: &mut ScriptReader, source: &mut MemorySource, out: &mut Out<'_>)
    requires { reader.old.stand ≡ BeforeHead }
{
    for _ in 0..20u64 {
        match show_next(alloc, reader, source, out) {
            Ok(true) => {}
            Ok(false) => return,
            Err(stop) => {
                show_stop(out, stop);
                return;
            }
        }
    }
}

fn show_stop(out: &mut Out<'_>, stop: ReadStop) {
    match stop {
        ReadStop::BadScript { line } => {
            out.push(b"bad");
            out.number(line);
        }
        ReadStop::Fault => out.push(b"fault"),
        ReadStop::TooLong => out.push(b"too long"),
        ReadStop::NoMemory => out.push(b"no memory"),
    }
}

/// The outline of a script in pieces of so many bytes. So many `!` stand ahead as the number of the pull that fails.
pub(crate) fn outlined(
    alloc: Global,
    out: &mut Out<'_>,
    text: &[u8],
    piece: usize,
) -> Result<(), NoMemory> {
    let (fail, script) = ahead(text, b'!');
    let mut source = source_of(alloc, script, piece, &[fail])?;
    match ScriptReader::new(alloc) {
        Ok(mut reader) => {
            outline(alloc, &mut reader, &mut source, out);
            drop(reader);
        }
        Err(_) => out.push(b"no memory"),
    }
    drop(source);
    Ok(())
}

/// A reply: `edit NUMBER`, `no file`, `report NUMBER` of no diagnostics, or `cancelled NUMBER`.
pub(crate) fn replied(alloc: Global, out: &mut Out<'_>, text: &[u8]) -> Result<(), NoMemory> {
    let number = nth(text, 1);
    let reply = match text.first() {
        Some(b'e') => Reply::Edit(number),
        Some(b'n') => Reply::NoFile,
        Some(b'r') => Reply::Report(number, Vec::new(alloc)),
        _ => Reply::Cancelled(number),
    };
    push_made(out, reply_text(alloc, &reply, false));
    drop(reply);
    Ok(())
}
