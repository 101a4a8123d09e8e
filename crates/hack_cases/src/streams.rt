// Sources and sinks: over readers and writers that count their calls, and in memory.

use crate::plain::{nth, number, split};
use hack_io::{MemorySink, MemorySource, Sink, Source, StdSink, StdSource, WriteFault};
use hack_show::Out;
use hack_types::NoMemory;
use std::alloc::{AllocError, Global};
use std::io::{Error, ErrorKind, Read, Result as IoResult, Write};

/// Gives at most `most` bytes at a read, nothing at the read of number `end`, and an error at that of number `fail`.
#[derive(Drop)]
struct Reader<'a> {
    rest: &'a [u8],
    most: usize,
    end: u64,
    fail: u64,
    reads: u64,
}

impl<'a> Read for Reader<'a> {
    fn read(&mut self, buf: &mut [u8]) -> IoResult<usize> {
        self.reads = self.reads.saturating_add(1);
        if self.reads == self.fail {
            return Err(Error::from(ErrorKind::Other));
        }
        if self.reads == self.end {
            return Ok(0);
        }
        let count = self.most.min(buf.len()).min(self.rest.len());
        buf[..count].copy_from_slice(&self.rest[..count]);
        self.rest = &self.rest[count..];
        Ok(count)
    }
}

/// Takes at most `most` bytes at a write, nothing at the write of number `full`, and gives an error at that of number
/// `fail`.
#[derive(Drop)]
struct Writer {
    taken: Vec<u8>,
    most: usize,
    full: u64,
    fail: u64,
    writes: u64,
}

impl Write for Writer {
    fn write(&mut self, buf: &[u8]) -> IoResult<usize> {
        self.writes = self.writes.saturating_add(1);
        if self.writes == self.fail {
            return Err(Error::from(ErrorKind::Other));
        }
        if self.writes == self.full {
            return Ok(0);
        }
        let count = buf.len().min(self.most);
        self.taken.extend_from_slice(&buf[..count])?;
        Ok(count)
    }

    fn flush(&mut self) -> IoResult<()> {
        Ok(())
    }
}

/// A source of these bytes by pieces, one byte long at least, whose pulls of these numbers fail.
pub(crate) fn source_of(
    alloc: Global,
    bytes: &[u8],
    piece: usize,
    fail: &[u64],
) -> Result<MemorySource, AllocError> {
    let bytes = Vec::from_slice(alloc, bytes)?;
    let fail = Vec::from_slice(alloc, fail)?;
    Ok(MemorySource::new(bytes, piece.max(1), fail))
}

/// A sink that has room for so many bytes and keeps so many of a failing piece, and whose pushes of these numbers fail.
pub(crate) fn sink_of(
    alloc: Global,
    room: usize,
    keep: usize,
    fail: &[u64],
) -> Result<MemorySink, NoMemory> {
    let fail = Vec::from_slice(alloc, fail)?;
    match MemorySink::new(alloc, room, keep, fail) {
        Ok(sink) => Ok(sink),
        Err(_) => Err(NoMemory),
    }
}

// What pulls into slices of these lengths give: of each how many bytes and which, or `!` for a fault, and a comma.
fn pull_all(
    alloc: Global,
    out: &mut Out<'_>,
    source: &mut impl Source,
    lens: &[u8],
) -> Result<(), NoMemory> {
    let mut rest = lens;
    for _ in 0..lens.len() {
        if rest.is_empty() {
            break;
        }
        let (len, behind) = split(rest, b' ');
        pull_once(alloc, out, source, number(len) as usize)?;
        rest = behind;
    }
    Ok(())
}

fn pull_once(
    alloc: Global,
    out: &mut Out<'_>,
    source: &mut impl Source,
    len: usize,
) -> Result<(), NoMemory> {
    let mut into = vec![in alloc; 0; len]?;
    match source.pull(into.as_mut_slice()) {
        Ok(count) => {
            out.number(count as u64);
            out.push(b":");
            out.push(into.get(..count).unwrap_or(b"?"));
        }
        Err(_) => out.word("!"),
    }
    drop(into);
    out.push(b",");
    Ok(())
}

// What the pushes of these pieces answer: `.` for each that is taken whole, and `!` for a fault. A `|` ends each piece.
fn push_all(out: &mut Out<'_>, sink: &mut impl Sink, pieces: &[u8]) {
    let mut rest = pieces;
    for _ in 0..pieces.len() {
        if rest.is_empty() {
            break;
        }
        let (piece, behind) = split(rest, b'|');
        match sink.push(piece) {
            Ok(()) => out.push(b"."),
            Err(WriteFault) => out.push(b"!"),
        }
        rest = behind;
    }
}

/// `MOST END FAIL|LENS|TEXT`: what pulls into slices of these lengths give of a reader of this text, and how many reads
/// that took.
pub(crate) fn read(alloc: Global, out: &mut Out<'_>, text: &[u8]) -> Result<(), NoMemory> {
    let (head, rest) = split(text, b'|');
    let (lens, text) = split(rest, b'|');
    let mut reader = Reader {
        rest: text,
        most: nth(head, 0) as usize,
        end: nth(head, 1),
        fail: nth(head, 2),
        reads: 0,
    };
    pull_all(alloc, out, &mut StdSource::new(&mut reader), lens)?;
    out.number(reader.reads);
    Ok(())
}

/// `MOST FULL FAIL|PIECES`: what pushes of these pieces answer over a writer, how many writes that took, and what was
/// written.
pub(crate) fn write(alloc: Global, out: &mut Out<'_>, text: &[u8]) -> Result<(), NoMemory> {
    let (head, pieces) = split(text, b'|');
    let mut writer = Writer {
        taken: Vec::new(alloc),
        most: nth(head, 0) as usize,
        full: nth(head, 1),
        fail: nth(head, 2),
        writes: 0,
    };
    push_all(out, &mut StdSink::new(&mut writer), pieces);
    out.number(writer.writes);
    out.push(b":");
    out.push(writer.taken.as_slice());
    drop(writer);
    Ok(())
}

/// `PIECE FAIL FAIL|LENS|TEXT`: what pulls into slices of these lengths give of a source in memory.
pub(crate) fn source(alloc: Global, out: &mut Out<'_>, text: &[u8]) -> Result<(), NoMemory> {
    let (head, rest) = split(text, b'|');
    let (lens, bytes) = split(rest, b'|');
    let piece = nth(head, 0) as usize;
    let mut source = source_of(alloc, bytes, piece, &[nth(head, 1), nth(head, 2)])?;
    let done = pull_all(alloc, out, &mut source, lens);
    drop(source);
    done
}

/// `ROOM KEEP FAIL FAIL|PIECES`: what pushes of these pieces answer over a sink in memory, and what is written.
pub(crate) fn sink(alloc: Global, out: &mut Out<'_>, text: &[u8]) -> Result<(), NoMemory> {
    let (head, pieces) = split(text, b'|');
    let (room, keep) = (nth(head, 0) as usize, nth(head, 1) as usize);
    let mut sink = sink_of(alloc, room, keep, &[nth(head, 2), nth(head, 3)])?;
    push_all(out, &mut sink, pieces);
    out.push(b":");
    out.push(sink.bytes());
    drop(sink);
    Ok(())
}
