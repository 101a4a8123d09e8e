// The bytes that were taken from a source and aren't used yet.
ghost use Rattle.std.specs.Prelude.{◌≡◌, ◌≤◌, ◌<◌, ◌+◌, ◌-◌, [], ℕ, List, length, take, drop, slice_range, vec_len, IfOk, OnOk, OnErr};
ghost use Rattle.std.specs.Io.KnownBytes.{Consumes, Keeps, IsAtEnd};
ghost use Rattle.hack_io.specs.Causes.{HasCause};

use hack_io::{NoMemory, ReadFault, Source};
use std::alloc::Global;
use std::marker::Model;

/// How many bytes a buffer has room for.
const SIZE: usize = 65_536;

/// Bytes that were taken and aren't used yet, in one block of memory that is kept.
#[derive(Drop)]
pub(crate) struct Buffer {
    bytes: Vec<u8>,
    start: usize,
    end: usize,
}

impl Model for Buffer {
    ghost use Rattle.std.specs.Prelude.{ℕ, List};

    ghost Value = { List ℕ };

    ghost use Rattle.script_text.specs.Buffers.{in_use, IsBuffer};

    ghost view = { in_use };

    ghost invariant = { IsBuffer };
}

impl Buffer {
    /// A buffer without bytes.
    pub(crate) fn new(alloc: Global) -> Result<Buffer, NoMemory>
        ensures { IfOk result (λ buffer. buffer ≡ []) }
    {
        let bytes = zeros(alloc, SIZE)?;
        Ok(Buffer {
            bytes,
            start: 0,
            end: 0,
        })
    }

    /// The bytes.
    pub(crate) fn bytes(&self) -> &[u8]
        ensures { result.now ≡ self.now }
    {
        &self.bytes[self.start..self.end]
    }

    /// Uses up the first bytes.
    pub(crate) fn use_up(&mut self, count: usize)
        requires { count ≤ length self.old }
        ensures { self.new ≡ drop count self.old }
    {
        self.start += count;
    }

    /// Takes bytes of the source, at most `most`, behind those that are there, and answers how many.
    ///
    /// 0 is the source's end.
    pub(crate) fn pull<S: Source>(
        &mut self,
        source: &mut S,
        most: usize,
    ) -> Result<usize, ReadFault>
        requires few { length self.old ≤ 300 }
        requires some { 1 ≤ most }
        ensures count { IfOk result (λ count. count ≤ most) }
        ensures grown { IfOk result (λ count. length self.new ≡ length self.old + count) }
        ensures front { OnOk result (take (length self.old) self.new ≡ self.old) }
        ensures taken { OnOk result (Consumes (S.left source.old) (S.left source.new)
            (drop (length self.old) self.new)) }
        ensures end { IfOk result (λ count. count ≡ 0 → IsAtEnd (S.left source.new)) }
        ensures err { OnErr result (Keeps (S.left source.old) (S.left source.new)) }
        ensures kept { OnErr result (self.new ≡ self.old) }
        ensures cause { HasCause (S.faults source.old) (S.faults source.new) result }
    {
        let (start, end) = with_room(&mut self.bytes, self.start, self.end);
        self.start = start;
        self.end = end;
        let count = pull_behind(source, &mut self.bytes, end, most)?;
        self.end += count;
        Ok(count)
    }
}

/// So many zeros.
pub(crate) fn zeros(alloc: Global, count: usize) -> Result<Vec<u8>, NoMemory>
    ensures { IfOk result (λ zeros. vec_len zeros ≡ count) }
{
    let zeros = vec![in alloc; 0; count]?;
    Ok(zeros)
}

/// Where the bytes from `start` to `end` stand once there is room behind them: at the front, if there was none.
fn with_room(bytes: &mut Vec<u8>, start: usize, end: usize) -> (usize, usize)
    requires order { start ≤ end }
    requires inside { end ≤ vec_len bytes.old }
    requires few { end - start < vec_len bytes.old }
    ensures same { slice_range bytes.new.items result.0 result.1
        ≡ slice_range bytes.old.items start end }
    ensures order { result.0 ≤ result.1 }
    ensures room { result.1 < vec_len bytes.new }
    ensures len { vec_len bytes.new ≡ vec_len bytes.old }
{
    if start == end {
        return (0, 0);
    }
    if end < bytes.len() {
        return (start, end);
    }
    bytes.copy_within(start..end, 0);
    (0, end - start)
}

/// Pulls at most `most` bytes into the room from `end` on.
fn pull_behind<S: Source>(
    source: &mut S,
    bytes: &mut [u8],
    end: usize,
    most: usize,
) -> Result<usize, ReadFault>
    requires room { end < length bytes.old }
    requires some { 1 ≤ most }
    ensures count { IfOk result (λ count. count ≤ most) }
    ensures inside { IfOk result (λ count. end + count ≤ length bytes.new) }
    ensures front { take end bytes.new ≡ take end bytes.old }
    ensures taken { IfOk result (λ count. Consumes (S.left source.old) (S.left source.new)
        (slice_range bytes.new end (end + count))) }
    ensures end { IfOk result (λ count. count ≡ 0 → IsAtEnd (S.left source.new)) }
    ensures err { OnErr result (Keeps (S.left source.old) (S.left source.new)) }
    ensures cause { HasCause (S.faults source.old) (S.faults source.new) result }
{
    let last = bytes.len().min(end.saturating_add(most));
    source.pull(&mut bytes[end..last])
}
