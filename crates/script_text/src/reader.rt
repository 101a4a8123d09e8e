// A reader of a script, from a source that gives its bytes in any pieces.
ghost use Rattle.std.specs.Prelude.{◌≡◌, ◌≤◌, ◌<◌, ◌+◌, ◌-◌, ◌⊎◌, ◌++◌, [], ℕ, true, false, min, length, take, drop, IfOk, IfErr, IfSome, OnOk, OnErr, IsSome};
ghost use Rattle.std.specs.Io.KnownBytes.{Keeps, IsAtEnd};
ghost use Rattle.memchr.specs.Find.{IsFirst, Nowhere, Passes, is_byte};
ghost use Rattle.script_text.specs.Script.{Broken, Open, next_head, Bad, More, next_body, newlines, Body, behind_body};
ghost use Rattle.script_text.specs.Ends.{IsNoEnd};
ghost use Rattle.script_text.specs.Reader.{Takes, Stops, ReadsHead, ReadsBody, ReadsBehind, IsBrokenBehind, WaitsBehind, head_of, stand_after};
ghost use Rattle.script_text.specs.declared.stand.Stand.TheVariants.{BeforeHead as StandsBeforeHead, BeforeBody as StandsBeforeBody, Over as StandsOver};

use crate::buffer::{Buffer, zeros};
use crate::line::{MAX_LINE, head_found, owned, stand_behind};
use crate::{Head, ReadStop, Stand};
use hack_io::{NoMemory, Source};
use memchr::memchr;
use std::alloc::Global;
use std::marker::Model;

/// The most bytes of a script.
const MAX_SCRIPT: u64 = (1 << 31) - 1;

/// Reads a script head by head and body by body (docs/script.md, Form).
///
/// It means the bytes that it took of its source and hasn't used, how many it took in all, whether a pull gave 0, the
/// line of the first unused byte, from 1, and where it stands in the forms of a script. After a `ReadStop` it isn't
/// used again.
#[derive(Drop)]
pub struct ScriptReader {
    buffer: Buffer,
    taken: u64,
    ended: bool,
    line: u64,
    stand: Stand,
}

impl Model for ScriptReader {
    ghost use Rattle.script_text.specs.Reader.{Reader};

    ghost Value = { Reader };

    ghost use Rattle.script_text.specs.Reading.{reader_view, IsReader};

    ghost view = { reader_view };

    ghost invariant = { IsReader };
}

impl ScriptReader {
    ghost use Rattle.std.specs.Prelude.{◌≡◌, ◌≤◌, ◌<◌, ◌+◌, ◌-◌, ◌⊎◌, ◌++◌, [], ℕ, true, false, length, take, drop, min, Ok, IfOk, IfErr, IfSome, OnOk, OnErr, IsSome, None};
    ghost use Rattle.std.specs.Io.KnownBytes.{Keeps, IsAtEnd};
    ghost use Rattle.script_text.specs.Script.{Broken, Open, next_head, Bad, More, next_body, newlines, Body, behind_body};
    ghost use Rattle.script_text.specs.Lines.{head_found};
    ghost use Rattle.script_text.specs.Reader.{Takes, Stops, ReadsHead, ReadsBody, ReadsBehind, IsBrokenBehind, WaitsBehind, head_of, stand_after};
    ghost use Rattle.script_text.specs.Reading.{SameNext, IsLineStart, IsSkipped, IsLineEnd, rest_found, SamePlace, IsFilled, head_bytes};
    ghost use Rattle.script_text.specs.declared.stand.Stand.TheVariants.{BeforeHead as StandsBeforeHead, BeforeBody as StandsBeforeBody, Over as StandsOver};
    ghost use Rattle.script_text.specs.declared.head.ReadStop.TheVariants as stop;
    ghost use Rattle.script_text.specs.declared.head.Head.TheVariants as head;

    /// A reader that has taken nothing, in line 1, where a command may begin.
    pub fn new(alloc: Global) -> Result<ScriptReader, NoMemory>
        ensures { IfOk result (λ reader. reader ≡ record {
          unused = [];
          taken = 0;
          ended = false;
          line = 1;
          stand = StandsBeforeHead;
        }) }
    {
        let buffer = Buffer::new(alloc)?;
        Ok(ScriptReader {
            buffer,
            taken: 0,
            ended: false,
            line: 1,
            stand: Stand::BeforeHead,
        })
    }

    /// The line of the first unused byte, from 1. Behind the head of a `file` it is the line behind that of its command.
    pub fn line(&self) -> u64
        ensures { result ≡ self.now.line }
    {
        self.line
    }

    /// The head of the next command; `End` where only empty lines were left and the source has ended.
    ///
    /// Where the body of a `file` wasn't read it is passed over; behind `quit` nothing is read, and the answer is `Quit` again.
    /// `BadScript` says that the next line that isn't empty is in no form, or that the body to pass over isn't there whole.
    pub fn read_head<S: Source>(&mut self, alloc: Global, source: &mut S) -> Result<Head, ReadStop>
        ensures head { IfOk result (λ head. self.old.stand ≡ StandsBeforeHead
            → Takes (S.left source.old) (S.left source.new) self.old self.new
            (λ more. ReadsHead self.old more self.new (head_of head))) }
        ensures behind_file { IfOk result (λ head. (len : ℕ)
            → self.old.stand ≡ StandsBeforeBody len
            → Takes (S.left source.old) (S.left source.new) self.old self.new
            (λ more. ReadsBehind self.old more self.new len (head_of head))) }
        ensures behind_quit { self.old.stand ≡ StandsOver
            → (result ≡ Ok head.Quit) × (self.new ≡ self.old) × (source.new ≡ source.old) }
        ensures stand { IfOk result (λ head. self.new.stand ≡ stand_after (head_of head)) }
        ensures faults { S.faults source.old ≤ S.faults source.new }
        ensures most { self.new.taken ≤ 2147483647 }
        ensures stopped { IfErr result (λ stop. self.old.stand ≡ StandsBeforeHead
            → Stops (S.faults source.old) (S.faults source.new)
            (S.left source.old) (S.left source.new) self.old self.new
            (λ whole bytes line. next_head whole self.old.line bytes ≡ Broken line)
            (λ bytes. next_head false self.old.line bytes ≡ Open) stop) }
        ensures stopped_behind_file { IfErr result
            (λ stop. (len : ℕ) → self.old.stand ≡ StandsBeforeBody len
            → Stops (S.faults source.old) (S.faults source.new)
            (S.left source.old) (S.left source.new) self.old self.new
            (IsBrokenBehind len self.old.line) (WaitsBehind len self.old.line) stop) }
    {
        match self.stand {
            Stand::BeforeHead => self.next_head(alloc, source),
            Stand::BeforeBody(len) => self.next_behind(alloc, source, len),
            Stand::Over => Ok(Head::Quit),
        }
    }

    /// Passes over a body, and reads the head behind it.
    fn next_behind<S: Source>(
        &mut self,
        alloc: Global,
        source: &mut S,
        len: u64,
    ) -> Result<Head, ReadStop>
        requires { self.old.stand ≡ StandsBeforeBody len }
        ensures head { IfOk result (λ head.
            Takes (S.left source.old) (S.left source.new) self.old self.new
            (λ more. ReadsBehind self.old more self.new len (head_of head))) }
        ensures stand { IfOk result (λ head. self.new.stand ≡ stand_after (head_of head)) }
        ensures faults { S.faults source.old ≤ S.faults source.new }
        ensures most { self.new.taken ≤ 2147483647 }
        ensures stopped { IfErr result (Stops (S.faults source.old) (S.faults source.new)
            (S.left source.old) (S.left source.new) self.old self.new
            (IsBrokenBehind len self.old.line) (WaitsBehind len self.old.line)) }
    {
        let _passed = self.read_body(alloc, source, len)?;
        self.next_head(alloc, source)
    }

    /// The head that stands next where a command may begin.
    fn next_head<S: Source>(&mut self, alloc: Global, source: &mut S) -> Result<Head, ReadStop>
        requires { self.old.stand ≡ StandsBeforeHead }
        ensures head { IfOk result (λ head.
            Takes (S.left source.old) (S.left source.new) self.old self.new
            (λ more. ReadsHead self.old more self.new (head_of head))) }
        ensures stand { IfOk result (λ head. self.new.stand ≡ stand_after (head_of head)) }
        ensures faults { S.faults source.old ≤ S.faults source.new }
        ensures most { self.new.taken ≤ 2147483647 }
        ensures stopped { IfErr result (Stops (S.faults source.old) (S.faults source.new)
            (S.left source.old) (S.left source.new) self.old self.new
            (λ whole bytes line. next_head whole self.old.line bytes ≡ Broken line)
            (λ bytes. next_head false self.old.line bytes ≡ Open)) }
    {
        if !self.skip_empty_lines(source)? {
            return Ok(Head::End);
        }
        let end = self.line_end(source)?;
        self.read_line(alloc, end)
    }

    /// The body of the `file` whose head was read last.
    ///
    /// `BadScript` says that fewer than `len` bytes were left, or that no LF stands behind them. Its line is that of the
    /// head.
    pub fn read_body<S: Source>(
        &mut self,
        alloc: Global,
        source: &mut S,
        len: u64,
    ) -> Result<Vec<u8>, ReadStop>
        requires { self.old.stand ≡ StandsBeforeBody len }
        ensures body { IfOk result (λ body.
            Takes (S.left source.old) (S.left source.new) self.old self.new
            (λ more. ReadsBody self.old more self.new len body.items)) }
        ensures stand { OnOk result (self.new.stand ≡ StandsBeforeHead) }
        ensures faults { S.faults source.old ≤ S.faults source.new }
        ensures most { self.new.taken ≤ 2147483647 }
        ensures stopped { IfErr result (Stops (S.faults source.old) (S.faults source.new)
            (S.left source.old) (S.left source.new) self.old self.new
            (λ whole bytes line. (next_body whole len bytes ≡ Bad) × (line + 1 ≡ self.old.line))
            (λ bytes. next_body false len bytes ≡ More)) }
    {
        // What every reader keeps is known from here on, also where memory runs out.
        let _ = &self.taken;
        let mut body = zeros(alloc, len as usize)?;
        self.take_body(source, &mut body)?;
        self.fill_empty(source)?;
        self.end_body(count_newlines(&body))?;
        Ok(body)
    }

    /// Takes more bytes behind those that are there, or meets the source's end.
    fn fill<S: Source>(&mut self, source: &mut S) -> Result<(), ReadStop>
        requires few { length self.old.unused ≤ 300 }
        requires unended { self.old.ended ≡ false }
        ensures filled { OnOk result
            (Takes (S.left source.old) (S.left source.new) self.old self.new
            (IsFilled self.old self.new)) }
        ensures place { OnOk result (SamePlace self.old self.new) }
        ensures faults { S.faults source.old ≤ S.faults source.new }
        ensures most { self.new.taken ≤ 2147483647 }
        ensures stopped { IfErr result (Stops (S.faults source.old) (S.faults source.new)
            (S.left source.old) (S.left source.new) self.old self.new
            (λ whole bytes line. ⊥) (λ bytes. bytes ≡ self.old.unused)) }
    {
        let left = MAX_SCRIPT - self.taken;
        if left == 0 {
            meet_end(source)?;
            self.ended = true;
            return Ok(());
        }
        let count = self.buffer.pull(source, left as usize)?;
        self.taken += count as u64;
        self.ended = count == 0;
        Ok(())
    }

    /// Skips empty lines, and answers whether a byte of another line is there.
    fn skip_empty_lines<S: Source>(&mut self, source: &mut S) -> Result<bool, ReadStop>
        ensures same { OnOk result (Takes (S.left source.old) (S.left source.new) self.old self.new
            (λ more. SameNext self.old.line (self.old.unused ++ more)
            self.new.line self.new.unused)) }
        ensures skipped { IfOk result (λ there. IsSkipped there self.new) }
        ensures stand { OnOk result (self.new.stand ≡ self.old.stand) }
        ensures faults { S.faults source.old ≤ S.faults source.new }
        ensures most { self.new.taken ≤ 2147483647 }
        ensures stopped { IfErr result (Stops (S.faults source.old) (S.faults source.new)
            (S.left source.old) (S.left source.new) self.old self.new
            (λ whole bytes line. ⊥) (λ bytes. next_head false self.old.line bytes ≡ Open)) }
    {
        loop {
            match self.buffer.bytes().first() {
                Some(b'\n') => {
                    self.buffer.use_up(1);
                    self.line += 1;
                }
                Some(_) => return Ok(true),
                None if self.ended => return Ok(false),
                None => self.fill(source)?,
            }
        }
    }

    /// The index of the LF that ends the line, or `None` where it has none: at the source's end, or above 300 bytes.
    fn line_end<S: Source>(&mut self, source: &mut S) -> Result<Option<usize>, ReadStop>
        requires { IsLineStart self.old.unused }
        ensures taken { OnOk result
            (Takes (S.left source.old) (S.left source.new) self.old self.new
            (λ more. self.new.unused ≡ self.old.unused ++ more)) }
        ensures place { OnOk result (SamePlace self.old self.new) }
        ensures inside { IfOk result (λ end. IfSome end
            (λ at. (1 ≤ at) × (at < length self.new.unused))) }
        ensures end { IfOk result (IsLineEnd self.new) }
        ensures faults { S.faults source.old ≤ S.faults source.new }
        ensures most { self.new.taken ≤ 2147483647 }
        ensures stopped { IfErr result (Stops (S.faults source.old) (S.faults source.new)
            (S.left source.old) (S.left source.new) self.old self.new
            (λ whole bytes line. ⊥) (λ bytes. next_head false self.old.line bytes ≡ Open)) }
    {
        let mut seen = 0;
        loop {
            if let Some(at) = newline_from(self.buffer.bytes(), seen) {
                return Ok(Some(at));
            }
            seen = self.buffer.bytes().len();
            if self.ended || seen > MAX_LINE {
                return Ok(None);
            }
            self.fill(source)?;
        }
    }

    /// Reads the head in a line that ends so, and uses the line up.
    fn read_line(&mut self, alloc: Global, end: Option<usize>) -> Result<Head, ReadStop>
        requires some { IsLineStart self.old.unused }
        requires inside { IfSome end (λ at. (1 ≤ at) × (at < length self.old.unused)) }
        requires stand { self.old.stand ≡ StandsBeforeHead }
        ensures head { IfOk result (λ head. head_of head ≡ head_found self.old.unused end) }
        ensures some { OnOk result (IsSome (head_found self.old.unused end)) }
        ensures stand { IfOk result (λ head. self.new.stand ≡ stand_after (head_of head)) }
        ensures unused { OnOk result (self.new.unused ≡ rest_found self.old.unused end) }
        ensures line { OnOk result (self.new.line ≡ self.old.line + 1) }
        ensures taken { OnOk result (self.new.taken ≡ self.old.taken) }
        ensures ended { OnOk result (self.new.ended ≡ self.old.ended) }
        ensures stopped { IfErr result (λ s. (s ≡ stop.NoMemory)
            ⊎ ((s ≡ stop.BadScript self.old.line) × (head_found self.old.unused end ≡ None))) }
        ensures kept { OnErr result (self.new ≡ self.old) }
        ensures most { self.new.taken ≤ 2147483647 }
    {
        let bytes = self.buffer.bytes();
        let used = match end {
            Some(at) => at + 1,
            None => bytes.len(),
        };
        let Some(head) = head_found(bytes, end) else {
            return Err(ReadStop::BadScript { line: self.line });
        };
        let stand = stand_behind(head);
        let head = owned(alloc, head)?;
        self.buffer.use_up(used);
        self.line += 1;
        self.stand = stand;
        Ok(head)
    }

    /// Fills a body with the bytes that stand next.
    fn take_body<S: Source>(&mut self, source: &mut S, body: &mut [u8]) -> Result<(), ReadStop>
        requires { self.old.stand ≡ StandsBeforeBody (length body.old) }
        ensures taken { OnOk result (Takes (S.left source.old) (S.left source.new) self.old self.new
            (λ more. self.old.unused ++ more ≡ body.new ++ self.new.unused)) }
        ensures place { OnOk result (SamePlace self.old self.new) }
        ensures lines { OnOk result
            (self.new.line + length body.new + length self.new.unused ≤ self.new.taken) }
        ensures faults { S.faults source.old ≤ S.faults source.new }
        ensures most { self.new.taken ≤ 2147483647 }
        ensures stopped { IfErr result (Stops (S.faults source.old) (S.faults source.new)
            (S.left source.old) (S.left source.new) self.old self.new
            (λ whole bytes line. (whole ≡ true) × (length bytes < length body.old)
            × (line + 1 ≡ self.old.line))
            (λ bytes. length bytes < length body.old)) }
    {
        let mut filled = self.take_front(body);
        while filled < body.len() {
            if self.ended {
                return Err(ReadStop::BadScript {
                    line: self.line - 1,
                });
            }
            filled += self.pull_into(source, &mut body[filled..])?;
        }
        Ok(())
    }

    /// Moves unused bytes to the front of a body, and answers how many.
    fn take_front(&mut self, body: &mut [u8]) -> usize
        ensures count { result ≡ min (length body.old) (length self.old.unused) }
        ensures moved { take result body.new ≡ take result self.old.unused }
        ensures rest { self.new ≡ record self.old { unused = drop result self.old.unused } }
        ensures most { self.new.taken ≤ 2147483647 }
        ensures lines { self.new.line + result + length self.new.unused + head_bytes self.new.stand
            ≤ self.new.taken + 1 }
    {
        let bytes = self.buffer.bytes();
        let count = body.len().min(bytes.len());
        body[..count].copy_from_slice(&bytes[..count]);
        self.buffer.use_up(count);
        count
    }

    /// Pulls bytes of the source straight into a body's rest, and answers how many.
    fn pull_into<S: Source>(&mut self, source: &mut S, rest: &mut [u8]) -> Result<usize, ReadStop>
        requires some { 0 < length rest.old }
        requires unended { self.old.ended ≡ false }
        ensures inside { IfOk result (λ count. count ≤ length rest.new) }
        ensures taken { IfOk result (λ count.
            Takes (S.left source.old) (S.left source.new) self.old self.new
            (λ more. (more ≡ take count rest.new) × (self.new.ended ≡ false → 1 ≤ count))) }
        ensures unused { OnOk result (self.new.unused ≡ self.old.unused) }
        ensures place { OnOk result (SamePlace self.old self.new) }
        ensures faults { S.faults source.old ≤ S.faults source.new }
        ensures most { self.new.taken ≤ 2147483647 }
        ensures stopped { IfErr result (Stops (S.faults source.old) (S.faults source.new)
            (S.left source.old) (S.left source.new) self.old self.new
            (λ whole bytes line. ⊥) (λ bytes. bytes ≡ self.old.unused)) }
    {
        let left = MAX_SCRIPT - self.taken;
        if left == 0 {
            meet_end(source)?;
            self.ended = true;
            return Ok(0);
        }
        let most = rest.len().min(left as usize);
        let count = source.pull(&mut rest[..most])?;
        self.taken += count as u64;
        self.ended = count == 0;
        Ok(count)
    }

    /// Takes more bytes where none are left, unless the source has ended.
    fn fill_empty<S: Source>(&mut self, source: &mut S) -> Result<(), ReadStop>
        ensures filled { OnOk result
            (Takes (S.left source.old) (S.left source.new) self.old self.new
            (λ more. self.new.unused ≡ self.old.unused ++ more)) }
        ensures there { OnOk result (self.new.unused ≡ [] → self.new.ended ≡ true) }
        ensures place { OnOk result (SamePlace self.old self.new) }
        ensures faults { S.faults source.old ≤ S.faults source.new }
        ensures most { self.new.taken ≤ 2147483647 }
        ensures stopped { IfErr result (Stops (S.faults source.old) (S.faults source.new)
            (S.left source.old) (S.left source.new) self.old self.new
            (λ whole bytes line. ⊥) (λ bytes. bytes ≡ [])) }
    {
        if self.ended || !self.buffer.bytes().is_empty() {
            return Ok(());
        }
        self.fill(source)
    }

    /// Uses up the LF behind a body that has so many LFs of its own.
    fn end_body(&mut self, lines: u64) -> Result<(), ReadStop>
        requires lines { self.old.line + lines + length self.old.unused ≤ self.old.taken }
        requires there { self.old.unused ≡ [] → self.old.ended ≡ true }
        ensures ended { OnOk result (behind_body self.old.ended [] self.old.unused
            ≡ Body [] self.new.unused) }
        ensures taken { OnOk result (self.new.taken ≡ self.old.taken) }
        ensures end { OnOk result (self.new.ended ≡ self.old.ended) }
        ensures line { OnOk result (self.new.line ≡ self.old.line + lines + 1) }
        ensures stand { OnOk result (self.new.stand ≡ StandsBeforeHead) }
        ensures stopped { IfErr result (λ s. (line : ℕ) × (s ≡ stop.BadScript line)
            × (line + 1 ≡ self.old.line)
            × (behind_body self.old.ended [] self.old.unused ≡ Bad)) }
        ensures kept { OnErr result (self.new ≡ self.old) }
        ensures most { self.new.taken ≤ 2147483647 }
    {
        match self.buffer.bytes().first() {
            None => {}
            Some(b'\n') => self.buffer.use_up(1),
            Some(_) => {
                return Err(ReadStop::BadScript {
                    line: self.line - 1,
                });
            }
        }
        self.line += lines + 1;
        self.stand = Stand::BeforeHead;
        Ok(())
    }
}

/// The index of the first LF among the first 301 bytes, where there is none among the first `seen`.
fn newline_from(bytes: &[u8], seen: usize) -> Option<usize>
    requires inside { seen ≤ length bytes.now }
    requires few { seen ≤ 300 }
    requires none { Nowhere (Passes (is_byte 10) bytes.now) 0 seen }
    ensures { IsFirst (Passes (is_byte 10) bytes.now) 0 (min (length bytes.now) 301) result }
{
    let most = bytes.len().min(MAX_LINE + 1);
    match memchr(b'\n', &bytes[seen..most]) {
        Some(at) => Some(seen + at),
        None => None,
    }
}

/// How many LFs there are.
fn count_newlines(bytes: &[u8]) -> u64
    ensures count { result ≡ newlines bytes.now }
    ensures few { result ≤ length bytes.now }
{
    let mut count = 0;
    for byte in bytes {
        if *byte == b'\n' {
            count += 1;
        }
    }
    count
}

/// The source's end. A further byte is one too many.
fn meet_end<S: Source>(source: &mut S) -> Result<(), ReadStop>
    ensures end { OnOk result (Keeps (S.left source.old) (S.left source.new)
        × IsAtEnd (S.left source.new)) }
    ensures faults { S.faults source.old ≤ S.faults source.new }
    ensures stopped { IfErr result (IsNoEnd (S.faults source.old) (S.faults source.new)
        (S.left source.old) (S.left source.new)) }
{
    let mut byte = [0];
    if source.pull(&mut byte)? == 0 {
        Ok(())
    } else {
        Err(ReadStop::TooLong)
    }
}
