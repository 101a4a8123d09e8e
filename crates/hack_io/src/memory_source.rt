// A source in memory, which fails where it is told to.
ghost use Rattle.std.specs.Prelude.{◌≡◌, ◌≤◌, ◌↔◌, length, min, take, drop, vec_len, IsErr, IfOk, OnOk, OnErr, Contains};

use crate::numbers::stands_in;
use crate::{ReadFault, Source};

/// A source of the bytes of a vector, in pieces of a given length, some of whose pulls fail.
#[derive(Drop)]
pub struct MemorySource {
    bytes: Vec<u8>,
    at: usize,
    piece: usize,
    fail: Vec<u64>,
    calls: u64,
    faults: u64,
    ghost within: { at ≤ vec_len bytes },
    ghost moves: { 1 ≤ piece },
}

impl MemorySource {
    ghost use Rattle.hack_io.specs.Memory.{bytes_left, piece_len, next_pull, failing_pulls, pull_faults};

    /// A source of these bytes, at most `piece` of them a pull. The pulls whose numbers, from 1, stand in `fail`
    /// fail and give nothing.
    pub fn new(bytes: Vec<u8>, piece: usize, fail: Vec<u64>) -> Self
        requires { 1 ≤ piece }
        ensures left { bytes_left result ≡ bytes.items }
        ensures piece { piece_len result ≡ piece }
        ensures failing { failing_pulls result ≡ fail.items }
        ensures first { next_pull result ≡ 1 }
        ensures faults { pull_faults result ≡ 0 }
    {
        MemorySource {
            bytes,
            at: 0,
            piece,
            fail,
            calls: 0,
            faults: 0,
        }
    }
}

impl Source for MemorySource {
    ghost use Rattle.std.specs.Prelude.{Some};
    ghost use Rattle.std.specs.Io.{ReadsAtMost};
    ghost use Rattle.std.specs.Io.KnownBytes.{ReadConsumes};
    ghost use Rattle.hack_io.specs.Causes.{HasCause};
    ghost use Rattle.hack_io.specs.Memory.{bytes_left, piece_len, next_pull, failing_pulls, pull_faults, next_call};

    ghost left = { λ source. Some (bytes_left source) };

    ghost faults = { pull_faults };

    fn pull(&mut self, into: &mut [u8]) -> Result<usize, ReadFault>
        ensures fails { IsErr result ↔ Contains (failing_pulls self.old) (next_pull self.old) }
        ensures count { IfOk result
            (λ n. n ≡ min (piece_len self.old)
            (min (length into.old) (length (bytes_left self.old)))) }
        ensures moved { IfOk result (λ n. take n into.new ≡ take n (bytes_left self.old)) }
        ensures rest { IfOk result (λ n. drop n into.new ≡ drop n into.old) }
        ensures left { IfOk result (λ n. bytes_left self.new ≡ drop n (bytes_left self.old)) }
        ensures err { OnErr result (bytes_left self.new ≡ bytes_left self.old) }
        ensures untouched { OnErr result (into.new ≡ into.old) }
        ensures next { next_pull self.new ≡ next_call (next_pull self.old) }
        ensures failing { failing_pulls self.new ≡ failing_pulls self.old }
        ensures piece { piece_len self.new ≡ piece_len self.old }
        ensures faults_ok { OnOk result (pull_faults self.new ≡ pull_faults self.old) }
        ensures faults_err { OnErr result
            (pull_faults self.new ≡ next_call (pull_faults self.old)) }
        ensures bound { ReadsAtMost result into.new }
        ensures bytes { ReadConsumes (Some (bytes_left self.old))
            (Some (bytes_left self.new)) result into.new }
        ensures cause { HasCause (pull_faults self.old) (pull_faults self.new) result }
    {
        self.calls = self.calls.saturating_add(1);
        if stands_in(&self.fail, self.calls) {
            self.faults = self.faults.saturating_add(1);
            return Err(ReadFault);
        }
        let left = &self.bytes[self.at..];
        let count = self.piece.min(into.len().min(left.len()));
        into[..count].copy_from_slice(&left[..count]);
        self.at += count;
        Ok(count)
    }
}
