// A sink in memory, which fails where it is told to.
ghost use Rattle.std.specs.Prelude.{◌≡◌, ◌≤◌, ◌<◌, ◌+◌, ◌-◌, ◌⊎◌, ◌↔◌, [], ◌++◌, length, min, take, vec_len, vec_capacity, IsErr, IfOk, OnOk, OnErr, Contains};

use crate::numbers::stands_in;
use crate::{NoMemory, Sink, WriteFault};
use std::alloc::Global;

/// A sink that holds what is written to it, up to a given number of bytes, some of whose pushes fail.
#[derive(Drop)]
pub struct MemorySink {
    bytes: Vec<u8>,
    room: usize,
    keep: usize,
    fail: Vec<u64>,
    calls: u64,
    faults: u64,
    ghost reserved: { room ≤ vec_capacity bytes },
    ghost within: { vec_len bytes ≤ room },
}

impl MemorySink {
    ghost use Rattle.hack_io.specs.Memory.{bytes_written, reserved_len, kept_len, next_push, failing_pushes, push_faults};

    /// An empty sink with memory for `room` bytes. The pushes whose numbers, from 1, stand in `fail` fail, and
    /// append at most the first `keep` bytes of their piece.
    pub fn new(alloc: Global, room: usize, keep: usize, fail: Vec<u64>) -> Result<Self, NoMemory>
        ensures written { IfOk result (λ sink. bytes_written sink ≡ []) }
        ensures room { IfOk result (λ sink. reserved_len sink ≡ room) }
        ensures kept { IfOk result (λ sink. kept_len sink ≡ keep) }
        ensures failing { IfOk result (λ sink. failing_pushes sink ≡ fail.items) }
        ensures first { IfOk result (λ sink. next_push sink ≡ 1) }
        ensures faults { IfOk result (λ sink. push_faults sink ≡ 0) }
    {
        let bytes = Vec::with_capacity(alloc, room)?;
        Ok(MemorySink {
            bytes,
            room,
            keep,
            fail,
            calls: 0,
            faults: 0,
        })
    }

    /// What is written.
    pub fn bytes(&self) -> &[u8]
        ensures { result.now ≡ bytes_written self.now }
    {
        self.bytes.as_slice()
    }
}

impl Sink for MemorySink {
    ghost use Rattle.std.specs.Prelude.{Some};
    ghost use Rattle.hack_io.specs.Causes.{HasCause};
    ghost use Rattle.hack_io.specs.Pushes.{Pushes};
    ghost use Rattle.hack_io.specs.Memory.{bytes_written, reserved_len, kept_len, next_push, failing_pushes, push_faults, next_call};

    ghost written = { λ sink. Some (bytes_written sink) };

    ghost faults = { push_faults };

    fn push(&mut self, piece: &[u8]) -> Result<(), WriteFault>
        ensures fails { IsErr result ↔ (Contains (failing_pushes self.old) (next_push self.old)
            ⊎ (reserved_len self.old < length (bytes_written self.old) + length piece.now)) }
        ensures ok { OnOk result (bytes_written self.new ≡ bytes_written self.old ++ piece.now) }
        ensures err { OnErr result (bytes_written self.new ≡ bytes_written self.old
            ++ take (min (kept_len self.old) (reserved_len self.old
            - length (bytes_written self.old))) piece.now) }
        ensures next { next_push self.new ≡ next_call (next_push self.old) }
        ensures failing { failing_pushes self.new ≡ failing_pushes self.old }
        ensures room { reserved_len self.new ≡ reserved_len self.old }
        ensures kept { kept_len self.new ≡ kept_len self.old }
        ensures faults_ok { OnOk result (push_faults self.new ≡ push_faults self.old) }
        ensures faults_err { OnErr result
            (push_faults self.new ≡ next_call (push_faults self.old)) }
        ensures bytes { Pushes (Some (bytes_written self.old))
            (Some (bytes_written self.new)) result piece.now }
        ensures cause { HasCause (push_faults self.old) (push_faults self.new) result }
    {
        self.calls = self.calls.saturating_add(1);
        let left = self.room - self.bytes.len();
        if stands_in(&self.fail, self.calls) || left < piece.len() {
            let count = self.keep.min(left).min(piece.len());
            self.bytes.extend_from_slice(&piece[..count]).unwrap();
            self.faults = self.faults.saturating_add(1);
            return Err(WriteFault);
        }
        self.bytes.extend_from_slice(piece).unwrap();
        Ok(())
    }
}
