// A sink over a writer of std.

use crate::{Sink, WriteFault};
use std::io::Write;

/// A writer as a sink, as of standard output. It tells what the writer tells, and of standard output that is nothing.
///
/// Each error of the writer is a fault, and so is a write that takes nothing of bytes that are left.
#[derive(Drop)]
pub struct StdSink<W: Write> {
    writer: W,
    faults: u64,
}

impl<W: Write> StdSink<W> {
    ghost use Rattle.std.specs.Prelude.{◌≡◌};
    ghost use Rattle.hack_io.specs.Std.{writer_of, writer_faults};

    /// A sink that appends to what the writer holds.
    pub fn new(writer: W) -> Self
        ensures writer { writer_of result ≡ writer }
        ensures faults { writer_faults result ≡ 0 }
    {
        StdSink { writer, faults: 0 }
    }
}

impl<W: Write> Sink for StdSink<W> {
    ghost use Rattle.std.specs.Prelude.{◌≡◌, OnOk, OnErr};
    ghost use Rattle.hack_io.specs.Causes.{HasCause};
    ghost use Rattle.hack_io.specs.Pushes.{Pushes};
    ghost use Rattle.hack_io.specs.Memory.{next_call};
    ghost use Rattle.hack_io.specs.Std.{writer_of, writer_faults};

    ghost written = { λ sink. W.contents sink.writer };

    ghost faults = { λ sink. sink.faults };

    fn push(&mut self, piece: &[u8]) -> Result<(), WriteFault>
        ensures faults_ok { OnOk result (writer_faults self.new ≡ writer_faults self.old) }
        ensures faults_err { OnErr result
            (writer_faults self.new ≡ next_call (writer_faults self.old)) }
        ensures bytes { Pushes
            (W.contents (writer_of self.old)) (W.contents (writer_of self.new)) result piece.now }
        ensures cause { HasCause (writer_faults self.old) (writer_faults self.new) result }
    {
        let mut rest = piece;
        while !rest.is_empty() {
            match self.writer.write(rest) {
                Ok(count) if count > 0 => rest = &rest[count..],
                _ => {
                    self.faults = self.faults.saturating_add(1);
                    return Err(WriteFault);
                }
            }
        }
        Ok(())
    }
}
