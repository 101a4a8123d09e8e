// A source over a reader of std.

use crate::{ReadFault, Source};
use std::io::Read;

/// A reader as a source, as of standard input. It tells what the reader tells, and of standard input that is nothing.
///
/// Each error of the reader is a fault.
#[derive(Drop)]
pub struct StdSource<R: Read> {
    reader: R,
    faults: u64,
}

impl<R: Read> StdSource<R> {
    ghost use Rattle.std.specs.Prelude.{◌≡◌};
    ghost use Rattle.hack_io.specs.Std.{reader_of, reader_faults};

    /// A source of what the reader gives from here on.
    pub fn new(reader: R) -> Self
        ensures reader { reader_of result ≡ reader }
        ensures faults { reader_faults result ≡ 0 }
    {
        StdSource { reader, faults: 0 }
    }
}

impl<R: Read> Source for StdSource<R> {
    ghost use Rattle.std.specs.Prelude.{◌≡◌, OnOk, OnErr};
    ghost use Rattle.std.specs.Io.{ReadsAtMost};
    ghost use Rattle.std.specs.Io.KnownBytes.{ReadConsumes};
    ghost use Rattle.hack_io.specs.Causes.{HasCause};
    ghost use Rattle.hack_io.specs.Memory.{next_call};
    ghost use Rattle.hack_io.specs.Std.{reader_of, reader_faults};

    ghost left = { λ source. R.remaining source.reader };

    ghost faults = { λ source. source.faults };

    fn pull(&mut self, into: &mut [u8]) -> Result<usize, ReadFault>
        ensures faults_ok { OnOk result (reader_faults self.new ≡ reader_faults self.old) }
        ensures faults_err { OnErr result
            (reader_faults self.new ≡ next_call (reader_faults self.old)) }
        ensures bound { ReadsAtMost result into.new }
        ensures bytes { ReadConsumes
            (R.remaining (reader_of self.old)) (R.remaining (reader_of self.new)) result into.new }
        ensures cause { HasCause (reader_faults self.old) (reader_faults self.new) result }
    {
        match self.reader.read(into) {
            Ok(count) => Ok(count),
            Err(_) => {
                self.faults = self.faults.saturating_add(1);
                Err(ReadFault)
            }
        }
    }
}
