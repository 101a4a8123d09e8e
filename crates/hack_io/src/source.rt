// What bytes are read from.
ghost use Rattle.std.specs.Prelude.{List, Option, ℕ};
ghost use Rattle.std.specs.Io.{ReadsAtMost};
ghost use Rattle.std.specs.Io.KnownBytes.{ReadConsumes};
ghost use Rattle.hack_io.specs.Causes.{HasCause};

/// A read failed. The bytes to come are as before.
#[derive(Clone, Copy, Debug, PartialEq, Eq)]
pub struct ReadFault;

/// Bytes that come one piece after another.
pub trait Source {
    /// The bytes to come, where the source tells them.
    ghost left: { Self → Option (List ℕ) };

    /// How often it has failed, faults included from which it recovered. The number never falls, and stands still at
    /// 2^64 - 1.
    ghost faults: { Self → ℕ };

    /// Moves bytes from the front of what is left to the front of `into`, and answers how many.
    ///
    /// 0 into a slice that isn't empty is the end. `ReadFault` comes only where the count of faults rose in
    /// this call, and leaves the bytes to come as they were.
    fn pull(&mut self, into: &mut [u8]) -> Result<usize, ReadFault>
        ensures bound { ReadsAtMost result into.new }
        ensures bytes { ReadConsumes (left self.old) (left self.new) result into.new }
        ensures cause { HasCause (faults self.old) (faults self.new) result };
}
