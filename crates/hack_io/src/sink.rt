// What bytes are written to.
ghost use Rattle.std.specs.Prelude.{List, Option, ℕ};
ghost use Rattle.hack_io.specs.Causes.{HasCause};
ghost use Rattle.hack_io.specs.Pushes.{Pushes};

/// A write failed. A prefix of the piece was written.
#[derive(Clone, Copy, Debug, PartialEq, Eq)]
pub struct WriteFault;

/// Takes bytes one piece after another.
pub trait Sink {
    /// What was written to it, where the sink tells it.
    ghost written: { Self → Option (List ℕ) };

    /// How often it has failed, faults included from which it recovered. The number never falls, and stands still at
    /// 2^64 - 1.
    ghost faults: { Self → ℕ };

    /// Appends the whole piece.
    ///
    /// `WriteFault` comes only where the count of faults rose in this call; a prefix of the piece was appended.
    fn push(&mut self, piece: &[u8]) -> Result<(), WriteFault>
        ensures bytes { Pushes (written self.old) (written self.new) result piece.now }
        ensures cause { HasCause (faults self.old) (faults self.new) result };
}
