// What the calls of a reader answer.
ghost use Rattle.std.specs.Prelude.{◌≡◌};
ghost use Rattle.script_text.specs.declared.head.ReadStop.TheVariants.{Fault as FaultStop, NoMemory as NoMemoryStop};

use hack_io::{NoMemory, ReadFault};

/// The head of a command, or the end of the script (docs/script.md, Commands).
#[derive(Drop)]
pub enum Head {
    /// Put a file of this name. Its text of `len` bytes stands behind the head.
    File { name: Vec<u8>, len: u64 },
    /// Take the file of this name away.
    Drop { name: Vec<u8> },
    /// Report on the current files.
    Check,
    /// Begin such a report.
    Begin,
    /// Wait for the report that was begun.
    Wait,
    /// End here. Nothing behind it is looked at.
    Quit,
    /// Only empty lines were left, and the source has ended.
    End,
}

/// Why a reader stopped (docs/script.md, Statuses). The reader isn't used again.
#[derive(Clone, Copy, Debug, PartialEq, Eq)]
pub enum ReadStop {
    /// The bytes are in no form of a script. `line` is that of the command's first byte, from 1.
    BadScript { line: u64 },
    /// A read failed before the bytes taken had what was asked for.
    Fault,
    /// 2^31 - 1 bytes were taken and used up, and the source then gave a further byte.
    TooLong,
    /// Memory ran out.
    NoMemory,
}

impl From<NoMemory> for ReadStop {
    ghost from_gives = { λ _ stop. stop ≡ NoMemoryStop };

    fn from(_fault: NoMemory) -> ReadStop {
        ReadStop::NoMemory
    }
}

impl From<ReadFault> for ReadStop {
    ghost from_gives = { λ _ stop. stop ≡ FaultStop };

    fn from(_fault: ReadFault) -> ReadStop {
        ReadStop::Fault
    }
}
