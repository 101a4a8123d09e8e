// How a run ends.
ghost use Rattle.std.specs.Prelude.{◌≡◌};
ghost use Rattle.hack_serve.specs.Commands.{status_of};
ghost use Rattle.hack_serve.specs.declared.status.Status.TheVariants.{WriteFault as WriteFaultStatus, NoMemory as NoMemoryStatus};

use hack_io::{NoMemory, WriteFault};
use script_text::ReadStop;
use std::fmt;

/// The form of the command line. Its options are unknown words until they are built.
const USAGE: &str =
    "usage: hack_server [--workers N] [--slots N] [--heap-words N] [--edges N] [--json] [--generate N [--seed N]]";

/// How a run of the server ended (docs/script.md, Statuses).
#[derive(Clone, Copy, Debug, PartialEq, Eq)]
pub enum Status {
    /// The script was read to its end, and every command was replied to.
    Done,
    /// The words of the command line aren't in form. Nothing was read or written.
    Usage,
    /// A command is in no form of a script, or puts a file too many or too much text. `line` is that of the command's first
    /// byte, from 1. The commands before it were replied to.
    BadScript { line: u64 },
    /// The source failed. The commands that stand whole in what it gave were replied to.
    ReadFault,
    /// The sink failed. A prefix of the replies was written.
    WriteFault,
    /// The source gave more than 2^31 - 1 bytes. The commands that stand whole in these were replied to.
    TooLong,
    /// A command asks for what this build doesn't do. The commands before it were replied to.
    NotBuilt,
    /// Memory ran out. The first commands were replied to.
    NoMemory,
}

impl Status {
    ghost use Rattle.hack_serve.specs.Statuses.{number_of};

    /// The number that the program ends with.
    pub fn number(self) -> u8
        ensures { result ≡ number_of self }
    {
        match self {
            Status::Done => 0,
            Status::Usage => 2,
            Status::BadScript { .. } => 3,
            Status::ReadFault => 4,
            Status::WriteFault => 5,
            Status::TooLong => 9,
            Status::NotBuilt => 10,
            Status::NoMemory => 71,
        }
    }
}

/// What the program says of it on standard error; nothing where all went well.
impl fmt::Display for Status {
    ghost use Rattle.std.specs.Prelude.{Some};
    ghost use Rattle.hack_serve.specs.Statuses.{text_of};

    ghost output = { λ status. Some (text_of status) };

    fn fmt<W: fmt::Write>(&self, f: &mut fmt::Formatter<W>) -> fmt::Result {
        match self {
            Status::Done => Ok(()),
            Status::Usage => f.write_str(USAGE),
            Status::BadScript { line } => write!(f, "bad script at line {line}"),
            Status::ReadFault => f.write_str("read fault"),
            Status::WriteFault => f.write_str("write fault"),
            Status::TooLong => f.write_str("script too long"),
            Status::NotBuilt => f.write_str("not built"),
            Status::NoMemory => f.write_str("no memory"),
        }
    }
}

impl From<NoMemory> for Status {
    ghost from_gives = { λ _ status. status ≡ NoMemoryStatus };

    fn from(_fault: NoMemory) -> Status {
        Status::NoMemory
    }
}

impl From<hack_types::NoMemory> for Status {
    ghost from_gives = { λ _ status. status ≡ NoMemoryStatus };

    fn from(_fault: hack_types::NoMemory) -> Status {
        Status::NoMemory
    }
}

impl From<ReadStop> for Status {
    ghost from_gives = { λ stop status. status ≡ status_of stop };

    fn from(stop: ReadStop) -> Status {
        match stop {
            ReadStop::BadScript { line } => Status::BadScript { line },
            ReadStop::Fault => Status::ReadFault,
            ReadStop::TooLong => Status::TooLong,
            ReadStop::NoMemory => Status::NoMemory,
        }
    }
}

impl From<WriteFault> for Status {
    ghost from_gives = { λ _ status. status ≡ WriteFaultStatus };

    fn from(_fault: WriteFault) -> Status {
        Status::WriteFault
    }
}
