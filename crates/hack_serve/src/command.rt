// Reads a script's commands one after another.
ghost use Rattle.std.specs.Prelude.{◌≡◌, ◌≤◌, false, IfOk, IfErr, IsSome};
ghost use Rattle.script_text.specs.Script.{next_command, No, Later, AtBad};
ghost use Rattle.script_text.specs.Reader.{Takes, Stops};
ghost use Rattle.script_text.specs.declared.stand.Stand.TheVariants.{BeforeHead};
ghost use Rattle.hack_serve.specs.Commands.{ReadsCommand};

use hack_io::Source;
use script_text::{Head, ReadStop, ScriptReader};
use std::alloc::Global;

/// A command of a script, with its text (docs/script.md, Form).
#[derive(Drop)]
pub(crate) enum Command {
    /// Put a file of this name with these bytes. `line` is that of the command's first byte, from 1.
    File {
        line: u64,
        name: Vec<u8>,
        body: Vec<u8>,
    },
    /// Take the file of this name away.
    Drop {
        name: Vec<u8>,
    },
    /// Report on the current files.
    Check,
    /// Begin such a report.
    Begin,
    /// Wait for the report that was begun.
    Wait,
}

/// The next command; `None` at the end of the script and at `quit`.
pub(crate) fn next_command<S: Source>(
    alloc: Global,
    reader: &mut ScriptReader,
    source: &mut S,
) -> Result<Option<Command>, ReadStop>
    requires { reader.old.stand ≡ BeforeHead }
    ensures command { IfOk result (λ found.
        Takes (S.left source.old) (S.left source.new) reader.old reader.new
        (λ more. ReadsCommand reader.old more reader.new found)) }
    ensures stand { IfOk result (λ found. IsSome found → reader.new.stand ≡ BeforeHead) }
    ensures faults { S.faults source.old ≤ S.faults source.new }
    ensures most { reader.new.taken ≤ 2147483647 }
    ensures stopped { IfErr result (Stops (S.faults source.old) (S.faults source.new)
        (S.left source.old) (S.left source.new) reader.old reader.new
        (λ whole bytes line. next_command whole reader.old.line bytes ≡ No (AtBad line))
        (λ bytes. next_command false reader.old.line bytes ≡ Later)) }
{
    match reader.read_head(alloc, source)? {
        Head::File { name, len } => {
            let line = reader.line() - 1;
            let body = reader.read_body(alloc, source, len)?;
            Ok(Some(Command::File { line, name, body }))
        }
        Head::Drop { name } => Ok(Some(Command::Drop { name })),
        Head::Check => Ok(Some(Command::Check)),
        Head::Begin => Ok(Some(Command::Begin)),
        Head::Wait => Ok(Some(Command::Wait)),
        Head::Quit => Ok(None),
        Head::End => Ok(None),
    }
}
