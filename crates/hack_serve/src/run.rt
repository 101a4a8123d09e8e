// The top call: what the program does, from its words to its status.
ghost use Rattle.std.specs.Prelude.{◌≡◌, ◌≢◌, ◌<◌, ◌↔◌, ◌++◌, ℕ, List, [], Some, length, IfErr, OnOk};
ghost use Rattle.hack_base.specs.Files.{Files};
ghost use Rattle.hack_io.specs.Causes.{Rose};
ghost use Rattle.hack_types.specs.declared.diag.FileDiag.{FileDiag};
ghost use Rattle.check_state.specs.Findings.{IsFirstReport};
ghost use Rattle.hack_serve.specs.Outcome.{IsAnswered, IsSettled, IsBrokenOff, IsStopped, IsCutShort, IsTooLong, Answers};
ghost use Rattle.hack_serve.specs.Running.{AreNew};
ghost use Rattle.hack_serve.specs.Told.{OfScript};

use crate::Status;
use crate::command::next_command;
use crate::session::Session;
use hack_io::{Sink, Source};
use script_text::{ScriptReader, reply_text};
use std::alloc::Global;

/// Runs the server on the words of its command line, without the program's name: reads the script from the source
/// command by command, and writes the reply to each, one push a reply, before it reads the next (docs/script.md).
///
/// Words are refused before anything is read. What each status says is docs/script.md, Statuses.
pub fn hack_main<S: Source, K: Sink>(
    alloc: Global,
    words: &[String],
    source: &mut S,
    sink: &mut K,
) -> Status
    // Exactly where there are words; nothing is read or written then.
    ensures usage { (result ≡ Status.Usage) ↔ (0 < length words.now) }
    ensures untouched { result ≡ Status.Usage → (source.new ≡ source.old) × (sink.new ≡ sink.old) }

    // Faults have their causes.
    ensures reads_failed { result ≡ Status.ReadFault
        → Rose (S.faults source.old) (S.faults source.new) }
    ensures writes_failed { result ≡ Status.WriteFault
        → Rose (K.faults sink.old) (K.faults sink.new) }

    // What was taken and what was written fit the status.
    ensures answers { Answers result
        (S.left source.old) (S.left source.new) (K.written sink.old) (K.written sink.new) }

    // Of a source that tells the script: the whole script has this answer, and what was taken of it settles that, from which
    // the former follows (`one_answer`).
    ensures done { result ≡ Status.Done
        → OfScript (S.left source.old) (S.left source.new) (K.written sink.old) (K.written sink.new)
        (λ script taken left out. IsAnswered script out Status.Done
        × IsSettled taken left out Status.Done) }
    ensures bad_script { (line : ℕ) → result ≡ Status.BadScript line
        → OfScript (S.left source.old) (S.left source.new) (K.written sink.old) (K.written sink.new)
        (λ script taken left out. IsAnswered script out (Status.BadScript line)
        × IsSettled taken left out (Status.BadScript line)) }
    ensures not_built { result ≡ Status.NotBuilt
        → OfScript (S.left source.old) (S.left source.new) (K.written sink.old) (K.written sink.new)
        (λ script taken left out. IsAnswered script out Status.NotBuilt
        × IsSettled taken left out Status.NotBuilt) }

    // Of such a source: the replies break off, as what was taken of the script says.
    ensures read_fault { result ≡ Status.ReadFault
        → OfScript (S.left source.old) (S.left source.new) (K.written sink.old) (K.written sink.new)
        (λ script taken left out. IsBrokenOff taken out) }
    ensures too_long { result ≡ Status.TooLong
        → OfScript (S.left source.old) (S.left source.new) (K.written sink.old) (K.written sink.new)
        (λ script taken left out. IsTooLong taken out) }
    ensures write_fault { result ≡ Status.WriteFault
        → OfScript (S.left source.old) (S.left source.new) (K.written sink.old) (K.written sink.new)
        (λ script taken left out. IsCutShort taken left out) }
    ensures no_memory { result ≡ Status.NoMemory
        → OfScript (S.left source.old) (S.left source.new) (K.written sink.old) (K.written sink.new)
        (λ script taken left out. IsStopped taken left out) }
{
    if !words.is_empty() {
        return Status::Usage;
    }
    match reply_to_all(alloc, source, sink) {
        Ok(()) => Status::Done,
        Err(status) => status,
    }
}

/// A script has one answer, which all of it settles, and files have one report: what `hack_main` says of its output leaves no
/// choice. What the bytes taken settle is the answer of the whole script, of them and what is left.
pub fn one_answer()
    ensures answer { (script out other : List ℕ) (status ends : Status)
        → IsAnswered script out status → IsAnswered script other ends
        → (out ≡ other) × (status ≡ ends) }
    ensures settled { (taken rest out : List ℕ) (status : Status)
        → IsSettled taken (Some rest) out status → IsAnswered (taken ++ rest) out status }
    ensures all { (script out : List ℕ) (status : Status)
        → IsAnswered script out status → IsSettled script (Some []) out status }
    ensures report { (files : Files) (one other : List FileDiag)
        → IsFirstReport files one → IsFirstReport files other → one ≡ other }
{}

/// Reads command after command, and writes the reply to each.
fn reply_to_all<S: Source, K: Sink>(
    alloc: Global,
    source: &mut S,
    sink: &mut K,
) -> Result<(), Status>
    ensures done { OnOk result (Answers Status.Done
        (S.left source.old) (S.left source.new) (K.written sink.old) (K.written sink.new)) }
    ensures stopped { IfErr result (λ status. Answers status
        (S.left source.old) (S.left source.new) (K.written sink.old) (K.written sink.new)) }
    ensures words { IfErr result (λ status. status ≢ Status.Usage) }
    ensures reads_failed { IfErr result (λ status. status ≡ Status.ReadFault
        → Rose (S.faults source.old) (S.faults source.new)) }
    ensures writes_failed { IfErr result (λ status. status ≡ Status.WriteFault
        → Rose (K.faults sink.old) (K.faults sink.new)) }
{
    let mut reader = ScriptReader::new(alloc)?;
    let mut session = Session::new(alloc)?;
    let end = reply_to_each(alloc, &mut reader, &mut session, source, sink);
    drop(session);
    drop(reader);
    end
}

/// The same with a reader and a session that are lent, so that no way out of the loop has to end them.
fn reply_to_each<S: Source, K: Sink>(
    alloc: Global,
    reader: &mut ScriptReader,
    session: &mut Session,
    source: &mut S,
    sink: &mut K,
) -> Result<(), Status>
    requires { AreNew reader.old session.old }
    ensures done { OnOk result (Answers Status.Done
        (S.left source.old) (S.left source.new) (K.written sink.old) (K.written sink.new)) }
    ensures stopped { IfErr result (λ status. Answers status
        (S.left source.old) (S.left source.new) (K.written sink.old) (K.written sink.new)) }
    ensures words { IfErr result (λ status. status ≢ Status.Usage) }
    ensures reads_failed { IfErr result (λ status. status ≡ Status.ReadFault
        → Rose (S.faults source.old) (S.faults source.new)) }
    ensures writes_failed { IfErr result (λ status. status ≡ Status.WriteFault
        → Rose (K.faults sink.old) (K.faults sink.new)) }
{
    while let Some(command) = next_command(alloc, reader, source)? {
        let reply = session.reply(alloc, command)?;
        let text = reply_text(alloc, &reply, false)?;
        drop(reply);
        sink.push(&text)?;
    }
    Ok(())
}
