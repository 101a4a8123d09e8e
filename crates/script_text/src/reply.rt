// The replies to a script's commands, as bytes.
ghost use Rattle.std.specs.Prelude.{◌≡◌, false, IfOk};
ghost use Rattle.script_text.specs.Replies.{reply_text};

use hack_diag::report_text;
use hack_io::NoMemory;
use hack_types::FileDiag;
use std::alloc::Global;

/// The reply to a command (docs/script.md, Replies).
#[derive(Drop)]
pub enum Reply {
    /// A file was put or taken away: how many times that was done so far.
    Edit(u64),
    /// The file to be taken away isn't there.
    NoFile,
    /// A report, with the number of checks so far.
    Report(u64, Vec<FileDiag>),
    /// The report of this number was begun and cancelled.
    Cancelled(u64),
}

/// The bytes of a reply. The form as JSON isn't there yet, so `json` is false. An error says that memory ran out
/// (docs/script.md, Replies).
pub fn reply_text(alloc: Global, reply: &Reply, json: bool) -> Result<Vec<u8>, NoMemory>
    requires { json ≡ false }
    ensures { IfOk result (λ text. text.items ≡ reply_text reply.now) }
{
    let _ = json;
    match reply {
        Reply::Edit(number) => {
            let text = format!(in alloc; "edit {number}\n")?;
            Ok(text.into_bytes())
        }
        Reply::NoFile => Ok(Vec::from_slice(alloc, b"no file\n")?),
        Reply::Report(number, report) => match report_text(alloc, *number, report.as_slice()) {
            Ok(text) => Ok(text),
            Err(_) => Err(NoMemory),
        },
        Reply::Cancelled(number) => {
            let text = format!(in alloc; "check {number} cancelled\n")?;
            Ok(text.into_bytes())
        }
    }
}
