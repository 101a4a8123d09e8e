// The bytes of a report. They are written into a vector, which refuses bytes only where memory runs out.
ghost use Rattle.std.specs.Prelude.{◌≡◌, ◌++◌, IfOk, OnOk, codes};
ghost use Rattle.std.specs.Fmt.{decimal};
ghost use Rattle.hack_types.specs.declared.diag.FileDiag.{FileDiag};
ghost use Rattle.hack_types.specs.Report.{diag_line, report_text};

use hack_types::{FileDiag, NoMemory, Place};
use std::alloc::Global;
use std::io::Write;

/// The line of a diagnostic, `FILE:LINE:COLUMN CODE TEXT` and LF (docs/script.md, Replies). An error says that memory
/// ran out.
pub fn diag_line(alloc: Global, d: &FileDiag) -> Result<Vec<u8>, NoMemory>
    ensures { IfOk result (λ line. line.items ≡ diag_line d.now) }
{
    let mut line = Vec::new(alloc);
    push_line(&mut line, d)?;
    Ok(line)
}

/// The reply to the check of this number: `check K errors M` and LF, where M is the length of the list, and then the
/// lines of the list, in its order (docs/script.md, Replies). An error says that memory ran out.
pub fn report_text(alloc: Global, k: u64, list: &[FileDiag]) -> Result<Vec<u8>, NoMemory>
    ensures { IfOk result (λ text. text.items ≡ report_text k list.now) }
{
    let count = list.len();
    let mut text = Vec::new(alloc);
    write!(text, "check {k} errors {count}\n").map_err(|_| NoMemory)?;
    for d in list {
        push_line(&mut text, d)?;
    }
    Ok(text)
}

// Adds the line of a diagnostic.
fn push_line(text: &mut Vec<u8>, d: &FileDiag) -> Result<(), NoMemory>
    ensures { OnOk result (text.new.items ≡ text.old.items ++ diag_line d.now) }
{
    text.extend_from_slice(d.file.as_slice())?;
    push_place_and_code(text, d.diag.at, d.diag.code)?;
    text.extend_from_slice(d.diag.text.as_slice())?;
    text.push(b'\n')?;
    Ok(())
}

// Adds what stands between the file and the text in the line of a diagnostic.
fn push_place_and_code(text: &mut Vec<u8>, at: Place, code: u16) -> Result<(), NoMemory>
    ensures { OnOk result (text.new.items ≡ text.old.items
        ++ (codes ":" ++ decimal at.line ++ codes ":" ++ decimal at.column ++ codes " " ++ decimal code ++ codes " ")) }
{
    let Place { line, column } = at;
    write!(text, ":{line}:{column} {code} ").map_err(|_| NoMemory)
}
