// Reports: their order and their bytes.

use crate::plain::{behind, nth, number, split};
use hack_base::Bytes;
use hack_diag::{diag_line, in_report_order, report_text};
use hack_show::Out;
use hack_types::{Diag, FileDiag, NoMemory, Place};
use std::alloc::Global;

fn small(text: &[u8], place: u32) -> u32 {
    u32::try_from(nth(text, place)).unwrap_or(0)
}

// `LINE COLUMN CODE TEXT`
fn diag(alloc: Global, row: &[u8]) -> Result<Diag, NoMemory> {
    let at = Place {
        line: small(row, 0),
        column: small(row, 1),
    };
    let code = u16::try_from(nth(row, 2)).unwrap_or(0);
    let text = Bytes::copy_of(alloc, behind(row, b' ', 3))?;
    Ok(Diag { at, code, text })
}

// `FILE LINE COLUMN CODE TEXT`
fn diagnostic(alloc: Global, row: &[u8]) -> Result<FileDiag, NoMemory> {
    let (file, rest) = split(row, b' ');
    let diag = diag(alloc, rest)?;
    let file = Bytes::copy_of(alloc, file)?;
    Ok(FileDiag { file, diag })
}

// Adds diagnostics with `|` between them.
fn add_all(alloc: Global, text: &[u8], list: &mut Vec<FileDiag>) -> Result<(), NoMemory> {
    let mut rest = text;
    for _ in 0..text.len() {
        if rest.is_empty() {
            break;
        }
        let (row, behind) = split(rest, b'|');
        list.push(diagnostic(alloc, row)?)?;
        rest = behind;
    }
    Ok(())
}

/// `NUMBER|DIAGNOSTICS` as they stand.
pub(crate) fn written(alloc: Global, out: &mut Out<'_>, text: &[u8]) -> Result<(), NoMemory> {
    let (first, rest) = split(text, b'|');
    let mut list = Vec::new(alloc);
    let added = add_all(alloc, rest, &mut list);
    let done = report(alloc, out, number(first), list.as_slice());
    drop(list);
    added?;
    done
}

/// Diagnostics in the order of a report.
pub(crate) fn ordered(alloc: Global, out: &mut Out<'_>, text: &[u8]) -> Result<(), NoMemory> {
    let mut list = Vec::new(alloc);
    let added = add_all(alloc, text, &mut list);
    let list = in_report_order(list);
    let done = report(alloc, out, 1, list.as_slice());
    drop(list);
    added?;
    done
}

// The report of this number and this list, of which all but the head are the lines of the list.
fn report(
    alloc: Global,
    out: &mut Out<'_>,
    number: u64,
    list: &[FileDiag],
) -> Result<(), NoMemory> {
    let text = report_text(alloc, number, list)?;
    out.push(text.as_slice());
    let (_, lines) = split(text.as_slice(), b'\n');
    let are_lines = are_lines(alloc, lines, list);
    drop(text);
    if !are_lines? {
        out.push(b"other lines");
    }
    Ok(())
}

// Whether the text has the lines of these diagnostics and no more.
fn are_lines(alloc: Global, text: &[u8], list: &[FileDiag]) -> Result<bool, NoMemory> {
    let mut rest = text;
    for one in list {
        let line = diag_line(alloc, one)?;
        let behind = rest.strip_prefix(line.as_slice());
        drop(line);
        match behind {
            Some(behind) => rest = behind,
            None => return Ok(false),
        }
    }
    Ok(rest.is_empty())
}
