// What rows are written with: the bytes that a text stands for, numbers, pieces between marks, and how answers are shown.

use hack_show::Out;
use hack_types::Place;
use std::alloc::Global;

/// Adds the bytes that a text with escapes stands for.
pub(crate) fn plain(out: &mut Out<'_>, text: &str) {
    // whether the piece stands behind a backslash
    let mut escaped = false;
    for piece in text.split('\\') {
        if !escaped {
            out.push(piece.as_bytes());
            escaped = true;
        } else if piece.is_empty() {
            out.push(b"\\");
            escaped = false;
        } else {
            push_escaped(out, piece);
        }
    }
}

// A piece behind a backslash.
fn push_escaped(out: &mut Out<'_>, piece: &str) {
    if let Some(rest) = piece.strip_prefix("*") {
        push_repeated(out, rest);
        return;
    }
    let all = piece.as_bytes();
    let (byte, len) = match all.first() {
        Some(b'n') => (b'\n', 1),
        Some(b't') => (b'\t', 1),
        Some(b'x') => (
            hex(all.get(1))
                .wrapping_mul(16)
                .wrapping_add(hex(all.get(2))),
            3,
        ),
        _ => (b'?', 0),
    };
    out.push(&[byte]);
    if let Some(rest) = all.get(len..) {
        out.push(rest);
    }
}

fn hex(digit: Option<&u8>) -> u8 {
    match digit {
        Some(digit) if *digit <= b'9' => digit.wrapping_sub(b'0'),
        Some(digit) => digit.wrapping_sub(b'a').wrapping_add(10),
        None => 0,
    }
}

// `COUNT«text»`, and what stands behind it.
fn push_repeated(out: &mut Out<'_>, piece: &str) {
    let Some((count, rest)) = piece.split_once('«') else {
        return;
    };
    let Some((text, behind)) = rest.split_once('»') else {
        return;
    };
    for _ in 0..number(count.as_bytes()) {
        out.push(text.as_bytes());
    }
    out.push(behind.as_bytes());
}

/// The number that a text of digits writes.
pub(crate) fn number(digits: &[u8]) -> u64 {
    let mut number: u64 = 0;
    for digit in digits {
        number = number
            .wrapping_mul(10)
            .wrapping_add(digit.wrapping_sub(b'0') as u64);
    }
    number
}

/// What stands before the first of these bytes, and what stands behind it.
pub(crate) fn split(text: &[u8], by: u8) -> (&[u8], &[u8]) {
    for at in 0..text.len() {
        if text[at] == by {
            return (&text[..at], &text[at + 1..]);
        }
    }
    (text, b"")
}

/// What stands behind so many of these bytes.
pub(crate) fn behind(text: &[u8], by: u8, count: u32) -> &[u8] {
    let mut rest = text;
    for _ in 0..count {
        rest = split(rest, by).1;
    }
    rest
}

/// The number behind so many blanks; 0 where there are fewer.
pub(crate) fn nth(text: &[u8], place: u32) -> u64 {
    number(split(behind(text, b' ', place), b' ').0)
}

/// How many of these bytes stand ahead, and what stands behind them.
pub(crate) fn ahead(text: &[u8], mark: u8) -> (u64, &[u8]) {
    for at in 0..text.len() {
        if text[at] != mark {
            return (at as u64, &text[at..]);
        }
    }
    (0, text)
}

/// Adds a number as it is.
pub(crate) fn push_number(alloc: Global, out: &mut Out<'_>, number: u64) {
    match format!(in alloc; "{number}") {
        Ok(text) => out.push(text.as_bytes()),
        Err(_) => out.push(b"no memory"),
    }
}

/// Adds `CODE LINE:COLUMN`.
pub(crate) fn push_fault(alloc: Global, out: &mut Out<'_>, code: u16, place: Place) {
    out.number(code as u64);
    out.number(place.line as u64);
    out.push(b":");
    push_number(alloc, out, place.column as u64);
}

/// Adds what was made. Where memory ran out it says so, which no row asks for.
pub(crate) fn push_made<E: Drop>(out: &mut Out<'_>, made: Result<Vec<u8>, E>) {
    match made {
        Ok(text) => out.push(text.as_slice()),
        Err(_) => out.push(b"no memory"),
    }
}

/// Says so where memory ran out.
pub(crate) fn note<E: Drop>(out: &mut Out<'_>, done: Result<(), E>) {
    if done.is_err() {
        out.push(b"no memory");
    }
}

/// Adds bytes with escapes for those that aren't printable ASCII.
pub(crate) fn show(out: &mut Out<'_>, bytes: &[u8]) {
    for byte in bytes {
        match *byte {
            b'\n' => out.push(b"\\n"),
            b'\\' => out.push(b"\\\\"),
            b' '..=b'~' => out.push(&[*byte]),
            other => {
                out.push(b"\\x");
                out.push(&[digit(other / 16), digit(other % 16)]);
            }
        }
    }
}

fn digit(value: u8) -> u8 {
    if value < 10 {
        value.wrapping_add(b'0')
    } else {
        value.wrapping_sub(10).wrapping_add(b'a')
    }
}
