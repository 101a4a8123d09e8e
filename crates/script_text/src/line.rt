// Reads the line that begins a command.
ghost use Rattle.std.specs.Prelude.{◌≡◌, ◌≤◌, ◌<◌, ◌==◌, length, position, IfOk, IfSome};
ghost use Rattle.std.specs.List.{list_all};
ghost use Rattle.std.specs.Option.{option_map, option_copied};
ghost use Rattle.script_text.specs.Heads.{split_first, behind, is_digit, is_plain, number, is_name_byte, is_file_name, file_head, drop_head, word_head, head_of_line, may_be_last};
ghost use Rattle.script_text.specs.Lines.{head_view, head_found};
ghost use Rattle.script_text.specs.Reader.{head_of, stand_behind};

use crate::{Head, Stand};
use hack_io::NoMemory;
use std::alloc::Global;

/// The most bytes of a file: 1 MiB.
const MAX_BODY: u64 = 1 << 20;
/// The most bytes of a command's line, without its LF.
pub(crate) const MAX_LINE: usize = 300;

/// The head of a command (docs/script.md, Form). Its name is borrowed from the line.
#[derive(Clone, Copy)]
pub(crate) enum LineHead<'a> {
    /// Put a file of this name, whose text of `len` bytes stands behind the line.
    File { name: &'a [u8], len: u64 },
    /// Take the file of this name away.
    Drop { name: &'a [u8] },
    /// Report on the current files.
    Check,
    /// Begin such a report.
    Begin,
    /// Wait for the report that was begun.
    Wait,
    /// End here.
    Quit,
}

/// The index of the first such byte.
fn first_index(bytes: &[u8], byte: u8) -> Option<usize>
    ensures value { result ≡ position (λ b. b == byte) bytes.now }
    ensures inside { IfSome result (λ at. at < length bytes.now) }
{
    bytes.iter().position(|b| *b == byte)
}

/// What stands before the first such byte, and what stands behind it.
fn split_first(bytes: &[u8], byte: u8) -> Option<(&[u8], &[u8])>
    ensures { option_map (λ parts. (parts.0.now, parts.1.now)) result ≡ split_first byte bytes.now }
{
    match first_index(bytes, byte) {
        Some(at) => Some((&bytes[..at], &bytes[at + 1..])),
        None => None,
    }
}

/// Whether the byte is a decimal digit.
fn is_digit(b: u8) -> bool
    ensures { result ≡ is_digit b }
{
    (b'0'..=b'9').contains(&b)
}

/// Whether all the bytes are decimal digits.
fn are_digits(bytes: &[u8]) -> bool
    ensures { result ≡ list_all is_digit bytes.now }
{
    bytes.iter().all(|b| is_digit(*b))
}

/// Whether there are one to seven of them, without a needless zero in front.
fn is_plain(digits: &[u8]) -> bool
    ensures { result ≡ is_plain digits.now }
{
    match digits {
        [] => false,
        [_] => true,
        [first, ..] => digits.len() <= 7 && *first != b'0',
    }
}

/// The number that such digits spell.
#[tactic(auto, unfolding(crate::specs::Heads::number))]
fn number(digits: &[u8]) -> Option<u64>
    ensures { result ≡ number digits.now }
{
    if !(is_plain(digits) && are_digits(digits)) {
        return None;
    }
    let mut value = 0;
    for digit in digits {
        value = 10 * value + u64::from(digit.saturating_sub(b'0'));
    }
    Some(value)
}

/// Whether a file's name may have the byte.
fn is_name_byte(b: u8) -> bool
    ensures { result ≡ is_name_byte b }
{
    matches!(b, b'A'..=b'Z' | b'a'..=b'z' | b'-'..=b'9' | b'_')
}

/// Whether all the bytes may stand in a file's name.
fn are_name_bytes(bytes: &[u8]) -> bool
    ensures { result ≡ list_all is_name_byte bytes.now }
{
    bytes.iter().all(|b| is_name_byte(*b))
}

/// Whether the bytes are a file's name (docs/script.md, Form).
fn is_file_name(name: &[u8]) -> bool
    ensures { result ≡ is_file_name name.now }
{
    let each = are_name_bytes(name);
    1 <= name.len() && name.len() <= 255 && each
}

/// What stands behind a front.
#[tactic(auto, unfolding(crate::specs::Heads::behind))]
fn behind<'a>(front: &[u8], bytes: &'a [u8]) -> Option<&'a [u8]>
    ensures { option_copied result ≡ behind front.now bytes.now }
{
    bytes.strip_prefix(front)
}

/// The head of a `file`, of its words behind `file `.
#[tactic(auto, unfolding(crate::specs::Heads::file_head))]
fn file_head(words: &[u8]) -> Option<LineHead<'_>>
    ensures { option_map head_view result ≡ file_head words.now }
{
    let (name, digits) = split_first(words, b' ')?;
    let len = number(digits)?;
    if is_file_name(name) && len <= MAX_BODY {
        Some(LineHead::File { name, len })
    } else {
        None
    }
}

/// The head of a `drop`, of its name.
#[tactic(auto, unfolding(crate::specs::Heads::drop_head))]
fn drop_head(name: &[u8]) -> Option<LineHead<'_>>
    ensures { option_map head_view result ≡ drop_head name.now }
{
    if is_file_name(name) {
        Some(LineHead::Drop { name })
    } else {
        None
    }
}

/// The head of a command of one word.
#[tactic(auto, unfolding(crate::specs::Heads::word_head))]
fn word_head(word: &[u8]) -> Option<LineHead<'_>>
    ensures { option_map head_view result ≡ word_head word.now }
{
    if word == b"check".as_slice() {
        Some(LineHead::Check)
    } else if word == b"begin".as_slice() {
        Some(LineHead::Begin)
    } else if word == b"wait".as_slice() {
        Some(LineHead::Wait)
    } else if word == b"quit".as_slice() {
        Some(LineHead::Quit)
    } else {
        None
    }
}

/// The head that a line is, without its LF, or `None` where it is in no form (docs/script.md, Form).
#[tactic(auto, unfolding(crate::specs::Heads::head_of_line))]
pub(crate) fn head_of_line(line: &[u8]) -> Option<LineHead<'_>>
    ensures { option_map head_view result ≡ head_of_line line.now }
{
    if line.len() > MAX_LINE {
        return None;
    }
    if let Some(words) = behind(b"file ", line) {
        return file_head(words);
    }
    if let Some(name) = behind(b"drop ", line) {
        return drop_head(name);
    }
    word_head(line)
}

/// Whether the line of such a head may end the script without its LF.
pub(crate) fn may_be_last(head: LineHead<'_>) -> bool
    ensures { result ≡ may_be_last (head_view head.entry) }
{
    match head {
        LineHead::File { .. } => false,
        LineHead::Drop { .. } => true,
        LineHead::Check => true,
        LineHead::Begin => true,
        LineHead::Wait => true,
        LineHead::Quit => true,
    }
}

/// The head in the line that an LF at the index ends, or without an index in all the bytes, with which a script ends.
pub(crate) fn head_found(bytes: &[u8], found: Option<usize>) -> Option<LineHead<'_>>
    requires { IfSome found (λ at. at ≤ length bytes.now) }
    ensures { option_map head_view result ≡ head_found bytes.now found }
{
    match found {
        Some(at) => head_of_line(&bytes[..at]),
        None => {
            let head = head_of_line(bytes)?;
            if may_be_last(head) { Some(head) } else { None }
        }
    }
}

/// The same head, its name in memory of its own.
pub(crate) fn owned(alloc: Global, head: LineHead<'_>) -> Result<Head, NoMemory>
    ensures { IfOk result (λ own. head_of own ≡ Some (head_view head.entry)) }
{
    Ok(match head {
        LineHead::File { name, len } => Head::File {
            name: Vec::from_slice(alloc, name)?,
            len,
        },
        LineHead::Drop { name } => Head::Drop {
            name: Vec::from_slice(alloc, name)?,
        },
        LineHead::Check => Head::Check,
        LineHead::Begin => Head::Begin,
        LineHead::Wait => Head::Wait,
        LineHead::Quit => Head::Quit,
    })
}

/// Where a reader stands behind a head.
pub(crate) fn stand_behind(head: LineHead<'_>) -> Stand
    ensures { result ≡ stand_behind (head_view head.entry) }
{
    match head {
        LineHead::File { len, .. } => Stand::BeforeBody(len),
        LineHead::Drop { .. } => Stand::BeforeHead,
        LineHead::Check => Stand::BeforeHead,
        LineHead::Begin => Stand::BeforeHead,
        LineHead::Wait => Stand::BeforeHead,
        LineHead::Quit => Stand::Over,
    }
}
