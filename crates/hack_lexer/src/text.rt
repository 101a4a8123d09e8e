// Words, variables and strings at the front of bytes.
ghost use Rattle.std.specs.Prelude.{◌≡◌, ◌<◌, ◌≤◌, ◌+◌, ◌&&◌, ◌||◌, ◌==◌, not, false, length, IfSome};
ghost use Rattle.hack_lexer.specs.Forms.{is_word, is_variable, is_string, through_quote};
ghost use Rattle.hack_lexer.specs.Scan.{HasLongest};

use crate::run::{Class, is_word_start, run_len};

// The length of the longest word.
pub(crate) fn word_len(rest: &[u8]) -> Option<usize>
    ensures { HasLongest is_word rest.now result }
{
    if rest.is_empty() {
        return None;
    }
    if !is_word_start(rest[0]) {
        return None;
    }
    Some(run_len(&rest[1..], Class::WordByte) + 1)
}

// The length of the longest variable.
pub(crate) fn variable_len(rest: &[u8]) -> Option<usize>
    ensures { HasLongest is_variable rest.now result }
{
    if rest.is_empty() {
        return None;
    }
    if rest[0] != b'$' {
        return None;
    }
    match word_len(&rest[1..]) {
        Some(len) => Some(len + 1),
        None => None,
    }
}

// The length of the longest string.
pub(crate) fn string_len(rest: &[u8]) -> Option<usize>
    ensures { HasLongest is_string rest.now result }
{
    if rest.is_empty() {
        return None;
    }
    if !is_quote(rest[0]) {
        return None;
    }
    match through_quote(&rest[1..], rest[0]) {
        Some(len) => Some(len + 1),
        None => None,
    }
}

// How many bytes there are through the next quote.
fn through_quote(bytes: &[u8], quote: u8) -> Option<usize>
    ensures value { result ≡ through_quote quote false bytes.now }
    ensures inside { IfSome result (λ len. len ≤ length bytes.now) }
{
    let mut taken = false;
    for (index, b) in bytes.iter().enumerate() {
        if is_open(taken, *b, quote) {
            return Some(index + 1);
        }
        taken = is_open(taken, *b, b'\\');
    }
    None
}

// Whether a byte is this one and no backslash takes it along.
fn is_open(taken: bool, b: u8, wanted: u8) -> bool
    ensures { result ≡ (not taken && b == wanted) }
{
    !taken && b == wanted
}

// ' or "
pub(crate) fn is_quote(b: u8) -> bool
    ensures { result ≡ (b == 39 || b == 34) }
{
    b == b'\'' || b == b'"'
}
