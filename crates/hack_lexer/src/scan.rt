// The longest token at the front of bytes.
ghost use Rattle.std.specs.Prelude.{◌≡◌, ◌≤◌, length};
ghost use Rattle.std.specs.List.{list_all};
ghost use Rattle.hack_lexer.specs.Bytes.{is_key_byte};
ghost use Rattle.case_table.specs.Entries.{entries};
ghost use Rattle.hack_lexer.specs.Forms.{sort_of_word, sort_of_variable, sort_of_string};
ghost use Rattle.hack_lexer.specs.Tokens.{is_cut_cast};
ghost use Rattle.hack_lexer.specs.Scan.{FindsToken, IsMarkAlone, IsMarkOf, HasKeywords, HasMarks};

use crate::number::{float_len, int_len};
use crate::run::{is_digit, is_key_byte, is_word_byte};
use crate::text::{string_len, variable_len, word_len};
use case_table::Cases;

/// A token that stands at the front.
#[derive(Clone, Copy)]
pub(crate) struct Found {
    pub(crate) sort: u16,
    pub(crate) len: usize,
}

// The longest token at the front.
pub(crate) fn token_at(
    keywords: &Cases<'_, 59>,
    marks: &Cases<'_, 55>,
    rest: &[u8],
) -> Option<Found>
    requires keywords { HasKeywords (entries keywords.now) }
    requires marks { HasMarks (entries marks.now) }
    ensures { FindsToken rest.now result }
{
    if rest.is_empty() {
        return None;
    }
    if let Some(len) = word_len(rest) {
        let sort = word_sort(keywords, &rest[..len]);
        return Some(Found { sort, len });
    }
    if let Some(len) = variable_len(rest) {
        let sort = variable_sort(&rest[..len]);
        return Some(Found { sort, len });
    }
    if let Some(len) = string_len(rest) {
        let sort = string_sort(&rest[..len]);
        return Some(Found { sort, len });
    }
    if let Some(len) = float_len(rest) {
        return Some(Found { sort: 4, len });
    }
    if is_digit(rest[0]) {
        return Some(Found {
            sort: 3,
            len: int_len(rest),
        });
    }
    mark_at(marks, rest)
}

// The sort of a word.
fn word_sort(keywords: &Cases<'_, 59>, text: &[u8]) -> u16
    requires { HasKeywords (entries keywords.now) }
    ensures { result ≡ sort_of_word text.now }
{
    match keywords.get(text) {
        Some(sort) => sort,
        None => 0,
    }
}

// The sort of a variable.
fn variable_sort(text: &[u8]) -> u16
    ensures { result ≡ sort_of_variable text.now }
{
    if text == b"$this".as_slice() { 2 } else { 1 }
}

// The sort of a string.
fn string_sort(text: &[u8]) -> u16
    requires { 2 ≤ length text.now }
    ensures { result ≡ sort_of_string text.now }
{
    let content = &text[1..text.len() - 1];
    if content.is_empty() || content.len() > 255 {
        return 5;
    }
    if are_key_bytes(content) { 6 } else { 5 }
}

// Whether a key may have each of these bytes.
fn are_key_bytes(content: &[u8]) -> bool
    ensures { result ≡ list_all is_key_byte content.now }
{
    content.iter().all(|b| is_key_byte(*b))
}

// The longest mark at the front, where nothing else can stand.
fn mark_at(marks: &Cases<'_, 55>, rest: &[u8]) -> Option<Found>
    requires marks { HasMarks (entries marks.now) }
    requires alone { IsMarkAlone rest.now }
    ensures { FindsToken rest.now result }
{
    match mark_of(marks, rest, 3) {
        Some(found) => Some(found),
        None => match mark_of(marks, rest, 2) {
            Some(found) => Some(found),
            None => mark_of(marks, rest, 1),
        },
    }
}

// The mark of so many bytes at the front.
fn mark_of(marks: &Cases<'_, 55>, rest: &[u8], len: usize) -> Option<Found>
    requires marks { HasMarks (entries marks.now) }
    requires alone { IsMarkAlone rest.now }
    ensures { IsMarkOf rest.now len result }
{
    if len > rest.len() {
        return None;
    }
    if is_cut_cast(rest, len) {
        return None;
    }
    match marks.get(&rest[..len]) {
        Some(sort) => Some(Found { sort, len }),
        None => None,
    }
}

// Whether the first bytes, so many, are `?as` and a word byte follows.
fn is_cut_cast(rest: &[u8], len: usize) -> bool
    requires { len ≤ length rest.now }
    ensures { result ≡ is_cut_cast rest.now len }
{
    if &rest[..len] != b"?as".as_slice() {
        return false;
    }
    len < rest.len() && is_word_byte(rest[len])
}
