// Ints and floats at the front of bytes.
ghost use Rattle.std.specs.Prelude.{◌≡◌, ◌<◌, ◌||◌, ◌==◌, true, length, slice_index};
ghost use Rattle.hack_lexer.specs.Bytes.{is_digit};
ghost use Rattle.hack_lexer.specs.Forms.{are_some, is_hexadecimal_mark, is_binary_mark, is_behind_zero, is_int, is_signed, is_exponent, is_end, is_fraction, is_behind_whole, is_float};
ghost use Rattle.hack_lexer.specs.Scan.{is_in, IsLongestPass, HasLongest};

use crate::run::{Class, run_len};

// The length of the longest int; the bytes begin with a digit.
pub(crate) fn int_len(rest: &[u8]) -> usize
    requires not_empty { 0 < length rest.now }
    requires digit { is_digit (slice_index rest.now 0) ≡ true }
    ensures { IsLongestPass is_int rest.now result }
{
    if rest[0] == b'0' {
        return behind_zero_len(&rest[1..]) + 1;
    }
    run_len(rest, Class::Digit)
}

// The length of the longest end of an int behind its 0.
fn behind_zero_len(rest: &[u8]) -> usize
    ensures { IsLongestPass is_behind_zero rest.now result }
{
    if rest.is_empty() {
        return 0;
    }
    if is_hexadecimal_mark(rest[0]) {
        return match some_len(&rest[1..], Class::Hexadecimal) {
            Some(len) => len + 1,
            None => 0,
        };
    }
    if is_binary_mark(rest[0]) {
        return match some_len(&rest[1..], Class::Binary) {
            Some(len) => len + 1,
            None => 0,
        };
    }
    run_len(rest, Class::Octal)
}

// The length of the longest float.
pub(crate) fn float_len(rest: &[u8]) -> Option<usize>
    ensures { HasLongest is_float rest.now result }
{
    let whole = run_len(rest, Class::Digit);
    match behind_whole_len(&rest[whole..], whole) {
        Some(len) => Some(whole + len),
        None => None,
    }
}

// The length of the longest end of a float behind so many digits.
fn behind_whole_len(rest: &[u8], digits: usize) -> Option<usize>
    ensures { HasLongest (is_behind_whole digits) rest.now result }
{
    if rest.is_empty() {
        return None;
    }
    if rest[0] == b'.' {
        return match fraction_len(&rest[1..]) {
            Some(len) => Some(len + 1),
            None => None,
        };
    }
    if digits == 0 {
        return None;
    }
    exponent_len(rest)
}

// The length of the longest run of digits with an exponent, or without one.
fn fraction_len(rest: &[u8]) -> Option<usize>
    ensures { HasLongest is_fraction rest.now result }
{
    let digits = run_len(rest, Class::Digit);
    if digits == 0 {
        return None;
    }
    Some(digits + end_len(&rest[digits..]))
}

// The length of the longest exponent, or 0.
fn end_len(rest: &[u8]) -> usize
    ensures { IsLongestPass is_end rest.now result }
{
    match exponent_len(rest) {
        Some(len) => len,
        None => 0,
    }
}

// The length of the longest exponent.
fn exponent_len(rest: &[u8]) -> Option<usize>
    ensures { HasLongest is_exponent rest.now result }
{
    if rest.is_empty() {
        return None;
    }
    if !is_exponent_mark(rest[0]) {
        return None;
    }
    match signed_len(&rest[1..]) {
        Some(len) => Some(len + 1),
        None => None,
    }
}

// The length of the longest run of digits with a sign before it, or without one.
fn signed_len(rest: &[u8]) -> Option<usize>
    ensures { HasLongest is_signed rest.now result }
{
    if rest.is_empty() {
        return None;
    }
    if !is_sign(rest[0]) {
        return some_len(rest, Class::Digit);
    }
    match some_len(&rest[1..], Class::Digit) {
        Some(len) => Some(len + 1),
        None => None,
    }
}

// The length of the longest run of the class that isn't empty.
fn some_len(rest: &[u8], class: Class) -> Option<usize>
    ensures { HasLongest (are_some (is_in class)) rest.now result }
{
    let run = run_len(rest, class);
    if run == 0 { None } else { Some(run) }
}

// e or E
fn is_exponent_mark(b: u8) -> bool
    ensures { result ≡ (b == 101 || b == 69) }
{
    b == b'e' || b == b'E'
}

// + or -
fn is_sign(b: u8) -> bool
    ensures { result ≡ (b == 43 || b == 45) }
{
    b == b'+' || b == b'-'
}

// x or X
pub(crate) fn is_hexadecimal_mark(b: u8) -> bool
    ensures { result ≡ is_hexadecimal_mark b }
{
    b == b'x' || b == b'X'
}

// b or B
pub(crate) fn is_binary_mark(b: u8) -> bool
    ensures { result ≡ is_binary_mark b }
{
    b == b'b' || b == b'B'
}
