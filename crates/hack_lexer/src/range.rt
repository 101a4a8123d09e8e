// The numbers that ints spell, and the largest one.
ghost use Rattle.std.specs.Prelude.{◌≡◌, ◌<◌, ◌≤◌, ◌^◌, ◌↔◌, IsTrue};
ghost use Rattle.hack_lexer.specs.Forms.{digit_of, number_of, value_of_int, value_behind_zero};

use crate::number::{is_binary_mark, is_hexadecimal_mark};

// Whether an int spells at most 2^63 - 1.
pub(crate) fn is_in_range(text: &[u8]) -> bool
    ensures { IsTrue result ↔ (value_of_int text.now < 2 ^ 63) }
{
    if text.is_empty() {
        return true;
    }
    if text[0] == b'0' {
        return is_in_range_behind_zero(&text[1..]);
    }
    is_small(text, 10)
}

// The same of what follows a 0.
fn is_in_range_behind_zero(text: &[u8]) -> bool
    ensures { IsTrue result ↔ (value_behind_zero text.now < 2 ^ 63) }
{
    if text.is_empty() {
        return true;
    }
    if is_hexadecimal_mark(text[0]) {
        return is_small(&text[1..], 16);
    }
    if is_binary_mark(text[0]) {
        return is_small(&text[1..], 2);
    }
    is_small(text, 8)
}

// Whether digits in this base spell at most 2^63 - 1.
fn is_small(digits: &[u8], base: u64) -> bool
    requires low { 1 ≤ base }
    requires high { base ≤ 16 }
    ensures { IsTrue result ↔ (number_of base digits.now < 2 ^ 63) }
{
    let mut value: u64 = 0;
    for b in digits {
        let next = value as u128 * base as u128 + digit_of(*b) as u128;
        if next >= 0x8000_0000_0000_0000 {
            return false;
        }
        value = next as u64;
    }
    true
}

// The digit that a byte stands for.
fn digit_of(b: u8) -> u8
    ensures { result ≡ digit_of b }
{
    if b <= b'9' {
        b.saturating_sub(48)
    } else if b <= b'F' {
        b.saturating_sub(55)
    } else {
        b.saturating_sub(87)
    }
}
