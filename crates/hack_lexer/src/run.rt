// Runs of bytes of one class.
ghost use Rattle.std.specs.Prelude.{◌≡◌, ◌≤◌, length};
ghost use Rattle.std.specs.List.{prefix_len};
ghost use Rattle.hack_lexer.specs.Bytes.{is_digit, is_hexadecimal, is_word_start, is_word_byte, is_space, is_key_byte};
ghost use Rattle.hack_lexer.specs.Scan.{is_in};

/// A class of bytes.
#[derive(Clone, Copy, PartialEq, Eq)]
pub(crate) enum Class {
    Digit,
    Octal,
    Binary,
    Hexadecimal,
    WordByte,
    InLine,
}

impl Class {
    // Whether a byte is in the class.
    fn has(self, b: u8) -> bool
        ensures { result ≡ is_in self b }
    {
        match self {
            Class::Digit => is_digit(b),
            Class::Octal => b >= b'0' && b <= b'7',
            Class::Binary => b == b'0' || b == b'1',
            Class::Hexadecimal => is_hexadecimal(b),
            Class::WordByte => is_word_byte(b),
            Class::InLine => b != b'\n',
        }
    }
}

// 0-9
pub(crate) fn is_digit(b: u8) -> bool
    ensures { result ≡ is_digit b }
{
    b >= b'0' && b <= b'9'
}

// 0-9, A-F or a-f
fn is_hexadecimal(b: u8) -> bool
    ensures { result ≡ is_hexadecimal b }
{
    is_digit(b) || b >= b'A' && b <= b'F' || b >= b'a' && b <= b'f'
}

// A-Z, a-z or _
pub(crate) fn is_word_start(b: u8) -> bool
    ensures { result ≡ is_word_start b }
{
    b >= b'A' && b <= b'Z' || b >= b'a' && b <= b'z' || b == b'_'
}

// A-Z, a-z, _ or 0-9
pub(crate) fn is_word_byte(b: u8) -> bool
    ensures { result ≡ is_word_byte b }
{
    is_word_start(b) || is_digit(b)
}

// space, tab, CR or LF
pub(crate) fn is_space(b: u8) -> bool
    ensures { result ≡ is_space b }
{
    b == b' ' || b == b'\t' || b == b'\r' || b == b'\n'
}

// a visible byte or a space, but none of ' " \ $
pub(crate) fn is_key_byte(b: u8) -> bool
    ensures { result ≡ is_key_byte b }
{
    b >= b' ' && b <= b'~' && !(b == b'\'' || b == b'"' || b == b'\\' || b == b'$')
}

// How many bytes at the front are of the class.
pub(crate) fn run_len(bytes: &[u8], class: Class) -> usize
    ensures run { result ≡ prefix_len (is_in class) bytes.now }
    ensures inside { result ≤ length bytes.now }
{
    let mut n = 0;
    while n < bytes.len() && class.has(bytes[n]) {
        n += 1;
    }
    n
}
