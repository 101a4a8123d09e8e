// Blanks at the front of bytes.
ghost use Rattle.std.specs.Prelude.{◌≡◌, ◌<◌, ◌≤◌, ◌&&◌, ◌==◌, ◌+◌, length, slice_index, codes, IfSome};
ghost use Rattle.hack_lexer.specs.Tokens.{blank_at, begins, through_close};

use crate::run::{Class, is_space, run_len};

// The length of the blank at the front of the bytes from this index on.
pub(crate) fn blank_len(rest: &[u8], index: usize) -> Option<usize>
    ensures value { result ≡ blank_at index rest.now }
    ensures inside { IfSome result (λ len. (0 < len) × (len ≤ length rest.now)) }
{
    if begins_file(rest, index) {
        return Some(4);
    }
    if rest.starts_with(b"//") {
        return Some(run_len(rest, Class::InLine));
    }
    if rest.starts_with(b"/*") {
        return match through_close(&rest[2..]) {
            Some(len) => Some(2 + len),
            None => None,
        };
    }
    if rest.is_empty() {
        return None;
    }
    if is_space(rest[0]) { Some(1) } else { None }
}

// Whether the bytes are the start of a file and begin with `<?hh`.
fn begins_file(rest: &[u8], index: usize) -> bool
    ensures { result ≡ (index == 0 && begins (codes "<?hh") rest.now) }
{
    index == 0 && rest.starts_with(b"<?hh")
}

// How many bytes there are through the next `*/`.
fn through_close(bytes: &[u8]) -> Option<usize>
    ensures value { result ≡ through_close bytes.now }
    ensures inside { IfSome result (λ len. len ≤ length bytes.now) }
{
    for index in 0..bytes.len() {
        if closes(bytes, index) {
            return Some(index + 2);
        }
    }
    None
}

// Whether a `*/` stands at this index.
fn closes(bytes: &[u8], index: usize) -> bool
    requires { index < length bytes.now }
    ensures value { result ≡ (slice_index bytes.now index == 42 && slice_index bytes.now (index + 1) == 47) }
{
    if bytes[index] != b'*' {
        return false;
    }
    index + 1 < bytes.len() && bytes[index + 1] == b'/'
}
