// What stands at an index of the bytes of a file.
ghost use Rattle.std.specs.Prelude.{◌≤◌, ◌<◌, ◌^◌, length, drop};
ghost use Rattle.case_table.specs.Entries.{entries};
ghost use Rattle.hack_lexer.specs.Scan.{HasKeywords, HasMarks, IsFound, IsStep};
ghost use Rattle.hack_lexer.specs.Tokens.{BeginsNoBlank};

use crate::Token;
use crate::blank::blank_len;
use crate::range::is_in_range;
use crate::scan::{Found, token_at};
use case_table::Cases;
use hack_codes::Code;

/// A blank of so many bytes, a token or a fault.
pub(crate) enum Step {
    Blank(usize),
    Taken(Token),
    Fault(Code),
}

// What stands at this index.
pub(crate) fn step_at(
    keywords: &Cases<'_, 59>,
    marks: &Cases<'_, 55>,
    bytes: &[u8],
    index: usize,
) -> Step
    requires inside { index < length bytes.now }
    requires small { length bytes.now ≤ 2 ^ 20 }
    requires keywords { HasKeywords (entries keywords.now) }
    requires marks { HasMarks (entries marks.now) }
    ensures { IsStep bytes.now index result }
{
    let rest = &bytes[index..];
    match blank_len(rest, index) {
        Some(len) => Step::Blank(len),
        None => {
            if rest.starts_with(b"/*") {
                return Step::Fault(Code::NoToken);
            }
            match token_at(keywords, marks, rest) {
                Some(found) => taken(bytes, index, found),
                None => Step::Fault(Code::NoToken),
            }
        }
    }
}

// The token at this index, or a fault where it is an int that is too large.
fn taken(bytes: &[u8], index: usize, found: Found) -> Step
    requires inside { index < length bytes.now }
    requires small { length bytes.now ≤ 2 ^ 20 }
    requires here { BeginsNoBlank index (drop index bytes.now) }
    requires found { IsFound (drop index bytes.now) found }
    ensures { IsStep bytes.now index result }
{
    let token = Token {
        sort: found.sort,
        at: index as u32,
        len: found.len as u32,
    };
    if found.sort == 3 {
        if !is_in_range(&bytes[index..index + found.len]) {
            return Step::Fault(Code::IntTooLarge);
        }
    }
    Step::Taken(token)
}
