// Tokens, and what stops the lexer.

use crate::TokenKind;
use crate::kind::kind_of;
use hack_types::Place;

/// A token of a file: where it stands, and what it is (docs/language.md, Tokens).
#[derive(Clone, Copy, PartialEq, Eq)]
pub struct Token {
    /// 0 for a name, 1 for a variable, 2 for `$this`, 3 for an int, 4 for a float, 5 for a string that is no key string,
    /// 6 for a key string, then the marks from 7 on and the keywords from 62 on, in the order of the page.
    pub sort: u16,
    /// The index of its first byte.
    pub at: u32,
    /// Its length in bytes.
    pub len: u32,
}

impl Token {
    ghost use Rattle.std.specs.Prelude.{◌≡◌, ◌≤◌, MatchOption};
    ghost use Rattle.hack_lexer.specs.Kinds.{sort_of_kind};

    /// What the token is, and nothing where its sort is no kind's number.
    pub fn kind(&self) -> Option<TokenKind>
        ensures { MatchOption result (121 ≤ self.now.sort) (λ kind. self.now.sort ≡ sort_of_kind kind) }
    {
        kind_of(self.sort)
    }
}

/// Why bytes have no tokens.
#[derive(Clone, Copy, PartialEq, Eq)]
pub enum LexStop {
    /// The first fault of the bytes.
    Fault {
        /// Where it stands.
        place: Place,
        /// The number of `Code::NoToken` where no token begins or a comment or a string isn't closed, of
        /// `Code::IntTooLarge` for an int above 2^63 - 1.
        code: u16,
    },
    /// Memory ran out.
    NoMemory,
}
