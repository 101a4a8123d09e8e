// Tokens as the grammar sees them.

use hack_lexer::TokenKind;
use hack_types::{NameId, Place};

/// A token with what the grammar needs of it.
#[derive(Clone, Copy)]
pub struct Lexeme {
    /// What it is.
    pub kind: TokenKind,
    /// The place of its first byte.
    pub at: Place,
    /// The index of its first byte in the file.
    pub first: u32,
    /// The index of the byte behind its last.
    pub behind: u32,
    /// The name that it spells, if it is a word, a variable or a key string; of any other token it means nothing.
    pub name: NameId,
}
