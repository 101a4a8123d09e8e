// The tokens of a file as the grammar sees them.
ghost use Rattle.std.specs.Prelude.{◌≡◌, ◌<◌, ◌≤◌, ◌+◌, ◌-◌, ◌*◌, length, IfOk, OnOk, OnErr};
ghost use Rattle.std.specs.List.{AllByRecursion};
ghost use Rattle.hack_lexer.specs.Forms.{content_of};
ghost use Rattle.hack_lexer.specs.Tokens.{AreTokens};
ghost use Rattle.hack_parse_file.specs.Lexemes.{AreLexemes, Extends, with_names, with_spelled, spelled as spelled_of, IsNamed, between, option_bytes};
ghost use Rattle.hack_parse_file.specs.Room.{most_bytes, most_names, HasRoom};

use hack_lexer::{Token, TokenKind};
use hack_parse_expr::Lexeme;
use hack_types::{NameId, Names, NoMemory, Place};
use std::alloc::Global;

/// The tokens of these bytes as the grammar sees them, whose names are among `names` from now on. An error says that
/// memory ran out, and leaves more names or as many.
pub(crate) fn lexemes(
    alloc: Global,
    names: &mut Names,
    bytes: &[u8],
    tokens: &[Token],
) -> Result<Vec<Lexeme>, NoMemory>
    requires short { length bytes.now ≤ most_bytes }
    requires cut { AreTokens bytes.now tokens.now }
    requires kinds { AllByRecursion (λ t. t.sort < 121) tokens.now }
    requires room { HasRoom names.old bytes.now }
    ensures lexemes { IfOk result (λ lexemes. AreLexemes names.new bytes.now tokens.now lexemes.items) }
    ensures names { IfOk result (λ lexemes. names.new ≡ with_names names.old bytes.now lexemes.items) }
    ensures kept { Extends names.old names.new }
    ensures few { 2 * length names.new ≤ 2 * length names.old + length bytes.now + 3 }
{
    let mut lexemes = Vec::new(alloc);
    let mut at = Place::START;
    let mut passed = 0;
    for token in tokens {
        let first = token.at as usize;
        let behind = first + token.len as usize;
        at = at.behind(&bytes[passed..first]);
        passed = first;
        // The sort of each token is a kind's.
        let kind = token.kind().unwrap();
        let name = named(alloc, names, spelled(kind, &bytes[first..behind]))?;
        lexemes.push(Lexeme {
            kind,
            at,
            first: token.at,
            behind: token.at + token.len,
            name,
        })?;
    }
    Ok(lexemes)
}

// The name that a token of this kind and text spells: a variable without its `$`, a key string without its quotes.
fn spelled(kind: TokenKind, text: &[u8]) -> Option<&[u8]>
    ensures { option_bytes result ≡ spelled_of kind text.now }
{
    match kind {
        TokenKind::Name | TokenKind::Keyword(_) => Some(text),
        TokenKind::Variable => Some(text.get(1..).unwrap_or(&[])),
        TokenKind::KeyText => Some(inside(text)),
        _ => None,
    }
}

// The id of this name, which is a name from now on, and 0 where there is none.
fn named(alloc: Global, names: &mut Names, text: Option<&[u8]>) -> Result<NameId, NoMemory>
    requires room { length (with_spelled names.old (option_bytes text)) ≤ most_names }
    ensures id { IfOk result (λ id. IsNamed names.new (option_bytes text.entry) id) }
    ensures names { OnOk result (names.new ≡ with_spelled names.old (option_bytes text.entry)) }
    ensures err { OnErr result (names.new ≡ names.old) }
{
    match text {
        None => Ok(NameId::new(0)),
        Some(text) => names.intern(alloc, text),
    }
}

// What stands between the quotes of a string.
fn inside(text: &[u8]) -> &[u8]
    ensures { result.now ≡ content_of text.now }
{
    match text {
        [_, inner @ .., _] => inner,
        _ => &[],
    }
}
