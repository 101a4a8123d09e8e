// A cursor over the tokens of a file.
ghost use Rattle.std.specs.Prelude.{◌≡◌, ◌<◌, length, Some, None, []};
ghost use Rattle.hack_codes.specs.Numbers.{number};
ghost use Rattle.hack_parse_expr.specs.Input as input;
ghost use Rattle.hack_parse_expr.specs.Kinds as kinds;
ghost use Rattle.hack_parse_expr.specs.Parsers as spec;
ghost use Rattle.hack_parse_expr.specs.Parsers.{Reads};
ghost use Rattle.hack_parse_expr.specs.Rows.{sees};
ghost use Rattle.hack_parse_expr.specs.Symbols.{Keyword_, Mark_, Name, Variable, Word, KeyText};

use crate::{Lexeme, ParseStop};
use hack_codes::Code;
use hack_lexer::{Keyword, Mark, TokenKind};
use hack_types::Place;
use std::marker::Model;

/// What a parser reads from: contracts see the tokens that are left, the place of the declaration's first token and the
/// place behind the last byte of the file.
#[derive(Drop)]
pub struct Cursor<'t> {
    left: &'t [Lexeme],
    start: Place,
    behind: u32,
    end: Place,
}

impl<'t> Model for Cursor<'t> {
    ghost use Rattle.hack_parse_expr.specs.Input.{Input};

    ghost Value = { Input };

    ghost use Rattle.hack_parse_expr.specs.Cursor.{input_of};

    ghost view = { input_of };
}

impl<'t> Cursor<'t> {
    /// A cursor at the first of the tokens of a file; `end` is the place behind the last byte of the file.
    pub fn new(left: &'t [Lexeme], end: Place) -> Self
        ensures { result ≡ spec.at_front left.now end }
    {
        Cursor {
            left,
            start: Place::START,
            behind: 0,
            end,
        }
    }

    /// How many tokens are left.
    pub fn left(&self) -> usize
        ensures { result ≡ length self.now.left }
    {
        self.left.len()
    }

    /// The kind of the next token, where there is one.
    pub fn kind(&self) -> Option<TokenKind>
        ensures { result ≡ kinds.next_kind self.now.left }
    {
        match self.left {
            [] => None,
            [token, ..] => Some(token.kind),
        }
    }

    /// The kind of the token behind the next, where there is one.
    pub fn second_kind(&self) -> Option<TokenKind>
        ensures { result ≡ kinds.second_kind self.now.left }
    {
        match self.left {
            [_, token, ..] => Some(token.kind),
            _ => None,
        }
    }

    /// Whether the next token is this mark.
    pub fn sees(&self, mark: Mark) -> bool
        ensures { result ≡ sees (Mark_ mark) self.now.left }
    {
        match self.left {
            [] => false,
            [token, ..] => token.kind.is_mark(mark),
        }
    }

    /// Whether the next token is this keyword.
    pub fn sees_keyword(&self, keyword: Keyword) -> bool
        ensures { result ≡ sees (Keyword_ keyword) self.now.left }
    {
        match self.left {
            [] => false,
            [token, ..] => token.kind.is_keyword(keyword),
        }
    }

    /// Whether the next token is a variable.
    pub fn sees_variable(&self) -> bool
        ensures { result ≡ sees Variable self.now.left }
    {
        match self.kind() {
            Some(TokenKind::Variable) => true,
            _ => false,
        }
    }

    /// Whether the next token is a key string.
    pub fn sees_key(&self) -> bool
        ensures { result ≡ sees KeyText self.now.left }
    {
        match self.kind() {
            Some(TokenKind::KeyText) => true,
            _ => false,
        }
    }

    /// Whether the next token is a name.
    pub fn sees_name(&self) -> bool
        ensures { result ≡ sees Name self.now.left }
    {
        match self.kind() {
            Some(TokenKind::Name) => true,
            _ => false,
        }
    }

    fn sees_word(&self) -> bool
        ensures { result ≡ sees Word self.now.left }
    {
        match self.kind() {
            Some(TokenKind::Name | TokenKind::Keyword(_)) => true,
            _ => false,
        }
    }

    /// The fault of a token that no row reads, or of the end of the file.
    pub fn refuse(&self) -> ParseStop
        ensures { result ≡ input.refusal self.now }
    {
        self.fault(Code::UnexpectedToken)
    }

    /// The fault of a token that stands too deep, or of the end of the file.
    pub fn too_deep(&self) -> ParseStop
        ensures { result ≡ input.too_deep self.now }
    {
        self.fault(Code::TooDeep)
    }

    fn fault(&self, code: Code) -> ParseStop
        ensures { result ≡ input.fault_at self.now.end (number code) self.now.left }
    {
        match self.left {
            [] => ParseStop::Fault {
                place: self.end,
                code: Code::UnexpectedEnd.number(),
            },
            [token, ..] => ParseStop::Fault {
                place: token.at,
                code: code.number(),
            },
        }
    }

    /// The place of the next token, as the trees of the declaration have it.
    #[tactic(auto, unfolding(crate::specs::Parsers::place))]
    pub fn place(&self) -> Result<Place, ParseStop>
        ensures { Reads (spec.place self.now) result self.now }
    {
        match self.left {
            [] => Err(self.refuse()),
            [token, ..] => Ok(relative(self.start, token.at)),
        }
    }

    /// Takes the next token, with its place as the trees of the declaration have it.
    #[tactic(auto, unfolding(crate::specs::Parsers::token))]
    pub fn token(&mut self) -> Result<Lexeme, ParseStop>
        ensures { Reads (spec.token self.old) result self.new }
    {
        match self.left {
            [] => Err(self.refuse()),
            [token, left @ ..] => {
                self.left = left;
                self.behind = token.behind;
                Ok(Lexeme {
                    at: relative(self.start, token.at),
                    ..*token
                })
            }
        }
    }

    // Goes on behind the next token.
    #[tactic(auto, unfolding(crate::specs::Parsers::next))]
    fn skip(&mut self)
        ensures { self.new ≡ spec.next self.old }
    {
        if let [token, left @ ..] = self.left {
            self.left = left;
            self.behind = token.behind;
        }
    }

    /// Begins a declaration at the next token, from which places count from now on. Answers that token as it stands in the
    /// file.
    #[tactic(auto, unfolding(crate::specs::Parsers::starting))]
    pub fn start(&mut self) -> Result<Lexeme, ParseStop>
        ensures { Reads (spec.starting self.old) result self.new }
    {
        match self.left {
            [] => Err(self.refuse()),
            [token, ..] => {
                self.start = token.at;
                Ok(*token)
            }
        }
    }

    /// The index of the byte behind the last token that was taken.
    pub fn behind(&self) -> u32
        ensures { result ≡ self.now.behind }
    {
        self.behind
    }

    /// Takes the next token, if it is this mark.
    #[tactic(auto, unfolding(crate::specs::Parsers::after))]
    pub fn eat(&mut self, mark: Mark) -> bool
        ensures found { result ≡ sees (Mark_ mark) self.old.left }
        ensures after { self.new ≡ spec.after (Mark_ mark) self.old }
    {
        let found = self.sees(mark);
        if found {
            self.skip();
        }
        found
    }

    /// Takes this mark.
    #[tactic(auto, unfolding(crate::specs::Parsers::expect))]
    pub fn expect(&mut self, mark: Mark) -> Result<Lexeme, ParseStop>
        ensures { Reads (spec.expect (Mark_ mark) self.old) result self.new }
    {
        if self.sees(mark) {
            self.token()
        } else {
            Err(self.refuse())
        }
    }

    /// Takes this keyword.
    #[tactic(auto, unfolding(crate::specs::Parsers::expect))]
    pub fn expect_keyword(&mut self, keyword: Keyword) -> Result<Lexeme, ParseStop>
        ensures { Reads (spec.expect (Keyword_ keyword) self.old) result self.new }
    {
        if self.sees_keyword(keyword) {
            self.token()
        } else {
            Err(self.refuse())
        }
    }

    /// Takes a name.
    #[tactic(auto, unfolding(crate::specs::Parsers::expect))]
    pub fn name(&mut self) -> Result<Lexeme, ParseStop>
        ensures { Reads (spec.expect Name self.old) result self.new }
    {
        if self.sees_name() {
            self.token()
        } else {
            Err(self.refuse())
        }
    }

    /// Takes a variable.
    #[tactic(auto, unfolding(crate::specs::Parsers::expect))]
    pub fn variable(&mut self) -> Result<Lexeme, ParseStop>
        ensures { Reads (spec.expect Variable self.old) result self.new }
    {
        if self.sees_variable() {
            self.token()
        } else {
            Err(self.refuse())
        }
    }

    /// Takes a name or a keyword.
    #[tactic(auto, unfolding(crate::specs::Parsers::expect))]
    pub fn word(&mut self) -> Result<Lexeme, ParseStop>
        ensures { Reads (spec.expect Word self.old) result self.new }
    {
        if self.sees_word() {
            self.token()
        } else {
            Err(self.refuse())
        }
    }

    /// Takes a key string.
    #[tactic(auto, unfolding(crate::specs::Parsers::expect))]
    pub fn key(&mut self) -> Result<Lexeme, ParseStop>
        ensures { Reads (spec.expect KeyText self.old) result self.new }
    {
        if self.sees_key() {
            self.token()
        } else {
            Err(self.refuse())
        }
    }
}

/// A place of the file as the trees of the declaration that starts at `start` have it (docs/script.md, Places).
fn relative(start: Place, at: Place) -> Place
    ensures { result ≡ input.relative start at }
{
    if at.line == start.line {
        Place {
            line: 0,
            column: at.column.saturating_sub(start.column),
        }
    } else {
        Place {
            line: at.line.saturating_sub(start.line),
            column: at.column,
        }
    }
}
