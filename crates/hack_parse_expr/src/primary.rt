// Operands (docs/language.md, Expressions).
ghost use Rattle.std.specs.Prelude.{◌≡◌};
ghost use Rattle.hack_parse_expr.specs.Decides.{class_word as class_word_of};
ghost use Rattle.hack_parse_expr.specs.Expressions as spec;
ghost use Rattle.hack_parse_expr.specs.Nesting.{Nests};
ghost use Rattle.hack_parse_expr.specs.Parsers.{Reads};
ghost use Rattle.hack_parse_expr.specs.Rows as rows;

use crate::grammar::Grammar;
use crate::rows::{ClassWord, Nested, PrimaryRow, class_word, primary_row, unary_row};
use crate::types::type_arguments;
use crate::{Cursor, Lexeme, ParseStop};
use hack_lexer::{Keyword, Mark, TokenKind};
use hack_tree::{
    ClassReference, Container, Entry, Expr, FieldValue, Literal, ScopedMember, WrittenType,
};
use hack_types::Place;
use sqlite_items::{Boxed, Items};
use std::alloc::Global;

/// Whether the next token begins an expression.
pub(crate) fn begins_expression(cursor: &Cursor<'_>) -> bool
    ensures { result ≡ rows.begins_expression cursor.now.left }
{
    begins_operated(cursor) || primary_row(cursor.kind()).is_some()
}

/// Whether an operator or a cast before its operand comes next.
pub(crate) fn begins_operated(cursor: &Cursor<'_>) -> bool
    ensures { result ≡ spec.begins_operated cursor.now.left }
{
    unary_row(cursor.kind(), cursor.second_kind()).is_some()
}

fn reference_of(word: ClassWord) -> ClassReference
    ensures { result ≡ rows.reference_of word }
{
    match word {
        ClassWord::Self_ => ClassReference::Self_,
        ClassWord::Static => ClassReference::Static,
        ClassWord::Parent => ClassReference::Parent,
    }
}

#[tactic(auto, unfolding(crate::specs::Expressions::literal_read))]
fn literal(cursor: &mut Cursor<'_>, literal: Literal) -> Result<Expr, ParseStop>
    ensures { Reads (spec.literal_read literal cursor.old) result cursor.new }
{
    let at = cursor.token()?.at;
    Ok(Expr::Literal { at, literal })
}

#[tactic(auto, unfolding(crate::specs::Expressions::key_text))]
fn key_text(cursor: &mut Cursor<'_>) -> Result<Expr, ParseStop>
    ensures { Reads (spec.key_text cursor.old) result cursor.new }
{
    let token = cursor.token()?;
    Ok(Expr::Literal {
        at: token.at,
        literal: Literal::KeyText(token.name),
    })
}

#[tactic(auto, unfolding(crate::specs::Expressions::variable))]
fn variable(cursor: &mut Cursor<'_>) -> Result<Expr, ParseStop>
    ensures { Reads (spec.variable cursor.old) result cursor.new }
{
    let token = cursor.token()?;
    Ok(Expr::Variable {
        at: token.at,
        name: token.name,
    })
}

#[tactic(auto, unfolding(crate::specs::Expressions::this))]
fn this(cursor: &mut Cursor<'_>) -> Result<Expr, ParseStop>
    ensures { Reads (spec.this cursor.old) result cursor.new }
{
    let at = cursor.token()?.at;
    Ok(Expr::This { at })
}

impl<F: Fn(Global, &mut Cursor<'_>, usize, Nested) -> Result<Expr, ParseStop>> Grammar<F> {
    /// An operand without what may stand before it and behind it.
    #[tactic(auto, unfolding(crate::specs::Expressions::primary))]
    pub fn primary(&self, cursor: &mut Cursor<'_>) -> Result<Expr, ParseStop>
        requires { Nests self.now.depth (F.pre self.now.nested) (F.post self.now.nested) }
        ensures { Reads (spec.primary self.now.depth (spec.nests self.now.depth) cursor.old) result cursor.new }
    {
        match primary_row(cursor.kind()) {
            Some(PrimaryRow::Bracket) => self.bracketed(cursor),
            Some(PrimaryRow::Int) => literal(cursor, Literal::Int),
            Some(PrimaryRow::Float) => literal(cursor, Literal::Float),
            Some(PrimaryRow::Text) => literal(cursor, Literal::Text),
            Some(PrimaryRow::KeyText) => key_text(cursor),
            Some(PrimaryRow::True) => literal(cursor, Literal::True),
            Some(PrimaryRow::False) => literal(cursor, Literal::False),
            Some(PrimaryRow::Null) => literal(cursor, Literal::Null),
            Some(PrimaryRow::Variable) => variable(cursor),
            Some(PrimaryRow::This) => this(cursor),
            Some(PrimaryRow::Name) => self.name(cursor),
            Some(PrimaryRow::ClassWord(word)) => self.scoped_word(cursor, word),
            Some(PrimaryRow::New) => self.new_object(cursor),
            Some(PrimaryRow::Container(container)) => self.container(cursor, container),
            Some(PrimaryRow::Dict) => self.dict(cursor),
            Some(PrimaryRow::Shape) => self.shape(cursor),
            None => Err(cursor.refuse()),
        }
    }

    #[tactic(auto, unfolding(crate::specs::Expressions::bracketed))]
    fn bracketed(&self, cursor: &mut Cursor<'_>) -> Result<Expr, ParseStop>
        requires { Nests self.now.depth (F.pre self.now.nested) (F.post self.now.nested) }
        ensures { Reads (spec.bracketed self.now.depth (spec.nests self.now.depth) cursor.old) result cursor.new }
    {
        let at = cursor.token()?.at;
        let inner = Boxed::new(self.alloc, self.expression(cursor)?)?;
        cursor.expect(Mark::CloseParen)?;
        Ok(Expr::Bracketed { at, inner })
    }

    // A name with what may stand behind it: arguments, or `::` and a member.
    #[tactic(auto, unfolding(crate::specs::Expressions::name))]
    fn name(&self, cursor: &mut Cursor<'_>) -> Result<Expr, ParseStop>
        requires { Nests self.now.depth (F.pre self.now.nested) (F.post self.now.nested) }
        ensures { Reads (spec.name self.now.depth (spec.nests self.now.depth) cursor.old) result cursor.new }
    {
        let name = cursor.token()?;
        self.behind_name(cursor, name)
    }

    #[tactic(auto, unfolding(crate::specs::Expressions::behind_name, crate::specs::Parsers::token, crate::specs::Parsers::after, crate::specs::Parsers::next))]
    fn behind_name(&self, cursor: &mut Cursor<'_>, name: Lexeme) -> Result<Expr, ParseStop>
        requires { Nests self.now.depth (F.pre self.now.nested) (F.post self.now.nested) }
        ensures { Reads (spec.behind_name self.now.depth (spec.nests self.now.depth) name cursor.old) result cursor.new }
    {
        if cursor.sees(Mark::OpenParen) {
            return Ok(Expr::Call {
                at: name.at,
                name: name.name,
                arguments: self.arguments(cursor)?,
            });
        }
        if cursor.eat(Mark::ColonColon) {
            return Ok(Expr::Scoped {
                at: name.at,
                class: ClassReference::Named(name.name),
                member: self.scoped_member(cursor)?,
            });
        }
        Ok(Expr::Constant {
            at: name.at,
            name: name.name,
        })
    }

    #[tactic(auto, unfolding(crate::specs::Expressions::scoped_word))]
    fn scoped_word(&self, cursor: &mut Cursor<'_>, word: ClassWord) -> Result<Expr, ParseStop>
        requires { Nests self.now.depth (F.pre self.now.nested) (F.post self.now.nested) }
        ensures { Reads (spec.scoped_word self.now.depth (spec.nests self.now.depth) word cursor.old) result cursor.new }
    {
        let at = cursor.token()?.at;
        cursor.expect(Mark::ColonColon)?;
        let member = self.scoped_member(cursor)?;
        Ok(Expr::Scoped {
            at,
            class: reference_of(word),
            member,
        })
    }

    #[tactic(auto, unfolding(crate::specs::Expressions::scoped_member))]
    fn scoped_member(&self, cursor: &mut Cursor<'_>) -> Result<ScopedMember, ParseStop>
        requires { Nests self.now.depth (F.pre self.now.nested) (F.post self.now.nested) }
        ensures { Reads (spec.scoped_member self.now.depth (spec.nests self.now.depth) cursor.old) result cursor.new }
    {
        if cursor.sees_variable() {
            let name = cursor.token()?.name;
            return Ok(ScopedMember::Property { name });
        }
        let name = cursor.word()?.name;
        let arguments = self.arguments_if_any(cursor)?;
        Ok(ScopedMember::Word { name, arguments })
    }

    #[tactic(auto, unfolding(crate::specs::Expressions::new))]
    fn new_object(&self, cursor: &mut Cursor<'_>) -> Result<Expr, ParseStop>
        requires { Nests self.now.depth (F.pre self.now.nested) (F.post self.now.nested) }
        ensures { Reads (spec.new self.now.depth (spec.nests self.now.depth) cursor.old) result cursor.new }
    {
        let at = cursor.token()?.at;
        let (class_at, class, type_arguments) = self.new_class(cursor)?;
        let arguments = self.arguments(cursor)?;
        Ok(Expr::New {
            at,
            class_at,
            class,
            type_arguments,
            arguments,
        })
    }

    // What stands behind `new`: its place, the class and the type arguments.
    #[tactic(auto, unfolding(crate::specs::Expressions::new_class))]
    fn new_class(
        &self,
        cursor: &mut Cursor<'_>,
    ) -> Result<(Place, ClassReference, Items<WrittenType>), ParseStop>
        ensures { Reads (spec.new_class self.now.depth (spec.nests self.now.depth) cursor.old) result cursor.new }
    {
        match cursor.kind() {
            Some(TokenKind::Name) => {
                let token = cursor.token()?;
                let types = type_arguments(self.alloc, cursor, self.depth)?;
                Ok((token.at, ClassReference::Named(token.name), types))
            }
            Some(TokenKind::Keyword(keyword)) => self.new_word(cursor, keyword),
            _ => Err(cursor.refuse()),
        }
    }

    fn new_word(
        &self,
        cursor: &mut Cursor<'_>,
        keyword: Keyword,
    ) -> Result<(Place, ClassReference, Items<WrittenType>), ParseStop>
        ensures { Reads (spec.new_word self.now.depth (spec.nests self.now.depth) (class_word_of keyword) cursor.old) result cursor.new }
    {
        let Some(word) = class_word(keyword) else {
            return Err(cursor.refuse());
        };
        let at = cursor.token()?.at;
        Ok((at, reference_of(word), Items::new(self.alloc)))
    }

    #[tactic(auto, unfolding(crate::specs::Expressions::container))]
    fn container(&self, cursor: &mut Cursor<'_>, container: Container) -> Result<Expr, ParseStop>
        requires { Nests self.now.depth (F.pre self.now.nested) (F.post self.now.nested) }
        ensures { Reads (spec.container self.now.depth (spec.nests self.now.depth) container cursor.old) result cursor.new }
    {
        let at = cursor.token()?.at;
        cursor.expect(Mark::OpenBracket)?;
        let elements = self.expressions(cursor)?;
        cursor.expect(Mark::CloseBracket)?;
        Ok(Expr::Container {
            at,
            container,
            elements,
        })
    }

    #[tactic(auto, unfolding(crate::specs::Expressions::dict))]
    fn dict(&self, cursor: &mut Cursor<'_>) -> Result<Expr, ParseStop>
        requires { Nests self.now.depth (F.pre self.now.nested) (F.post self.now.nested) }
        ensures { Reads (spec.dict self.now.depth (spec.nests self.now.depth) cursor.old) result cursor.new }
    {
        let at = cursor.token()?.at;
        cursor.expect(Mark::OpenBracket)?;
        let entries = self.entries(cursor)?;
        cursor.expect(Mark::CloseBracket)?;
        Ok(Expr::Dict { at, entries })
    }

    #[tactic(auto, unfolding(crate::specs::Expressions::shape))]
    fn shape(&self, cursor: &mut Cursor<'_>) -> Result<Expr, ParseStop>
        requires { Nests self.now.depth (F.pre self.now.nested) (F.post self.now.nested) }
        ensures { Reads (spec.shape self.now.depth (spec.nests self.now.depth) cursor.old) result cursor.new }
    {
        let at = cursor.token()?.at;
        cursor.expect(Mark::OpenParen)?;
        let fields = self.field_values(cursor)?;
        cursor.expect(Mark::CloseParen)?;
        Ok(Expr::Shape { at, fields })
    }
}
