// Types as they are written (docs/language.md, Types).
ghost use Rattle.std.specs.Prelude.{◌≡◌};
ghost use Rattle.hack_parse_expr.specs.Nesting.{NestsTypes};
ghost use Rattle.hack_parse_expr.specs.Parsers.{Reads};
ghost use Rattle.hack_parse_expr.specs.Rows.{begins_field};
ghost use Rattle.hack_parse_expr.specs.Types as spec;

use crate::rows::{TypeRow, type_row};
use crate::{Cursor, ParseStop};
use hack_lexer::Mark;
use hack_tree::{ClassType, Container, FieldType, WrittenType};
use sqlite_items::{Boxed, Items};
use std::alloc::Global;

// The rows of a type, each over the parser of the types in it, so that each is proved by itself.
#[derive(Clone, Copy)]
pub(crate) struct TypeGrammar<F> {
    alloc: Global,
    // how many rows that count as nesting may still be opened
    depth: usize,
    nested: F,
}

/// A type in which `depth` rows that count as nesting may be opened.
pub fn written_type(
    alloc: Global,
    cursor: &mut Cursor<'_>,
    depth: usize,
) -> Result<WrittenType, ParseStop>
    ensures { Reads (spec.written_type depth cursor.old) result cursor.new }
{
    if depth == 0 {
        return Err(if begins_type(cursor) {
            cursor.too_deep()
        } else {
            cursor.refuse()
        });
    }
    TypeGrammar {
        alloc,
        depth: depth - 1,
        nested: written_type,
    }
    .row(cursor)
}

/// A name with type arguments or without, in which `depth` rows that count as nesting may be opened.
pub fn class_type(
    alloc: Global,
    cursor: &mut Cursor<'_>,
    depth: usize,
) -> Result<ClassType, ParseStop>
    ensures { Reads (spec.named (spec.written_type depth) cursor.old) result cursor.new }
{
    TypeGrammar {
        alloc,
        depth,
        nested: written_type,
    }
    .named(cursor)
}

/// Type arguments, or none where no `<` comes next.
pub fn type_arguments(
    alloc: Global,
    cursor: &mut Cursor<'_>,
    depth: usize,
) -> Result<Items<WrittenType>, ParseStop>
    ensures { Reads (spec.arguments_if_any (spec.written_type depth) cursor.old) result cursor.new }
{
    TypeGrammar {
        alloc,
        depth,
        nested: written_type,
    }
    .arguments(cursor)
}

/// Whether the next token begins a type.
#[tactic(auto, unfolding(crate::specs::Types::begins_type))]
pub fn begins_type(cursor: &Cursor<'_>) -> bool
    ensures { result ≡ spec.begins_type cursor.now.left }
{
    type_row(cursor.kind()).is_some()
}

fn begins_field(cursor: &Cursor<'_>) -> bool
    ensures { result ≡ begins_field cursor.now.left }
{
    cursor.sees(Mark::Question) || cursor.sees_key()
}

impl<F: Fn(Global, &mut Cursor<'_>, usize) -> Result<WrittenType, ParseStop>> TypeGrammar<F> {
    fn nested(&self, cursor: &mut Cursor<'_>) -> Result<WrittenType, ParseStop>
        requires { NestsTypes self.now.depth (F.pre self.now.nested) (F.post self.now.nested) }
        ensures { Reads (spec.written_type self.now.depth cursor.old) result cursor.new }
    {
        (self.nested)(self.alloc, cursor, self.depth)
    }

    #[tactic(auto, unfolding(crate::specs::Types::type_row_read))]
    fn row(&self, cursor: &mut Cursor<'_>) -> Result<WrittenType, ParseStop>
        requires { NestsTypes self.now.depth (F.pre self.now.nested) (F.post self.now.nested) }
        ensures { Reads (spec.type_row_read (spec.written_type self.now.depth) cursor.old) result cursor.new }
    {
        match type_row(cursor.kind()) {
            Some(TypeRow::Optional) => self.optional(cursor),
            Some(TypeRow::Primitive(primitive)) => Ok(WrittenType::Primitive {
                at: cursor.token()?.at,
                primitive,
            }),
            Some(TypeRow::This) => Ok(WrittenType::This {
                at: cursor.token()?.at,
            }),
            Some(TypeRow::Container(container)) => self.container(cursor, container),
            Some(TypeRow::Dict) => self.dict(cursor),
            Some(TypeRow::Shape) => self.shape(cursor),
            Some(TypeRow::Class) => Ok(WrittenType::Class(self.named(cursor)?)),
            None => Err(cursor.refuse()),
        }
    }

    #[tactic(auto, unfolding(crate::specs::Types::optional))]
    fn optional(&self, cursor: &mut Cursor<'_>) -> Result<WrittenType, ParseStop>
        requires { NestsTypes self.now.depth (F.pre self.now.nested) (F.post self.now.nested) }
        ensures { Reads (spec.optional (spec.written_type self.now.depth) cursor.old) result cursor.new }
    {
        let at = cursor.token()?.at;
        let inner = Boxed::new(self.alloc, self.nested(cursor)?)?;
        Ok(WrittenType::Optional { at, inner })
    }

    #[tactic(auto, unfolding(crate::specs::Types::container))]
    fn container(
        &self,
        cursor: &mut Cursor<'_>,
        container: Container,
    ) -> Result<WrittenType, ParseStop>
        requires { NestsTypes self.now.depth (F.pre self.now.nested) (F.post self.now.nested) }
        ensures { Reads (spec.container (spec.written_type self.now.depth) container cursor.old) result cursor.new }
    {
        let at = cursor.token()?.at;
        cursor.expect(Mark::Less)?;
        let element = Boxed::new(self.alloc, self.nested(cursor)?)?;
        cursor.expect(Mark::Greater)?;
        Ok(WrittenType::Container {
            at,
            container,
            element,
        })
    }

    #[tactic(auto, unfolding(crate::specs::Types::dict))]
    fn dict(&self, cursor: &mut Cursor<'_>) -> Result<WrittenType, ParseStop>
        requires { NestsTypes self.now.depth (F.pre self.now.nested) (F.post self.now.nested) }
        ensures { Reads (spec.dict (spec.written_type self.now.depth) cursor.old) result cursor.new }
    {
        let at = cursor.token()?.at;
        cursor.expect(Mark::Less)?;
        let key = Boxed::new(self.alloc, self.nested(cursor)?)?;
        cursor.expect(Mark::Comma)?;
        let value = Boxed::new(self.alloc, self.nested(cursor)?)?;
        cursor.expect(Mark::Greater)?;
        Ok(WrittenType::Dict { at, key, value })
    }

    #[tactic(auto, unfolding(crate::specs::Types::shape))]
    fn shape(&self, cursor: &mut Cursor<'_>) -> Result<WrittenType, ParseStop>
        requires { NestsTypes self.now.depth (F.pre self.now.nested) (F.post self.now.nested) }
        ensures { Reads (spec.shape (spec.written_type self.now.depth) cursor.old) result cursor.new }
    {
        let at = cursor.token()?.at;
        cursor.expect(Mark::OpenParen)?;
        let (fields, open) = self.fields(cursor)?;
        cursor.expect(Mark::CloseParen)?;
        Ok(WrittenType::Shape { at, fields, open })
    }

    // The fields, and whether `...` stands last.
    #[tactic(auto, unfolding(crate::specs::Types::fields, crate::specs::Types::fields_from))]
    fn fields(&self, cursor: &mut Cursor<'_>) -> Result<(Items<FieldType>, bool), ParseStop>
        requires { NestsTypes self.now.depth (F.pre self.now.nested) (F.post self.now.nested) }
        ensures { Reads (spec.fields (spec.written_type self.now.depth) cursor.old) result cursor.new }
    {
        let mut found = Items::new(self.alloc);
        for _turn in 0..cursor.left() {
            if cursor.eat(Mark::Ellipsis) {
                return Ok((found, true));
            }
            if !begins_field(cursor) {
                return Ok((found, false));
            }
            found.push(self.field(cursor)?)?;
            if !cursor.eat(Mark::Comma) {
                return Ok((found, false));
            }
        }
        Ok((found, false))
    }

    #[tactic(auto, unfolding(crate::specs::Types::field))]
    fn field(&self, cursor: &mut Cursor<'_>) -> Result<FieldType, ParseStop>
        requires { NestsTypes self.now.depth (F.pre self.now.nested) (F.post self.now.nested) }
        ensures { Reads (spec.field (spec.written_type self.now.depth) cursor.old) result cursor.new }
    {
        let optional = cursor.eat(Mark::Question);
        let key = cursor.key()?;
        cursor.expect(Mark::FatArrow)?;
        let value = self.nested(cursor)?;
        Ok(FieldType {
            optional,
            key_at: key.at,
            key: key.name,
            value,
        })
    }

    #[tactic(auto, unfolding(crate::specs::Types::named))]
    fn named(&self, cursor: &mut Cursor<'_>) -> Result<ClassType, ParseStop>
        requires { NestsTypes self.now.depth (F.pre self.now.nested) (F.post self.now.nested) }
        ensures { Reads (spec.named (spec.written_type self.now.depth) cursor.old) result cursor.new }
    {
        let name = cursor.name()?;
        let arguments = self.arguments(cursor)?;
        Ok(ClassType {
            at: name.at,
            name: name.name,
            arguments,
        })
    }

    // Type arguments, or none where no `<` comes next.
    #[tactic(auto, unfolding(crate::specs::Types::arguments_if_any, crate::specs::Types::type_arguments, crate::specs::Parsers::expect, crate::specs::Parsers::token, crate::specs::Parsers::after, crate::specs::Parsers::next))]
    fn arguments(&self, cursor: &mut Cursor<'_>) -> Result<Items<WrittenType>, ParseStop>
        requires { NestsTypes self.now.depth (F.pre self.now.nested) (F.post self.now.nested) }
        ensures { Reads (spec.arguments_if_any (spec.written_type self.now.depth) cursor.old) result cursor.new }
    {
        if !cursor.eat(Mark::Less) {
            return Ok(Items::new(self.alloc));
        }
        let types = self.list(cursor)?;
        cursor.expect(Mark::Greater)?;
        Ok(types)
    }

    // One or more types with commas between them, and a last comma or none.
    #[tactic(auto, unfolding(crate::specs::Types::list1, crate::specs::Types::begins_type, crate::specs::Parsers::list_from))]
    fn list(&self, cursor: &mut Cursor<'_>) -> Result<Items<WrittenType>, ParseStop>
        requires { NestsTypes self.now.depth (F.pre self.now.nested) (F.post self.now.nested) }
        ensures { Reads (spec.list1 (spec.written_type self.now.depth) cursor.old) result cursor.new }
    {
        let mut found = Items::new(self.alloc);
        found.push(self.nested(cursor)?)?;
        if !cursor.eat(Mark::Comma) {
            return Ok(found);
        }
        for _turn in 0..cursor.left() {
            if !begins_type(cursor) {
                return Ok(found);
            }
            found.push(self.nested(cursor)?)?;
            if !cursor.eat(Mark::Comma) {
                return Ok(found);
            }
        }
        Ok(found)
    }
}
