// Lists in brackets (docs/language.md, Expressions).
ghost use Rattle.hack_parse_expr.specs.Expressions as spec;
ghost use Rattle.hack_parse_expr.specs.Nesting.{Nests};
ghost use Rattle.hack_parse_expr.specs.Parsers.{Reads};

use crate::grammar::Grammar;
use crate::primary::begins_expression;
use crate::rows::Nested;
use crate::{Cursor, ParseStop};
use hack_lexer::Mark;
use hack_tree::{Entry, Expr, FieldValue};
use sqlite_items::Items;
use std::alloc::Global;

impl<F: Fn(Global, &mut Cursor<'_>, usize, Nested) -> Result<Expr, ParseStop>> Grammar<F> {
    /// Expressions with commas between them, and a last comma or none.
    #[tactic(auto, unfolding(crate::specs::Expressions::expressions, crate::specs::Parsers::list_of, crate::specs::Parsers::list_from))]
    pub fn expressions(&self, cursor: &mut Cursor<'_>) -> Result<Items<Expr>, ParseStop>
        requires { Nests self.now.depth (F.pre self.now.nested) (F.post self.now.nested) }
        ensures { Reads (spec.expressions self.now.depth (spec.nests self.now.depth) cursor.old) result cursor.new }
    {
        let mut found = Items::new(self.alloc);
        for _turn in 0..cursor.left() {
            if !begins_expression(cursor) {
                return Ok(found);
            }
            found.push(self.expression(cursor)?)?;
            if !cursor.eat(Mark::Comma) {
                return Ok(found);
            }
        }
        Ok(found)
    }

    /// The same with at least one.
    #[tactic(auto, unfolding(crate::specs::Expressions::expressions1, crate::specs::Parsers::list_from))]
    pub fn expressions1(&self, cursor: &mut Cursor<'_>) -> Result<Items<Expr>, ParseStop>
        requires { Nests self.now.depth (F.pre self.now.nested) (F.post self.now.nested) }
        ensures { Reads (spec.expressions1 self.now.depth (spec.nests self.now.depth) cursor.old) result cursor.new }
    {
        let mut found = Items::new(self.alloc);
        found.push(self.expression(cursor)?)?;
        if !cursor.eat(Mark::Comma) {
            return Ok(found);
        }
        for _turn in 0..cursor.left() {
            if !begins_expression(cursor) {
                return Ok(found);
            }
            found.push(self.expression(cursor)?)?;
            if !cursor.eat(Mark::Comma) {
                return Ok(found);
            }
        }
        Ok(found)
    }

    /// The entries of a `dict`.
    #[tactic(auto, unfolding(crate::specs::Expressions::entries, crate::specs::Parsers::list_of, crate::specs::Parsers::list_from))]
    pub fn entries(&self, cursor: &mut Cursor<'_>) -> Result<Items<Entry>, ParseStop>
        requires { Nests self.now.depth (F.pre self.now.nested) (F.post self.now.nested) }
        ensures { Reads (spec.entries self.now.depth (spec.nests self.now.depth) cursor.old) result cursor.new }
    {
        let mut found = Items::new(self.alloc);
        for _turn in 0..cursor.left() {
            if !begins_expression(cursor) {
                return Ok(found);
            }
            found.push(self.entry(cursor)?)?;
            if !cursor.eat(Mark::Comma) {
                return Ok(found);
            }
        }
        Ok(found)
    }

    #[tactic(auto, unfolding(crate::specs::Expressions::entry))]
    fn entry(&self, cursor: &mut Cursor<'_>) -> Result<Entry, ParseStop>
        requires { Nests self.now.depth (F.pre self.now.nested) (F.post self.now.nested) }
        ensures { Reads (spec.entry self.now.depth (spec.nests self.now.depth) cursor.old) result cursor.new }
    {
        let key = self.expression(cursor)?;
        cursor.expect(Mark::FatArrow)?;
        let value = self.expression(cursor)?;
        Ok(Entry { key, value })
    }

    /// The fields of a `shape`.
    #[tactic(auto, unfolding(crate::specs::Expressions::field_values, crate::specs::Parsers::list_of, crate::specs::Parsers::list_from))]
    pub fn field_values(&self, cursor: &mut Cursor<'_>) -> Result<Items<FieldValue>, ParseStop>
        requires { Nests self.now.depth (F.pre self.now.nested) (F.post self.now.nested) }
        ensures { Reads (spec.field_values self.now.depth (spec.nests self.now.depth) cursor.old) result cursor.new }
    {
        let mut found = Items::new(self.alloc);
        for _turn in 0..cursor.left() {
            if !cursor.sees_key() {
                return Ok(found);
            }
            found.push(self.field_value(cursor)?)?;
            if !cursor.eat(Mark::Comma) {
                return Ok(found);
            }
        }
        Ok(found)
    }

    #[tactic(auto, unfolding(crate::specs::Expressions::field_value))]
    fn field_value(&self, cursor: &mut Cursor<'_>) -> Result<FieldValue, ParseStop>
        requires { Nests self.now.depth (F.pre self.now.nested) (F.post self.now.nested) }
        ensures { Reads (spec.field_value self.now.depth (spec.nests self.now.depth) cursor.old) result cursor.new }
    {
        let key = cursor.key()?;
        cursor.expect(Mark::FatArrow)?;
        let value = self.expression(cursor)?;
        Ok(FieldValue {
            key_at: key.at,
            key: key.name,
            value,
        })
    }

    /// Arguments in brackets.
    #[tactic(auto, unfolding(crate::specs::Expressions::arguments))]
    pub fn arguments(&self, cursor: &mut Cursor<'_>) -> Result<Items<Expr>, ParseStop>
        requires { Nests self.now.depth (F.pre self.now.nested) (F.post self.now.nested) }
        ensures { Reads (spec.arguments self.now.depth (spec.nests self.now.depth) cursor.old) result cursor.new }
    {
        cursor.expect(Mark::OpenParen)?;
        let found = self.expressions(cursor)?;
        cursor.expect(Mark::CloseParen)?;
        Ok(found)
    }

    /// Arguments in brackets, where a bracket comes next.
    #[tactic(auto, unfolding(crate::specs::Expressions::arguments_if_any))]
    pub fn arguments_if_any(
        &self,
        cursor: &mut Cursor<'_>,
    ) -> Result<Option<Items<Expr>>, ParseStop>
        requires { Nests self.now.depth (F.pre self.now.nested) (F.post self.now.nested) }
        ensures { Reads (spec.arguments_if_any self.now.depth (spec.nests self.now.depth) cursor.old) result cursor.new }
    {
        if cursor.sees(Mark::OpenParen) {
            Ok(Some(self.arguments(cursor)?))
        } else {
            Ok(None)
        }
    }
}
