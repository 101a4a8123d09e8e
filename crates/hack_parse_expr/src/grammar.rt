// The rows of an expression take the parser of what counts as nesting in them as a parameter, so that each is proved by
// itself.
ghost use Rattle.hack_parse_expr.specs.Expressions as spec;
ghost use Rattle.hack_parse_expr.specs.Nesting.{Nests};
ghost use Rattle.hack_parse_expr.specs.Parsers.{Reads};

use crate::primary::begins_expression;
use crate::rows::Nested;
use crate::{Cursor, ParseStop};
use hack_tree::Expr;
use sqlite_items::Items;
use std::alloc::Global;

/// The rows of an expression.
#[derive(Clone, Copy)]
pub(crate) struct Grammar<F> {
    pub alloc: Global,
    /// How many rows that count as nesting may still be opened.
    pub depth: usize,
    pub nested: F,
}

/// An expression in which `depth` rows that count as nesting may be opened, itself among them.
pub fn expression(alloc: Global, cursor: &mut Cursor<'_>, depth: usize) -> Result<Expr, ParseStop>
    ensures { Reads (spec.expression_at depth cursor.old) result cursor.new }
{
    nested(alloc, cursor, depth, Nested::Expression)
}

/// Expressions with commas between them, and a last comma or none; `depth` rows that count as nesting may be opened.
pub fn expressions(
    alloc: Global,
    cursor: &mut Cursor<'_>,
    depth: usize,
) -> Result<Items<Expr>, ParseStop>
    ensures { Reads (spec.expressions depth (spec.nests depth) cursor.old) result cursor.new }
{
    Grammar {
        alloc,
        depth,
        nested,
    }
    .expressions(cursor)
}

/// The same with at least one.
pub fn expressions1(
    alloc: Global,
    cursor: &mut Cursor<'_>,
    depth: usize,
) -> Result<Items<Expr>, ParseStop>
    ensures { Reads (spec.expressions1 depth (spec.nests depth) cursor.old) result cursor.new }
{
    Grammar {
        alloc,
        depth,
        nested,
    }
    .expressions1(cursor)
}

/// An expression, where the next token begins one.
#[tactic(auto, unfolding(crate::specs::Expressions::expression_if_any))]
pub fn expression_if_any(
    alloc: Global,
    cursor: &mut Cursor<'_>,
    depth: usize,
) -> Result<Option<Expr>, ParseStop>
    ensures { Reads (spec.expression_if_any depth (spec.nests depth) cursor.old) result cursor.new }
{
    if begins_expression(cursor) {
        Ok(Some(expression(alloc, cursor, depth)?))
    } else {
        Ok(None)
    }
}

/// An operand with what stands behind it, in which `depth` rows that count as nesting may be opened.
pub fn postfix(alloc: Global, cursor: &mut Cursor<'_>, depth: usize) -> Result<Expr, ParseStop>
    ensures { Reads (spec.postfix depth (spec.nests depth) cursor.old) result cursor.new }
{
    Grammar {
        alloc,
        depth,
        nested,
    }
    .postfix(cursor)
}

/// Arguments in brackets, where a bracket comes next.
pub fn arguments_if_any(
    alloc: Global,
    cursor: &mut Cursor<'_>,
    depth: usize,
) -> Result<Option<Items<Expr>>, ParseStop>
    ensures { Reads (spec.arguments_if_any depth (spec.nests depth) cursor.old) result cursor.new }
{
    Grammar {
        alloc,
        depth,
        nested,
    }
    .arguments_if_any(cursor)
}

// What counts as nesting.
fn nested(
    alloc: Global,
    cursor: &mut Cursor<'_>,
    depth: usize,
    what: Nested,
) -> Result<Expr, ParseStop>
    ensures { Reads (spec.nests depth what cursor.old) result cursor.new }
{
    if depth == 0 {
        return Err(cursor.too_deep());
    }
    let grammar = Grammar {
        alloc,
        depth: depth - 1,
        nested,
    };
    match what {
        Nested::Expression => grammar.whole(cursor),
        Nested::Operated => grammar.operated(cursor),
    }
}

impl<F: Fn(Global, &mut Cursor<'_>, usize, Nested) -> Result<Expr, ParseStop>> Grammar<F> {
    /// An expression, which counts as nesting.
    pub fn expression(&self, cursor: &mut Cursor<'_>) -> Result<Expr, ParseStop>
        requires { Nests self.now.depth (F.pre self.now.nested) (F.post self.now.nested) }
        ensures { Reads (spec.nests self.now.depth Nested.Expression cursor.old) result cursor.new }
    {
        (self.nested)(self.alloc, cursor, self.depth, Nested::Expression)
    }

    /// An operator or a cast before its operand, which counts as nesting.
    pub fn operated_deeper(&self, cursor: &mut Cursor<'_>) -> Result<Expr, ParseStop>
        requires { Nests self.now.depth (F.pre self.now.nested) (F.post self.now.nested) }
        ensures { Reads (spec.nests self.now.depth Nested.Operated cursor.old) result cursor.new }
    {
        (self.nested)(self.alloc, cursor, self.depth, Nested::Operated)
    }
}
