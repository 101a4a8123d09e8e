// Operators and what stands behind operands (docs/language.md, Expressions).
ghost use Rattle.std.specs.Prelude.{◌≡◌, IfOk, Some};
ghost use Rattle.hack_parse_expr.specs.Expressions as spec;
ghost use Rattle.hack_parse_expr.specs.Nesting.{Nests};
ghost use Rattle.hack_parse_expr.specs.Parsers.{Reads};
ghost use Rattle.hack_parse_expr.specs.Rows as rows;

use crate::grammar::Grammar;
use crate::primary::{begins_expression, begins_operated};
use crate::rows::{
    Level, Nested, SuffixRow, UnaryRow, assign_operator, operator, suffix_row, test_operator,
    unary_row,
};
use crate::types::written_type;
use crate::{Cursor, ParseStop};
use hack_lexer::Mark;
use hack_tree::{Expr, Operand, Suffix, TypeTest};
use hack_types::Place;
use sqlite_items::{Boxed, Items};
use std::alloc::{AllocError, Global};

// A chain, or its first operand where no other stands behind it.
fn chain(alloc: Global, at: Place, first: Expr, others: Items<Operand>) -> Result<Expr, AllocError>
    ensures { IfOk result (λ tree. tree ≡ rows.chain at first others) }
{
    if others.is_empty() {
        return Ok(first);
    }
    let first = Boxed::new(alloc, first)?;
    Ok(Expr::Chain { at, first, others })
}

// An operand with its tests, or the operand where none stands behind it.
fn tested(
    alloc: Global,
    at: Place,
    operand: Expr,
    tests: Items<TypeTest>,
) -> Result<Expr, AllocError>
    ensures { IfOk result (λ tree. tree ≡ rows.tested at operand tests) }
{
    if tests.is_empty() {
        return Ok(operand);
    }
    let operand = Boxed::new(alloc, operand)?;
    Ok(Expr::Test { at, operand, tests })
}

// An operand with what stands behind it, or the operand where nothing does.
fn with_suffixes(
    alloc: Global,
    at: Place,
    operand: Expr,
    suffixes: Items<Suffix>,
) -> Result<Expr, AllocError>
    ensures { IfOk result (λ tree. tree ≡ rows.postfix at operand suffixes) }
{
    if suffixes.is_empty() {
        return Ok(operand);
    }
    let operand = Boxed::new(alloc, operand)?;
    Ok(Expr::Postfix {
        at,
        operand,
        suffixes,
    })
}

impl<F: Fn(Global, &mut Cursor<'_>, usize, Nested) -> Result<Expr, ParseStop>> Grammar<F> {
    /// An expression whose row is open.
    #[tactic(auto, unfolding(crate::specs::Expressions::whole))]
    pub fn whole(&self, cursor: &mut Cursor<'_>) -> Result<Expr, ParseStop>
        requires { Nests self.now.depth (F.pre self.now.nested) (F.post self.now.nested) }
        ensures { Reads (spec.whole self.now.depth (spec.nests self.now.depth) cursor.old) result cursor.new }
    {
        let at = cursor.place()?;
        let target = self.conditional(cursor)?;
        let Some(operator) = assign_operator(cursor.kind()) else {
            return Ok(target);
        };
        cursor.token()?;
        let target = Boxed::new(self.alloc, target)?;
        let value = Boxed::new(self.alloc, self.expression(cursor)?)?;
        Ok(Expr::Assign {
            at,
            target,
            operator,
            value,
        })
    }

    #[tactic(auto, unfolding(crate::specs::Expressions::conditional))]
    fn conditional(&self, cursor: &mut Cursor<'_>) -> Result<Expr, ParseStop>
        requires { Nests self.now.depth (F.pre self.now.nested) (F.post self.now.nested) }
        ensures { Reads (spec.conditional self.now.depth (spec.nests self.now.depth) cursor.old) result cursor.new }
    {
        let at = cursor.place()?;
        let condition = self.level(cursor, Level::Coalesce)?;
        if cursor.sees(Mark::Question) {
            self.branches(cursor, at, condition)
        } else {
            Ok(condition)
        }
    }

    // Behind the `?` of a conditional expression.
    #[tactic(auto, unfolding(crate::specs::Expressions::branches))]
    fn branches(
        &self,
        cursor: &mut Cursor<'_>,
        at: Place,
        condition: Expr,
    ) -> Result<Expr, ParseStop>
        requires { Nests self.now.depth (F.pre self.now.nested) (F.post self.now.nested) }
        ensures { Reads (spec.branches self.now.depth (spec.nests self.now.depth) at condition cursor.old) result cursor.new }
    {
        cursor.token()?;
        let condition = Boxed::new(self.alloc, condition)?;
        let middle = self.expression_if_any(cursor)?;
        cursor.expect(Mark::Colon)?;
        let other = Boxed::new(self.alloc, self.level(cursor, Level::Coalesce)?)?;
        Ok(Expr::Conditional {
            at,
            condition,
            middle,
            other,
        })
    }

    #[tactic(auto, unfolding(crate::specs::Expressions::expression_if_any))]
    fn expression_if_any(&self, cursor: &mut Cursor<'_>) -> Result<Option<Boxed<Expr>>, ParseStop>
        requires { Nests self.now.depth (F.pre self.now.nested) (F.post self.now.nested) }
        ensures { Reads (spec.expression_if_any self.now.depth (spec.nests self.now.depth) cursor.old) result cursor.new }
    {
        if begins_expression(cursor) {
            Ok(Some(Boxed::new(self.alloc, self.expression(cursor)?)?))
        } else {
            Ok(None)
        }
    }

    // Operands with operators of this level between them.
    #[cycle(levels)]
    fn level(&self, cursor: &mut Cursor<'_>, level: Level) -> Result<Expr, ParseStop>
        requires { Nests self.now.depth (F.pre self.now.nested) (F.post self.now.nested) }
        ensures { Reads (spec.level self.now.depth (spec.nests self.now.depth) level cursor.old) result cursor.new }
    {
        let at = cursor.place()?;
        let first = self.operand(cursor, level)?;
        let others = self.operations(cursor, level)?;
        Ok(chain(self.alloc, at, first, others)?)
    }

    // What stands between the operators of this level.
    #[cycle(levels)]
    fn operand(&self, cursor: &mut Cursor<'_>, level: Level) -> Result<Expr, ParseStop>
        requires { Nests self.now.depth (F.pre self.now.nested) (F.post self.now.nested) }
        ensures { Reads (spec.operand self.now.depth (spec.nests self.now.depth) level cursor.old) result cursor.new }
    {
        match level {
            Level::Coalesce => self.level(cursor, Level::Or),
            Level::Or => self.level(cursor, Level::And),
            Level::And => self.level(cursor, Level::BitOr),
            Level::BitOr => self.level(cursor, Level::BitXor),
            Level::BitXor => self.level(cursor, Level::BitAnd),
            Level::BitAnd => self.level(cursor, Level::Equality),
            Level::Equality => self.level(cursor, Level::Relation),
            Level::Relation => self.level(cursor, Level::Sum),
            Level::Sum => self.level(cursor, Level::Product),
            Level::Product => self.unary(cursor),
        }
    }

    // Operators of this level, each with the operand behind it.
    #[cycle(levels)]
    #[tactic(auto, unfolding(crate::specs::Expressions::operations, crate::specs::Expressions::further, crate::specs::Parsers::many_of, crate::specs::Parsers::many_from))]
    fn operations(&self, cursor: &mut Cursor<'_>, level: Level) -> Result<Items<Operand>, ParseStop>
        requires { Nests self.now.depth (F.pre self.now.nested) (F.post self.now.nested) }
        ensures { Reads (spec.operations self.now.depth (spec.nests self.now.depth) level (spec.operand self.now.depth (spec.nests self.now.depth) level) cursor.old) result cursor.new }
    {
        let mut found = Items::new(self.alloc);
        for _turn in 0..cursor.left() {
            let Some(operator) = operator(level, cursor.kind()) else {
                return Ok(found);
            };
            cursor.token()?;
            let operand = self.operand(cursor, level)?;
            found.push(Operand { operator, operand })?;
        }
        Ok(found)
    }

    #[tactic(auto, unfolding(crate::specs::Expressions::unary))]
    fn unary(&self, cursor: &mut Cursor<'_>) -> Result<Expr, ParseStop>
        requires { Nests self.now.depth (F.pre self.now.nested) (F.post self.now.nested) }
        ensures { Reads (spec.unary self.now.depth (spec.nests self.now.depth) cursor.old) result cursor.new }
    {
        if begins_operated(cursor) {
            self.operated_deeper(cursor)
        } else {
            self.operands(cursor)
        }
    }

    /// An operator or a cast before its operand, whose row is open.
    #[tactic(auto, unfolding(crate::specs::Expressions::operated))]
    pub fn operated(&self, cursor: &mut Cursor<'_>) -> Result<Expr, ParseStop>
        requires { Nests self.now.depth (F.pre self.now.nested) (F.post self.now.nested) }
        ensures { Reads (spec.operated self.now.depth (spec.nests self.now.depth) cursor.old) result cursor.new }
    {
        match unary_row(cursor.kind(), cursor.second_kind()) {
            Some(UnaryRow::Prefix(operator)) => {
                let at = cursor.token()?.at;
                let operand = Boxed::new(self.alloc, self.unary(cursor)?)?;
                Ok(Expr::Prefix {
                    at,
                    operator,
                    operand,
                })
            }
            Some(UnaryRow::Cast(to)) => {
                let at = cursor.token()?.at;
                cursor.token()?;
                cursor.expect(Mark::CloseParen)?;
                let operand = Boxed::new(self.alloc, self.unary(cursor)?)?;
                Ok(Expr::Cast { at, to, operand })
            }
            None => Err(cursor.refuse()),
        }
    }

    // An operand with its tests, and those that stand behind `**`.
    #[tactic(auto, unfolding(crate::specs::Expressions::operands))]
    fn operands(&self, cursor: &mut Cursor<'_>) -> Result<Expr, ParseStop>
        requires { Nests self.now.depth (F.pre self.now.nested) (F.post self.now.nested) }
        ensures { Reads (spec.operands self.now.depth (spec.nests self.now.depth) cursor.old) result cursor.new }
    {
        let at = cursor.place()?;
        let first = self.tested(cursor)?;
        if !cursor.sees(Mark::Power) {
            return Ok(first);
        }
        let operands = self.powers(cursor, first)?;
        Ok(Expr::Power { at, operands })
    }

    // The first operand of `**` and the others.
    #[tactic(auto, unfolding(crate::specs::Expressions::powers, crate::specs::Expressions::powers_from, crate::specs::Parsers::after))]
    fn powers(&self, cursor: &mut Cursor<'_>, first: Expr) -> Result<Items<Expr>, ParseStop>
        requires { Nests self.now.depth (F.pre self.now.nested) (F.post self.now.nested) }
        ensures { Reads (spec.powers self.now.depth (spec.nests self.now.depth) first cursor.old) result cursor.new }
    {
        let mut found = Items::new(self.alloc);
        found.push(first)?;
        for _turn in 0..cursor.left() {
            if !cursor.eat(Mark::Power) {
                return Ok(found);
            }
            if begins_operated(cursor) {
                found.push(self.operated_deeper(cursor)?)?;
                return Ok(found);
            }
            found.push(self.tested(cursor)?)?;
        }
        Ok(found)
    }

    #[tactic(auto, unfolding(crate::specs::Expressions::tested))]
    fn tested(&self, cursor: &mut Cursor<'_>) -> Result<Expr, ParseStop>
        requires { Nests self.now.depth (F.pre self.now.nested) (F.post self.now.nested) }
        ensures { Reads (spec.tested self.now.depth (spec.nests self.now.depth) cursor.old) result cursor.new }
    {
        let at = cursor.place()?;
        let operand = self.postfix(cursor)?;
        let tests = self.type_tests(cursor)?;
        Ok(tested(self.alloc, at, operand, tests)?)
    }

    #[tactic(auto, unfolding(crate::specs::Expressions::type_tests, crate::specs::Expressions::type_test, crate::specs::Parsers::many_of, crate::specs::Parsers::many_from))]
    fn type_tests(&self, cursor: &mut Cursor<'_>) -> Result<Items<TypeTest>, ParseStop>
        ensures { Reads (spec.type_tests self.now.depth (spec.nests self.now.depth) cursor.old) result cursor.new }
    {
        let mut found = Items::new(self.alloc);
        for _turn in 0..cursor.left() {
            let Some(operator) = test_operator(cursor.kind()) else {
                return Ok(found);
            };
            cursor.token()?;
            let tested = written_type(self.alloc, cursor, self.depth)?;
            found.push(TypeTest { operator, tested })?;
        }
        Ok(found)
    }

    /// An operand with its suffixes.
    #[tactic(auto, unfolding(crate::specs::Expressions::postfix))]
    pub fn postfix(&self, cursor: &mut Cursor<'_>) -> Result<Expr, ParseStop>
        requires { Nests self.now.depth (F.pre self.now.nested) (F.post self.now.nested) }
        ensures { Reads (spec.postfix self.now.depth (spec.nests self.now.depth) cursor.old) result cursor.new }
    {
        let at = cursor.place()?;
        let operand = self.primary(cursor)?;
        let suffixes = self.suffixes(cursor)?;
        Ok(with_suffixes(self.alloc, at, operand, suffixes)?)
    }

    #[tactic(auto, unfolding(crate::specs::Expressions::suffixes, crate::specs::Expressions::suffix, crate::specs::Parsers::many_of, crate::specs::Parsers::many_from))]
    fn suffixes(&self, cursor: &mut Cursor<'_>) -> Result<Items<Suffix>, ParseStop>
        requires { Nests self.now.depth (F.pre self.now.nested) (F.post self.now.nested) }
        ensures { Reads (spec.suffixes self.now.depth (spec.nests self.now.depth) cursor.old) result cursor.new }
    {
        let mut found = Items::new(self.alloc);
        for _turn in 0..cursor.left() {
            let Some(row) = suffix_row(cursor.kind()) else {
                return Ok(found);
            };
            found.push(self.suffix(cursor, row)?)?;
        }
        Ok(found)
    }

    fn suffix(&self, cursor: &mut Cursor<'_>, row: SuffixRow) -> Result<Suffix, ParseStop>
        requires { Nests self.now.depth (F.pre self.now.nested) (F.post self.now.nested) }
        ensures { Reads (spec.suffix_by self.now.depth (spec.nests self.now.depth) (Some row) cursor.old) result cursor.new }
    {
        match row {
            SuffixRow::Index => self.index(cursor),
            SuffixRow::Member => self.member(cursor, false),
            SuffixRow::NullMember => self.member(cursor, true),
            SuffixRow::Increment => {
                cursor.token()?;
                Ok(Suffix::Increment)
            }
            SuffixRow::Decrement => {
                cursor.token()?;
                Ok(Suffix::Decrement)
            }
        }
    }

    #[tactic(auto, unfolding(crate::specs::Expressions::index))]
    fn index(&self, cursor: &mut Cursor<'_>) -> Result<Suffix, ParseStop>
        requires { Nests self.now.depth (F.pre self.now.nested) (F.post self.now.nested) }
        ensures { Reads (spec.index self.now.depth (spec.nests self.now.depth) cursor.old) result cursor.new }
    {
        cursor.token()?;
        let index = self.expression_if_any(cursor)?;
        cursor.expect(Mark::CloseBracket)?;
        Ok(Suffix::Index { index })
    }

    #[tactic(auto, unfolding(crate::specs::Expressions::member))]
    fn member(&self, cursor: &mut Cursor<'_>, null_safe: bool) -> Result<Suffix, ParseStop>
        requires { Nests self.now.depth (F.pre self.now.nested) (F.post self.now.nested) }
        ensures { Reads (spec.member self.now.depth (spec.nests self.now.depth) null_safe cursor.old) result cursor.new }
    {
        cursor.token()?;
        let name = cursor.word()?.name;
        let arguments = self.arguments_if_any(cursor)?;
        Ok(Suffix::Member {
            null_safe,
            name,
            arguments,
        })
    }
}
