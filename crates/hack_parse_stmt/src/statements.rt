// Statements (docs/language.md, Statements).
ghost use Rattle.std.specs.Prelude.{◌≡◌};
ghost use Rattle.hack_parse_expr.specs.Parsers.{Reads};
ghost use Rattle.hack_parse_stmt.specs.Nesting.{NestsStatements};
ghost use Rattle.hack_parse_stmt.specs.Statements as spec;

use hack_lexer::{Keyword, Mark};
use hack_parse_expr::{
    Cursor, ParseStop, StatementRow, beside, class_type, closed, expression, expression_if_any,
    expressions, expressions1, postfix, statement_row,
};
use hack_tree::{Case, Catch, ClassType, DeclaredName, Expr, Stmt};
use sqlite_items::{Boxed, Items};
use std::alloc::Global;

// The rows of a statement, each over the parser of the statements in it, so that each is proved by itself.
#[derive(Clone, Copy)]
pub(crate) struct StatementGrammar<F> {
    alloc: Global,
    // how many rows that count as nesting may still be opened
    depth: usize,
    nested: F,
}

// What stands in the brackets of a `for`.
#[derive(Drop)]
struct ForHead {
    start: Items<Expr>,
    condition: Option<Expr>,
    step: Items<Expr>,
}

// What stands in the brackets of a catch.
#[derive(Drop)]
struct CatchHead {
    class: ClassType,
    variable: DeclaredName,
}

/// A statement in which `depth` rows that count as nesting may be opened, itself among them.
pub fn statement(alloc: Global, cursor: &mut Cursor<'_>, depth: usize) -> Result<Stmt, ParseStop>
    ensures { Reads (spec.statement depth cursor.old) result cursor.new }
{
    if depth == 0 {
        return Err(if begins_statement(cursor) {
            cursor.too_deep()
        } else {
            cursor.refuse()
        });
    }
    StatementGrammar {
        alloc,
        depth: depth - 1,
        nested: statement,
    }
    .statement_read(cursor)
}

/// Statements in braces, in which `depth` rows that count as nesting may be opened.
pub fn block(alloc: Global, cursor: &mut Cursor<'_>, depth: usize) -> Result<Items<Stmt>, ParseStop>
    ensures { Reads (spec.block depth (spec.statement depth) cursor.old) result cursor.new }
{
    StatementGrammar {
        alloc,
        depth,
        nested: statement,
    }
    .block(cursor)
}

pub(crate) fn begins_statement(cursor: &Cursor<'_>) -> bool
    ensures { result ≡ spec.begins_statement cursor.now.left }
{
    statement_row(cursor.kind(), cursor.second_kind()).is_some()
}

pub(crate) fn begins_case(cursor: &Cursor<'_>) -> bool
    ensures { result ≡ spec.begins_case cursor.now.left }
{
    cursor.sees_keyword(Keyword::Case) || cursor.sees_keyword(Keyword::Default)
}

pub(crate) fn variable(cursor: &mut Cursor<'_>) -> Result<DeclaredName, ParseStop>
    ensures { Reads (spec.variable cursor.old) result cursor.new }
{
    let token = cursor.variable()?;
    Ok(DeclaredName {
        at: token.at,
        name: token.name,
    })
}

// The variables of a `foreach`.
#[tactic(auto, unfolding(crate::specs::Statements::variables))]
pub(crate) fn variables(
    cursor: &mut Cursor<'_>,
) -> Result<(Option<DeclaredName>, DeclaredName), ParseStop>
    ensures { Reads (spec.variables cursor.old) result cursor.new }
{
    let first = variable(cursor)?;
    if !cursor.sees(Mark::FatArrow) {
        return Ok((None, first));
    }
    cursor.token()?;
    let second = variable(cursor)?;
    Ok((Some(first), second))
}

// They and the bracket behind them.
#[tactic(auto, unfolding(crate::specs::Statements::variables_closed))]
fn variables_closed(
    cursor: &mut Cursor<'_>,
) -> Result<(Option<DeclaredName>, DeclaredName), ParseStop>
    ensures { Reads (spec.variables_closed cursor.old) result cursor.new }
{
    let found = variables(cursor)?;
    closed(cursor, Mark::CloseParen, found)
}

// An expression in brackets.
#[tactic(auto, unfolding(crate::specs::Statements::bracketed))]
fn bracketed(alloc: Global, cursor: &mut Cursor<'_>, depth: usize) -> Result<Expr, ParseStop>
    ensures { Reads (spec.bracketed depth cursor.old) result cursor.new }
{
    cursor.expect(Mark::OpenParen)?;
    let inner = expression(alloc, cursor, depth)?;
    closed(cursor, Mark::CloseParen, inner)
}

// An expression that may stand, and `;`.
#[tactic(auto, unfolding(crate::specs::Statements::value_if_any))]
fn value_if_any(
    alloc: Global,
    cursor: &mut Cursor<'_>,
    depth: usize,
) -> Result<Option<Expr>, ParseStop>
    ensures { Reads (spec.value_if_any depth cursor.old) result cursor.new }
{
    let value = expression_if_any(alloc, cursor, depth)?;
    closed(cursor, Mark::Semicolon, value)
}

// Expressions, and this mark behind them.
#[tactic(auto, unfolding(crate::specs::Statements::expressions_to))]
fn expressions_to(
    alloc: Global,
    cursor: &mut Cursor<'_>,
    depth: usize,
    mark: Mark,
) -> Result<Items<Expr>, ParseStop>
    ensures { Reads (spec.expressions_to depth mark cursor.old) result cursor.new }
{
    let found = expressions(alloc, cursor, depth)?;
    closed(cursor, mark, found)
}

// The brackets of a `for`.
#[tactic(auto, unfolding(crate::specs::Statements::for_head))]
fn for_head(alloc: Global, cursor: &mut Cursor<'_>, depth: usize) -> Result<ForHead, ParseStop>
    ensures { Reads (spec.for_head depth cursor.old) result cursor.new }
{
    cursor.expect(Mark::OpenParen)?;
    let start = expressions_to(alloc, cursor, depth, Mark::Semicolon)?;
    let (start, condition) = beside(start, value_if_any(alloc, cursor, depth))?;
    let step = expressions_to(alloc, cursor, depth, Mark::CloseParen);
    let ((start, condition), step) = beside((start, condition), step)?;
    Ok(ForHead {
        start,
        condition,
        step,
    })
}

// What a `foreach` goes over, and `as`.
#[tactic(auto, unfolding(crate::specs::Statements::foreach_subject))]
fn foreach_subject(alloc: Global, cursor: &mut Cursor<'_>, depth: usize) -> Result<Expr, ParseStop>
    ensures { Reads (spec.foreach_subject depth cursor.old) result cursor.new }
{
    cursor.expect(Mark::OpenParen)?;
    let subject = postfix(alloc, cursor, depth)?;
    let (subject, _as) = beside(subject, cursor.expect_keyword(Keyword::As))?;
    Ok(subject)
}

// What stands behind the statement of a `do`.
#[tactic(auto, unfolding(crate::specs::Statements::do_condition))]
fn do_condition(alloc: Global, cursor: &mut Cursor<'_>, depth: usize) -> Result<Expr, ParseStop>
    ensures { Reads (spec.do_condition depth cursor.old) result cursor.new }
{
    cursor.expect_keyword(Keyword::While)?;
    let condition = bracketed(alloc, cursor, depth)?;
    closed(cursor, Mark::Semicolon, condition)
}

// The class and the variable of a catch, in brackets.
#[tactic(auto, unfolding(crate::specs::Statements::catch_head))]
fn catch_head(alloc: Global, cursor: &mut Cursor<'_>, depth: usize) -> Result<CatchHead, ParseStop>
    ensures { Reads (spec.catch_head depth cursor.old) result cursor.new }
{
    cursor.expect(Mark::OpenParen)?;
    let class = class_type(alloc, cursor, depth)?;
    let (class, variable) = beside(class, variable(cursor))?;
    closed(cursor, Mark::CloseParen, CatchHead { class, variable })
}

#[tactic(auto, unfolding(crate::specs::Statements::empty_statement))]
fn empty(cursor: &mut Cursor<'_>) -> Result<Stmt, ParseStop>
    ensures { Reads (spec.empty_statement cursor.old) result cursor.new }
{
    let at = cursor.token()?.at;
    Ok(Stmt::Empty { at })
}

#[tactic(auto, unfolding(crate::specs::Statements::return_statement))]
fn return_statement(alloc: Global, cursor: &mut Cursor<'_>, depth: usize) -> Result<Stmt, ParseStop>
    ensures { Reads (spec.return_statement depth cursor.old) result cursor.new }
{
    let at = cursor.token()?.at;
    let value = value_if_any(alloc, cursor, depth)?;
    Ok(Stmt::Return { at, value })
}

#[tactic(auto, unfolding(crate::specs::Statements::throw_statement))]
fn throw_statement(alloc: Global, cursor: &mut Cursor<'_>, depth: usize) -> Result<Stmt, ParseStop>
    ensures { Reads (spec.throw_statement depth cursor.old) result cursor.new }
{
    let at = cursor.token()?.at;
    let value = expression(alloc, cursor, depth)?;
    closed(cursor, Mark::Semicolon, Stmt::Throw { at, value })
}

#[tactic(auto, unfolding(crate::specs::Statements::break_statement))]
fn break_statement(cursor: &mut Cursor<'_>) -> Result<Stmt, ParseStop>
    ensures { Reads (spec.break_statement cursor.old) result cursor.new }
{
    let at = cursor.token()?.at;
    closed(cursor, Mark::Semicolon, Stmt::Break { at })
}

#[tactic(auto, unfolding(crate::specs::Statements::continue_statement))]
fn continue_statement(cursor: &mut Cursor<'_>) -> Result<Stmt, ParseStop>
    ensures { Reads (spec.continue_statement cursor.old) result cursor.new }
{
    let at = cursor.token()?.at;
    closed(cursor, Mark::Semicolon, Stmt::Continue { at })
}

#[tactic(auto, unfolding(crate::specs::Statements::echo_statement))]
fn echo_statement(alloc: Global, cursor: &mut Cursor<'_>, depth: usize) -> Result<Stmt, ParseStop>
    ensures { Reads (spec.echo_statement depth cursor.old) result cursor.new }
{
    let at = cursor.token()?.at;
    let values = expressions1(alloc, cursor, depth)?;
    closed(cursor, Mark::Semicolon, Stmt::Echo { at, values })
}

#[tactic(auto, unfolding(crate::specs::Statements::expression_statement))]
fn expression_statement(
    alloc: Global,
    cursor: &mut Cursor<'_>,
    depth: usize,
) -> Result<Stmt, ParseStop>
    ensures { Reads (spec.expression_statement depth cursor.old) result cursor.new }
{
    let at = cursor.place()?;
    let expression = expression(alloc, cursor, depth)?;
    closed(cursor, Mark::Semicolon, Stmt::Expression { at, expression })
}

impl<F: Fn(Global, &mut Cursor<'_>, usize) -> Result<Stmt, ParseStop>> StatementGrammar<F> {
    fn nested(&self, cursor: &mut Cursor<'_>) -> Result<Stmt, ParseStop>
        requires { NestsStatements self.now.depth (F.pre self.now.nested) (F.post self.now.nested) }
        ensures { Reads (spec.statement self.now.depth cursor.old) result cursor.new }
    {
        (self.nested)(self.alloc, cursor, self.depth)
    }

    fn nested_boxed(&self, cursor: &mut Cursor<'_>) -> Result<Boxed<Stmt>, ParseStop>
        requires { NestsStatements self.now.depth (F.pre self.now.nested) (F.post self.now.nested) }
        ensures { Reads (spec.statement self.now.depth cursor.old) result cursor.new }
    {
        Ok(Boxed::new(self.alloc, self.nested(cursor)?)?)
    }

    #[tactic(auto, unfolding(crate::specs::Statements::statement_read))]
    fn statement_read(&self, cursor: &mut Cursor<'_>) -> Result<Stmt, ParseStop>
        requires { NestsStatements self.now.depth (F.pre self.now.nested) (F.post self.now.nested) }
        ensures { Reads (spec.statement_read self.now.depth (spec.statement self.now.depth) cursor.old) result cursor.new }
    {
        match statement_row(cursor.kind(), cursor.second_kind()) {
            Some(StatementRow::Block) => self.block_statement(cursor),
            Some(StatementRow::Empty) => empty(cursor),
            Some(StatementRow::If) => self.if_statement(cursor),
            Some(StatementRow::While) => self.while_statement(cursor),
            Some(StatementRow::DoWhile) => self.do_statement(cursor),
            Some(StatementRow::For) => self.for_statement(cursor),
            Some(StatementRow::Foreach) => self.foreach_statement(cursor),
            Some(StatementRow::Switch) => self.switch_statement(cursor),
            Some(StatementRow::Return) => return_statement(self.alloc, cursor, self.depth),
            Some(StatementRow::Throw) => throw_statement(self.alloc, cursor, self.depth),
            Some(StatementRow::Break) => break_statement(cursor),
            Some(StatementRow::Continue) => continue_statement(cursor),
            Some(StatementRow::Echo) => echo_statement(self.alloc, cursor, self.depth),
            Some(StatementRow::Try) => self.try_statement(cursor),
            Some(StatementRow::Expression) => expression_statement(self.alloc, cursor, self.depth),
            None => Err(cursor.refuse()),
        }
    }

    #[tactic(auto, unfolding(crate::specs::Statements::block))]
    fn block(&self, cursor: &mut Cursor<'_>) -> Result<Items<Stmt>, ParseStop>
        requires { NestsStatements self.now.depth (F.pre self.now.nested) (F.post self.now.nested) }
        ensures { Reads (spec.block self.now.depth (spec.statement self.now.depth) cursor.old) result cursor.new }
    {
        cursor.expect(Mark::OpenBrace)?;
        let body = self.statements(cursor)?;
        closed(cursor, Mark::CloseBrace, body)
    }

    #[tactic(auto, unfolding(crate::specs::Statements::statements, hack_parse_expr::specs::Parsers::many_of, hack_parse_expr::specs::Parsers::many_from))]
    fn statements(&self, cursor: &mut Cursor<'_>) -> Result<Items<Stmt>, ParseStop>
        requires { NestsStatements self.now.depth (F.pre self.now.nested) (F.post self.now.nested) }
        ensures { Reads (spec.statements self.now.depth (spec.statement self.now.depth) cursor.old) result cursor.new }
    {
        let mut found = Items::new(self.alloc);
        for _turn in 0..cursor.left() {
            if !begins_statement(cursor) {
                return Ok(found);
            }
            found.push(self.nested(cursor)?)?;
        }
        Ok(found)
    }

    #[tactic(auto, unfolding(crate::specs::Statements::block_statement))]
    fn block_statement(&self, cursor: &mut Cursor<'_>) -> Result<Stmt, ParseStop>
        requires { NestsStatements self.now.depth (F.pre self.now.nested) (F.post self.now.nested) }
        ensures { Reads (spec.block_statement self.now.depth (spec.statement self.now.depth) cursor.old) result cursor.new }
    {
        let at = cursor.place()?;
        let body = self.block(cursor)?;
        Ok(Stmt::Block { at, body })
    }

    #[tactic(auto, unfolding(crate::specs::Statements::if_statement))]
    fn if_statement(&self, cursor: &mut Cursor<'_>) -> Result<Stmt, ParseStop>
        requires { NestsStatements self.now.depth (F.pre self.now.nested) (F.post self.now.nested) }
        ensures { Reads (spec.if_statement self.now.depth (spec.statement self.now.depth) cursor.old) result cursor.new }
    {
        let at = cursor.token()?.at;
        let condition = bracketed(self.alloc, cursor, self.depth)?;
        let (condition, then) = beside(condition, self.nested_boxed(cursor))?;
        let ((condition, then), otherwise) = beside((condition, then), self.otherwise(cursor))?;
        Ok(Stmt::If {
            at,
            condition,
            then,
            otherwise,
        })
    }

    #[tactic(auto, unfolding(crate::specs::Statements::otherwise))]
    fn otherwise(&self, cursor: &mut Cursor<'_>) -> Result<Option<Boxed<Stmt>>, ParseStop>
        requires { NestsStatements self.now.depth (F.pre self.now.nested) (F.post self.now.nested) }
        ensures { Reads (spec.otherwise self.now.depth (spec.statement self.now.depth) cursor.old) result cursor.new }
    {
        if cursor.sees_keyword(Keyword::Else) {
            cursor.token()?;
            Ok(Some(self.nested_boxed(cursor)?))
        } else {
            Ok(None)
        }
    }

    #[tactic(auto, unfolding(crate::specs::Statements::while_statement))]
    fn while_statement(&self, cursor: &mut Cursor<'_>) -> Result<Stmt, ParseStop>
        requires { NestsStatements self.now.depth (F.pre self.now.nested) (F.post self.now.nested) }
        ensures { Reads (spec.while_statement self.now.depth (spec.statement self.now.depth) cursor.old) result cursor.new }
    {
        let at = cursor.token()?.at;
        let condition = bracketed(self.alloc, cursor, self.depth)?;
        let (condition, body) = beside(condition, self.nested_boxed(cursor))?;
        Ok(Stmt::While {
            at,
            condition,
            body,
        })
    }

    #[tactic(auto, unfolding(crate::specs::Statements::do_statement))]
    fn do_statement(&self, cursor: &mut Cursor<'_>) -> Result<Stmt, ParseStop>
        requires { NestsStatements self.now.depth (F.pre self.now.nested) (F.post self.now.nested) }
        ensures { Reads (spec.do_statement self.now.depth (spec.statement self.now.depth) cursor.old) result cursor.new }
    {
        let at = cursor.token()?.at;
        let body = self.nested_boxed(cursor)?;
        let condition = do_condition(self.alloc, cursor, self.depth);
        let (body, condition) = beside(body, condition)?;
        Ok(Stmt::DoWhile {
            at,
            body,
            condition,
        })
    }

    #[tactic(auto, unfolding(crate::specs::Statements::for_statement))]
    fn for_statement(&self, cursor: &mut Cursor<'_>) -> Result<Stmt, ParseStop>
        requires { NestsStatements self.now.depth (F.pre self.now.nested) (F.post self.now.nested) }
        ensures { Reads (spec.for_statement self.now.depth (spec.statement self.now.depth) cursor.old) result cursor.new }
    {
        let at = cursor.token()?.at;
        let head = for_head(self.alloc, cursor, self.depth)?;
        let (head, body) = beside(head, self.nested_boxed(cursor))?;
        Ok(Stmt::For {
            at,
            start: head.start,
            condition: head.condition,
            step: head.step,
            body,
        })
    }

    #[tactic(auto, unfolding(crate::specs::Statements::foreach_statement))]
    fn foreach_statement(&self, cursor: &mut Cursor<'_>) -> Result<Stmt, ParseStop>
        requires { NestsStatements self.now.depth (F.pre self.now.nested) (F.post self.now.nested) }
        ensures { Reads (spec.foreach_statement self.now.depth (spec.statement self.now.depth) cursor.old) result cursor.new }
    {
        let at = cursor.token()?.at;
        let subject = foreach_subject(self.alloc, cursor, self.depth)?;
        let (subject, (key, value)) = beside(subject, variables_closed(cursor))?;
        let (subject, body) = beside(subject, self.nested_boxed(cursor))?;
        Ok(Stmt::Foreach {
            at,
            subject,
            key,
            value,
            body,
        })
    }

    #[tactic(auto, unfolding(crate::specs::Statements::switch_statement))]
    fn switch_statement(&self, cursor: &mut Cursor<'_>) -> Result<Stmt, ParseStop>
        requires { NestsStatements self.now.depth (F.pre self.now.nested) (F.post self.now.nested) }
        ensures { Reads (spec.switch_statement self.now.depth (spec.statement self.now.depth) cursor.old) result cursor.new }
    {
        let at = cursor.token()?.at;
        let subject = bracketed(self.alloc, cursor, self.depth)?;
        let (subject, cases) = beside(subject, self.case_block(cursor))?;
        Ok(Stmt::Switch { at, subject, cases })
    }

    #[tactic(auto, unfolding(crate::specs::Statements::case_block))]
    fn case_block(&self, cursor: &mut Cursor<'_>) -> Result<Items<Case>, ParseStop>
        requires { NestsStatements self.now.depth (F.pre self.now.nested) (F.post self.now.nested) }
        ensures { Reads (spec.case_block self.now.depth (spec.statement self.now.depth) cursor.old) result cursor.new }
    {
        cursor.expect(Mark::OpenBrace)?;
        let found = self.cases(cursor)?;
        closed(cursor, Mark::CloseBrace, found)
    }

    #[tactic(auto, unfolding(crate::specs::Statements::cases, hack_parse_expr::specs::Parsers::many_of, hack_parse_expr::specs::Parsers::many_from))]
    fn cases(&self, cursor: &mut Cursor<'_>) -> Result<Items<Case>, ParseStop>
        requires { NestsStatements self.now.depth (F.pre self.now.nested) (F.post self.now.nested) }
        ensures { Reads (spec.cases self.now.depth (spec.statement self.now.depth) cursor.old) result cursor.new }
    {
        let mut found = Items::new(self.alloc);
        for _turn in 0..cursor.left() {
            if !begins_case(cursor) {
                return Ok(found);
            }
            found.push(self.case(cursor)?)?;
        }
        Ok(found)
    }

    #[tactic(auto, unfolding(crate::specs::Statements::case))]
    fn case(&self, cursor: &mut Cursor<'_>) -> Result<Case, ParseStop>
        requires { NestsStatements self.now.depth (F.pre self.now.nested) (F.post self.now.nested) }
        ensures { Reads (spec.case self.now.depth (spec.statement self.now.depth) cursor.old) result cursor.new }
    {
        if cursor.sees_keyword(Keyword::Case) {
            self.case_read(cursor)
        } else if cursor.sees_keyword(Keyword::Default) {
            self.default_read(cursor)
        } else {
            Err(cursor.refuse())
        }
    }

    #[tactic(auto, unfolding(crate::specs::Statements::case_read))]
    fn case_read(&self, cursor: &mut Cursor<'_>) -> Result<Case, ParseStop>
        requires { NestsStatements self.now.depth (F.pre self.now.nested) (F.post self.now.nested) }
        ensures { Reads (spec.case_read self.now.depth (spec.statement self.now.depth) cursor.old) result cursor.new }
    {
        let at = cursor.token()?.at;
        let value = expression(self.alloc, cursor, self.depth)?;
        let value = closed(cursor, Mark::Colon, value)?;
        let (value, body) = beside(value, self.statements(cursor))?;
        Ok(Case {
            at,
            value: Some(value),
            body,
        })
    }

    #[tactic(auto, unfolding(crate::specs::Statements::default_read))]
    fn default_read(&self, cursor: &mut Cursor<'_>) -> Result<Case, ParseStop>
        requires { NestsStatements self.now.depth (F.pre self.now.nested) (F.post self.now.nested) }
        ensures { Reads (spec.default_read self.now.depth (spec.statement self.now.depth) cursor.old) result cursor.new }
    {
        let at = cursor.token()?.at;
        cursor.expect(Mark::Colon)?;
        let body = self.statements(cursor)?;
        Ok(Case {
            at,
            value: None,
            body,
        })
    }

    #[tactic(auto, unfolding(crate::specs::Statements::try_statement))]
    fn try_statement(&self, cursor: &mut Cursor<'_>) -> Result<Stmt, ParseStop>
        requires { NestsStatements self.now.depth (F.pre self.now.nested) (F.post self.now.nested) }
        ensures { Reads (spec.try_statement self.now.depth (spec.statement self.now.depth) cursor.old) result cursor.new }
    {
        let at = cursor.token()?.at;
        let body = self.block(cursor)?;
        let (body, catches) = beside(body, self.catches(cursor))?;
        let ((body, catches), last) = beside((body, catches), self.finally(cursor))?;
        Ok(Stmt::Try {
            at,
            body,
            catches,
            last,
        })
    }

    #[tactic(auto, unfolding(crate::specs::Statements::catches, hack_parse_expr::specs::Parsers::many_of, hack_parse_expr::specs::Parsers::many_from))]
    fn catches(&self, cursor: &mut Cursor<'_>) -> Result<Items<Catch>, ParseStop>
        requires { NestsStatements self.now.depth (F.pre self.now.nested) (F.post self.now.nested) }
        ensures { Reads (spec.catches self.now.depth (spec.statement self.now.depth) cursor.old) result cursor.new }
    {
        let mut found = Items::new(self.alloc);
        for _turn in 0..cursor.left() {
            if !cursor.sees_keyword(Keyword::Catch) {
                return Ok(found);
            }
            found.push(self.catch(cursor)?)?;
        }
        Ok(found)
    }

    #[tactic(auto, unfolding(crate::specs::Statements::catch))]
    fn catch(&self, cursor: &mut Cursor<'_>) -> Result<Catch, ParseStop>
        requires { NestsStatements self.now.depth (F.pre self.now.nested) (F.post self.now.nested) }
        ensures { Reads (spec.catch self.now.depth (spec.statement self.now.depth) cursor.old) result cursor.new }
    {
        cursor.token()?;
        let head = catch_head(self.alloc, cursor, self.depth)?;
        let (head, body) = beside(head, self.block(cursor))?;
        Ok(Catch {
            class: head.class,
            variable: head.variable,
            body,
        })
    }

    #[tactic(auto, unfolding(crate::specs::Statements::finally))]
    fn finally(&self, cursor: &mut Cursor<'_>) -> Result<Option<Items<Stmt>>, ParseStop>
        requires { NestsStatements self.now.depth (F.pre self.now.nested) (F.post self.now.nested) }
        ensures { Reads (spec.finally self.now.depth (spec.statement self.now.depth) cursor.old) result cursor.new }
    {
        if cursor.sees_keyword(Keyword::Finally) {
            cursor.token()?;
            Ok(Some(self.block(cursor)?))
        } else {
            Ok(None)
        }
    }
}
