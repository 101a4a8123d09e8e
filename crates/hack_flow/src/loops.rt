// The four loops.
ghost use Rattle.std.specs.Prelude.{All, IfSome, map, option_map};
ghost use Rattle.hack_flow.specs.Doings.{Doings};
ghost use Rattle.hack_flow.specs.Settled.{ExitsIn, inside_of, settled};
ghost use Rattle.hack_flow.specs.StmtIn.{StmtIn};
ghost use Rattle.hack_parts.specs.ExprIn.{ExprIn};
ghost use Rattle.hack_rules.specs.Expressions.{meaning_of};
ghost use Rattle.hack_rules.specs.Loops.{do_ends, for_ends, foreach_ends, while_ends};
ghost use Rattle.hack_rules.specs.Statements.{doing_of, key_name, meanings_of};
ghost use Rattle.hack_walk.specs.Checks.{Walks, setting_of};

use crate::for_turns::in_a_row;
use crate::foreach_turns::key_name;
use crate::foreach_types::foreach_types;
use crate::passes::{three_passes, too_deep};
use crate::turns::Loop;
use crate::{Exits, Inside};
use hack_decls::{DeclStop, Decls};
use hack_tree::{DeclaredName, Expr, Stmt};
use hack_types::{NameId, Place};
use hack_walk::{Setting, State};
use std::alloc::Global;

// How many loops may stand in one another.
const MOST_LOOPS: u32 = 8;

/// `while` (docs/language.md, Typing statements, Loops). `EdgesFull` says that a lookup's note was refused,
/// and `NoMemory` that memory ran out; what was noted before stays noted.
pub fn while_loop<
    D: Decls,
    S: Fn(Global, &Setting<'_>, &mut D, &mut State, Inside, &Stmt) -> Result<Exits, DeclStop>,
>(
    statement: &S,
    alloc: Global,
    setting: &Setting<'_>,
    decls: &mut D,
    state: &mut State,
    inside: Inside,
    at: Place,
    condition: &Expr,
    body: &Stmt,
) -> Result<Exits, DeclStop>
    requires { Doings D.state body.now (S.pre statement.now) (S.post statement.now) }
    ensures { Walks (settled (while_ends at (meaning_of condition.now) (doing_of body.now)
        (inside_of inside)))
        (setting_of setting.now) (D.state decls.old) state.old result (D.state decls.new) state.new
        (λ symbols. ExprIn setting.now.scope.now symbols condition.now
        × StmtIn setting.now.scope.now symbols body.now) ExitsIn }
{
    if inside.loops >= MOST_LOOPS {
        return Ok(too_deep(alloc, setting, state, at)?);
    }
    let around = Loop::While { condition };
    three_passes(
        statement, alloc, setting, decls, state, inside, &around, body,
    )
}

/// `do` (docs/language.md, Typing statements, Loops). `EdgesFull` says that a lookup's note was refused,
/// and `NoMemory` that memory ran out; what was noted before stays noted.
pub fn do_loop<
    D: Decls,
    S: Fn(Global, &Setting<'_>, &mut D, &mut State, Inside, &Stmt) -> Result<Exits, DeclStop>,
>(
    statement: &S,
    alloc: Global,
    setting: &Setting<'_>,
    decls: &mut D,
    state: &mut State,
    inside: Inside,
    at: Place,
    body: &Stmt,
    condition: &Expr,
) -> Result<Exits, DeclStop>
    requires { Doings D.state body.now (S.pre statement.now) (S.post statement.now) }
    ensures { Walks (settled (do_ends at (doing_of body.now) (meaning_of condition.now)
        (inside_of inside)))
        (setting_of setting.now) (D.state decls.old) state.old result (D.state decls.new) state.new
        (λ symbols. StmtIn setting.now.scope.now symbols body.now
        × ExprIn setting.now.scope.now symbols condition.now) ExitsIn }
{
    if inside.loops >= MOST_LOOPS {
        return Ok(too_deep(alloc, setting, state, at)?);
    }
    let around = Loop::Do { condition };
    three_passes(
        statement, alloc, setting, decls, state, inside, &around, body,
    )
}

/// `for` (docs/language.md, Typing statements, Loops). `EdgesFull` says that a lookup's note was refused,
/// and `NoMemory` that memory ran out; what was noted before stays noted.
pub fn for_loop<
    D: Decls,
    S: Fn(Global, &Setting<'_>, &mut D, &mut State, Inside, &Stmt) -> Result<Exits, DeclStop>,
>(
    statement: &S,
    alloc: Global,
    setting: &Setting<'_>,
    decls: &mut D,
    state: &mut State,
    inside: Inside,
    at: Place,
    start: &[Expr],
    condition: &Option<Expr>,
    steps: &[Expr],
    body: &Stmt,
) -> Result<Exits, DeclStop>
    requires { Doings D.state body.now (S.pre statement.now) (S.post statement.now) }
    ensures { Walks (settled (for_ends at (meanings_of start.now)
        (option_map meaning_of condition.now) (meanings_of steps.now) (doing_of body.now)
        (inside_of inside)))
        (setting_of setting.now) (D.state decls.old) state.old result (D.state decls.new) state.new
        (λ symbols. All (ExprIn setting.now.scope.now symbols) start.now
        × IfSome condition.now (ExprIn setting.now.scope.now symbols)
        × All (ExprIn setting.now.scope.now symbols) steps.now
        × StmtIn setting.now.scope.now symbols body.now) ExitsIn }
{
    if inside.loops >= MOST_LOOPS {
        return Ok(too_deep(alloc, setting, state, at)?);
    }
    in_a_row(alloc, setting, decls, state, start)?;
    let around = Loop::For { condition, steps };
    three_passes(
        statement, alloc, setting, decls, state, inside, &around, body,
    )
}

/// `foreach` (docs/language.md, Typing statements, Loops). `EdgesFull` says that a lookup's note was refused,
/// and `NoMemory` that memory ran out; what was noted before stays noted.
pub fn foreach_loop<
    D: Decls,
    S: Fn(Global, &Setting<'_>, &mut D, &mut State, Inside, &Stmt) -> Result<Exits, DeclStop>,
>(
    statement: &S,
    alloc: Global,
    setting: &Setting<'_>,
    decls: &mut D,
    state: &mut State,
    inside: Inside,
    at: Place,
    subject: &Expr,
    key: &Option<DeclaredName>,
    value: NameId,
    body: &Stmt,
) -> Result<Exits, DeclStop>
    requires { Doings D.state body.now (S.pre statement.now) (S.post statement.now) }
    ensures { Walks (settled (foreach_ends at (meaning_of subject.now) (key_name key.now) value
        (doing_of body.now) (inside_of inside)))
        (setting_of setting.now) (D.state decls.old) state.old result (D.state decls.new) state.new
        (λ symbols. ExprIn setting.now.scope.now symbols subject.now
        × StmtIn setting.now.scope.now symbols body.now) ExitsIn }
{
    if inside.loops >= MOST_LOOPS {
        return Ok(too_deep(alloc, setting, state, at)?);
    }
    let (key_type, value_type) = foreach_types(alloc, setting, decls, state, subject)?;
    let around = Loop::Foreach {
        key_type: &key_type,
        value_type: &value_type,
        key: key_name(key),
        value,
    };
    let exits = three_passes(
        statement, alloc, setting, decls, state, inside, &around, body,
    );
    drop(key_type);
    drop(value_type);
    exits
}
