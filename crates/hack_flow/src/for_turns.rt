// The turns of `for`.
ghost use Rattle.std.specs.Prelude.{◌≡◌, ◌∷◌, [], All, IfOk, IfSome, None, Some, option_map};
ghost use Rattle.hack_decls.specs.Asks.{Nothing};
ghost use Rattle.hack_flow.specs.Doings.{Doings};
ghost use Rattle.hack_flow.specs.Settled.{ExitsIn, emptied, ends_of, inside_of};
ghost use Rattle.hack_flow.specs.StmtIn.{StmtIn};
ghost use Rattle.hack_flow.specs.inside.Rows.{TurnIn, all_done, behind_for, for_body, steps_here};
ghost use Rattle.hack_parts.specs.ExprIn.{ExprIn};
ghost use Rattle.hack_rules.specs.Expressions.{meaning_of};
ghost use Rattle.hack_rules.specs.Loops.{for_steps, for_turn};
ghost use Rattle.hack_rules.specs.Statements.{doing_of, meanings_of};
ghost use Rattle.hack_walk.specs.Checks.{VariablesIn, Walks, setting_of};

use crate::exits::normal_end;
use crate::turns::{Turn, deeper};
use crate::{Exits, Inside};
use hack_decls::{DeclStop, Decls};
use hack_expr::{branches_of, check};
use hack_tree::{Expr, Stmt};
use hack_types::NoMemory;
use hack_walk::{Setting, State, Variables, either};
use std::alloc::Global;

// The test where there is one, the body where it holds, and then the steps.
pub(crate) fn for_turn<
    D: Decls,
    S: Fn(Global, &Setting<'_>, &mut D, &mut State, Inside, &Stmt) -> Result<Exits, DeclStop>,
>(
    statement: &S,
    alloc: Global,
    setting: &Setting<'_>,
    decls: &mut D,
    state: &mut State,
    inside: Inside,
    condition: &Option<Expr>,
    steps: &[Expr],
    body: &Stmt,
) -> Result<Turn, DeclStop>
    requires { Doings D.state body.now (S.pre statement.now) (S.post statement.now) }
    ensures { Walks (emptied (for_turn (option_map meaning_of condition.now)
        (meanings_of steps.now) (doing_of body.now) (inside_of inside)))
        (setting_of setting.now) (D.state decls.old) state.old result (D.state decls.new) state.new
        (λ symbols. (IfSome condition.now (ExprIn setting.now.scope.now symbols)
        × All (ExprIn setting.now.scope.now symbols) steps.now)
        × StmtIn setting.now.scope.now symbols body.now) TurnIn }
{
    match condition {
        Some(condition) => for_tested(
            statement, alloc, setting, decls, state, inside, condition, steps, body,
        ),
        None => for_body(
            statement, alloc, setting, decls, state, inside, steps, body, None,
        ),
    }
}

// The test, the body where it holds, and then the steps.
fn for_tested<
    D: Decls,
    S: Fn(Global, &Setting<'_>, &mut D, &mut State, Inside, &Stmt) -> Result<Exits, DeclStop>,
>(
    statement: &S,
    alloc: Global,
    setting: &Setting<'_>,
    decls: &mut D,
    state: &mut State,
    inside: Inside,
    condition: &Expr,
    steps: &[Expr],
    body: &Stmt,
) -> Result<Turn, DeclStop>
    requires { Doings D.state body.now (S.pre statement.now) (S.post statement.now) }
    ensures { Walks (emptied (for_turn (Some (meaning_of condition.now))
        (meanings_of steps.now) (doing_of body.now) (inside_of inside)))
        (setting_of setting.now) (D.state decls.old) state.old result (D.state decls.new) state.new
        (λ symbols. (ExprIn setting.now.scope.now symbols condition.now
        × All (ExprIn setting.now.scope.now symbols) steps.now)
        × StmtIn setting.now.scope.now symbols body.now) TurnIn }
{
    let branches = branches_of(alloc, setting, decls, state, condition)?;
    let (when_true, when_false) = branches.into_parts();
    state.replace(when_true);
    let behind = Some(when_false);
    for_body(
        statement, alloc, setting, decls, state, inside, steps, body, behind,
    )
}

// The body where the test holds, and then the steps.
fn for_body<
    D: Decls,
    S: Fn(Global, &Setting<'_>, &mut D, &mut State, Inside, &Stmt) -> Result<Exits, DeclStop>,
>(
    statement: &S,
    alloc: Global,
    setting: &Setting<'_>,
    decls: &mut D,
    state: &mut State,
    inside: Inside,
    steps: &[Expr],
    body: &Stmt,
    behind: Option<Variables>,
) -> Result<Turn, DeclStop>
    requires { Doings D.state body.now (S.pre statement.now) (S.post statement.now) }
    ensures { Walks (emptied (for_body (meanings_of steps.now) (doing_of body.now)
        (inside_of inside) behind))
        (setting_of setting.now) (D.state decls.old) state.old result (D.state decls.new) state.new
        (λ symbols. (All (ExprIn setting.now.scope.now symbols) steps.now
        × StmtIn setting.now.scope.now symbols body.now)
        × IfSome behind (VariablesIn symbols)) TurnIn }
{
    let inner = deeper(inside)?;
    let exits = statement(alloc, setting, decls, state, inner, body)?;
    behind_for(alloc, setting, decls, state, steps, behind, exits)
}

// The steps behind a body that ended so.
fn behind_for<D: Decls>(
    alloc: Global,
    setting: &Setting<'_>,
    decls: &mut D,
    state: &mut State,
    steps: &[Expr],
    behind: Option<Variables>,
    exits: Exits,
) -> Result<Turn, DeclStop>
    ensures { Walks (emptied (behind_for (meanings_of steps.now) behind
        (ends_of exits state.old.variables)))
        (setting_of setting.now) (D.state decls.old) state.old result (D.state decls.new) state.new
        (λ symbols. (All (ExprIn setting.now.scope.now symbols) steps.now
        × IfSome behind (VariablesIn symbols)) × ExitsIn symbols exits) TurnIn }
{
    let here = state.take_variables(alloc);
    let normal = normal_end(exits.reached, here);
    let end = either(alloc, normal, exits.continues)?;
    steps_from(
        alloc,
        setting,
        decls,
        state,
        steps,
        behind,
        exits.breaks,
        end,
    )
}

// The steps, where a path reaches them.
fn steps_from<D: Decls>(
    alloc: Global,
    setting: &Setting<'_>,
    decls: &mut D,
    state: &mut State,
    steps: &[Expr],
    behind: Option<Variables>,
    breaks: Option<Variables>,
    end: Option<Variables>,
) -> Result<Turn, DeclStop>
    requires { state.old.variables ≡ [] }
    ensures { Walks (emptied (for_steps (meanings_of steps.now) behind breaks end))
        (setting_of setting.now) (D.state decls.old) state.old result (D.state decls.new) state.new
        (λ symbols. (All (ExprIn setting.now.scope.now symbols) steps.now
        × IfSome behind (VariablesIn symbols))
        × IfSome breaks (VariablesIn symbols) × IfSome end (VariablesIn symbols)) TurnIn }
{
    match end {
        Some(end) => {
            state.replace(end);
            steps_here(alloc, setting, decls, state, steps, behind, breaks)
        }
        None => Ok(no_step(alloc, behind, breaks)),
    }
}

// No path reaches the steps.
fn no_step(alloc: Global, behind: Option<Variables>, breaks: Option<Variables>) -> Turn
    ensures { result ≡ record { ends = []; behind = behind; breaks = breaks } }
{
    Turn {
        ends: Vec::new(alloc),
        behind,
        breaks,
    }
}

// The steps, and then the turn is over.
fn steps_here<D: Decls>(
    alloc: Global,
    setting: &Setting<'_>,
    decls: &mut D,
    state: &mut State,
    steps: &[Expr],
    behind: Option<Variables>,
    breaks: Option<Variables>,
) -> Result<Turn, DeclStop>
    ensures { Walks (emptied (steps_here (meanings_of steps.now) behind breaks))
        (setting_of setting.now) (D.state decls.old) state.old result (D.state decls.new) state.new
        (λ symbols. (All (ExprIn setting.now.scope.now symbols) steps.now
        × IfSome behind (VariablesIn symbols)) × IfSome breaks (VariablesIn symbols)) TurnIn }
{
    in_a_row(alloc, setting, decls, state, steps)?;
    let end = state.take_variables(alloc);
    Ok(stepped(alloc, end, behind, breaks)?)
}

fn stepped(
    alloc: Global,
    end: Variables,
    behind: Option<Variables>,
    breaks: Option<Variables>,
) -> Result<Turn, NoMemory>
    ensures { IfOk result (λ turn. turn
        ≡ record { ends = end ∷ []; behind = behind; breaks = breaks }) }
{
    let mut ends = Vec::new(alloc);
    ends.push(end)?;
    Ok(Turn {
        ends,
        behind,
        breaks,
    })
}

// Expressions in a row, of which no type is kept.
pub(crate) fn in_a_row<D: Decls>(
    alloc: Global,
    setting: &Setting<'_>,
    decls: &mut D,
    state: &mut State,
    expressions: &[Expr],
) -> Result<(), DeclStop>
    ensures { Walks (all_done (meanings_of expressions.now))
        (setting_of setting.now) (D.state decls.old) state.old result (D.state decls.new) state.new
        (λ symbols. All (ExprIn setting.now.scope.now symbols) expressions.now) Nothing }
{
    for next in expressions {
        drop(check(alloc, setting, decls, state, next)?);
    }
    Ok(())
}
