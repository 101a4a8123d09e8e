// The turns of loops.
ghost use Rattle.std.specs.Prelude.{◌≡◌, ◌++◌, ◌∷◌, [], IfOk, IfSome, None, OnOk, Some, option_to_list};
ghost use Rattle.hack_flow.specs.Doings.{Doings};
ghost use Rattle.hack_flow.specs.Settled.{ExitsIn, emptied, ends_of, inside_of};
ghost use Rattle.hack_flow.specs.StmtIn.{StmtIn};
ghost use Rattle.hack_flow.specs.inside.Rows.{LoopIn, TurnIn, behind_body, body_turn, round, test_from, test_here, turn_of};
ghost use Rattle.hack_parts.specs.ExprIn.{ExprIn};
ghost use Rattle.hack_rules.specs.Expressions.{meaning_of};
ghost use Rattle.hack_rules.specs.Loops.{deeper, do_turn, while_turn};
ghost use Rattle.hack_rules.specs.Statements.{doing_of};
ghost use Rattle.hack_walk.specs.Checks.{VariablesIn, Walks, setting_of};

use crate::exits::normal_end;
use crate::for_turns::for_turn;
use crate::foreach_turns::foreach_turn;
use crate::{Exits, Inside};
use hack_decls::{DeclStop, Decls};
use hack_expr::branches_of;
use hack_tree::{Expr, Stmt};
use hack_types::{HackType, NameId, NoMemory};
use hack_walk::{Branches, Setting, State, Variables, either};
use std::alloc::Global;
use std::marker::Model;

/// A loop around a body.
#[derive(Clone, Copy)]
pub(crate) enum Loop<'a> {
    /// `while`.
    While {
        /// What is tested before each turn.
        condition: &'a Expr,
    },
    /// `do`.
    Do {
        /// What is tested behind each turn.
        condition: &'a Expr,
    },
    /// `for`, behind its start.
    For {
        /// What is tested before each turn, where something is.
        condition: &'a Option<Expr>,
        /// What is done behind each turn.
        steps: &'a [Expr],
    },
    /// `foreach`, behind its subject.
    Foreach {
        /// The type of the keys.
        key_type: &'a HackType,
        /// The type of the values.
        value_type: &'a HackType,
        /// The variable of the keys, where one stands.
        key: Option<NameId>,
        /// The variable of the values.
        value: NameId,
    },
}

/// One turn of a loop: the ends that go round, what stands behind the test where it doesn't hold, and the breaks.
#[derive(Drop)]
pub(crate) struct Turn {
    /// The ends that go round.
    pub ends: Vec<Variables>,
    /// What stands behind the test where it doesn't hold, where a path gets there.
    pub behind: Option<Variables>,
    /// The variables at the breaks, where it has any.
    pub breaks: Option<Variables>,
}

impl Model for Turn {
    ghost use Rattle.hack_rules.specs.Loops as loops;
    ghost use Rattle.hack_flow.specs.inside.Codes.{turn_code};

    ghost Value = { loops.Turn };

    ghost coded = { turn_code };

    ghost view = { λ turn. record { ends = turn.ends.items; behind = turn.behind; breaks = turn.breaks } };
}

impl Turn {
    /// The ends that go round.
    pub(crate) fn into_ends(self) -> Vec<Variables>
        ensures { result.items ≡ self.ends }
    {
        self.ends
    }

    /// What stands behind the test, and the breaks.
    pub(crate) fn into_leaves(self) -> (Option<Variables>, Option<Variables>)
        ensures behind { result.0 ≡ self.behind }
        ensures breaks { result.1 ≡ self.breaks }
    {
        (self.behind, self.breaks)
    }
}

// One turn, behind which the state has no variables left.
pub(crate) fn one_turn<
    D: Decls,
    S: Fn(Global, &Setting<'_>, &mut D, &mut State, Inside, &Stmt) -> Result<Exits, DeclStop>,
>(
    statement: &S,
    alloc: Global,
    setting: &Setting<'_>,
    decls: &mut D,
    state: &mut State,
    inside: Inside,
    around: &Loop<'_>,
    body: &Stmt,
) -> Result<Turn, DeclStop>
    requires { Doings D.state body.now (S.pre statement.now) (S.post statement.now) }
    ensures { Walks (emptied (turn_of around.now (doing_of body.now) (inside_of inside)))
        (setting_of setting.now) (D.state decls.old) state.old result (D.state decls.new) state.new
        (λ symbols. LoopIn setting.now.scope.now symbols around.now
        × StmtIn setting.now.scope.now symbols body.now) TurnIn }
{
    match around {
        Loop::While { condition } => {
            while_turn(
                statement, alloc, setting, decls, state, inside, condition, body,
            )
        }
        Loop::Do { condition } => {
            do_turn(
                statement, alloc, setting, decls, state, inside, body, condition,
            )
        }
        Loop::For { condition, steps } => for_turn(
            statement, alloc, setting, decls, state, inside, condition, steps, body,
        ),
        Loop::Foreach {
            key_type,
            value_type,
            key,
            value,
        } => foreach_turn(
            statement, alloc, setting, decls, state, inside, key_type, value_type, *key, *value,
            body,
        ),
    }
}

// The test, and the body where it holds.
fn while_turn<
    D: Decls,
    S: Fn(Global, &Setting<'_>, &mut D, &mut State, Inside, &Stmt) -> Result<Exits, DeclStop>,
>(
    statement: &S,
    alloc: Global,
    setting: &Setting<'_>,
    decls: &mut D,
    state: &mut State,
    inside: Inside,
    condition: &Expr,
    body: &Stmt,
) -> Result<Turn, DeclStop>
    requires { Doings D.state body.now (S.pre statement.now) (S.post statement.now) }
    ensures { Walks (emptied (while_turn (meaning_of condition.now) (doing_of body.now)
        (inside_of inside)))
        (setting_of setting.now) (D.state decls.old) state.old result (D.state decls.new) state.new
        (λ symbols. ExprIn setting.now.scope.now symbols condition.now
        × StmtIn setting.now.scope.now symbols body.now) TurnIn }
{
    let branches = branches_of(alloc, setting, decls, state, condition)?;
    let (when_true, when_false) = branches.into_parts();
    state.replace(when_true);
    body_turn(
        statement, alloc, setting, decls, state, inside, body, when_false,
    )
}

// The body, and then the turn is over.
pub(crate) fn body_turn<
    D: Decls,
    S: Fn(Global, &Setting<'_>, &mut D, &mut State, Inside, &Stmt) -> Result<Exits, DeclStop>,
>(
    statement: &S,
    alloc: Global,
    setting: &Setting<'_>,
    decls: &mut D,
    state: &mut State,
    inside: Inside,
    body: &Stmt,
    behind: Variables,
) -> Result<Turn, DeclStop>
    requires { Doings D.state body.now (S.pre statement.now) (S.post statement.now) }
    ensures { Walks (emptied (body_turn (doing_of body.now) (inside_of inside) behind))
        (setting_of setting.now) (D.state decls.old) state.old result (D.state decls.new) state.new
        (λ symbols. VariablesIn symbols behind
        × StmtIn setting.now.scope.now symbols body.now) TurnIn }
{
    let inner = deeper(inside)?;
    let exits = statement(alloc, setting, decls, state, inner, body)?;
    Ok(round(alloc, state, exits, behind)?)
}

// The body of a `do`, and then its test.
fn do_turn<
    D: Decls,
    S: Fn(Global, &Setting<'_>, &mut D, &mut State, Inside, &Stmt) -> Result<Exits, DeclStop>,
>(
    statement: &S,
    alloc: Global,
    setting: &Setting<'_>,
    decls: &mut D,
    state: &mut State,
    inside: Inside,
    body: &Stmt,
    condition: &Expr,
) -> Result<Turn, DeclStop>
    requires { Doings D.state body.now (S.pre statement.now) (S.post statement.now) }
    ensures { Walks (emptied (do_turn (doing_of body.now) (meaning_of condition.now)
        (inside_of inside)))
        (setting_of setting.now) (D.state decls.old) state.old result (D.state decls.new) state.new
        (λ symbols. StmtIn setting.now.scope.now symbols body.now
        × ExprIn setting.now.scope.now symbols condition.now) TurnIn }
{
    let inner = deeper(inside)?;
    let exits = statement(alloc, setting, decls, state, inner, body)?;
    behind_body(alloc, setting, decls, state, condition, exits)
}

// The test of a `do` behind a body that ended so.
fn behind_body<D: Decls>(
    alloc: Global,
    setting: &Setting<'_>,
    decls: &mut D,
    state: &mut State,
    condition: &Expr,
    exits: Exits,
) -> Result<Turn, DeclStop>
    ensures { Walks (emptied (behind_body (meaning_of condition.now)
        (ends_of exits state.old.variables)))
        (setting_of setting.now) (D.state decls.old) state.old result (D.state decls.new) state.new
        (λ symbols. ExprIn setting.now.scope.now symbols condition.now × ExitsIn symbols exits)
        TurnIn }
{
    let here = state.take_variables(alloc);
    let normal = normal_end(exits.reached, here);
    let end = either(alloc, normal, exits.continues)?;
    test_from(alloc, setting, decls, state, condition, exits.breaks, end)
}

// The test of a `do`, where a path reaches it.
fn test_from<D: Decls>(
    alloc: Global,
    setting: &Setting<'_>,
    decls: &mut D,
    state: &mut State,
    condition: &Expr,
    breaks: Option<Variables>,
    end: Option<Variables>,
) -> Result<Turn, DeclStop>
    requires { state.old.variables ≡ [] }
    ensures { Walks (emptied (test_from (meaning_of condition.now) breaks end))
        (setting_of setting.now) (D.state decls.old) state.old result (D.state decls.new) state.new
        (λ symbols. ExprIn setting.now.scope.now symbols condition.now
        × IfSome breaks (VariablesIn symbols) × IfSome end (VariablesIn symbols)) TurnIn }
{
    match end {
        Some(end) => {
            state.replace(end);
            test_here(alloc, setting, decls, state, condition, breaks)
        }
        None => Ok(nowhere(alloc, breaks)),
    }
}

// No path reaches the test.
fn nowhere(alloc: Global, breaks: Option<Variables>) -> Turn
    ensures { result ≡ record { ends = []; behind = None; breaks = breaks } }
{
    Turn {
        ends: Vec::new(alloc),
        behind: None,
        breaks,
    }
}

// The test of a `do`, and then the turn is over.
fn test_here<D: Decls>(
    alloc: Global,
    setting: &Setting<'_>,
    decls: &mut D,
    state: &mut State,
    condition: &Expr,
    breaks: Option<Variables>,
) -> Result<Turn, DeclStop>
    ensures { Walks (emptied (test_here (meaning_of condition.now) breaks))
        (setting_of setting.now) (D.state decls.old) state.old result (D.state decls.new) state.new
        (λ symbols. ExprIn setting.now.scope.now symbols condition.now
        × IfSome breaks (VariablesIn symbols)) TurnIn }
{
    let branches = branches_of(alloc, setting, decls, state, condition)?;
    drop(state.take_variables(alloc));
    Ok(tested_turn(alloc, branches, breaks)?)
}

fn tested_turn(
    alloc: Global,
    branches: Branches,
    breaks: Option<Variables>,
) -> Result<Turn, NoMemory>
    ensures { IfOk result (λ turn. turn ≡ record {
      ends = branches.when_true ∷ [];
      behind = Some branches.when_false;
      breaks = breaks;
    }) }
{
    let (when_true, when_false) = branches.into_parts();
    let mut ends = Vec::new(alloc);
    ends.push(when_true)?;
    Ok(Turn {
        ends,
        behind: Some(when_false),
        breaks,
    })
}

// Inside one loop more; more than a u32 counts are answered as want of memory.
pub(crate) fn deeper(inside: Inside) -> Result<Inside, NoMemory>
    ensures { IfOk result (λ inner. inside_of inner ≡ deeper (inside_of inside)) }
{
    match inside.loops.checked_add(1) {
        Some(loops) => Ok(Inside {
            loops,
            breakable: true,
        }),
        None => Err(NoMemory),
    }
}

// The turn that a body's ends make.
fn round(
    alloc: Global,
    state: &mut State,
    exits: Exits,
    behind: Variables,
) -> Result<Turn, NoMemory>
    ensures turn { IfOk result (λ turn. turn
        ≡ round behind (ends_of exits state.old.variables)) }
    ensures variables { OnOk result (state.new.variables ≡ []) }
    ensures found { OnOk result (state.new.found ≡ state.old.found) }
{
    let here = state.take_variables(alloc);
    let normal = normal_end(exits.reached, here);
    let ends = both_ends(alloc, normal, exits.continues)?;
    Ok(Turn {
        ends,
        behind: Some(behind),
        breaks: exits.breaks,
    })
}

fn both_ends(
    alloc: Global,
    normal: Option<Variables>,
    continues: Option<Variables>,
) -> Result<Vec<Variables>, NoMemory>
    ensures { IfOk result (λ ends. ends.items
        ≡ option_to_list normal ++ option_to_list continues) }
{
    let mut ends = Vec::new(alloc);
    push_end(&mut ends, normal)?;
    push_end(&mut ends, continues)?;
    Ok(ends)
}

fn push_end(ends: &mut Vec<Variables>, end: Option<Variables>) -> Result<(), NoMemory>
    ensures { OnOk result (ends.new.items ≡ ends.old.items ++ option_to_list end) }
{
    match end {
        Some(end) => {
            ends.push(end)?;
            Ok(())
        }
        None => Ok(()),
    }
}
