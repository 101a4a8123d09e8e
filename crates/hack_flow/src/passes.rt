// The passes of loops.
ghost use Rattle.std.specs.Prelude.{◌≡◌, IfOk};
ghost use Rattle.hack_flow.specs.Doings.{Doings};
ghost use Rattle.hack_flow.specs.Settled.{ExitsIn, exits_of, inside_of, settled, variables_of};
ghost use Rattle.hack_flow.specs.StmtIn.{StmtIn};
ghost use Rattle.hack_flow.specs.inside.Rows.{LoopIn, TurnIn, behind_loop, last_pass, only_end, passed, third_entry, turn_of};
ghost use Rattle.hack_rules.specs.Loops.{refuse_loop, three_passes};
ghost use Rattle.hack_rules.specs.Statements.{doing_of};
ghost use Rattle.hack_rules.specs.Variables.{joined_with};
ghost use Rattle.hack_rules.specs.Walks.{State as Here, pure, quietly};
ghost use Rattle.hack_walk.specs.Checks.{Steps, VariablesIn, Walks, setting_of};

use crate::turns::{Loop, Turn, one_turn};
use crate::{Exits, Inside};
use hack_decls::{DeclStop, Decls};
use hack_diag::too_many_loops;
use hack_tree::Stmt;
use hack_types::{NoMemory, Place};
use hack_walk::{Setting, State, Variables, either, joined_with, widened};
use std::alloc::Global;

// A loop inside eight others: nothing in it is typed, and its entry stands behind it.
pub(crate) fn too_deep(
    alloc: Global,
    setting: &Setting<'_>,
    state: &mut State,
    at: Place,
) -> Result<Exits, NoMemory>
    ensures { Steps (settled (refuse_loop at)) (setting_of setting.now) state.old result state.new
        (λ symbols. Unit {0}) ExitsIn }
{
    let diag = too_many_loops(alloc, at)?;
    state.report(diag)?;
    Ok(Exits {
        reached: true,
        breaks: None,
        continues: None,
    })
}

// Three passes: the second from the entry joined with the ends of the first, the third from this joined with the ends of the second, where a
// type that differs is `mixed`. What is found and how the loop ends is the third's.
pub(crate) fn three_passes<
    D: Decls,
    S: Fn(Global, &Setting<'_>, &mut D, &mut State, Inside, &Stmt) -> Result<Exits, DeclStop>,
>(
    statement: &S,
    alloc: Global,
    setting: &Setting<'_>,
    decls: &mut D,
    state: &mut State,
    inside: Inside,
    around: &Loop<'_>,
    body: &Stmt,
) -> Result<Exits, DeclStop>
    requires { Doings D.state body.now (S.pre statement.now) (S.post statement.now) }
    ensures { Walks (settled (three_passes
        (turn_of around.now (doing_of body.now) (inside_of inside))))
        (setting_of setting.now) (D.state decls.old) state.old result (D.state decls.new) state.new
        (λ symbols. LoopIn setting.now.scope.now symbols around.now
        × StmtIn setting.now.scope.now symbols body.now) ExitsIn }
{
    let first = state.variables();
    let second = pass(
        statement, alloc, setting, decls, inside, around, body, first,
    )?;
    let third = third_entry(
        statement, alloc, setting, decls, inside, around, body, second,
    )?;
    state.replace(third);
    last_pass(
        statement, alloc, setting, decls, state, inside, around, body,
    )
}

// The entry of the third pass, from that of the second.
fn third_entry<
    D: Decls,
    S: Fn(Global, &Setting<'_>, &mut D, &mut State, Inside, &Stmt) -> Result<Exits, DeclStop>,
>(
    statement: &S,
    alloc: Global,
    setting: &Setting<'_>,
    decls: &mut D,
    inside: Inside,
    around: &Loop<'_>,
    body: &Stmt,
    entry: Variables,
) -> Result<Variables, DeclStop>
    requires { Doings D.state body.now (S.pre statement.now) (S.post statement.now) }
    ensures { (here : Here) → Walks (third_entry entry
        (turn_of around.now (doing_of body.now) (inside_of inside)))
        (setting_of setting.now) (D.state decls.old) here result (D.state decls.new) here
        (λ symbols. VariablesIn symbols entry
        × LoopIn setting.now.scope.now symbols around.now
        × StmtIn setting.now.scope.now symbols body.now) VariablesIn }
{
    let behind = pass(
        statement, alloc, setting, decls, inside, around, body, &entry,
    )?;
    Ok(widened(alloc, &entry, behind)?)
}

// The entry joined with the ends of a pass from it, of which nothing else is kept.
fn pass<
    D: Decls,
    S: Fn(Global, &Setting<'_>, &mut D, &mut State, Inside, &Stmt) -> Result<Exits, DeclStop>,
>(
    statement: &S,
    alloc: Global,
    setting: &Setting<'_>,
    decls: &mut D,
    inside: Inside,
    around: &Loop<'_>,
    body: &Stmt,
    entry: &Variables,
) -> Result<Variables, DeclStop>
    requires { Doings D.state body.now (S.pre statement.now) (S.post statement.now) }
    ensures { (here : Here) → Walks (passed entry.now
        (turn_of around.now (doing_of body.now) (inside_of inside)))
        (setting_of setting.now) (D.state decls.old) here result (D.state decls.new) here
        (λ symbols. VariablesIn symbols entry.now
        × LoopIn setting.now.scope.now symbols around.now
        × StmtIn setting.now.scope.now symbols body.now) VariablesIn }
{
    let pass = quiet_turn(
        statement, alloc, setting, decls, inside, around, body, entry,
    )?;
    Ok(joined_from(alloc, entry, pass.into_ends())?)
}

fn joined_from(
    alloc: Global,
    entry: &Variables,
    ends: Vec<Variables>,
) -> Result<Variables, NoMemory>
    ensures { IfOk result (λ joined. joined ≡ joined_with entry.now ends.items) }
{
    let entry = entry.copy(alloc)?;
    joined_with(alloc, entry, ends)
}

// A turn over a state of its own.
fn quiet_turn<
    D: Decls,
    S: Fn(Global, &Setting<'_>, &mut D, &mut State, Inside, &Stmt) -> Result<Exits, DeclStop>,
>(
    statement: &S,
    alloc: Global,
    setting: &Setting<'_>,
    decls: &mut D,
    inside: Inside,
    around: &Loop<'_>,
    body: &Stmt,
    entry: &Variables,
) -> Result<Turn, DeclStop>
    requires { Doings D.state body.now (S.pre statement.now) (S.post statement.now) }
    ensures { (here : Here) → Walks (quietly entry.now
        (turn_of around.now (doing_of body.now) (inside_of inside)))
        (setting_of setting.now) (D.state decls.old) here result (D.state decls.new) here
        (λ symbols. VariablesIn symbols entry.now
        × LoopIn setting.now.scope.now symbols around.now
        × StmtIn setting.now.scope.now symbols body.now) TurnIn }
{
    let entry = entry.copy(alloc)?;
    let mut state = State::new(alloc, entry);
    one_turn(
        statement, alloc, setting, decls, &mut state, inside, around, body,
    )
}

// The last pass, whose ends are the loop's.
fn last_pass<
    D: Decls,
    S: Fn(Global, &Setting<'_>, &mut D, &mut State, Inside, &Stmt) -> Result<Exits, DeclStop>,
>(
    statement: &S,
    alloc: Global,
    setting: &Setting<'_>,
    decls: &mut D,
    state: &mut State,
    inside: Inside,
    around: &Loop<'_>,
    body: &Stmt,
) -> Result<Exits, DeclStop>
    requires { Doings D.state body.now (S.pre statement.now) (S.post statement.now) }
    ensures { Walks (settled (last_pass
        (turn_of around.now (doing_of body.now) (inside_of inside))))
        (setting_of setting.now) (D.state decls.old) state.old result (D.state decls.new) state.new
        (λ symbols. LoopIn setting.now.scope.now symbols around.now
        × StmtIn setting.now.scope.now symbols body.now) ExitsIn }
{
    let last = one_turn(
        statement, alloc, setting, decls, state, inside, around, body,
    )?;
    Ok(behind_loop(alloc, setting, state, last)?)
}

// Behind a loop stands what its test leaves, joined with its breaks.
fn behind_loop(
    alloc: Global,
    setting: &Setting<'_>,
    state: &mut State,
    last: Turn,
) -> Result<Exits, NoMemory>
    ensures { Steps (settled (pure (behind_loop last))) (setting_of setting.now)
        state.old result state.new (λ symbols. TurnIn symbols last) ExitsIn }
{
    let (behind, breaks) = last.into_leaves();
    let normal = either(alloc, behind, breaks)?;
    Ok(leave_at(alloc, state, normal))
}

// The end is here, where there is one.
fn leave_at(alloc: Global, state: &mut State, normal: Option<Variables>) -> Exits
    ensures exits { result ≡ exits_of (only_end normal) }
    ensures variables { state.new.variables ≡ variables_of normal }
    ensures found { state.new.found ≡ state.old.found }
{
    match normal {
        Some(here) => {
            state.replace(here);
            Exits {
                reached: true,
                breaks: None,
                continues: None,
            }
        }
        None => {
            state.replace(Variables::new(alloc));
            Exits {
                reached: false,
                breaks: None,
                continues: None,
            }
        }
    }
}
