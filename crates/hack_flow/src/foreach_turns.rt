// The turns of a `foreach`.
ghost use Rattle.std.specs.Prelude.{◌≡◌, None};
ghost use Rattle.hack_decls.specs.Asks.{Nothing};
ghost use Rattle.hack_decls.specs.Names.{TypeIn};
ghost use Rattle.hack_flow.specs.Doings.{Doings};
ghost use Rattle.hack_flow.specs.Settled.{emptied, inside_of};
ghost use Rattle.hack_flow.specs.StmtIn.{StmtIn};
ghost use Rattle.hack_flow.specs.inside.Rows.{TurnIn};
ghost use Rattle.hack_rules.specs.Loops.{assign_key, foreach_turn};
ghost use Rattle.hack_rules.specs.Statements.{doing_of, key_name};
ghost use Rattle.hack_rules.specs.Walks.{assign};
ghost use Rattle.hack_walk.specs.Checks.{Steps, Walks, setting_of};

use crate::turns::{Turn, body_turn};
use crate::{Exits, Inside};
use hack_decls::{DeclStop, Decls};
use hack_tree::{DeclaredName, Stmt};
use hack_types::{HackType, NameId, NoMemory};
use hack_walk::{Setting, State};
use std::alloc::Global;

// The key is assigned, then the value, and then comes the body; behind the loop stands the entry.
pub(crate) fn foreach_turn<
    D: Decls,
    S: Fn(Global, &Setting<'_>, &mut D, &mut State, Inside, &Stmt) -> Result<Exits, DeclStop>,
>(
    statement: &S,
    alloc: Global,
    setting: &Setting<'_>,
    decls: &mut D,
    state: &mut State,
    inside: Inside,
    key_type: &HackType,
    value_type: &HackType,
    key: Option<NameId>,
    value: NameId,
    body: &Stmt,
) -> Result<Turn, DeclStop>
    requires { Doings D.state body.now (S.pre statement.now) (S.post statement.now) }
    ensures { Walks (emptied (foreach_turn (key_type.now, value_type.now) key value
        (doing_of body.now) (inside_of inside)))
        (setting_of setting.now) (D.state decls.old) state.old result (D.state decls.new) state.new
        (λ symbols. (TypeIn symbols key_type.now × TypeIn symbols value_type.now)
        × StmtIn setting.now.scope.now symbols body.now) TurnIn }
{
    let entry = state.variables().copy(alloc)?;
    assign_key(alloc, setting, state, key, key_type)?;
    assign_value(alloc, setting, state, value, value_type)?;
    body_turn(statement, alloc, setting, decls, state, inside, body, entry)
}

// The key's variable gets its type, where there is one.
fn assign_key(
    alloc: Global,
    setting: &Setting<'_>,
    state: &mut State,
    key: Option<NameId>,
    ty: &HackType,
) -> Result<(), NoMemory>
    ensures { Steps (assign_key key ty.now) (setting_of setting.now) state.old result state.new
        (λ symbols. TypeIn symbols ty.now) Nothing }
{
    match key {
        Some(name) => assign_value(alloc, setting, state, name, ty),
        None => Ok(()),
    }
}

fn assign_value(
    alloc: Global,
    _setting: &Setting<'_>,
    state: &mut State,
    name: NameId,
    ty: &HackType,
) -> Result<(), NoMemory>
    ensures { Steps (assign name ty.now) (setting_of _setting.now) state.old result state.new
        (λ symbols. TypeIn symbols ty.now) Nothing }
{
    let ty = ty.copy(alloc)?;
    state.assign(name, ty)?;
    Ok(())
}

// The key's variable, where there is one.
pub(crate) fn key_name(key: &Option<DeclaredName>) -> Option<NameId>
    ensures { result ≡ key_name key.now }
{
    match key {
        Some(key) => Some(key.name),
        None => None,
    }
}
