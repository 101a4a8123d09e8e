// Statements in a row.
ghost use Rattle.std.specs.Prelude.{◌≡◌, All, Ok, map};
ghost use Rattle.hack_flow.specs.Doings.{Doings};
ghost use Rattle.hack_flow.specs.Settled.{ExitsIn, inside_of, settled};
ghost use Rattle.hack_flow.specs.StmtIn.{StmtIn};
ghost use Rattle.hack_rules.specs.Ends.{block, ends_here};
ghost use Rattle.hack_rules.specs.Statements.{doing_of};
ghost use Rattle.hack_walk.specs.Checks.{Steps, Walks, setting_of};

use crate::exits::with_leaves;
use crate::{Exits, Inside};
use hack_decls::{DeclStop, Decls};
use hack_tree::Stmt;
use hack_walk::{Setting, State};
use std::alloc::Global;

/// The statement ends here, and in no other way (docs/language.md, Typing statements).
pub fn here(_setting: &Setting<'_>, _state: &State) -> Exits
    ensures { Steps (settled ends_here) (setting_of _setting.now) _state.now
        (Ok result) _state.now (λ symbols. Unit {0}) ExitsIn }
{
    Exits {
        reached: true,
        breaks: None,
        continues: None,
    }
}

/// Statements in a row, each where a path reaches it (docs/language.md, Typing statements, Blocks). `EdgesFull` says that a lookup's note was
/// refused, and `NoMemory` that memory ran out; what was noted before stays noted.
pub fn block<
    D: Decls,
    S: Fn(Global, &Setting<'_>, &mut D, &mut State, Inside, &Stmt) -> Result<Exits, DeclStop>,
>(
    statement: &S,
    alloc: Global,
    setting: &Setting<'_>,
    decls: &mut D,
    state: &mut State,
    inside: Inside,
    statements: &[Stmt],
) -> Result<Exits, DeclStop>
    requires { All (λ s. Doings D.state s (S.pre statement.now) (S.post statement.now))
        statements.now }
    ensures { Walks (settled (block (map doing_of statements.now) (inside_of inside)))
        (setting_of setting.now) (D.state decls.old) state.old result (D.state decls.new) state.new
        (λ symbols. All (StmtIn setting.now.scope.now symbols) statements.now) ExitsIn }
{
    let mut so_far = Exits {
        reached: true,
        breaks: None,
        continues: None,
    };
    for next in statements {
        let exits = statement(alloc, setting, decls, state, inside, next)?;
        so_far = with_leaves(alloc, so_far, exits)?;
        if !so_far.reached {
            return Ok(so_far);
        }
    }
    Ok(so_far)
}
