// The check of an expression.
ghost use Rattle.hack_decls.specs.Asks.{Asks};
ghost use Rattle.hack_decls.specs.Names.{TypeIn};
ghost use Rattle.hack_expr.specs.Judged.{GivenIn, IsJudged, OutIn};
ghost use Rattle.hack_parts.specs.ExprIn.{ExprIn};
ghost use Rattle.hack_rules.specs.Expressions.{judged};
ghost use Rattle.hack_walk.specs.Checks.{Walks, setting_of};

use crate::tie::value;
use hack_decls::{DeclStop, Decls};
use hack_parts::Reading;
use hack_sub::Scope;
use hack_tree::Expr;
use hack_types::{Diag, HackType, Names};
use hack_walk::{Setting, State, Variables};
use std::alloc::Global;

/// What a check of an expression answers (docs/language.md, Typing expressions).
#[derive(Drop)]
pub struct ExprOut {
    /// Its type.
    pub ty: HackType,
    /// The variables behind it.
    pub env: Variables,
    /// Its diagnostics, in the order in which they were found.
    pub diags: Vec<Diag>,
}

/// The type of an expression in these variables, with the variables behind it and its diagnostics (docs/language.md, Typing
/// expressions). `EdgesFull` says that a lookup's note was refused, and `NoMemory` that memory ran out; what was noted before stays noted.
pub fn check_expr<D: Decls>(
    alloc: Global,
    names: &Names,
    decls: &mut D,
    scope: &Scope,
    env: &Variables,
    e: &Expr,
) -> Result<ExprOut, DeclStop>
    ensures { Asks (D.state decls.old) result (D.state decls.new)
        (IsJudged (record { names = names.now; scope = scope.now }) env.now e.now)
        (λ symbols. GivenIn symbols scope.now env.now e.now) OutIn }
{
    let variables = env.copy(alloc)?;
    let mut state = State::new(alloc, variables);
    let setting = Setting { names, scope };
    let ty = check(alloc, &setting, decls, &mut state, e)?;
    let (env, diags) = state.into_parts();
    Ok(ExprOut { ty, env, diags })
}

/// The type of an expression over a lent state, in which the variables become those behind it and its diagnostics go behind those that
/// stand (docs/language.md, Typing expressions). `EdgesFull` says that a lookup's note was refused, and `NoMemory` that memory ran out;
/// what was noted before stays noted.
pub fn check<D: Decls>(
    alloc: Global,
    setting: &Setting<'_>,
    decls: &mut D,
    state: &mut State,
    e: &Expr,
) -> Result<HackType, DeclStop>
    ensures { Walks (judged e.now) (setting_of setting.now)
        (D.state decls.old) state.old result (D.state decls.new) state.new
        (λ symbols. ExprIn setting.now.scope.now symbols e.now) TypeIn }
{
    value(alloc, setting, decls, state, e, Reading::Value)
}
