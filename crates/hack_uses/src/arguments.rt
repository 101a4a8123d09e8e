// Arguments.
ghost use Rattle.std.specs.Prelude.{◌≡◌, ◌++◌, ◌∷◌, [], All, OnOk, map};
ghost use Rattle.hack_calls.specs.Named.{GivenIn};
ghost use Rattle.hack_decls.specs.Names.{TypeIn};
ghost use Rattle.hack_parts.specs.ExprIn.{ExprIn};
ghost use Rattle.hack_parts.specs.Parts.{Values};
ghost use Rattle.hack_rules.specs.Calls.{argument, arguments_of};
ghost use Rattle.hack_rules.specs.Expressions.{meaning_of};
ghost use Rattle.hack_walk.specs.Checks.{Walks, setting_of};

use hack_calls::Argument;
use hack_decls::{DeclStop, Decls};
use hack_parts::{Reading, place_of};
use hack_tree::Expr;
use hack_types::{HackType, NoMemory};
use hack_walk::{Setting, State};
use sqlite_items::Items;
use std::alloc::Global;

/// The arguments, typed from left to right, each with its place (docs/language.md, Typing expressions, Calls). `EdgesFull` says that a
/// lookup's note was refused, and `NoMemory` that memory ran out; what was noted before stays noted.
pub(crate) fn arguments_of<
    D: Decls,
    F: Fn(Global, &Setting<'_>, &mut D, &mut State, &Expr, Reading) -> Result<HackType, DeclStop>,
>(
    value: &F,
    alloc: Global,
    setting: &Setting<'_>,
    decls: &mut D,
    state: &mut State,
    arguments: &[Expr],
) -> Result<Items<Argument>, DeclStop>
    requires { All (λ e. Values D.state e (F.pre value.now) (F.post value.now)) arguments.now }
    ensures { Walks (arguments_of (map meaning_of arguments.now)) (setting_of setting.now)
        (D.state decls.old) state.old result (D.state decls.new) state.new
        (λ symbols. All (ExprIn setting.now.scope.now symbols) arguments.now) GivenIn }
{
    let mut given = Items::new(alloc);
    for argument in arguments {
        let typed = argument_of(value, alloc, setting, decls, state, argument)?;
        push(&mut given, typed)?;
    }
    Ok(given)
}

fn argument_of<
    D: Decls,
    F: Fn(Global, &Setting<'_>, &mut D, &mut State, &Expr, Reading) -> Result<HackType, DeclStop>,
>(
    value: &F,
    alloc: Global,
    setting: &Setting<'_>,
    decls: &mut D,
    state: &mut State,
    e: &Expr,
) -> Result<Argument, DeclStop>
    requires { Values D.state e.now (F.pre value.now) (F.post value.now) }
    ensures { Walks (argument (meaning_of e.now)) (setting_of setting.now)
        (D.state decls.old) state.old result (D.state decls.new) state.new
        (λ symbols. ExprIn setting.now.scope.now symbols e.now)
        (λ symbols given. TypeIn symbols given.ty) }
{
    let at = place_of(e);
    let ty = value(alloc, setting, decls, state, e, Reading::Value)?;
    Ok(Argument { at, ty })
}

fn push(given: &mut Items<Argument>, argument: Argument) -> Result<(), NoMemory>
    ensures { OnOk result (given.new ≡ given.old ++ argument ∷ []) }
{
    Ok(given.push(argument)?)
}
