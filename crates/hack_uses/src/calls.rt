// Calls of functions, and `new`.
ghost use Rattle.std.specs.Prelude.{All, IsTrue, map};
ghost use Rattle.hack_decls.specs.Names.{TypeIn};
ghost use Rattle.hack_parts.specs.ExprIn.{ExprIn, ReferenceIn};
ghost use Rattle.hack_parts.specs.Parts.{Values};
ghost use Rattle.hack_rules.specs.Expressions.{meaning_of};
ghost use Rattle.hack_rules.specs.News.{new_row};
ghost use Rattle.hack_rules.specs.Uses.{call_row};
ghost use Rattle.hack_rules.specs.WrittenTypes.{names_of};
ghost use Rattle.hack_types.specs.declared.ids.Kind.TheVariants.{Func};
ghost use Rattle.hack_walk.specs.Checks.{Walks, setting_of};
ghost use Rattle.hack_written.specs.WrittenIn.{WrittenIn};

use crate::arguments::arguments_of;
use hack_calls::call_function;
use hack_decls::{DeclStop, Decls};
use hack_new::new_class;
use hack_parts::Reading;
use hack_tree::{ClassReference, Expr, WrittenType};
use hack_types::{HackType, NameId, Place};
use hack_walk::{Setting, State};
use std::alloc::Global;

/// A call of a function: its arguments, and then what the function gives, else 4002 and `_` (docs/language.md, Typing expressions,
/// Calls). `EdgesFull` says that a lookup's note was refused, and `NoMemory` that memory ran out; what was noted before stays noted.
pub fn call<
    D: Decls,
    F: Fn(Global, &Setting<'_>, &mut D, &mut State, &Expr, Reading) -> Result<HackType, DeclStop>,
>(
    value: &F,
    alloc: Global,
    setting: &Setting<'_>,
    decls: &mut D,
    state: &mut State,
    at: Place,
    name: NameId,
    arguments: &[Expr],
) -> Result<HackType, DeclStop>
    requires { All (λ e. Values D.state e (F.pre value.now) (F.post value.now)) arguments.now }
    ensures { Walks (call_row at name (map meaning_of arguments.now)) (setting_of setting.now)
        (D.state decls.old) state.old result (D.state decls.new) state.new
        (λ symbols. IsTrue (symbols (record { kind = Func; name = name }))
        × All (ExprIn setting.now.scope.now symbols) arguments.now) TypeIn }
{
    let given = arguments_of(value, alloc, setting, decls, state, arguments)?;
    call_function(alloc, setting, decls, state, at, name, given.as_slice())
}

/// `new`: its arguments, then what stands behind it with its type arguments, and the constructor (docs/language.md, Typing expressions,
/// New). The errors are as those of `call`.
pub fn new_instance<
    D: Decls,
    F: Fn(Global, &Setting<'_>, &mut D, &mut State, &Expr, Reading) -> Result<HackType, DeclStop>,
>(
    value: &F,
    alloc: Global,
    setting: &Setting<'_>,
    decls: &mut D,
    state: &mut State,
    at: Place,
    class_at: Place,
    class: &ClassReference,
    types: &[WrittenType],
    arguments: &[Expr],
) -> Result<HackType, DeclStop>
    requires { All (λ e. Values D.state e (F.pre value.now) (F.post value.now)) arguments.now }
    ensures { Walks (new_row at class_at class.now types.now (map meaning_of arguments.now))
        (setting_of setting.now) (D.state decls.old) state.old result (D.state decls.new) state.new
        (λ symbols. ReferenceIn symbols class.now
        × All (WrittenIn (names_of setting.now.scope.now) symbols) types.now
        × All (ExprIn setting.now.scope.now symbols) arguments.now) TypeIn }
{
    let given = arguments_of(value, alloc, setting, decls, state, arguments)?;
    new_class(
        alloc,
        setting,
        decls,
        state,
        at,
        class_at,
        class,
        types,
        given.as_slice(),
    )
}
