// What stands behind an operand makes of one target another.
ghost use Rattle.std.specs.Prelude.{All, IfSome, map, option_map};
ghost use Rattle.hack_operators.specs.Seen.{operation_seen};
ghost use Rattle.hack_parts.specs.ExprIn.{ExprIn, SuffixIn};
ghost use Rattle.hack_parts.specs.Parts.{Values};
ghost use Rattle.hack_rules.specs.Expressions.{meaning_of};
ghost use Rattle.hack_rules.specs.Uses.{index_row};
ghost use Rattle.hack_targets.specs.AimIn.{AimIn, IndexIn};
ghost use Rattle.hack_uses.specs.SubParts.{AllInSuffix};
ghost use Rattle.hack_uses.specs.inside.Steps.{increment_step, index_step, method_called, method_step, property_step, suffix_step, typed_index};
ghost use Rattle.hack_walk.specs.Checks.{Walks, setting_of};
ghost use Rattle.hack_decls.specs.Names.{TypeIn};

use crate::arguments::arguments_of;
use crate::storing::increased_target;
use hack_decls::{DeclStop, Decls};
use hack_members::{Sought, StaticUse, Wanted, member_of};
use hack_operators::Operation;
use hack_parts::{Reading, form_of, place_of};
use hack_targets::{Index, Target, into_value, read};
use hack_tree::{Expr, Suffix};
use hack_types::{HackType, NameId, Place};
use hack_walk::{Setting, State};
use std::alloc::Global;

/// What a suffix makes of what stands before it, whose parts were typed; the place is that of the first token (docs/language.md,
/// Typing expressions, Members and Index). `EdgesFull` says that a lookup's note was refused, and `NoMemory` that memory ran out; what
/// was noted before stays noted.
pub(crate) fn with_suffix<
    D: Decls,
    F: Fn(Global, &Setting<'_>, &mut D, &mut State, &Expr, Reading) -> Result<HackType, DeclStop>,
>(
    value: &F,
    alloc: Global,
    setting: &Setting<'_>,
    decls: &mut D,
    state: &mut State,
    at: Place,
    target: Target,
    suffix: &Suffix,
) -> Result<Target, DeclStop>
    requires { AllInSuffix (λ e. Values D.state e (F.pre value.now) (F.post value.now)) suffix.now }
    ensures { Walks (suffix_step at suffix.now target) (setting_of setting.now)
        (D.state decls.old) state.old result (D.state decls.new) state.new
        (λ symbols. AimIn symbols target × SuffixIn setting.now.scope.now symbols suffix.now) AimIn }
{
    match suffix {
        Suffix::Index { index } => match index {
            Some(index) => element(value, alloc, setting, decls, state, at, target, index.get()),
            None => last_element(alloc, setting, decls, state, at, target),
        },
        Suffix::Member {
            null_safe,
            name,
            arguments,
        } => match arguments {
            Some(arguments) => method(
                value,
                alloc,
                setting,
                decls,
                state,
                at,
                target,
                *null_safe,
                *name,
                arguments.as_slice(),
            ),
            None => property(alloc, setting, decls, state, at, target, *null_safe, *name),
        },
        Suffix::Increment => counted(alloc, setting, decls, state, at, target, Operation::Add),
        Suffix::Decrement => {
            counted(
                alloc,
                setting,
                decls,
                state,
                at,
                target,
                Operation::Subtract,
            )
        }
    }
}

// `e[i]`
fn element<
    D: Decls,
    F: Fn(Global, &Setting<'_>, &mut D, &mut State, &Expr, Reading) -> Result<HackType, DeclStop>,
>(
    value: &F,
    alloc: Global,
    setting: &Setting<'_>,
    decls: &mut D,
    state: &mut State,
    at: Place,
    target: Target,
    index: &Expr,
) -> Result<Target, DeclStop>
    requires { Values D.state index.now (F.pre value.now) (F.post value.now) }
    ensures { Walks (index_step at (Some (meaning_of index.now)) target) (setting_of setting.now)
        (D.state decls.old) state.old result (D.state decls.new) state.new
        (λ symbols. AimIn symbols target × ExprIn setting.now.scope.now symbols index.now) AimIn }
{
    let ty = read(alloc, setting, decls, state, false, &target)?;
    let typed = index_of(value, alloc, setting, decls, state, index)?;
    Ok(target.element(at, ty, Some(typed))?)
}

// `e[]`
fn last_element<D: Decls>(
    alloc: Global,
    setting: &Setting<'_>,
    decls: &mut D,
    state: &mut State,
    at: Place,
    target: Target,
) -> Result<Target, DeclStop>
    ensures { Walks (index_step at None target) (setting_of setting.now)
        (D.state decls.old) state.old result (D.state decls.new) state.new
        (λ symbols. AimIn symbols target) AimIn }
{
    let ty = read(alloc, setting, decls, state, false, &target)?;
    Ok(target.element(at, ty, None)?)
}

// An index with its place, its key and its type.
fn index_of<
    D: Decls,
    F: Fn(Global, &Setting<'_>, &mut D, &mut State, &Expr, Reading) -> Result<HackType, DeclStop>,
>(
    value: &F,
    alloc: Global,
    setting: &Setting<'_>,
    decls: &mut D,
    state: &mut State,
    index: &Expr,
) -> Result<Index, DeclStop>
    requires { Values D.state index.now (F.pre value.now) (F.post value.now) }
    ensures { Walks (typed_index (meaning_of index.now)) (setting_of setting.now)
        (D.state decls.old) state.old result (D.state decls.new) state.new
        (λ symbols. ExprIn setting.now.scope.now symbols index.now) IndexIn }
{
    let at = place_of(index);
    let key = form_of(index).key;
    let ty = value(alloc, setting, decls, state, index, Reading::Value)?;
    Ok(Index { at, key, ty })
}

// `e->p` and `e?->p`
fn property<D: Decls>(
    alloc: Global,
    setting: &Setting<'_>,
    decls: &mut D,
    state: &mut State,
    at: Place,
    target: Target,
    null_safe: bool,
    name: NameId,
) -> Result<Target, DeclStop>
    ensures { Walks (property_step at null_safe name target) (setting_of setting.now)
        (D.state decls.old) state.old result (D.state decls.new) state.new
        (λ symbols. AimIn symbols target) AimIn }
{
    let base = into_value(alloc, setting, decls, state, false, target)?;
    let wanted = Wanted {
        name,
        static_use: StaticUse::InstanceAlone,
        null_safe,
        sought: Sought::Property,
    };
    let ty = member_of(alloc, setting, decls, state, at, &wanted, &base)?;
    Ok(Target::property(alloc, ty))
}

// `e->m(..)` and `e?->m(..)`
fn method<
    D: Decls,
    F: Fn(Global, &Setting<'_>, &mut D, &mut State, &Expr, Reading) -> Result<HackType, DeclStop>,
>(
    value: &F,
    alloc: Global,
    setting: &Setting<'_>,
    decls: &mut D,
    state: &mut State,
    at: Place,
    target: Target,
    null_safe: bool,
    name: NameId,
    arguments: &[Expr],
) -> Result<Target, DeclStop>
    requires { All (λ e. Values D.state e (F.pre value.now) (F.post value.now)) arguments.now }
    ensures { Walks (method_step at null_safe name (map meaning_of arguments.now) target)
        (setting_of setting.now) (D.state decls.old) state.old result (D.state decls.new) state.new
        (λ symbols. AimIn symbols target
        × All (ExprIn setting.now.scope.now symbols) arguments.now) AimIn }
{
    let base = into_value(alloc, setting, decls, state, false, target)?;
    let ty = called(
        value, alloc, setting, decls, state, at, &base, null_safe, name, arguments,
    )?;
    Ok(Target::other(alloc, at, ty))
}

// A method of this type with its arguments.
fn called<
    D: Decls,
    F: Fn(Global, &Setting<'_>, &mut D, &mut State, &Expr, Reading) -> Result<HackType, DeclStop>,
>(
    value: &F,
    alloc: Global,
    setting: &Setting<'_>,
    decls: &mut D,
    state: &mut State,
    at: Place,
    base: &HackType,
    null_safe: bool,
    name: NameId,
    arguments: &[Expr],
) -> Result<HackType, DeclStop>
    requires { All (λ e. Values D.state e (F.pre value.now) (F.post value.now)) arguments.now }
    ensures { Walks (method_called at null_safe name (map meaning_of arguments.now) base.now)
        (setting_of setting.now) (D.state decls.old) state.old result (D.state decls.new) state.new
        (λ symbols. TypeIn symbols base.now
        × All (ExprIn setting.now.scope.now symbols) arguments.now) TypeIn }
{
    let given = arguments_of(value, alloc, setting, decls, state, arguments)?;
    let wanted = Wanted {
        name,
        static_use: StaticUse::InstanceAlone,
        null_safe,
        sought: Sought::Method {
            given: given.as_slice(),
        },
    };
    member_of(alloc, setting, decls, state, at, &wanted, base)
}

// `e++` and `e--`
fn counted<D: Decls>(
    alloc: Global,
    setting: &Setting<'_>,
    decls: &mut D,
    state: &mut State,
    at: Place,
    target: Target,
    operation: Operation,
) -> Result<Target, DeclStop>
    ensures { Walks (increment_step at (operation_seen operation) target) (setting_of setting.now)
        (D.state decls.old) state.old result (D.state decls.new) state.new
        (λ symbols. AimIn symbols target) AimIn }
{
    let ty = increased_target(alloc, setting, decls, state, at, target, operation)?;
    Ok(Target::other(alloc, at, ty))
}
