// Whole written types.
ghost use Rattle.std.specs.Prelude.{◌≡◌, IfOk, OnOk, if◌then◌else◌, nat_le};
ghost use Rattle.hack_types.specs.Substituted.{limited, most_nodes};
ghost use Rattle.hack_types.specs.TypeNodes.{nodes};
ghost use Rattle.hack_decls.specs.Names.{TypeIn};
ghost use Rattle.hack_diag.specs.Messages.{too_big};
ghost use Rattle.hack_rules.specs.WrittenTypes.{class_mention, mention, names_of, whole_class, whole_mention};
ghost use Rattle.hack_rules.specs.WrittenTypes.{used_trait, written, written_class};
ghost use Rattle.hack_shallow.specs.Scopes.{scope_of};
ghost use Rattle.hack_walk.specs.Checks.{Walks, setting_of};
ghost use Rattle.hack_written.specs.Reported.{reported};
ghost use Rattle.hack_written.specs.WrittenIn.{ClassIn, WrittenIn};

use crate::around::Around;
use crate::parameters::{class_names, names_of};
use crate::parts::{checked, checked_class, place_of};
use crate::reports::report_too_big;
use hack_decls::{DeclStop, Decls};
use hack_shallow::Scope;
use hack_tree::{ClassType, WrittenType};
use hack_types::{HackType, MOST_NODES, NoMemory, Place};
use hack_walk::{Setting, State};
use std::alloc::Global;

/// The type that a written type is, with its diagnostics: `_`, and 3006 at its first token, where it has more than 256 nodes; no bounds
/// are tried in it then (docs/language.md, Written types). `EdgesFull` says that a lookup's note was refused, and `NoMemory` that
/// memory ran out; what was noted before stays noted.
pub fn written<D: Decls>(
    alloc: Global,
    setting: &Setting<'_>,
    decls: &mut D,
    state: &mut State,
    ty: &WrittenType,
) -> Result<HackType, DeclStop>
    ensures { Walks (written ty.now)
        (setting_of setting.now) (D.state decls.old) state.old result (D.state decls.new) state.new
        (λ symbols. WrittenIn (names_of (setting_of setting.now).scope) symbols ty.now) TypeIn }
{
    let class = class_names(alloc, setting.scope)?;
    let function = names_of(alloc, setting.scope.fun_params.as_slice())?;
    let names = Scope {
        class: &class,
        function: &function,
    };
    whole_type(alloc, setting, &names, decls, state, ty)
}

/// The type that a name with its arguments is, with its diagnostics, behind `extends` and `implements` and in `catch`, where no trait
/// stands (docs/language.md, Written types). The errors are as those of `written`.
pub fn written_class<D: Decls>(
    alloc: Global,
    setting: &Setting<'_>,
    decls: &mut D,
    state: &mut State,
    class: &ClassType,
) -> Result<HackType, DeclStop>
    ensures { Walks (written_class class.now)
        (setting_of setting.now) (D.state decls.old) state.old result (D.state decls.new) state.new
        (λ symbols. ClassIn (names_of (setting_of setting.now).scope) symbols class.now) TypeIn }
{
    named_class(alloc, setting, decls, state, class, false)
}

/// The same behind `use`, where a trait stands (docs/language.md, Written types). The errors are as those of `written`.
pub fn used_trait<D: Decls>(
    alloc: Global,
    setting: &Setting<'_>,
    decls: &mut D,
    state: &mut State,
    class: &ClassType,
) -> Result<HackType, DeclStop>
    ensures { Walks (used_trait class.now)
        (setting_of setting.now) (D.state decls.old) state.old result (D.state decls.new) state.new
        (λ symbols. ClassIn (names_of (setting_of setting.now).scope) symbols class.now) TypeIn }
{
    named_class(alloc, setting, decls, state, class, true)
}

// A name in the scope's names.
fn named_class<D: Decls>(
    alloc: Global,
    setting: &Setting<'_>,
    decls: &mut D,
    state: &mut State,
    class: &ClassType,
    traits: bool,
) -> Result<HackType, DeclStop>
    ensures { Walks
        (whole_class traits (class_mention (names_of (setting_of setting.now).scope) class.now))
        (setting_of setting.now) (D.state decls.old) state.old result (D.state decls.new) state.new
        (λ symbols. ClassIn (names_of (setting_of setting.now).scope) symbols class.now) TypeIn }
{
    let outer = class_names(alloc, setting.scope)?;
    let function = names_of(alloc, setting.scope.fun_params.as_slice())?;
    let names = Scope {
        class: &outer,
        function: &function,
    };
    whole_name(alloc, setting, &names, decls, state, class, traits)
}

// A written type whose names are looked up among these parameters.
fn whole_type<D: Decls>(
    alloc: Global,
    setting: &Setting<'_>,
    names: &Scope<'_, '_>,
    decls: &mut D,
    state: &mut State,
    ty: &WrittenType,
) -> Result<HackType, DeclStop>
    ensures { Walks (whole_mention (mention (scope_of names.now) ty.now))
        (setting_of setting.now) (D.state decls.old) state.old result (D.state decls.new) state.new
        (λ symbols. WrittenIn (scope_of names.now) symbols ty.now) TypeIn }
{
    let bounds = is_small_type(alloc, names, ty)?;
    let around = Around {
        alloc,
        setting,
        parameters: names,
        bounds,
    };
    let found = checked(&around, decls, state, ty)?;
    Ok(finished(alloc, setting, state, place_of(ty), found, bounds)?)
}

// A name that is looked up among these parameters.
fn whole_name<D: Decls>(
    alloc: Global,
    setting: &Setting<'_>,
    names: &Scope<'_, '_>,
    decls: &mut D,
    state: &mut State,
    class: &ClassType,
    traits: bool,
) -> Result<HackType, DeclStop>
    ensures { Walks (whole_class traits (class_mention (scope_of names.now) class.now))
        (setting_of setting.now) (D.state decls.old) state.old result (D.state decls.new) state.new
        (λ symbols. ClassIn (scope_of names.now) symbols class.now) TypeIn }
{
    let bounds = is_small_class(alloc, names, class)?;
    let around = Around {
        alloc,
        setting,
        parameters: names,
        bounds,
    };
    let found = checked_class(&around, decls, state, class, traits)?;
    Ok(finished(alloc, setting, state, class.at, found, bounds)?)
}

// Whether the type has at most 256 nodes.
fn is_small_type(alloc: Global, names: &Scope<'_, '_>, ty: &WrittenType) -> Result<bool, NoMemory>
    ensures { IfOk result (λ small. small
        ≡ nat_le (nodes (mention (scope_of names.now) ty.now).ty) most_nodes) }
{
    let ty = names.resolved(alloc, ty)?;
    Ok(is_small(ty))
}

// Whether the type of a name has at most 256 nodes.
fn is_small_class(alloc: Global, names: &Scope<'_, '_>, class: &ClassType) -> Result<bool, NoMemory>
    ensures { IfOk result (λ small. small
        ≡ nat_le (nodes (class_mention (scope_of names.now) class.now).ty) most_nodes) }
{
    let ty = names.resolved_class(alloc, class)?;
    Ok(is_small(ty))
}

fn is_small(ty: HackType) -> bool
    ensures { result ≡ nat_le (nodes ty) most_nodes }
{
    ty.is_within(MOST_NODES)
}

// 3006 and `_` for a type that isn't small.
fn finished(
    alloc: Global,
    setting: &Setting<'_>,
    state: &mut State,
    at: Place,
    ty: HackType,
    is_small: bool,
) -> Result<HackType, NoMemory>
    requires { is_small ≡ nat_le (nodes ty) most_nodes }
    ensures answer { IfOk result (λ answer. answer ≡ limited ty) }
    ensures state { OnOk result (state.new ≡ (if is_small then state.old
        else reported (setting_of setting.now) at too_big state.old)) }
{
    if is_small {
        return Ok(ty);
    }
    report_too_big(alloc, setting, state, at)?;
    Ok(HackType::Any)
}
