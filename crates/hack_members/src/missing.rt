// Types that have no such member.
ghost use Rattle.hack_decls.specs.Names.{TypeIn};
ghost use Rattle.hack_diag.specs.Messages.{may_be_null, no_constant, no_method, no_property};
ghost use Rattle.hack_rules.specs.Walks.{refuse, report};
ghost use Rattle.hack_decls.specs.Asks.{Nothing};
ghost use Rattle.hack_walk.specs.Checks.{Steps, setting_of};
ghost use Rattle.hack_members.specs.Wanting.{wanted_of};

use crate::{Sought, Wanted};
use hack_diag::{may_be_null, no_constant, no_method, no_property};
use hack_types::{HackType, NameId, NoMemory, Place};
use hack_walk::{Setting, State};
use std::alloc::Global;

/// 4006, 4007 or 4008 and `_`: a type has no such member (docs/language.md, Typing expressions, Members). An error says that memory
/// ran out.
pub(crate) fn missing(
    alloc: Global,
    setting: &Setting<'_>,
    state: &mut State,
    at: Place,
    wanted: &Wanted<'_>,
    head: &HackType,
) -> Result<HackType, NoMemory>
    ensures { Steps (refuse at ((wanted_of at wanted.now).missing head.now)) (setting_of setting.now)
        state.old result state.new (λ symbols. Unit {0}) TypeIn }
{
    match &wanted.sought {
        Sought::Property => refuse_property(alloc, setting, state, at, wanted.name, head),
        Sought::Method { .. } => refuse_method(alloc, setting, state, at, wanted.name, head),
        Sought::Constant { shown } => {
            refuse_constant(alloc, setting, state, at, *shown, wanted.name)
        }
    }
}

fn refuse_property(
    alloc: Global,
    setting: &Setting<'_>,
    state: &mut State,
    at: Place,
    name: NameId,
    head: &HackType,
) -> Result<HackType, NoMemory>
    ensures { Steps (refuse at (no_property name head.now)) (setting_of setting.now)
        state.old result state.new (λ symbols. Unit {0}) TypeIn }
{
    let diag = no_property(alloc, setting.names, at, name, head)?;
    state.report(diag)?;
    Ok(HackType::Any)
}

fn refuse_method(
    alloc: Global,
    setting: &Setting<'_>,
    state: &mut State,
    at: Place,
    name: NameId,
    head: &HackType,
) -> Result<HackType, NoMemory>
    ensures { Steps (refuse at (no_method name head.now)) (setting_of setting.now)
        state.old result state.new (λ symbols. Unit {0}) TypeIn }
{
    let diag = no_method(alloc, setting.names, at, name, head)?;
    state.report(diag)?;
    Ok(HackType::Any)
}

fn refuse_constant(
    alloc: Global,
    setting: &Setting<'_>,
    state: &mut State,
    at: Place,
    shown: NameId,
    name: NameId,
) -> Result<HackType, NoMemory>
    ensures { Steps (refuse at (no_constant shown name)) (setting_of setting.now)
        state.old result state.new (λ symbols. Unit {0}) TypeIn }
{
    let diag = no_constant(alloc, setting.names, at, shown, name)?;
    state.report(diag)?;
    Ok(HackType::Any)
}

/// 4010: what stands before the member may be null (docs/language.md, Typing expressions, Members). An error says that memory ran out.
pub(crate) fn report_null(
    alloc: Global,
    _setting: &Setting<'_>,
    state: &mut State,
    at: Place,
) -> Result<(), NoMemory>
    ensures { Steps (report at may_be_null) (setting_of _setting.now)
        state.old result state.new (λ symbols. Unit {0}) Nothing }
{
    let diag = may_be_null(alloc, at)?;
    state.report(diag)?;
    Ok(())
}
