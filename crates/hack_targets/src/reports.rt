// Diagnostics, and the type of what can't be known.
ghost use Rattle.hack_decls.specs.Names.{TypeIn};
ghost use Rattle.hack_diag.specs.Messages.{field_may_miss, may_be_null, no_field, not_indexed};
ghost use Rattle.hack_diag.specs.Messages as message;
ghost use Rattle.hack_decls.specs.Asks.{Nothing};
ghost use Rattle.hack_rules.specs.Walks.{refuse, report};
ghost use Rattle.hack_walk.specs.Checks.{Steps, setting_of};

use hack_diag::{field_may_miss, may_be_null, no_field, not_assignable, not_indexed};
use hack_types::{HackType, NameId, NoMemory, Place};
use hack_walk::{Setting, State};
use std::alloc::Global;

/// 4010: it may be null.
pub(crate) fn refuse_null(
    alloc: Global,
    _setting: &Setting<'_>,
    state: &mut State,
    at: Place,
) -> Result<HackType, NoMemory>
    ensures { Steps (refuse at may_be_null) (setting_of _setting.now) state.old result state.new
        (λ symbols. Unit {0}) TypeIn }
{
    let diag = may_be_null(alloc, at)?;
    state.report(diag)?;
    Ok(HackType::Any)
}

/// 4013: a value of this type can't be indexed so.
pub(crate) fn refuse_indexed(
    alloc: Global,
    setting: &Setting<'_>,
    state: &mut State,
    at: Place,
    head: &HackType,
) -> Result<HackType, NoMemory>
    ensures { Steps (refuse at (not_indexed head.now)) (setting_of setting.now)
        state.old result state.new (λ symbols. Unit {0}) TypeIn }
{
    let diag = not_indexed(alloc, setting.names, at, head)?;
    state.report(diag)?;
    Ok(HackType::Any)
}

/// The same of a type that is let go.
pub(crate) fn refuse_base(
    alloc: Global,
    setting: &Setting<'_>,
    state: &mut State,
    at: Place,
    head: HackType,
) -> Result<HackType, NoMemory>
    ensures { Steps (refuse at (not_indexed head)) (setting_of setting.now)
        state.old result state.new (λ symbols. Unit {0}) TypeIn }
{
    let refused = refuse_indexed(alloc, setting, state, at, &head);
    drop(head);
    refused
}

/// 4014: the shape has no such field.
pub(crate) fn refuse_field(
    alloc: Global,
    setting: &Setting<'_>,
    state: &mut State,
    at: Place,
    key: NameId,
) -> Result<HackType, NoMemory>
    ensures { Steps (refuse at (no_field key)) (setting_of setting.now)
        state.old result state.new (λ symbols. Unit {0}) TypeIn }
{
    let diag = no_field(alloc, setting.names, at, key)?;
    state.report(diag)?;
    Ok(HackType::Any)
}

/// 4015: the shape may be without this field.
pub(crate) fn report_missing(
    alloc: Global,
    setting: &Setting<'_>,
    state: &mut State,
    at: Place,
    key: NameId,
) -> Result<(), NoMemory>
    ensures { Steps (report at (field_may_miss key)) (setting_of setting.now)
        state.old result state.new (λ symbols. Unit {0}) Nothing }
{
    let diag = field_may_miss(alloc, setting.names, at, key)?;
    state.report(diag)?;
    Ok(())
}

/// 4016: this can't be assigned to.
pub(crate) fn report_assigned(
    alloc: Global,
    _setting: &Setting<'_>,
    state: &mut State,
    at: Place,
) -> Result<(), NoMemory>
    ensures { Steps (report at message.not_assignable) (setting_of _setting.now)
        state.old result state.new (λ symbols. Unit {0}) Nothing }
{
    let diag = not_assignable(alloc, at)?;
    state.report(diag)?;
    Ok(())
}
