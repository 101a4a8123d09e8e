// Diagnostics behind those that stand.
ghost use Rattle.std.specs.Prelude.{◌≡◌, IfOk, OnOk, codes};
ghost use Rattle.hack_diag.specs.Messages as message;
ghost use Rattle.hack_walk.specs.Checks.{setting_of};
ghost use Rattle.hack_written.specs.Reported.{reported, with_diag};

use hack_diag::{
    field_twice, not_allowed, other_arguments, out_of_bounds, too_big, trait_as_type, unbound_type,
};
use hack_types::{Diag, HackType, NameId, NoMemory, Place};
use hack_walk::{Setting, State};
use std::alloc::Global;

// A diagnostic goes behind those that stand.
fn report(state: &mut State, diag: Diag) -> Result<(), NoMemory>
    ensures { OnOk result (state.new ≡ with_diag diag state.old) }
{
    state.report(diag)
}

/// 3001: nothing declares a type of this name.
pub(crate) fn report_unbound(
    alloc: Global,
    setting: &Setting<'_>,
    state: &mut State,
    at: Place,
    name: NameId,
) -> Result<(), NoMemory>
    ensures { OnOk result (state.new
        ≡ reported (setting_of setting.now) at (message.unbound_type name) state.old) }
{
    report(state, unbound_type(alloc, setting.names, at, name)?)
}

/// 3002: the type takes another number of arguments.
pub(crate) fn report_count(
    alloc: Global,
    setting: &Setting<'_>,
    state: &mut State,
    at: Place,
    name: NameId,
    wanted: usize,
    found: usize,
) -> Result<(), NoMemory>
    ensures { OnOk result (state.new
        ≡ reported (setting_of setting.now) at
        (message.other_arguments name wanted found) state.old) }
{
    let wanted = narrow(wanted)?;
    let found = narrow(found)?;
    report(
        state,
        other_arguments(alloc, setting.names, at, name, wanted, found)?,
    )
}

// The number as a u32; one that is larger is answered as want of memory.
fn narrow(number: usize) -> Result<u32, NoMemory>
    ensures { IfOk result (λ narrow. narrow ≡ number) }
{
    u32::try_from(number).map_err(|_| NoMemory)
}

/// 3004: a trait stands where a type is needed.
pub(crate) fn report_trait(
    alloc: Global,
    setting: &Setting<'_>,
    state: &mut State,
    at: Place,
    name: NameId,
) -> Result<(), NoMemory>
    ensures { OnOk result (state.new
        ≡ reported (setting_of setting.now) at (message.trait_as_type name) state.old) }
{
    report(state, trait_as_type(alloc, setting.names, at, name)?)
}

/// 3006: a written type has more than 256 nodes.
pub(crate) fn report_too_big(
    alloc: Global,
    _setting: &Setting<'_>,
    state: &mut State,
    at: Place,
) -> Result<(), NoMemory>
    ensures { OnOk result (state.new
        ≡ reported (setting_of _setting.now) at message.too_big state.old) }
{
    report(state, too_big(alloc, at)?)
}

/// 3212: a type argument is not within the bounds of the parameter with this text.
pub(crate) fn report_out_of_bounds(
    alloc: Global,
    setting: &Setting<'_>,
    state: &mut State,
    at: Place,
    argument: &HackType,
    param: &[u8],
) -> Result<(), NoMemory>
    ensures { OnOk result (state.new ≡ reported (setting_of setting.now) at
        (message.out_of_bounds argument.now (λ names. param.now)) state.old) }
{
    report(
        state,
        out_of_bounds(alloc, setting.names, at, argument, param)?,
    )
}

/// 4020: `this` outside a class.
pub(crate) fn report_this(
    alloc: Global,
    _setting: &Setting<'_>,
    state: &mut State,
    at: Place,
) -> Result<(), NoMemory>
    ensures { OnOk result (state.new
        ≡ reported (setting_of _setting.now) at (message.not_allowed (codes "this")) state.old) }
{
    report(state, not_allowed(alloc, at, b"this")?)
}

/// 4023: a shape has this field twice.
pub(crate) fn report_field(
    alloc: Global,
    setting: &Setting<'_>,
    state: &mut State,
    at: Place,
    key: NameId,
) -> Result<(), NoMemory>
    ensures { OnOk result (state.new
        ≡ reported (setting_of setting.now) at (message.field_twice key) state.old) }
{
    report(state, field_twice(alloc, setting.names, at, key)?)
}
