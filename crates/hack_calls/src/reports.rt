// Diagnostics of calls and of mentions.
ghost use Rattle.std.specs.Prelude.{◌≡◌, ◌&&◌, IfOk, length, nat_le};
ghost use Rattle.hack_decls.specs.Asks.{Nothing};
ghost use Rattle.hack_decls.specs.Names.{TypeIn};
ghost use Rattle.hack_diag.specs.Messages as message;
ghost use Rattle.hack_rules.specs.Calls.{expect_count};
ghost use Rattle.hack_rules.specs.Walks.{expect, refuse, report, unless};
ghost use Rattle.hack_walk.specs.Checks.{Steps, Walks, setting_of};

use crate::Argument;
use hack_decls::{DeclStop, Decls};
use hack_diag::{
    expected, not_allowed, other_count, trait_as_type, unbound_function, unbound_type,
};
use hack_types::{HackType, NameId, NoMemory, Place};
use hack_walk::{Setting, State, is_below};
use std::alloc::Global;

/// 4001 where a type is found that isn't below the one that is wanted (docs/language.md, Typing expressions). `EdgesFull` says that a
/// lookup's note was refused, and `NoMemory` that memory ran out; what was noted before stays noted.
pub fn expect<D: Decls>(
    alloc: Global,
    setting: &Setting<'_>,
    decls: &mut D,
    state: &mut State,
    at: Place,
    wanted: &HackType,
    found: &HackType,
) -> Result<(), DeclStop>
    ensures { Walks (expect at wanted.now found.now) (setting_of setting.now)
        (D.state decls.old) state.old result (D.state decls.new) state.new
        (λ symbols. TypeIn symbols wanted.now × TypeIn symbols found.now) Nothing }
{
    let fits = is_below(alloc, decls, setting.scope, found, wanted)?;
    report_unless(alloc, setting, state, fits, at, wanted, found)?;
    Ok(())
}

fn report_unless(
    alloc: Global,
    setting: &Setting<'_>,
    state: &mut State,
    fits: bool,
    at: Place,
    wanted: &HackType,
    found: &HackType,
) -> Result<(), NoMemory>
    ensures { Steps (unless fits at (message.expected wanted.now found.now))
        (setting_of setting.now) state.old result state.new (λ symbols. Unit {0}) Nothing }
{
    if fits {
        return Ok(());
    }
    let diag = expected(alloc, setting.names, at, wanted, found)?;
    state.report(diag)
}

/// 4004 where there are fewer arguments than `least`, or more than `most` (docs/language.md, Typing expressions, Calls). An error says
/// that memory ran out, or that there are 2^32 arguments or parameters.
pub fn expect_count(
    alloc: Global,
    setting: &Setting<'_>,
    state: &mut State,
    at: Place,
    least: usize,
    most: usize,
    given: &[Argument],
) -> Result<(), NoMemory>
    ensures { Steps (expect_count at least most given.now) (setting_of setting.now)
        state.old result state.new (λ symbols. Unit {0}) Nothing }
{
    if is_within(least, most, given) {
        return Ok(());
    }
    report_count(alloc, setting, state, at, least, most, given.len())
}

fn is_within(least: usize, most: usize, given: &[Argument]) -> bool
    ensures { result ≡ (nat_le least (length given.now) && nat_le (length given.now) most) }
{
    least <= given.len() && given.len() <= most
}

fn report_count(
    alloc: Global,
    _setting: &Setting<'_>,
    state: &mut State,
    at: Place,
    least: usize,
    most: usize,
    found: usize,
) -> Result<(), NoMemory>
    ensures { Steps (report at (message.other_count least most found)) (setting_of _setting.now)
        state.old result state.new (λ symbols. Unit {0}) Nothing }
{
    let least = narrow(least)?;
    let most = narrow(most)?;
    let found = narrow(found)?;
    let diag = other_count(alloc, at, least, most, found)?;
    state.report(diag)
}

/// The number as a `u32`; one that is larger is answered as want of memory.
pub(crate) fn narrow(number: usize) -> Result<u32, NoMemory>
    ensures { IfOk result (λ narrow. narrow ≡ number) }
{
    u32::try_from(number).map_err(|_| NoMemory)
}

/// 3001: nothing declares a type of this name.
pub(crate) fn report_unbound(
    alloc: Global,
    setting: &Setting<'_>,
    state: &mut State,
    at: Place,
    name: NameId,
) -> Result<(), NoMemory>
    ensures { Steps (report at (message.unbound_type name)) (setting_of setting.now)
        state.old result state.new (λ symbols. Unit {0}) Nothing }
{
    let diag = unbound_type(alloc, setting.names, at, name)?;
    state.report(diag)
}

/// 3004: a trait stands where a type is needed.
pub(crate) fn report_trait(
    alloc: Global,
    setting: &Setting<'_>,
    state: &mut State,
    at: Place,
    name: NameId,
) -> Result<(), NoMemory>
    ensures { Steps (report at (message.trait_as_type name)) (setting_of setting.now)
        state.old result state.new (λ symbols. Unit {0}) Nothing }
{
    let diag = trait_as_type(alloc, setting.names, at, name)?;
    state.report(diag)
}

/// 4002, and `_`: nothing declares a function of this name.
pub(crate) fn refuse_function(
    alloc: Global,
    setting: &Setting<'_>,
    state: &mut State,
    at: Place,
    name: NameId,
) -> Result<HackType, NoMemory>
    ensures { Steps (refuse at (message.unbound_function name)) (setting_of setting.now)
        state.old result state.new (λ symbols. Unit {0}) TypeIn }
{
    let diag = unbound_function(alloc, setting.names, at, name)?;
    state.report(diag)?;
    Ok(HackType::Any)
}

/// 4020: the word stands for nothing here.
pub(crate) fn report_not_allowed(
    alloc: Global,
    _setting: &Setting<'_>,
    state: &mut State,
    at: Place,
    word: &[u8],
) -> Result<(), NoMemory>
    ensures { Steps (report at (message.not_allowed word.now)) (setting_of _setting.now)
        state.old result state.new (λ symbols. Unit {0}) Nothing }
{
    let diag = not_allowed(alloc, at, word)?;
    state.report(diag)
}
