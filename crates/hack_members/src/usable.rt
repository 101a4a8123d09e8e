// What is wrong with the use of a member.
ghost use Rattle.std.specs.Prelude.{◌≡◌, not};
ghost use Rattle.hack_decls.specs.Asks.{Nothing};
ghost use Rattle.hack_diag.specs.Messages.{against_static, not_visible};
ghost use Rattle.hack_rules.specs.Members.{expect_usable, fits_static};
ghost use Rattle.hack_rules.specs.Walks.{unless};
ghost use Rattle.hack_walk.specs.Checks.{Steps, Walks, setting_of};
ghost use Rattle.hack_members.specs.Wanting.{static_of};

use crate::StaticUse;
use crate::visible::is_visible;
use hack_decls::{DeclStop, Decls};
use hack_diag::{against_static, not_visible};
use hack_types::{Member, NoMemory, Place};
use hack_walk::{Setting, State};
use std::alloc::Global;

/// 4009 where the scope's class may not use this member, and 4018 where it must be static and isn't, or must not be and is
/// (docs/language.md, Typing expressions, Members). `EdgesFull` says that a lookup's note was refused, and `NoMemory` that memory ran
/// out; what was noted before stays noted.
pub fn expect_usable<D: Decls>(
    alloc: Global,
    setting: &Setting<'_>,
    decls: &mut D,
    state: &mut State,
    at: Place,
    use_: StaticUse,
    member: &Member,
) -> Result<(), DeclStop>
    ensures { Walks (expect_usable at (static_of use_) member.now) (setting_of setting.now)
        (D.state decls.old) state.old result (D.state decls.new) state.new
        (λ symbols. Unit {0}) Nothing }
{
    let visible = is_visible(alloc, decls, setting.scope, member)?;
    unless_visible(alloc, setting, state, at, visible, member)?;
    unless_fits(alloc, setting, state, at, use_, member)?;
    Ok(())
}

// 4009 unless this holds.
fn unless_visible(
    alloc: Global,
    setting: &Setting<'_>,
    state: &mut State,
    at: Place,
    visible: bool,
    member: &Member,
) -> Result<(), NoMemory>
    ensures { Steps (unless visible at (not_visible member.now.name member.now.origin))
        (setting_of setting.now) state.old result state.new (λ symbols. Unit {0}) Nothing }
{
    if visible {
        return Ok(());
    }
    let diag = not_visible(alloc, setting.names, at, member.name, member.origin)?;
    state.report(diag)?;
    Ok(())
}

// 4018 unless the member is used as it may be.
fn unless_fits(
    alloc: Global,
    setting: &Setting<'_>,
    state: &mut State,
    at: Place,
    use_: StaticUse,
    member: &Member,
) -> Result<(), NoMemory>
    ensures { Steps (unless (fits_static (static_of use_) member.now.is_static) at
        (against_static member.now.name))
        (setting_of setting.now) state.old result state.new (λ symbols. Unit {0}) Nothing }
{
    if fits_static(use_, member.is_static) {
        return Ok(());
    }
    let diag = against_static(alloc, setting.names, at, member.name)?;
    state.report(diag)?;
    Ok(())
}

fn fits_static(use_: StaticUse, is_static: bool) -> bool
    ensures { result ≡ fits_static (static_of use_) is_static }
{
    match use_ {
        StaticUse::StaticAlone => is_static,
        StaticUse::InstanceAlone => !is_static,
        StaticUse::AnyUse => true,
    }
}
