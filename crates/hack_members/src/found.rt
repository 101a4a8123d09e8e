// Members of one type without null.
ghost use Rattle.std.specs.Prelude.{◌≡◌, All, IfOk};
ghost use Rattle.hack_calls.specs.Named.{GivenIn};
ghost use Rattle.hack_decls.specs.NameLaws.{types_of_member_answer};
ghost use Rattle.hack_decls.specs.Names.{TypeIn, types_of_kind};
ghost use Rattle.hack_infer.specs.Filling.{filled_limited, filling_of};
ghost use Rattle.hack_rules.specs.Members.{member_of_head, type_by};
ghost use Rattle.hack_walk.specs.Checks.{Steps, Walks, setting_of};
ghost use Rattle.hack_written.specs.NamesFilled.{FillingIn};
ghost use Rattle.hack_members.specs.Wanting.{SoughtIn, sought_in, wanted_of};
ghost use Rattle.hack_members.specs.inside.Rows as row;

use crate::cases::case_of;
use crate::missing::missing;
use crate::usable::expect_usable;
use crate::visible::class_symbol;
use crate::{Sought, Wanted};
use hack_calls::{Argument, call_with, filled_limited};
use hack_decls::{DeclStop, Decls, MemberAnswer};
use hack_infer::Filling;
use hack_sub::{arguments_of, name_of};
use hack_types::{HackType, Member, MemberKind, NameId, NoMemory, Place};
use hack_walk::{Setting, State};
use std::alloc::Global;

/// The member of a head that is one type without null; `receiver` is the type before its head was taken (docs/language.md, Typing
/// expressions, Members). `EdgesFull` says that a lookup's note was refused, and `NoMemory` that memory ran out; what was noted before
/// stays noted.
pub(crate) fn member_of_head<D: Decls>(
    alloc: Global,
    setting: &Setting<'_>,
    decls: &mut D,
    state: &mut State,
    at: Place,
    wanted: &Wanted<'_>,
    receiver: &HackType,
    head: &HackType,
) -> Result<HackType, DeclStop>
    ensures { Walks (member_of_head at (wanted_of at wanted.now) receiver.now head.now)
        (setting_of setting.now) (D.state decls.old) state.old result (D.state decls.new) state.new
        (λ symbols. TypeIn symbols receiver.now × TypeIn symbols head.now
        × SoughtIn symbols wanted.now) TypeIn }
{
    match name_of(head) {
        Some(name) => member_of_name(
            alloc, setting, decls, state, at, wanted, receiver, head, name,
        ),
        None => Ok(missing(alloc, setting, state, at, wanted, head)?),
    }
}

// The member of a head of this name.
fn member_of_name<D: Decls>(
    alloc: Global,
    setting: &Setting<'_>,
    decls: &mut D,
    state: &mut State,
    at: Place,
    wanted: &Wanted<'_>,
    receiver: &HackType,
    head: &HackType,
    name: NameId,
) -> Result<HackType, DeclStop>
    ensures { Walks (row.member_of_name at wanted.now receiver.now head.now name)
        (setting_of setting.now) (D.state decls.old) state.old result (D.state decls.new) state.new
        (λ symbols. row.HeadIn symbols name receiver.now head.now wanted.now) TypeIn }
{
    let answer = decls.member(alloc, class_symbol(name), wanted.sought.tag(), wanted.name)?;
    by_answer(
        alloc, setting, decls, state, at, wanted, receiver, head, name, &answer,
    )
}

// The member, by what a lookup says.
fn by_answer<'a, D: Decls>(
    alloc: Global,
    setting: &Setting<'_>,
    decls: &mut D,
    state: &mut State,
    at: Place,
    wanted: &Wanted<'_>,
    receiver: &'a HackType,
    head: &'a HackType,
    name: NameId,
    answer: &MemberAnswer,
) -> Result<HackType, DeclStop>
    ensures { Walks (row.by_answer at wanted.now receiver.now head.now name answer.now)
        (setting_of setting.now) (D.state decls.old) state.old result (D.state decls.new) state.new
        (λ symbols. row.HeadIn symbols name receiver.now head.now wanted.now
        × All (TypeIn symbols) (types_of_member_answer answer.now)) TypeIn }
{
    match answer {
        MemberAnswer::At(member) => {
            let around = Filling {
                class: Some(arguments_of(head)),
                function: None,
                this: Some(receiver),
            };
            of_member(alloc, setting, decls, state, at, wanted, &around, member)
        }
        MemberAnswer::Missing { partial } => Ok(unless_partial(
            alloc, setting, state, at, wanted, head, *partial,
        )?),
        MemberAnswer::NotClass => { case_of(alloc, setting, decls, state, at, wanted, name, head) }
        MemberAnswer::Absent => Ok(missing(alloc, setting, state, at, wanted, head)?),
    }
}

// Of a partial class nobody knows.
fn unless_partial(
    alloc: Global,
    setting: &Setting<'_>,
    state: &mut State,
    at: Place,
    wanted: &Wanted<'_>,
    head: &HackType,
    partial: bool,
) -> Result<HackType, NoMemory>
    ensures { Steps (row.unless_partial at (wanted_of at wanted.now) head.now partial)
        (setting_of setting.now) state.old result state.new (λ symbols. Unit {0}) TypeIn }
{
    if partial {
        return Ok(HackType::Any);
    }
    missing(alloc, setting, state, at, wanted, head)
}

// What a member gives, if it may be used or not.
fn of_member<D: Decls>(
    alloc: Global,
    setting: &Setting<'_>,
    decls: &mut D,
    state: &mut State,
    at: Place,
    wanted: &Wanted<'_>,
    around: &Filling<'_>,
    member: &Member,
) -> Result<HackType, DeclStop>
    ensures { Walks (row.of_member at wanted.now (filling_of around.now) member.now)
        (setting_of setting.now) (D.state decls.old) state.old result (D.state decls.new) state.new
        (λ symbols. All (TypeIn symbols) (types_of_kind member.now.kind)
        × FillingIn symbols (filling_of around.now) × SoughtIn symbols wanted.now) TypeIn }
{
    expect_usable(alloc, setting, decls, state, at, wanted.static_use, member)?;
    gives(
        alloc,
        setting,
        decls,
        state,
        at,
        &wanted.sought,
        around,
        &member.kind,
    )
}

// The type of a property or of a constant, and what a call of a method gives.
fn gives<D: Decls>(
    alloc: Global,
    setting: &Setting<'_>,
    decls: &mut D,
    state: &mut State,
    at: Place,
    sought: &Sought<'_>,
    around: &Filling<'_>,
    kind: &MemberKind,
) -> Result<HackType, DeclStop>
    ensures { Walks (row.gives at sought.now (filling_of around.now) kind.now)
        (setting_of setting.now) (D.state decls.old) state.old result (D.state decls.new) state.new
        (λ symbols. All (TypeIn symbols) (types_of_kind kind.now)
        × FillingIn symbols (filling_of around.now) × sought_in symbols sought.now) TypeIn }
{
    match sought {
        Sought::Property => Ok(typed(alloc, around, kind)?),
        Sought::Constant { .. } => Ok(typed(alloc, around, kind)?),
        Sought::Method { given } => {
            called(alloc, setting, decls, state, at, given, around, kind)
        }
    }
}

// The type of a property or of a constant.
fn typed(alloc: Global, around: &Filling<'_>, kind: &MemberKind) -> Result<HackType, NoMemory>
    ensures { IfOk result (λ ty. ty ≡ filled_limited (filling_of around.now) (type_by kind.now)) }
{
    match kind {
        MemberKind::Property(ty) => filled_limited(alloc, ty, around),
        MemberKind::Constant(ty) => filled_limited(alloc, ty, around),
        MemberKind::Method(_) => filled_limited(alloc, &HackType::Any, around),
    }
}

// A method's signature is called.
fn called<D: Decls>(
    alloc: Global,
    setting: &Setting<'_>,
    decls: &mut D,
    state: &mut State,
    at: Place,
    given: &[Argument],
    around: &Filling<'_>,
    kind: &MemberKind,
) -> Result<HackType, DeclStop>
    ensures { Walks (row.called at given.now (filling_of around.now) kind.now)
        (setting_of setting.now) (D.state decls.old) state.old result (D.state decls.new) state.new
        (λ symbols. All (TypeIn symbols) (types_of_kind kind.now)
        × FillingIn symbols (filling_of around.now) × GivenIn symbols given.now) TypeIn }
{
    match kind {
        MemberKind::Method(signature) => {
            call_with(alloc, setting, decls, state, at, signature, around, given)
        }
        MemberKind::Property(_) => Ok(HackType::Any),
        MemberKind::Constant(_) => Ok(HackType::Any),
    }
}
