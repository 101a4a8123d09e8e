// Members of any type: of unions, options, and what has neither.
ghost use Rattle.std.specs.Prelude.{◌≡◌, ◌++◌, ◌∷◌, [], All, IfOk, OnOk};
ghost use Rattle.hack_decls.specs.Names.{TypeIn};
ghost use Rattle.hack_rules.specs.Members.{each_member, member_of, members_within, through_null};
ghost use Rattle.hack_rules.specs.Walks.{each, pure};
ghost use Rattle.hack_types.specs.declared.hack_type.HackType.TheVariants.{Any};
ghost use Rattle.hack_types.specs.OptionOf.{option_of};
ghost use Rattle.hack_types.specs.Substituted.{limited};
ghost use Rattle.hack_types.specs.UnionOf.{union_of};
ghost use Rattle.hack_walk.specs.Checks.{Steps, Walks, setting_of};
ghost use Rattle.hack_members.specs.Wanting.{SoughtIn, wanted_of};
ghost use Rattle.hack_members.specs.inside.Rows as row;

use crate::Wanted;
use crate::found::member_of_head;
use crate::missing::report_null;
use hack_calls::{head_of, or_self};
use hack_decls::{DeclStop, Decls};
use hack_infer::MOST_STEPS;
use hack_types::{HackType, MOST_NODES, NoMemory, Place, into_option, limited, union_of};
use hack_walk::{Setting, State};
use sqlite_items::Items;
use std::alloc::Global;

/// What a member of a type gives: of a union each member's, of an option and of null 4010 or, behind `?->`, an option; `_` and
/// `nothing` give `_` (docs/language.md, Typing expressions, Members). `EdgesFull` says that a lookup's note was refused, and
/// `NoMemory` that memory ran out; what was noted before stays noted.
pub fn member_of<D: Decls>(
    alloc: Global,
    setting: &Setting<'_>,
    decls: &mut D,
    state: &mut State,
    at: Place,
    wanted: &Wanted<'_>,
    ty: &HackType,
) -> Result<HackType, DeclStop>
    ensures { Walks (member_of at (wanted_of at wanted.now) ty.now) (setting_of setting.now)
        (D.state decls.old) state.old result (D.state decls.new) state.new
        (λ symbols. TypeIn symbols ty.now × SoughtIn symbols wanted.now) TypeIn }
{
    members_within(
        alloc, setting, decls, state, at, wanted, MOST_NODES, MOST_STEPS, ty,
    )
}

// The member of a type, with unions and options in each other so deep, and at most so many options.
#[cycle(members)]
fn members_within<D: Decls>(
    alloc: Global,
    setting: &Setting<'_>,
    decls: &mut D,
    state: &mut State,
    at: Place,
    wanted: &Wanted<'_>,
    turns: u32,
    options: u32,
    ty: &HackType,
) -> Result<HackType, DeclStop>
    ensures { Walks (members_within turns at (wanted_of at wanted.now) options ty.now)
        (setting_of setting.now) (D.state decls.old) state.old result (D.state decls.new) state.new
        (λ symbols. TypeIn symbols ty.now × SoughtIn symbols wanted.now) TypeIn }
{
    if turns == 0 {
        return Ok(HackType::Any);
    }
    let head = head_of(alloc, decls, setting.scope, ty)?;
    by_head(
        alloc,
        setting,
        decls,
        state,
        at,
        wanted,
        turns - 1,
        options,
        ty,
        or_self(&head, ty),
    )
}

// The same, by the head.
#[cycle(members)]
fn by_head<D: Decls>(
    alloc: Global,
    setting: &Setting<'_>,
    decls: &mut D,
    state: &mut State,
    at: Place,
    wanted: &Wanted<'_>,
    turns: u32,
    options: u32,
    receiver: &HackType,
    head: &HackType,
) -> Result<HackType, DeclStop>
    ensures { Walks (row.by_head turns options at (wanted_of at wanted.now) receiver.now head.now)
        (setting_of setting.now) (D.state decls.old) state.old result (D.state decls.new) state.new
        (λ symbols. TypeIn symbols receiver.now × TypeIn symbols head.now
        × SoughtIn symbols wanted.now) TypeIn }
{
    match head {
        HackType::Any => Ok(HackType::Any),
        HackType::Nothing => Ok(HackType::Any),
        HackType::Union(members) => each_member(
            alloc,
            setting,
            decls,
            state,
            at,
            wanted,
            turns,
            options,
            members.as_slice(),
        ),
        HackType::Option(inside) => of_option(
            alloc,
            setting,
            decls,
            state,
            at,
            wanted,
            turns,
            options,
            inside.get(),
        ),
        HackType::Null => Ok(of_null(alloc, setting, state, at, wanted.null_safe)?),
        _ => member_of_head(alloc, setting, decls, state, at, wanted, receiver, head),
    }
}

// Each member of a union, and the union of what they give.
#[cycle(members)]
fn each_member<D: Decls>(
    alloc: Global,
    setting: &Setting<'_>,
    decls: &mut D,
    state: &mut State,
    at: Place,
    wanted: &Wanted<'_>,
    turns: u32,
    options: u32,
    members: &[HackType],
) -> Result<HackType, DeclStop>
    ensures { Walks (each_member
        (members_within turns at (wanted_of at wanted.now) options) members.now)
        (setting_of setting.now) (D.state decls.old) state.old result (D.state decls.new) state.new
        (λ symbols. All (TypeIn symbols) members.now × SoughtIn symbols wanted.now) TypeIn }
{
    let types = types_of_members(
        alloc, setting, decls, state, at, wanted, turns, options, members,
    )?;
    Ok(union_in_limits(alloc, types)?)
}

#[cycle(members)]
fn types_of_members<D: Decls>(
    alloc: Global,
    setting: &Setting<'_>,
    decls: &mut D,
    state: &mut State,
    at: Place,
    wanted: &Wanted<'_>,
    turns: u32,
    options: u32,
    members: &[HackType],
) -> Result<Items<HackType>, DeclStop>
    ensures { Walks (each (members_within turns at (wanted_of at wanted.now) options) members.now)
        (setting_of setting.now) (D.state decls.old) state.old result (D.state decls.new) state.new
        (λ symbols. All (TypeIn symbols) members.now × SoughtIn symbols wanted.now)
        (λ symbols types. All (TypeIn symbols) types) }
{
    let mut types = Items::new(alloc);
    for member in members {
        let ty = members_within(
            alloc, setting, decls, state, at, wanted, turns, options, member,
        )?;
        push(&mut types, ty)?;
    }
    Ok(types)
}

fn push(types: &mut Items<HackType>, ty: HackType) -> Result<(), NoMemory>
    ensures { OnOk result (types.new ≡ types.old ++ ty ∷ []) }
{
    Ok(types.push(ty)?)
}

// The union of these, and `_` where it has more than 256 nodes.
fn union_in_limits(alloc: Global, types: Items<HackType>) -> Result<HackType, NoMemory>
    ensures { IfOk result (λ union. union ≡ limited (union_of types)) }
{
    let union = union_of(alloc, types.as_slice());
    drop(types);
    Ok(limited(union?))
}

// What is inside an option, in at most so many such steps.
#[cycle(members)]
fn of_option<D: Decls>(
    alloc: Global,
    setting: &Setting<'_>,
    decls: &mut D,
    state: &mut State,
    at: Place,
    wanted: &Wanted<'_>,
    turns: u32,
    options: u32,
    inside: &HackType,
) -> Result<HackType, DeclStop>
    ensures { Walks (through_null at wanted.now.null_safe
        (row.inside_option turns options at (wanted_of at wanted.now) inside.now))
        (setting_of setting.now) (D.state decls.old) state.old result (D.state decls.new) state.new
        (λ symbols. TypeIn symbols inside.now × SoughtIn symbols wanted.now) TypeIn }
{
    if wanted.null_safe {
        let ty = inside_option(
            alloc, setting, decls, state, at, wanted, turns, options, inside,
        )?;
        return Ok(option_in_limits(alloc, ty)?);
    }
    report_null(alloc, setting, state, at)?;
    inside_option(
        alloc, setting, decls, state, at, wanted, turns, options, inside,
    )
}

#[cycle(members)]
fn inside_option<D: Decls>(
    alloc: Global,
    setting: &Setting<'_>,
    decls: &mut D,
    state: &mut State,
    at: Place,
    wanted: &Wanted<'_>,
    turns: u32,
    options: u32,
    inside: &HackType,
) -> Result<HackType, DeclStop>
    ensures { Walks (row.inside_option turns options at (wanted_of at wanted.now) inside.now)
        (setting_of setting.now) (D.state decls.old) state.old result (D.state decls.new) state.new
        (λ symbols. TypeIn symbols inside.now × SoughtIn symbols wanted.now) TypeIn }
{
    if options == 0 {
        return Ok(HackType::Any);
    }
    members_within(
        alloc,
        setting,
        decls,
        state,
        at,
        wanted,
        turns,
        options - 1,
        inside,
    )
}

// The option of a type, and `_` where it has more than 256 nodes.
fn option_in_limits(alloc: Global, ty: HackType) -> Result<HackType, NoMemory>
    ensures { IfOk result (λ option. option ≡ limited (option_of ty)) }
{
    Ok(limited(into_option(alloc, ty)?))
}

// Null has no members.
fn of_null(
    alloc: Global,
    setting: &Setting<'_>,
    state: &mut State,
    at: Place,
    null_safe: bool,
) -> Result<HackType, NoMemory>
    ensures { Steps (through_null at null_safe (pure Any)) (setting_of setting.now)
        state.old result state.new (λ symbols. Unit {0}) TypeIn }
{
    if null_safe {
        return Ok(option_in_limits(alloc, HackType::Any)?);
    }
    report_null(alloc, setting, state, at)?;
    Ok(HackType::Any)
}
