// Types without null.
ghost use Rattle.std.specs.Prelude.{◌≡◌, ◌++◌, ◌∷◌, [], All, IfOk, IfSome, OnOk, Some, map};
ghost use Rattle.hack_types.specs.UnionOf.{union_of};
ghost use Rattle.hack_decls.specs.Asks.{Asks};
ghost use Rattle.hack_decls.specs.Names.{TypeIn};
ghost use Rattle.hack_sub.specs.Parts.{name_of, option_inside, union_members};
ghost use Rattle.hack_infer.specs.Seeing.{most_steps};
ghost use Rattle.hack_infer.specs.WithoutNull.{alias_by, comes_to, coming_by, loses_null, members_by, named_by, option_by, plain_without, without_null, without_null_in};

use crate::sights::{MOST_STEPS, opened};
use hack_decls::{DeclStop, Decls};
use hack_sub::{name_of, option_inside, union_members};
use hack_types::{HackType, MOST_NODES, NoMemory, union_of};
use std::alloc::Global;

/// The type of what is of this type and isn't null (docs/language.md, Typing expressions, Heads): an alias is expanded at most sixteen
/// times, and what isn't known to have null among its values stays as it is. `EdgesFull` says that a lookup's note was refused, and
/// `NoMemory` that memory ran out; what was noted before stays noted.
pub fn without_null<D: Decls>(
    alloc: Global,
    decls: &mut D,
    ty: &HackType,
) -> Result<HackType, DeclStop>
    ensures { Asks (D.state decls.old) result (D.state decls.new)
        (λ map answer. answer ≡ without_null map ty.now) (λ symbols. TypeIn symbols ty.now) TypeIn }
{
    without_null_in(alloc, decls, MOST_NODES, ty)
}

// The same, with unions in unions so deep.
#[cycle(without)]
fn without_null_in<D: Decls>(
    alloc: Global,
    decls: &mut D,
    turns: u32,
    ty: &HackType,
) -> Result<HackType, DeclStop>
    ensures { Asks (D.state decls.old) result (D.state decls.new)
        (λ map answer. answer ≡ without_null_in turns map ty.now)
        (λ symbols. TypeIn symbols ty.now) TypeIn }
{
    if turns == 0 {
        return Ok(ty.copy(alloc)?);
    }
    by_option(alloc, decls, turns - 1, ty)
}

#[cycle(without)]
fn by_option<D: Decls>(
    alloc: Global,
    decls: &mut D,
    turns: u32,
    ty: &HackType,
) -> Result<HackType, DeclStop>
    ensures { Asks (D.state decls.old) result (D.state decls.new)
        (λ map answer. answer
        ≡ option_by (without_null_in turns map) map ty.now (option_inside ty.now))
        (λ symbols. TypeIn symbols ty.now) TypeIn }
{
    match option_inside(ty) {
        Some(inside) => Ok(inside.copy(alloc)?),
        None => by_members(alloc, decls, turns, ty),
    }
}

#[cycle(without)]
fn by_members<D: Decls>(
    alloc: Global,
    decls: &mut D,
    turns: u32,
    ty: &HackType,
) -> Result<HackType, DeclStop>
    ensures { Asks (D.state decls.old) result (D.state decls.new)
        (λ map answer. answer
        ≡ members_by (without_null_in turns map) map ty.now (union_members ty.now))
        (λ symbols. TypeIn symbols ty.now) TypeIn }
{
    match union_members(ty) {
        Some(members) => union_without(alloc, decls, turns, members),
        None => by_name(alloc, decls, turns, ty),
    }
}

#[cycle(without)]
fn by_name<D: Decls>(
    alloc: Global,
    decls: &mut D,
    turns: u32,
    ty: &HackType,
) -> Result<HackType, DeclStop>
    ensures { Asks (D.state decls.old) result (D.state decls.new)
        (λ map answer. answer ≡ named_by (without_null_in turns map) map ty.now (name_of ty.now))
        (λ symbols. TypeIn symbols ty.now) TypeIn }
{
    match name_of(ty) {
        Some(_) => alias_without(alloc, decls, turns, ty),
        None => Ok(plain_without(alloc, ty)?),
    }
}

// The union of the members without null.
#[cycle(without)]
fn union_without<D: Decls>(
    alloc: Global,
    decls: &mut D,
    turns: u32,
    members: &[HackType],
) -> Result<HackType, DeclStop>
    ensures { Asks (D.state decls.old) result (D.state decls.new)
        (λ m answer. answer ≡ union_of (map (without_null_in turns m) members.now))
        (λ symbols. All (TypeIn symbols) members.now) TypeIn }
{
    let mut parts = Vec::new(alloc);
    for member in members {
        let part = without_null_in(alloc, decls, turns, member)?;
        push(&mut parts, part)?;
    }
    Ok(union_of(alloc, parts.as_slice())?)
}

fn push(types: &mut Vec<HackType>, ty: HackType) -> Result<(), NoMemory>
    ensures { OnOk result (types.new.items ≡ types.old.items ++ ty ∷ []) }
{
    types.push(ty)?;
    Ok(())
}

// What an alias comes to, without null.
#[cycle(without)]
fn alias_without<D: Decls>(
    alloc: Global,
    decls: &mut D,
    turns: u32,
    ty: &HackType,
) -> Result<HackType, DeclStop>
    ensures { Asks (D.state decls.old) result (D.state decls.new)
        (λ map answer. answer
        ≡ alias_by (without_null_in turns map) ty.now (comes_to most_steps map ty.now))
        (λ symbols. TypeIn symbols ty.now) TypeIn }
{
    let next = comes_to(alloc, decls, MOST_STEPS, ty)?;
    match &next {
        Some(next) => without_null_in(alloc, decls, turns, next),
        None => Ok(ty.copy(alloc)?),
    }
}

// `mixed`, `null` and types that stay.
fn plain_without(alloc: Global, ty: &HackType) -> Result<HackType, NoMemory>
    ensures { IfOk result (λ answer. answer ≡ plain_without ty.now) }
{
    match ty {
        HackType::Mixed => Ok(HackType::Nonnull),
        HackType::Null => Ok(HackType::Nothing),
        _ => ty.copy(alloc),
    }
}

// The first type that changes where null is ruled out to which an alias comes in so many steps.
#[cycle(comes)]
fn comes_to<D: Decls>(
    alloc: Global,
    decls: &mut D,
    steps: u32,
    ty: &HackType,
) -> Result<Option<HackType>, DeclStop>
    ensures { Asks (D.state decls.old) result (D.state decls.new)
        (λ map answer. answer ≡ comes_to steps map ty.now) (λ symbols. TypeIn symbols ty.now)
        (λ symbols answer. IfSome answer (TypeIn symbols)) }
{
    if steps == 0 {
        return Ok(None);
    }
    let next = opened(alloc, decls, ty)?;
    match next {
        Some(next) => coming_by(alloc, decls, steps - 1, next),
        None => Ok(None),
    }
}

// From the next type on.
#[cycle(comes)]
fn coming_by<D: Decls>(
    alloc: Global,
    decls: &mut D,
    steps: u32,
    next: HackType,
) -> Result<Option<HackType>, DeclStop>
    ensures { Asks (D.state decls.old) result (D.state decls.new)
        (λ map answer. answer ≡ coming_by (comes_to steps map) (Some next))
        (λ symbols. TypeIn symbols next)
        (λ symbols answer. IfSome answer (TypeIn symbols)) }
{
    if loses_null(&next) {
        return Ok(Some(next));
    }
    comes_to(alloc, decls, steps, &next)
}

// Whether the type changes of itself where null is ruled out.
fn loses_null(ty: &HackType) -> bool
    ensures { result ≡ loses_null ty.now }
{
    matches!(
        ty,
        HackType::Mixed | HackType::Null | HackType::Option(_) | HackType::Union(_)
    )
}
