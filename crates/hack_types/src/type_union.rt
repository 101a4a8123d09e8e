// The type of a value of one of some types.
ghost use Rattle.std.specs.Prelude.{◌≡◌, IfOk, map, take};
ghost use Rattle.std.specs.List.{flat_map, list_any};
ghost use Rattle.hack_types.specs.SameType.{same_type};
ghost use Rattle.hack_types.specs.UnionOf.{has_null, joined, joined_within, members_by, once, parts_of, union_of};
ghost use Rattle.hack_types.specs.declared.hack_type.HackType.{out-HackType};

use crate::{HackType, NoMemory, into_option};
use sqlite_items::Items;
use std::alloc::Global;
use std::slice;

/// How many members a union may have, `null` not counted (docs/language.md, Types and their texts).
const MOST_MEMBERS: usize = 8;

/// The type of a value that is of one of these types; an error says that memory ran out
/// (docs/language.md, Types and their texts).
pub fn union_of(alloc: Global, types: &[HackType]) -> Result<HackType, NoMemory>
    ensures { IfOk result (λ union. union ≡ union_of types.now) }
{
    let parts = all_parts(alloc, types)?;
    let joined = joined_within(alloc, parts.as_slice())?;
    if any_has_null(types) {
        return into_option(alloc, joined);
    }
    Ok(joined)
}

// What the types have besides null, one after the other.
fn all_parts(alloc: Global, types: &[HackType]) -> Result<Vec<&HackType>, NoMemory>
    ensures { IfOk result (λ parts. map (λ part. part.now) parts.items ≡ flat_map parts_of types.now) }
{
    let mut parts = Vec::new(alloc);
    for ty in types {
        for part in parts_of(ty) {
            parts.push(part)?;
        }
    }
    Ok(parts)
}

// What the type has besides null; of `?T` that is what T has.
fn parts_of(ty: &HackType) -> &[HackType]
    ensures { result.now ≡ parts_of ty.now }
{
    match ty {
        HackType::Option(inside) => members_of(inside.get()),
        _ => members_of(ty),
    }
}

// Of a union its members, of `nothing` and `null` none, and any other type itself.
fn members_of(ty: &HackType) -> &[HackType]
    ensures { result.now ≡ members_by ty.now (out-HackType ty.now) }
{
    match ty {
        HackType::Union(members) => members.as_slice(),
        HackType::Nothing | HackType::Null => &[],
        _ => slice::from_ref(ty),
    }
}

fn any_has_null(types: &[HackType]) -> bool
    ensures { result ≡ list_any has_null types.now }
{
    for ty in types {
        if matches!(ty, HackType::Null | HackType::Option(_)) {
            return true;
        }
    }
    false
}

// The type of a value of one of these, none of which is a union or has null.
fn joined_within(alloc: Global, parts: &[&HackType]) -> Result<HackType, NoMemory>
    ensures { IfOk result (λ joined. joined ≡ joined_within (map (λ part. part.now) parts.now)) }
{
    if stands_in(&HackType::Any, parts) {
        return Ok(HackType::Any);
    }
    if stands_in(&HackType::Mixed, parts) {
        return Ok(HackType::Mixed);
    }
    let members = first_members(alloc, parts)?;
    if members.len() > MOST_MEMBERS {
        return Ok(HackType::Mixed);
    }
    joined(alloc, members.as_slice())
}

// Each type once, at its first place, and no more of them than show whether there are too many.
fn first_members<'a>(alloc: Global, parts: &[&'a HackType]) -> Result<Vec<&'a HackType>, NoMemory>
    ensures { IfOk result (λ members. map (λ part. part.now) members.items
        ≡ take 9 (once (map (λ part. part.now) parts.now))) }
{
    let mut members = Vec::new(alloc);
    for part in parts {
        if members.len() <= MOST_MEMBERS && !stands_in(part, members.as_slice()) {
            members.push(*part)?;
        }
    }
    Ok(members)
}

fn stands_in(ty: &HackType, types: &[&HackType]) -> bool
    ensures { result ≡ list_any (same_type ty.now) (map (λ part. part.now) types.now) }
{
    for other in types {
        if ty.same(other) {
            return true;
        }
    }
    false
}

// The type of a value of one of these, which differ.
fn joined(alloc: Global, members: &[&HackType]) -> Result<HackType, NoMemory>
    ensures { IfOk result (λ ty. ty ≡ joined (map (λ part. part.now) members.now)) }
{
    match members {
        [] => Ok(HackType::Nothing),
        [member] => member.copy(alloc),
        _ => Ok(HackType::Union(copies(alloc, members)?)),
    }
}

fn copies(alloc: Global, types: &[&HackType]) -> Result<Items<HackType>, NoMemory>
    ensures { IfOk result (λ copied. copied ≡ map (λ part. part.now) types.now) }
{
    let mut copied = Vec::with_capacity(alloc, types.len())?;
    for ty in types {
        copied.push(ty.copy(alloc)?)?;
    }
    Ok(Items::from_vec(copied))
}
