// Refinement: what tests say of the type of a variable.
ghost use Rattle.std.specs.Prelude.{◌≡◌, ◌++◌, ◌∷◌, [], filter, if◌then◌else◌, not, OnOk};
ghost use Rattle.hack_types.specs.UnionOf.{union_of};
ghost use Rattle.hack_decls.specs.Names.{TypeIn};
ghost use Rattle.hack_sub.specs.IsBelow.{is_below};
ghost use Rattle.hack_sub.specs.Named.{PairIn};
ghost use Rattle.hack_sub.specs.Sub.{most_height};
ghost use Rattle.hack_rules.specs.Refining.{narrowed, where_is, where_is_not};
ghost use Rattle.hack_walk.specs.Checks.{Reads};
ghost use Rattle.hack_walk.specs.inside.Calls.{ManyIn, is_nonnull, is_null, members_apart, others};

use crate::is_below;
use hack_decls::{DeclStop, Decls};
use hack_infer::without_null;
use hack_sub::{Scope, union_members};
use hack_types::{HackType, NoMemory, union_of};
use std::alloc::Global;

/// What a type becomes where a value of it is of the tested one: the tested one if that is below it, itself if it is below the tested one,
/// and else the tested one; of `nonnull`, the type without null (docs/language.md, Typing expressions, Refinement). `EdgesFull` says that a
/// lookup's note was refused, and `NoMemory` that memory ran out; what was noted before stays noted.
pub fn where_is<D: Decls>(
    alloc: Global,
    decls: &mut D,
    scope: &Scope,
    tested: &HackType,
    own: &HackType,
) -> Result<HackType, DeclStop>
    ensures { Reads (λ map scope. where_is map scope tested.now own.now) scope.now
        (D.state decls.old) result (D.state decls.new)
        (λ symbols. PairIn symbols scope.now tested.now own.now) TypeIn }
{
    if is_nonnull(tested) {
        return without_null(alloc, decls, own);
    }
    narrowed(alloc, decls, scope, tested, own)
}

fn narrowed<D: Decls>(
    alloc: Global,
    decls: &mut D,
    scope: &Scope,
    tested: &HackType,
    own: &HackType,
) -> Result<HackType, DeclStop>
    ensures { Reads (λ map scope. narrowed map scope own.now tested.now) scope.now
        (D.state decls.old) result (D.state decls.new)
        (λ symbols. PairIn symbols scope.now tested.now own.now) TypeIn }
{
    let within = is_below(alloc, decls, scope, tested, own)?;
    if within {
        return Ok(tested.copy(alloc)?);
    }
    own_or_tested(alloc, decls, scope, tested, own)
}

fn own_or_tested<D: Decls>(
    alloc: Global,
    decls: &mut D,
    scope: &Scope,
    tested: &HackType,
    own: &HackType,
) -> Result<HackType, DeclStop>
    ensures { Reads (λ map scope. if is_below map scope most_height own.now tested.now
        then own.now else tested.now) scope.now
        (D.state decls.old) result (D.state decls.new)
        (λ symbols. PairIn symbols scope.now tested.now own.now) TypeIn }
{
    let within = is_below(alloc, decls, scope, own, tested)?;
    Ok(one_of(within, own, tested).copy(alloc)?)
}

fn one_of<'a>(first: bool, one: &'a HackType, other: &'a HackType) -> &'a HackType
    ensures { result.now ≡ (if first then one.now else other.now) }
{
    if first { one } else { other }
}

/// What a type becomes where a value of it isn't of the tested one: of a union those members that aren't below the tested one, and else the
/// type itself; where `nonnull` was tested `null`, and where `null` was, the type without null
/// (docs/language.md, Typing expressions, Refinement). `EdgesFull` says that a lookup's note was refused, and `NoMemory` that memory ran
/// out; what was noted before stays noted.
pub fn where_is_not<D: Decls>(
    alloc: Global,
    decls: &mut D,
    scope: &Scope,
    tested: &HackType,
    own: &HackType,
) -> Result<HackType, DeclStop>
    ensures { Reads (λ map scope. where_is_not map scope tested.now own.now) scope.now
        (D.state decls.old) result (D.state decls.new)
        (λ symbols. PairIn symbols scope.now tested.now own.now) TypeIn }
{
    if is_nonnull(tested) {
        return Ok(HackType::Null);
    }
    if is_null(tested) {
        return without_null(alloc, decls, own);
    }
    others(alloc, decls, scope, tested, own)
}

fn is_nonnull(ty: &HackType) -> bool
    ensures { result ≡ is_nonnull ty.now }
{
    matches!(ty, HackType::Nonnull)
}

fn is_null(ty: &HackType) -> bool
    ensures { result ≡ is_null ty.now }
{
    matches!(ty, HackType::Null)
}

// Of a union those members that aren't below the tested type.
fn others<D: Decls>(
    alloc: Global,
    decls: &mut D,
    scope: &Scope,
    tested: &HackType,
    own: &HackType,
) -> Result<HackType, DeclStop>
    ensures { Reads (λ map scope. others map scope own.now tested.now) scope.now
        (D.state decls.old) result (D.state decls.new)
        (λ symbols. PairIn symbols scope.now tested.now own.now) TypeIn }
{
    match union_members(own) {
        Some(members) => members_apart(alloc, decls, scope, tested, members),
        None => Ok(own.copy(alloc)?),
    }
}

// The union of those members.
fn members_apart<D: Decls>(
    alloc: Global,
    decls: &mut D,
    scope: &Scope,
    tested: &HackType,
    members: &[HackType],
) -> Result<HackType, DeclStop>
    ensures { Reads (λ map scope. union_of (members_apart map scope tested.now members.now)) scope.now
        (D.state decls.old) result (D.state decls.new)
        (λ symbols. ManyIn symbols scope.now members.now tested.now) TypeIn }
{
    let mut apart = Vec::new(alloc);
    for member in members {
        let within = is_below(alloc, decls, scope, member, tested)?;
        keep_unless(alloc, &mut apart, within, member)?;
    }
    Ok(union_of(alloc, apart.as_slice())?)
}

fn keep_unless(
    alloc: Global,
    types: &mut Vec<HackType>,
    leaves: bool,
    ty: &HackType,
) -> Result<(), NoMemory>
    ensures { OnOk result (types.new.items
        ≡ (if not leaves then types.old.items ++ ty.now ∷ [] else types.old.items)) }
{
    if !leaves {
        types.push(ty.copy(alloc)?)?;
    }
    Ok(())
}
