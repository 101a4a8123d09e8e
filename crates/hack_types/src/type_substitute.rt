// Types with types in the place of class parameters.
ghost use Rattle.std.specs.Prelude.{◌≡◌, ◌+◌, ◌<◌, ◌≤◌, IfOk, IfSome, IfNone, map, slice_index_or, sum_by};
ghost use Rattle.hack_types.specs.Substituted.{IsUnlessTooBig, limited, substitute};
ghost use Rattle.hack_types.specs.TypeNodes.{nodes};
ghost use Rattle.hack_types.specs.declared.hack_type.HackType.TheVariants.{Any};
ghost use Rattle.hack_types.specs.formers.fields.Fields.{on_type};

use crate::{Field, Fields, HackType, NoMemory, into_option, union_of};
use sqlite_items::{Boxed, Items};
use std::alloc::Global;

/// How many nodes a type may have (docs/language.md, Types and their texts).
pub const MOST_NODES: u32 = 256;

/// Why there is no type with other types put into it.
#[derive(Clone, Copy, Debug, PartialEq, Eq)]
pub enum SubstStop {
    /// It would have more than 256 nodes; where a type has to stand, `_` stands then.
    TooBig,
    /// Memory ran out.
    NoMemory,
}

impl From<NoMemory> for SubstStop {
    ghost use Rattle.hack_types.specs.declared.type_substitute.SubstStop.TheVariants as subst_stop;

    ghost from_gives = { λ _ stop. stop ≡ subst_stop.NoMemory };

    fn from(_error: NoMemory) -> SubstStop {
        SubstStop::NoMemory
    }
}

/// The type with these in the place of its class parameters, by position, and `_` where there are too few of them
/// (docs/language.md, Types and their texts). No type is made that is known to be too big before.
pub fn substitute(
    alloc: Global,
    ty: &HackType,
    arguments: &[HackType],
) -> Result<HackType, SubstStop>
    ensures { IsUnlessTooBig result (substitute arguments.now ty.now) }
{
    if ty.take_least(arguments, MOST_NODES).is_none() {
        return Err(SubstStop::TooBig);
    }
    let substituted = ty.substituted(alloc, arguments)?;
    if !substituted.is_within(MOST_NODES) {
        return Err(SubstStop::TooBig);
    }
    Ok(substituted)
}

/// The type itself, or `_` where it has more than 256 nodes (docs/language.md, Types and their texts).
pub fn limited(ty: HackType) -> HackType
    ensures { result ≡ limited ty }
{
    if ty.is_within(MOST_NODES) {
        ty
    } else {
        HackType::Any
    }
}

impl HackType {
    // What is left of a number of nodes once those that the type will have for certain with these arguments are taken from it, where
    // it has as many.
    #[cycle(least)]
    #[tactic(auto, using(crate::proofs::PutLemmas::least_of_param, crate::proofs::PutLemmas::least_of_option, crate::proofs::PutLemmas::least_of_vector, crate::proofs::PutLemmas::least_of_keyset, crate::proofs::PutLemmas::least_of_dict, crate::proofs::PutLemmas::least_of_shape, crate::proofs::PutLemmas::least_of_class, crate::proofs::PutLemmas::nodes_positive))]
    fn take_least(&self, arguments: &[HackType], left: u32) -> Option<u32>
        ensures some { IfSome result (λ rest. left ≤ rest + nodes (substitute arguments.now self.now)) }
        ensures none { IfNone result (left < nodes (substitute arguments.now self.now)) }
    {
        match self {
            HackType::ClassParam(position, _) => take_argument(arguments, *position, left),
            HackType::Option(inside) => inside.get().take_least(arguments, left),
            HackType::Vector(item) | HackType::Keyset(item) => {
                item.get().take_least(arguments, left.checked_sub(1)?)
            }
            HackType::Dict(key, value) => {
                let left = key.get().take_least(arguments, left.checked_sub(1)?)?;
                value.get().take_least(arguments, left)
            }
            HackType::Shape { fields, .. } => take_least_fields(
                fields,
                arguments,
                left.checked_sub(1)?,
            ),
            HackType::Class(_, types) => take_least_all(types, arguments, left.checked_sub(1)?),
            _ => left.checked_sub(1),
        }
    }

    // The type with the arguments put in, however large.
    #[cycle(put)]
    #[tactic(auto, unfolding(crate::specs::Substituted::substitute))]
    fn substituted(&self, alloc: Global, arguments: &[HackType]) -> Result<HackType, NoMemory>
        ensures { IfOk result (λ ty. ty ≡ substitute arguments.now self.now) }
    {
        Ok(match self {
            HackType::ClassParam(position, _) => argument_at(alloc, arguments, *position)?,
            HackType::Option(inside) => {
                into_option(alloc, inside.get().substituted(alloc, arguments)?)?
            }
            HackType::Vector(item) => HackType::Vector(put_into_boxed(alloc, item, arguments)?),
            HackType::Dict(key, value) => HackType::Dict(
                put_into_boxed(alloc, key, arguments)?,
                put_into_boxed(alloc, value, arguments)?,
            ),
            HackType::Keyset(item) => HackType::Keyset(put_into_boxed(alloc, item, arguments)?),
            HackType::Shape { fields, rest } => HackType::Shape {
                fields: put_into_fields(alloc, fields, arguments)?,
                rest: *rest,
            },
            HackType::Class(name, types) => {
                HackType::Class(*name, put_into_all(alloc, types, arguments)?)
            }
            HackType::Union(members) => {
                union_of(alloc, put_into_all(alloc, members, arguments)?.as_slice())?
            }
            _ => self.copy(alloc)?,
        })
    }
}

// The argument of this position, and `_` where there is none.
fn argument_at(alloc: Global, arguments: &[HackType], position: u32) -> Result<HackType, NoMemory>
    ensures { IfOk result (λ ty. ty ≡ slice_index_or arguments.now position Any) }
{
    match arguments.get(position as usize) {
        Some(argument) => argument.copy(alloc),
        None => Ok(HackType::Any),
    }
}

// What is left once the nodes of the argument of this position, or of `_`, are taken.
fn take_argument(arguments: &[HackType], position: u32, left: u32) -> Option<u32>
    ensures some { IfSome result (λ rest.
        rest + nodes (slice_index_or arguments.now position Any) ≡ left) }
    ensures none { IfNone result (left < nodes (slice_index_or arguments.now position Any)) }
{
    match arguments.get(position as usize) {
        Some(argument) => argument.take_nodes(left),
        None => left.checked_sub(1),
    }
}

#[cycle(least)]
#[tactic(auto, using(crate::proofs::PutLemmas::more_of_all))]
fn take_least_all(types: &Items<HackType>, arguments: &[HackType], left: u32) -> Option<u32>
    ensures some { IfSome result (λ rest.
        left ≤ rest + sum_by (λ ty. nodes (substitute arguments.now ty)) types.now) }
    ensures none { IfNone result (left < sum_by (λ ty. nodes (substitute arguments.now ty)) types.now) }
{
    let mut rest = left;
    for ty in types.as_slice() {
        rest = ty.take_least(arguments, rest)?;
    }
    Some(rest)
}

#[cycle(least)]
#[tactic(auto, using(crate::proofs::PutLemmas::more_of_fields))]
fn take_least_fields(fields: &Fields<HackType>, arguments: &[HackType], left: u32) -> Option<u32>
    ensures some { IfSome result (λ rest.
        left ≤ rest + sum_by (λ field. nodes (substitute arguments.now field.ty)) fields.now) }
    ensures none { IfNone result
        (left < sum_by (λ field. nodes (substitute arguments.now field.ty)) fields.now) }
{
    let mut rest = left;
    for field in fields.as_slice() {
        rest = field.ty.take_least(arguments, rest)?;
    }
    Some(rest)
}

#[cycle(put)]
fn put_into_boxed(
    alloc: Global,
    ty: &Boxed<HackType>,
    arguments: &[HackType],
) -> Result<Boxed<HackType>, NoMemory>
    ensures { IfOk result (λ put. put ≡ substitute arguments.now ty.now) }
{
    Ok(Boxed::new(alloc, ty.get().substituted(alloc, arguments)?)?)
}

#[cycle(put)]
fn put_into_all(
    alloc: Global,
    types: &Items<HackType>,
    arguments: &[HackType],
) -> Result<Items<HackType>, NoMemory>
    ensures { IfOk result (λ put. put ≡ map (substitute arguments.now) types.now) }
{
    let mut put = Vec::with_capacity(alloc, types.len())?;
    for ty in types.as_slice() {
        put.push(ty.substituted(alloc, arguments)?)?;
    }
    Ok(Items::from_vec(put))
}

#[cycle(put)]
fn put_into_fields(
    alloc: Global,
    fields: &Fields<HackType>,
    arguments: &[HackType],
) -> Result<Fields<HackType>, NoMemory>
    ensures { IfOk result (λ put. put ≡ map (on_type (substitute arguments.now)) fields.now) }
{
    let mut put = Vec::with_capacity(alloc, fields.as_slice().len())?;
    for field in fields.as_slice() {
        let ty = field.ty.substituted(alloc, arguments)?;
        put.push(Field {
            key: field.key,
            optional: field.optional,
            ty,
        })?;
    }
    Ok(Fields::from_vec(put))
}
