// Types with types in the place of type parameters and of `this`.
ghost use Rattle.std.specs.Prelude.{◌≡◌, ◌+◌, ◌<◌, ◌≤◌, IfOk, IfSome, IfNone, map, slice_index_or, sum_by};
ghost use Rattle.hack_types.specs.Substituted.{IsUnlessTooBig};
ghost use Rattle.hack_types.specs.TypeNodes.{nodes};
ghost use Rattle.hack_types.specs.declared.hack_type.HackType.TheVariants.{Any};
ghost use Rattle.hack_types.specs.formers.fields.Fields.{on_type};
ghost use Rattle.hack_infer.specs.Filling.{applied, at_position, filled, filling_of, this_or};

use hack_types::{Field, Fields, HackType, MOST_NODES, NoMemory, SubstStop, into_option, union_of};
use sqlite_items::{Boxed, Items};
use std::alloc::Global;

/// What stands for type parameters and for `this` in a type; what has nothing here stays.
#[derive(Clone, Copy)]
pub struct Filling<'a> {
    /// The types for the type parameters of the class, by position.
    pub class: Option<&'a [HackType]>,
    /// The types for the type parameters of the function or method, by position.
    pub function: Option<&'a [HackType]>,
    /// The type for `this`.
    pub this: Option<&'a HackType>,
}

/// The type with all of these put in at once, and `_` for a position that a list doesn't have; so no parameter in what is put in is
/// taken for one of the type. `TooBig` says that it would have more than 256 nodes, and `NoMemory` that memory ran out
/// (docs/language.md, Typing expressions, Calls). No type is made that is known to be too big before.
pub fn fill(alloc: Global, ty: &HackType, filling: &Filling<'_>) -> Result<HackType, SubstStop>
    ensures { IsUnlessTooBig result (filled (filling_of filling.now) ty.now) }
{
    if take_least(ty, filling, MOST_NODES).is_none() {
        return Err(SubstStop::TooBig);
    }
    let filled = put(alloc, ty, filling)?;
    if !filled.is_within(MOST_NODES) {
        return Err(SubstStop::TooBig);
    }
    Ok(filled)
}

/// The type with these in the place of the type parameters of the function, by position, and `_` where there are too few of them;
/// those of the class and `this` stay (docs/language.md, Typing expressions, Calls). `TooBig` says that it would have more than 256
/// nodes, and `NoMemory` that memory ran out; callers put `_` in the place of what is too big.
pub fn apply(alloc: Global, ty: &HackType, solved: &[HackType]) -> Result<HackType, SubstStop>
    ensures { IsUnlessTooBig result (applied solved.now ty.now) }
{
    let filling = Filling {
        class: None,
        function: Some(solved),
        this: None,
    };
    fill(alloc, ty, &filling)
}

// What is left of a number of nodes once those that the type will have for certain are taken from it, where it has as many.
#[cycle(least)]
#[tactic(auto, using(crate::proofs::FillLemmas::least_of_class_param, crate::proofs::FillLemmas::least_of_fun_param, crate::proofs::FillLemmas::least_of_this, crate::proofs::FillLemmas::least_of_option, crate::proofs::FillLemmas::least_of_vector, crate::proofs::FillLemmas::least_of_keyset, crate::proofs::FillLemmas::least_of_dict, crate::proofs::FillLemmas::least_of_shape, crate::proofs::FillLemmas::least_of_class, crate::proofs::FillLemmas::nodes_positive))]
fn take_least(ty: &HackType, filling: &Filling<'_>, left: u32) -> Option<u32>
    ensures some { IfSome result (λ rest.
        left ≤ rest + nodes (filled (filling_of filling.now) ty.now)) }
    ensures none { IfNone result (left < nodes (filled (filling_of filling.now) ty.now)) }
{
    match ty {
        HackType::ClassParam(position, _) => take_class_param(filling, *position, left),
        HackType::FunParam(position, _) => take_fun_param(filling, *position, left),
        HackType::This => take_this(filling, left),
        HackType::Option(inside) => take_least(inside.get(), filling, left),
        HackType::Vector(item) | HackType::Keyset(item) => {
            take_least(item.get(), filling, left.checked_sub(1)?)
        }
        HackType::Dict(key, value) => {
            let left = take_least(key.get(), filling, left.checked_sub(1)?)?;
            take_least(value.get(), filling, left)
        }
        HackType::Shape { fields, .. } => take_least_fields(fields, filling, left.checked_sub(1)?),
        HackType::Class(_, types) => take_least_all(types, filling, left.checked_sub(1)?),
        _ => left.checked_sub(1),
    }
}

// The type with these put in, however large.
#[cycle(put)]
#[tactic(auto, unfolding(crate::specs::Filling::filled))]
fn put(alloc: Global, ty: &HackType, filling: &Filling<'_>) -> Result<HackType, NoMemory>
    ensures { IfOk result (λ put. put ≡ filled (filling_of filling.now) ty.now) }
{
    match ty {
        HackType::ClassParam(position, _) => class_param(alloc, filling, *position, ty),
        HackType::FunParam(position, _) => fun_param(alloc, filling, *position, ty),
        HackType::This => this(alloc, filling, ty),
        HackType::Option(inside) => into_option(alloc, put(alloc, inside.get(), filling)?),
        HackType::Vector(item) => Ok(HackType::Vector(put_into_boxed(alloc, item, filling)?)),
        HackType::Dict(key, value) => Ok(HackType::Dict(
            put_into_boxed(alloc, key, filling)?,
            put_into_boxed(alloc, value, filling)?,
        )),
        HackType::Keyset(item) => Ok(HackType::Keyset(put_into_boxed(alloc, item, filling)?)),
        HackType::Shape { fields, rest } => Ok(HackType::Shape {
            fields: put_into_fields(alloc, fields, filling)?,
            rest: *rest,
        }),
        HackType::Class(name, types) => {
            Ok(HackType::Class(*name, put_into_all(alloc, types, filling)?))
        }
        HackType::Union(members) => {
            Ok(union_of(alloc, put_into_all(alloc, members, filling)?.as_slice())?)
        }
        _ => ty.copy(alloc),
    }
}

// What stands for the class's parameter of this position, which is this type.
fn class_param(
    alloc: Global,
    filling: &Filling<'_>,
    position: u32,
    ty: &HackType,
) -> Result<HackType, NoMemory>
    ensures { IfOk result (λ put.
        put ≡ at_position ty.now (filling_of filling.now).class position) }
{
    match filling.class {
        Some(types) => argument_at(alloc, types, position),
        None => ty.copy(alloc),
    }
}

// What stands for the function's parameter of this position, which is this type.
fn fun_param(
    alloc: Global,
    filling: &Filling<'_>,
    position: u32,
    ty: &HackType,
) -> Result<HackType, NoMemory>
    ensures { IfOk result (λ put.
        put ≡ at_position ty.now (filling_of filling.now).function position) }
{
    match filling.function {
        Some(types) => argument_at(alloc, types, position),
        None => ty.copy(alloc),
    }
}

// What stands for `this`, which is this type.
fn this(alloc: Global, filling: &Filling<'_>, ty: &HackType) -> Result<HackType, NoMemory>
    ensures { IfOk result (λ put. put ≡ this_or ty.now (filling_of filling.now).this) }
{
    match filling.this {
        Some(this) => this.copy(alloc),
        None => ty.copy(alloc),
    }
}

// The type of this position, and `_` where there is none.
fn argument_at(alloc: Global, types: &[HackType], position: u32) -> Result<HackType, NoMemory>
    ensures { IfOk result (λ ty. ty ≡ slice_index_or types.now position Any) }
{
    match types.get(position as usize) {
        Some(ty) => ty.copy(alloc),
        None => Ok(HackType::Any),
    }
}

fn take_class_param(filling: &Filling<'_>, position: u32, left: u32) -> Option<u32>
    ensures some { IfSome result (λ rest.
        rest + nodes (at_position Any (filling_of filling.now).class position) ≡ left) }
    ensures none { IfNone result
        (left < nodes (at_position Any (filling_of filling.now).class position)) }
{
    match filling.class {
        Some(types) => take_argument(types, position, left),
        None => left.checked_sub(1),
    }
}

fn take_fun_param(filling: &Filling<'_>, position: u32, left: u32) -> Option<u32>
    ensures some { IfSome result (λ rest.
        rest + nodes (at_position Any (filling_of filling.now).function position) ≡ left) }
    ensures none { IfNone result
        (left < nodes (at_position Any (filling_of filling.now).function position)) }
{
    match filling.function {
        Some(types) => take_argument(types, position, left),
        None => left.checked_sub(1),
    }
}

fn take_this(filling: &Filling<'_>, left: u32) -> Option<u32>
    ensures some { IfSome result (λ rest.
        rest + nodes (this_or Any (filling_of filling.now).this) ≡ left) }
    ensures none { IfNone result (left < nodes (this_or Any (filling_of filling.now).this)) }
{
    match filling.this {
        Some(this) => this.take_nodes(left),
        None => left.checked_sub(1),
    }
}

// What is left once the nodes of the type of this position, or of `_`, are taken.
fn take_argument(types: &[HackType], position: u32, left: u32) -> Option<u32>
    ensures some { IfSome result (λ rest.
        rest + nodes (slice_index_or types.now position Any) ≡ left) }
    ensures none { IfNone result (left < nodes (slice_index_or types.now position Any)) }
{
    match types.get(position as usize) {
        Some(ty) => ty.take_nodes(left),
        None => left.checked_sub(1),
    }
}

#[cycle(least)]
#[tactic(auto, using(crate::proofs::FillLemmas::more_of_all))]
fn take_least_all(types: &Items<HackType>, filling: &Filling<'_>, left: u32) -> Option<u32>
    ensures some { IfSome result (λ rest.
        left ≤ rest + sum_by (λ ty. nodes (filled (filling_of filling.now) ty)) types.now) }
    ensures none { IfNone result
        (left < sum_by (λ ty. nodes (filled (filling_of filling.now) ty)) types.now) }
{
    let mut rest = left;
    for ty in types.as_slice() {
        rest = take_least(ty, filling, rest)?;
    }
    Some(rest)
}

#[cycle(least)]
#[tactic(auto, using(crate::proofs::FillLemmas::more_of_fields))]
fn take_least_fields(fields: &Fields<HackType>, filling: &Filling<'_>, left: u32) -> Option<u32>
    ensures some { IfSome result (λ rest.
        left ≤ rest
        + sum_by (λ field. nodes (filled (filling_of filling.now) field.ty)) fields.now) }
    ensures none { IfNone result
        (left < sum_by (λ field. nodes (filled (filling_of filling.now) field.ty)) fields.now) }
{
    let mut rest = left;
    for field in fields.as_slice() {
        rest = take_least(&field.ty, filling, rest)?;
    }
    Some(rest)
}

#[cycle(put)]
fn put_into_boxed(
    alloc: Global,
    ty: &Boxed<HackType>,
    filling: &Filling<'_>,
) -> Result<Boxed<HackType>, NoMemory>
    ensures { IfOk result (λ put. put ≡ filled (filling_of filling.now) ty.now) }
{
    Ok(Boxed::new(alloc, put(alloc, ty.get(), filling)?)?)
}

#[cycle(put)]
fn put_into_all(
    alloc: Global,
    types: &Items<HackType>,
    filling: &Filling<'_>,
) -> Result<Items<HackType>, NoMemory>
    ensures { IfOk result (λ put. put ≡ map (filled (filling_of filling.now)) types.now) }
{
    let mut all = Vec::with_capacity(alloc, types.len())?;
    for ty in types.as_slice() {
        all.push(put(alloc, ty, filling)?)?;
    }
    Ok(Items::from_vec(all))
}

#[cycle(put)]
fn put_into_fields(
    alloc: Global,
    fields: &Fields<HackType>,
    filling: &Filling<'_>,
) -> Result<Fields<HackType>, NoMemory>
    ensures { IfOk result (λ put.
        put ≡ map (on_type (filled (filling_of filling.now))) fields.now) }
{
    let mut all = Vec::with_capacity(alloc, fields.as_slice().len())?;
    for field in fields.as_slice() {
        let ty = put(alloc, &field.ty, filling)?;
        all.push(Field {
            key: field.key,
            optional: field.optional,
            ty,
        })?;
    }
    Ok(Fields::from_vec(all))
}
