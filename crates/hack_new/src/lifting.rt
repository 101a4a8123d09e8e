// Type parameters of a class as those of its constructor.
ghost use Rattle.std.specs.Prelude.{◌≡◌, ◌+◌, ◌++◌, IfOk, length, map};
ghost use Rattle.hack_types.specs.declared.hack_type.HackType.TheVariants.{FunParam};
ghost use Rattle.hack_types.specs.formers.fields.Fields.{on_type};
ghost use Rattle.hack_rules.specs.Lifting.{lifted};
ghost use Rattle.hack_rules.specs.News.{lifted_param, lifted_signature};
ghost use Rattle.hack_new.specs.inside.Lifts.{lifted_one};

use hack_types::{Field, Fields, HackType, NameId, NoMemory, Param, Signature, TypeParam};
use sqlite_items::{Boxed, Items};
use std::alloc::Global;

/// The constructor of a class with these parameters as a function that has the class's parameters before its own, which move up by
/// their number; it gives `void` (docs/language.md, Typing expressions, Calls). An error says that memory ran out, or that a position
/// would be more than a `u32` holds.
pub(crate) fn lifted_signature(
    alloc: Global,
    params: &[TypeParam],
    signature: &Signature,
) -> Result<Signature, NoMemory>
    ensures { IfOk result (λ made. made ≡ lifted_signature params.now signature.now) }
{
    let count = narrow(params.len())?;
    let type_params = lifted_type_params(alloc, params, signature.type_params.as_slice(), count)?;
    let params = lifted_params(alloc, signature.params.as_slice(), count)?;
    Ok(Signature {
        type_params,
        params,
        result: HackType::Void,
    })
}

/// The number as a u32; one that is larger is answered as want of memory.
pub(crate) fn narrow(number: usize) -> Result<u32, NoMemory>
    ensures { IfOk result (λ narrow. narrow ≡ number) }
{
    u32::try_from(number).map_err(|_| NoMemory)
}

// The parameters of the class, and behind them those of the function.
fn lifted_type_params(
    alloc: Global,
    class: &[TypeParam],
    own: &[TypeParam],
    count: u32,
) -> Result<Items<TypeParam>, NoMemory>
    ensures { IfOk result (λ all. all ≡ map (lifted_param count) (class.now ++ own.now)) }
{
    let mut all = Vec::with_capacity(alloc, class.len())?;
    for param in class {
        all.push(lifted_type_param(alloc, param, count)?)?;
    }
    for param in own {
        all.push(lifted_type_param(alloc, param, count)?)?;
    }
    Ok(Items::from_vec(all))
}

fn lifted_type_param(alloc: Global, param: &TypeParam, count: u32) -> Result<TypeParam, NoMemory>
    ensures { IfOk result (λ made. made ≡ lifted_param count param.now) }
{
    let upper = lifted_all(alloc, &param.upper, count)?;
    let lower = lifted_all(alloc, &param.lower, count)?;
    Ok(TypeParam {
        name: param.name,
        variance: param.variance,
        upper,
        lower,
    })
}

fn lifted_params(alloc: Global, params: &[Param], count: u32) -> Result<Items<Param>, NoMemory>
    ensures { IfOk result (λ all. all ≡ map (lifted_one count) params.now) }
{
    let mut all = Vec::with_capacity(alloc, params.len())?;
    for param in params {
        let ty = lifted(alloc, &param.ty, count)?;
        all.push(Param {
            ty,
            optional: param.optional,
        })?;
    }
    Ok(Items::from_vec(all))
}

// The type with the class's parameters as the first of a function, and the function's own moved up by so many.
#[cycle(lift)]
#[tactic(auto, unfolding(hack_rules::specs::Lifting::lifted))]
fn lifted(alloc: Global, ty: &HackType, count: u32) -> Result<HackType, NoMemory>
    ensures { IfOk result (λ made. made ≡ lifted count ty.now) }
{
    match ty {
        HackType::ClassParam(position, name) => Ok(HackType::FunParam(*position, *name)),
        HackType::FunParam(position, name) => moved(*position, *name, count),
        HackType::Option(inside) => Ok(HackType::Option(lifted_boxed(alloc, inside, count)?)),
        HackType::Vector(item) => Ok(HackType::Vector(lifted_boxed(alloc, item, count)?)),
        HackType::Dict(key, value) => Ok(HackType::Dict(
            lifted_boxed(alloc, key, count)?,
            lifted_boxed(alloc, value, count)?,
        )),
        HackType::Keyset(item) => Ok(HackType::Keyset(lifted_boxed(alloc, item, count)?)),
        HackType::Shape { fields, rest } => Ok(HackType::Shape {
            fields: lifted_fields(alloc, fields, count)?,
            rest: *rest,
        }),
        HackType::Class(name, types) => {
            Ok(HackType::Class(*name, lifted_all(alloc, types, count)?))
        }
        HackType::Union(members) => Ok(HackType::Union(lifted_all(alloc, members, count)?)),
        _ => ty.copy(alloc),
    }
}

// The function's parameter of this position, moved up by so many.
fn moved(position: u32, name: NameId, count: u32) -> Result<HackType, NoMemory>
    ensures { IfOk result (λ made. made ≡ FunParam (count + position) name) }
{
    let Some(position) = count.checked_add(position) else {
        return Err(NoMemory);
    };
    Ok(HackType::FunParam(position, name))
}

#[cycle(lift)]
fn lifted_boxed(
    alloc: Global,
    ty: &Boxed<HackType>,
    count: u32,
) -> Result<Boxed<HackType>, NoMemory>
    ensures { IfOk result (λ made. made ≡ lifted count ty.now) }
{
    Ok(Boxed::new(alloc, lifted(alloc, ty.get(), count)?)?)
}

#[cycle(lift)]
fn lifted_all(
    alloc: Global,
    types: &Items<HackType>,
    count: u32,
) -> Result<Items<HackType>, NoMemory>
    ensures { IfOk result (λ all. all ≡ map (lifted count) types.now) }
{
    let mut all = Vec::with_capacity(alloc, types.len())?;
    for ty in types.as_slice() {
        all.push(lifted(alloc, ty, count)?)?;
    }
    Ok(Items::from_vec(all))
}

#[cycle(lift)]
fn lifted_fields(
    alloc: Global,
    fields: &Fields<HackType>,
    count: u32,
) -> Result<Fields<HackType>, NoMemory>
    ensures { IfOk result (λ all. all ≡ map (on_type (lifted count)) fields.now) }
{
    let mut all = Vec::with_capacity(alloc, fields.as_slice().len())?;
    for field in fields.as_slice() {
        let ty = lifted(alloc, &field.ty, count)?;
        all.push(Field {
            key: field.key,
            optional: field.optional,
            ty,
        })?;
    }
    Ok(Fields::from_vec(all))
}
