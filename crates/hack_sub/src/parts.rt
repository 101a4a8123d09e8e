// What a type is, and the types inside it.
ghost use Rattle.std.specs.Prelude.{◌≡◌, IfOk, option_copied, option_map};
ghost use Rattle.hack_sub.specs.Parts.{arguments_of, as_keyed, dict_parts, is_open, keyed, keyset_item, name_of, option_inside, shape_fields, top_of, union_members, vector_item};

use crate::top::Top;
use hack_types::{Field, HackType, NameId, NoMemory};
use sqlite_items::Items;
use std::alloc::Global;

// The id of the name `KeyedContainer`.
const KEYED_CONTAINER: u32 = 3;

/// The former of a type.
pub(crate) fn top_of(ty: &HackType) -> Top
    ensures { result ≡ top_of ty.now }
{
    match ty {
        HackType::Any => Top::Any,
        HackType::Mixed => Top::Mixed,
        HackType::Nonnull => Top::Nonnull,
        HackType::Nothing => Top::Nothing,
        HackType::Null => Top::Null,
        HackType::Void => Top::Void,
        HackType::Bool => Top::Bool,
        HackType::Int => Top::Int,
        HackType::Float => Top::Float,
        HackType::Num => Top::Num,
        HackType::Str => Top::Str,
        HackType::Arraykey => Top::Arraykey,
        HackType::This => Top::This,
        HackType::Option(_) => Top::Option,
        HackType::Vector(_) | HackType::Dict(_, _) | HackType::Keyset(_) => Top::Container,
        HackType::Shape { .. } => Top::Shape,
        _ => Top::Other,
    }
}

/// The type inside `?`; nothing of any other type (docs/language.md, Types and their texts).
pub fn option_inside(ty: &HackType) -> Option<&HackType>
    ensures { option_copied result ≡ option_inside ty.now }
{
    match ty {
        HackType::Option(inside) => Some(inside.get()),
        _ => None,
    }
}

/// The members of a union; nothing of any other type (docs/language.md, Types and their texts).
pub fn union_members(ty: &HackType) -> Option<&[HackType]>
    ensures { option_copied result ≡ union_members ty.now }
{
    match ty {
        HackType::Union(members) => Some(members.as_slice()),
        _ => None,
    }
}

/// The type of what a vec holds; nothing of any other type (docs/language.md, Types and their texts).
pub fn vector_item(ty: &HackType) -> Option<&HackType>
    ensures { option_copied result ≡ vector_item ty.now }
{
    match ty {
        HackType::Vector(item) => Some(item.get()),
        _ => None,
    }
}

/// The type of what a keyset holds; nothing of any other type (docs/language.md, Types and their texts).
pub fn keyset_item(ty: &HackType) -> Option<&HackType>
    ensures { option_copied result ≡ keyset_item ty.now }
{
    match ty {
        HackType::Keyset(item) => Some(item.get()),
        _ => None,
    }
}

/// The types of the keys and of the values of a dict; nothing of any other type (docs/language.md, Types and their texts).
pub fn dict_parts(ty: &HackType) -> Option<(&HackType, &HackType)>
    ensures { option_map (λ parts. (parts.0.now, parts.1.now)) result ≡ dict_parts ty.now }
{
    match ty {
        HackType::Dict(key, value) => Some((key.get(), value.get())),
        _ => None,
    }
}

/// The fields of a shape; nothing of any other type (docs/language.md, Types and their texts).
pub fn shape_fields(ty: &HackType) -> Option<&[Field<HackType>]>
    ensures { option_copied result ≡ shape_fields ty.now }
{
    match ty {
        HackType::Shape { fields, .. } => Some(fields.as_slice()),
        _ => None,
    }
}

/// Whether the type is a shape with `...` (docs/language.md, Types and their texts).
pub fn is_open(ty: &HackType) -> bool
    ensures { result ≡ is_open ty.now }
{
    match ty {
        HackType::Shape { rest, .. } => *rest,
        _ => false,
    }
}

/// The name of a class, an interface, a trait, an enum or an alias; nothing of any other type (docs/language.md, Types and their texts).
pub fn name_of(ty: &HackType) -> Option<NameId>
    ensures { result ≡ name_of ty.now }
{
    match ty {
        HackType::Class(name, _) => Some(*name),
        _ => None,
    }
}

/// The type arguments behind such a name; none of any other type (docs/language.md, Types and their texts).
pub fn arguments_of(ty: &HackType) -> &[HackType]
    ensures { result.now ≡ arguments_of ty.now }
{
    match ty {
        HackType::Class(_, arguments) => arguments.as_slice(),
        _ => &[],
    }
}

/// A container as a `KeyedContainer`; nothing of any other type. An error says that memory ran out (docs/language.md, Subtyping, rule 11).
pub fn as_keyed(alloc: Global, ty: &HackType) -> Result<Option<HackType>, NoMemory>
    ensures { IfOk result (λ answer. answer ≡ as_keyed ty.now) }
{
    match ty {
        HackType::Vector(item) => Ok(Some(keyed(alloc, &HackType::Int, item.get())?)),
        HackType::Dict(key, value) => Ok(Some(keyed(alloc, key.get(), value.get())?)),
        HackType::Keyset(item) => Ok(Some(keyed(alloc, item.get(), item.get())?)),
        _ => Ok(None),
    }
}

// `KeyedContainer` with these arguments.
fn keyed(alloc: Global, key: &HackType, value: &HackType) -> Result<HackType, NoMemory>
    ensures { IfOk result (λ answer. answer ≡ keyed key.now value.now) }
{
    let mut arguments = Vec::with_capacity(alloc, 2)?;
    arguments.push(key.copy(alloc)?)?;
    arguments.push(value.copy(alloc)?)?;
    let name = NameId::new(KEYED_CONTAINER);
    Ok(HackType::Class(name, Items::from_vec(arguments)))
}
