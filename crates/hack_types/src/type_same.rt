// Whether two types are equal.
ghost use Rattle.std.specs.Prelude.{◌≡◌, ◌↔◌, IsTrue};
ghost use Rattle.hack_types.specs.TypeParts.{head_of, types_of, values_of, fields_of};

use crate::{Field, HackType, NameId};
use std::slice;

// What a type is, apart from the types inside it.
#[derive(Clone, Copy, PartialEq, Eq)]
enum Head {
    Any,
    Mixed,
    Nonnull,
    Nothing,
    Null,
    Void,
    Noreturn,
    Bool,
    Int,
    Float,
    Num,
    Str,
    Arraykey,
    This,
    Option,
    Vector,
    Dict,
    Keyset,
    Shape { rest: bool },
    Class(NameId),
    ClassParam(u32, NameId),
    FunParam(u32, NameId),
    Union,
}

impl HackType {
    /// Whether the two types are equal (docs/language.md, Types and their texts).
    #[cycle(same)]
    pub fn same(&self, other: &HackType) -> bool
        ensures { IsTrue result ↔ (self.now ≡ other.now) }
    {
        self.same_head(other)
            && same_all(self.types(), other.types())
            && same_all(self.values(), other.values())
            && same_fields(self.fields(), other.fields())
    }

    // Whether the two are the same apart from the types inside them.
    fn same_head(&self, other: &HackType) -> bool
        ensures { IsTrue result ↔ (head_of self.now ≡ head_of other.now) }
    {
        self.head() == other.head()
    }

    fn head(&self) -> Head
        ensures { result ≡ head_of self.now }
    {
        match self {
            HackType::Any => Head::Any,
            HackType::Mixed => Head::Mixed,
            HackType::Nonnull => Head::Nonnull,
            HackType::Nothing => Head::Nothing,
            HackType::Null => Head::Null,
            HackType::Void => Head::Void,
            HackType::Noreturn => Head::Noreturn,
            HackType::Bool => Head::Bool,
            HackType::Int => Head::Int,
            HackType::Float => Head::Float,
            HackType::Num => Head::Num,
            HackType::Str => Head::Str,
            HackType::Arraykey => Head::Arraykey,
            HackType::This => Head::This,
            HackType::Option(_) => Head::Option,
            HackType::Vector(_) => Head::Vector,
            HackType::Dict(_, _) => Head::Dict,
            HackType::Keyset(_) => Head::Keyset,
            HackType::Shape { rest, .. } => Head::Shape { rest: *rest },
            HackType::Class(name, _) => Head::Class(*name),
            HackType::ClassParam(position, name) => Head::ClassParam(*position, *name),
            HackType::FunParam(position, name) => Head::FunParam(*position, *name),
            HackType::Union(_) => Head::Union,
        }
    }

    // The types inside, in their order; of a dict, that of its keys.
    fn types(&self) -> &[HackType]
        ensures { result.now ≡ types_of self.now }
    {
        match self {
            HackType::Option(ty) | HackType::Vector(ty) | HackType::Keyset(ty) => {
                slice::from_ref(ty.get())
            }
            HackType::Dict(key, _) => slice::from_ref(key.get()),
            HackType::Class(_, types) | HackType::Union(types) => types.as_slice(),
            _ => &[],
        }
    }

    // Of a dict, the type of its values.
    fn values(&self) -> &[HackType]
        ensures { result.now ≡ values_of self.now }
    {
        match self {
            HackType::Dict(_, value) => slice::from_ref(value.get()),
            _ => &[],
        }
    }

    // Of a shape, its fields.
    fn fields(&self) -> &[Field<HackType>]
        ensures { result.now ≡ fields_of self.now }
    {
        match self {
            HackType::Shape { fields, .. } => fields.as_slice(),
            _ => &[],
        }
    }
}

#[cycle(same)]
fn same_all(types: &[HackType], others: &[HackType]) -> bool
    ensures { IsTrue result ↔ (types.now ≡ others.now) }
{
    if types.len() != others.len() {
        return false;
    }
    for index in 0..types.len() {
        if !types[index].same(&others[index]) {
            return false;
        }
    }
    true
}

#[cycle(same)]
fn same_fields(fields: &[Field<HackType>], others: &[Field<HackType>]) -> bool
    ensures { IsTrue result ↔ (fields.now ≡ others.now) }
{
    if fields.len() != others.len() {
        return false;
    }
    for index in 0..fields.len() {
        if !same_field(&fields[index], &others[index]) {
            return false;
        }
    }
    true
}

#[cycle(same)]
fn same_field(field: &Field<HackType>, other: &Field<HackType>) -> bool
    ensures { IsTrue result ↔ (field.now ≡ other.now) }
{
    field.key == other.key && field.optional == other.optional && field.ty.same(&other.ty)
}
