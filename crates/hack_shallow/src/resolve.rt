// The types that written types are.
ghost use Rattle.std.specs.Prelude.{◌≡◌, List, map, IfOk};
ghost use Rattle.hack_shallow.specs.Scope as names;
ghost use Rattle.hack_shallow.specs.Resolved as spec;
ghost use Rattle.hack_shallow.specs.Scopes.{scope_of};

use crate::scope::Parameters;
use hack_tree::{ClassType, Container, FieldType, Primitive, WrittenType};
use hack_types::{Field, Fields, HackType, NameId, NoMemory, into_option, limited};
use sqlite_items::{Boxed, Items};
use std::alloc::Global;
use std::collections::BTreeMap;

/// The type parameters around a written type (docs/language.md, Types and their texts).
#[derive(Clone, Copy)]
pub struct Scope<'c, 'f> {
    /// Those of the class or alias.
    pub class: &'c Parameters,
    /// Those of the function or method.
    pub function: &'f Parameters,
}

impl<'c, 'f> Scope<'c, 'f> {
    /// The type that is written, or `_` where it has too many nodes.
    pub(crate) fn type_of(&self, alloc: Global, written: &WrittenType) -> Result<HackType, NoMemory>
        ensures { IfOk result (λ ty. ty ≡ spec.type_of (scope_of self.now) written.now) }
    {
        Ok(limited(self.resolved(alloc, written)?))
    }

    /// The type that stands behind `extends`, `implements` or `use`, or `_` where it has too many nodes.
    pub(crate) fn parent_of(&self, alloc: Global, class: &ClassType) -> Result<HackType, NoMemory>
        ensures { IfOk result (λ ty. ty ≡ spec.parent_of (scope_of self.now) class.now) }
    {
        Ok(limited(self.resolved_class(alloc, class)?))
    }

    /// The type that is written, however large (docs/language.md, Types and their texts).
    #[cycle(resolved)]
    pub fn resolved(&self, alloc: Global, written: &WrittenType) -> Result<HackType, NoMemory>
        ensures { IfOk result (λ ty. ty ≡ spec.resolved (scope_of self.now) written.now) }
    {
        match written {
            WrittenType::Optional { inner, .. } => {
                into_option(alloc, self.resolved(alloc, inner.get())?)
            }
            WrittenType::Primitive { primitive, .. } => Ok(primitive_type(*primitive)),
            WrittenType::This { .. } => Ok(HackType::This),
            WrittenType::Container {
                container,
                element,
                ..
            } => {
                let element = self.resolved(alloc, element.get())?;
                container_type(alloc, *container, element)
            }
            WrittenType::Dict { key, value, .. } => {
                let key = self.resolved(alloc, key.get())?;
                let value = self.resolved(alloc, value.get())?;
                Ok(HackType::Dict(Boxed::new(alloc, key)?, Boxed::new(alloc, value)?))
            }
            WrittenType::Shape { fields, open, .. } => Ok(HackType::Shape {
                fields: self.last_fields(alloc, fields.as_slice())?,
                rest: *open,
            }),
            WrittenType::Class(class) => self.resolved_class(alloc, class),
        }
    }

    /// The type that a name with its arguments is, however large. A parameter has no arguments, whatever is written
    /// (docs/language.md, Types and their texts).
    #[cycle(resolved)]
    pub fn resolved_class(&self, alloc: Global, class: &ClassType) -> Result<HackType, NoMemory>
        ensures { IfOk result (λ ty. ty ≡ spec.resolved_class (scope_of self.now) class.now) }
    {
        let name = class.name;
        if let Some(index) = self.function.position(name) {
            return Ok(HackType::FunParam(index, name));
        }
        if let Some(index) = self.class.position(name) {
            return Ok(HackType::ClassParam(index, name));
        }
        let arguments = self.arguments(alloc, class.arguments.as_slice())?;
        Ok(HackType::Class(name, arguments))
    }

    #[cycle(resolved)]
    fn arguments(&self, alloc: Global, written: &[WrittenType]) -> Result<Items<HackType>, NoMemory>
        ensures { IfOk result (λ types. types ≡ map (spec.resolved (scope_of self.now)) written.now) }
    {
        let mut types = Items::new(alloc);
        for argument in written {
            types.push(self.resolved(alloc, argument)?)?;
        }
        Ok(types)
    }

    // Each key once, with the last of its fields.
    #[cycle(resolved)]
    fn last_fields(
        &self,
        alloc: Global,
        written: &[FieldType],
    ) -> Result<Fields<HackType>, NoMemory>
        ensures { IfOk result (λ fields. fields ≡ spec.last_fields (map (spec.resolved_field (scope_of self.now)) written.now)) }
    {
        let mut by_key = BTreeMap::new(alloc);
        for field in written {
            let ty = self.resolved(alloc, &field.value)?;
            by_key.insert(field.key, (field.optional, ty))?;
        }
        in_order(alloc, by_key)
    }
}

/// The fields that stand under their keys (docs/language.md, Types and their texts).
pub fn in_order(
    alloc: Global,
    by_key: BTreeMap<NameId, (bool, HackType)>,
) -> Result<Fields<HackType>, NoMemory>
    ensures { IfOk result (λ fields. fields ≡ spec.in_order by_key.entries) }
{
    let mut fields = Vec::with_capacity(alloc, by_key.len())?;
    for (key, (optional, ty)) in by_key {
        fields.push(Field { key, optional, ty })?;
    }
    Ok(Fields::from_vec(fields))
}

/// The type that a keyword is (docs/language.md, Types and their texts).
pub fn primitive_type(primitive: Primitive) -> HackType
    ensures { result ≡ spec.primitive_type primitive }
{
    match primitive {
        Primitive::ArrayKey => HackType::Arraykey,
        Primitive::Bool => HackType::Bool,
        Primitive::Float => HackType::Float,
        Primitive::Int => HackType::Int,
        Primitive::Mixed => HackType::Mixed,
        Primitive::NonNull => HackType::Nonnull,
        Primitive::NoReturn => HackType::Noreturn,
        Primitive::Nothing => HackType::Nothing,
        Primitive::Null => HackType::Null,
        Primitive::Num => HackType::Num,
        Primitive::String => HackType::Str,
        Primitive::Void => HackType::Void,
    }
}

/// A container of elements of this type (docs/language.md, Types and their texts).
pub fn container_type(
    alloc: Global,
    container: Container,
    element: HackType,
) -> Result<HackType, NoMemory>
    ensures { IfOk result (λ ty. ty ≡ spec.container_type container element) }
{
    let element = Boxed::new(alloc, element)?;
    Ok(match container {
        Container::Vec => HackType::Vector(element),
        Container::Keyset => HackType::Keyset(element),
    })
}
