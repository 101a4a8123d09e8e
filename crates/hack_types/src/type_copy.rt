// Copies of types.
ghost use Rattle.std.specs.Prelude.{◌≡◌, IfOk};

use crate::{Field, Fields, HackType, NoMemory};
use sqlite_items::{Boxed, Items};
use std::alloc::Global;

impl HackType {
    /// The same type once more; an error says that memory ran out.
    #[cycle(copy)]
    pub fn copy(&self, alloc: Global) -> Result<HackType, NoMemory>
        ensures { IfOk result (λ ty. ty ≡ self.now) }
    {
        Ok(match self {
            HackType::Any => HackType::Any,
            HackType::Mixed => HackType::Mixed,
            HackType::Nonnull => HackType::Nonnull,
            HackType::Nothing => HackType::Nothing,
            HackType::Null => HackType::Null,
            HackType::Void => HackType::Void,
            HackType::Noreturn => HackType::Noreturn,
            HackType::Bool => HackType::Bool,
            HackType::Int => HackType::Int,
            HackType::Float => HackType::Float,
            HackType::Num => HackType::Num,
            HackType::Str => HackType::Str,
            HackType::Arraykey => HackType::Arraykey,
            HackType::This => HackType::This,
            HackType::Option(inside) => HackType::Option(copy_boxed(alloc, inside)?),
            HackType::Vector(item) => HackType::Vector(copy_boxed(alloc, item)?),
            HackType::Dict(key, value) => {
                HackType::Dict(copy_boxed(alloc, key)?, copy_boxed(alloc, value)?)
            }
            HackType::Keyset(item) => HackType::Keyset(copy_boxed(alloc, item)?),
            HackType::Shape { fields, rest } => HackType::Shape {
                fields: copy_fields(alloc, fields)?,
                rest: *rest,
            },
            HackType::Class(name, arguments) => HackType::Class(*name, copy_all(alloc, arguments)?),
            HackType::ClassParam(position, name) => HackType::ClassParam(*position, *name),
            HackType::FunParam(position, name) => HackType::FunParam(*position, *name),
            HackType::Union(members) => HackType::Union(copy_all(alloc, members)?),
        })
    }
}

#[cycle(copy)]
fn copy_boxed(alloc: Global, ty: &Boxed<HackType>) -> Result<Boxed<HackType>, NoMemory>
    ensures { IfOk result (λ copied. copied ≡ ty.now) }
{
    Ok(Boxed::new(alloc, ty.get().copy(alloc)?)?)
}

#[cycle(copy)]
fn copy_all(alloc: Global, types: &Items<HackType>) -> Result<Items<HackType>, NoMemory>
    ensures { IfOk result (λ copied. copied ≡ types.now) }
{
    let mut copied = Vec::with_capacity(alloc, types.len())?;
    for ty in types.as_slice() {
        copied.push(ty.copy(alloc)?)?;
    }
    Ok(Items::from_vec(copied))
}

#[cycle(copy)]
fn copy_fields(alloc: Global, fields: &Fields<HackType>) -> Result<Fields<HackType>, NoMemory>
    ensures { IfOk result (λ copied. copied ≡ fields.now) }
{
    let mut copied = Vec::with_capacity(alloc, fields.as_slice().len())?;
    for field in fields.as_slice() {
        let ty = field.ty.copy(alloc)?;
        copied.push(Field {
            key: field.key,
            optional: field.optional,
            ty,
        })?;
    }
    Ok(Fields::from_vec(copied))
}
