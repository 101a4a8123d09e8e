// Types with null.
ghost use Rattle.std.specs.Prelude.{◌≡◌, IfOk};
ghost use Rattle.hack_types.specs.OptionOf.{option_of};

use crate::{HackType, NoMemory};
use sqlite_items::Boxed;
use std::alloc::Global;

/// The type of what is of this type or null; the type itself is left as it is. An error says that memory ran out
/// (docs/language.md, Types and their texts).
pub fn option_of(alloc: Global, ty: &HackType) -> Result<HackType, NoMemory>
    ensures { IfOk result (λ optional. optional ≡ option_of ty.now) }
{
    into_option(alloc, ty.copy(alloc)?)
}

/// The type of what is of this type or null, made of the type, which is taken over. An error says that memory ran out
/// (docs/language.md, Types and their texts).
pub fn into_option(alloc: Global, ty: HackType) -> Result<HackType, NoMemory>
    ensures { IfOk result (λ optional. optional ≡ option_of ty) }
{
    match ty {
        HackType::Any | HackType::Mixed | HackType::Null | HackType::Option(_) => Ok(ty),
        HackType::Nothing => Ok(HackType::Null),
        HackType::Nonnull => Ok(HackType::Mixed),
        _ => Ok(HackType::Option(Boxed::new(alloc, ty)?)),
    }
}
