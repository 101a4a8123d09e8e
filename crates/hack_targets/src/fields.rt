// Fields of shapes, as values.
ghost use Rattle.std.specs.Prelude.{◌≡◌, ◌==◌, All, IfSome, option_copied};
ghost use Rattle.std.specs.List.{find};
ghost use Rattle.hack_decls.specs.Names.{TypeIn};
ghost use Rattle.hack_rules.specs.Indices.{field_or, optional_field, shape_element};
ghost use Rattle.hack_walk.specs.Checks.{Steps, setting_of};

use crate::Index;
use crate::reports::{refuse_field, refuse_indexed, report_missing};
use hack_types::{Field, HackType, NameId, NoMemory, Place, limited, option_of};
use hack_walk::{Setting, State};
use std::alloc::Global;

/// An element of a shape with these fields, which takes a key string.
pub(crate) fn shape_element(
    alloc: Global,
    setting: &Setting<'_>,
    state: &mut State,
    at: Place,
    left: bool,
    head: &HackType,
    fields: &[Field<HackType>],
    index: &Index,
) -> Result<HackType, NoMemory>
    ensures { Steps (shape_element at left head.now fields.now index.now.key)
        (setting_of setting.now) state.old result state.new
        (λ symbols. All (λ field. TypeIn symbols field.ty) fields.now) TypeIn }
{
    match index.key {
        Some(key) => {
            let found = field_of(fields, key);
            field_or(alloc, setting, state, at, left, key, found)
        }
        None => refuse_indexed(alloc, setting, state, at, head),
    }
}

// The field of a key.
fn field_of(fields: &[Field<HackType>], key: NameId) -> Option<&Field<HackType>>
    ensures { option_copied result ≡ find (λ field. field.key == key) fields.now }
{
    for field in fields {
        if field.key == key {
            return Some(field);
        }
    }
    None
}

// Its type, where it is there.
fn field_or(
    alloc: Global,
    setting: &Setting<'_>,
    state: &mut State,
    at: Place,
    left: bool,
    key: NameId,
    found: Option<&Field<HackType>>,
) -> Result<HackType, NoMemory>
    ensures { Steps (field_or at left key (option_copied found.entry)) (setting_of setting.now)
        state.old result state.new
        (λ symbols. IfSome (option_copied found.entry) (λ field. TypeIn symbols field.ty)) TypeIn }
{
    match found {
        Some(field) => optional_field(alloc, setting, state, at, left, field),
        None => refuse_field(alloc, setting, state, at, key),
    }
}

// One that may be missing is an option in the left of `??`, and else 4015.
fn optional_field(
    alloc: Global,
    setting: &Setting<'_>,
    state: &mut State,
    at: Place,
    left: bool,
    field: &Field<HackType>,
) -> Result<HackType, NoMemory>
    ensures { Steps (optional_field at left field.now field.now.optional) (setting_of setting.now)
        state.old result state.new (λ symbols. TypeIn symbols field.now.ty) TypeIn }
{
    if !field.optional {
        return Ok(field.ty.copy(alloc)?);
    }
    if left {
        return Ok(limited(option_of(alloc, &field.ty)?));
    }
    report_missing(alloc, setting, state, at, field.key)?;
    Ok(field.ty.copy(alloc)?)
}
