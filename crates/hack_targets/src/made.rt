// The types that bases become.
ghost use Rattle.std.specs.Prelude.{◌≡◌, ◌∷◌, [], All, IfOk};
ghost use Rattle.hack_decls.specs.Names.{TypeIn};
ghost use Rattle.hack_rules.specs.Indices.{key_of, shape_with};
ghost use Rattle.hack_types.specs.UnionOf.{union_of};
ghost use Rattle.hack_types.specs.declared.hack_type.HackType.TheVariants as type;
ghost use Rattle.hack_walk.specs.Checks.{Steps, setting_of};
ghost use Rattle.hack_shallow.specs.Resolved.{with_fields};
ghost use Rattle.hack_targets.specs.inside.Pieces.{ShapeIn, dict_made, keyset_made, shape_made, vector_made};

use crate::Index;
use crate::reports::refuse_base;
use hack_shallow::in_order;
use hack_types::{Fields, HackType, NameId, NoMemory, Place, limited, union_of};
use hack_walk::{Setting, State};
use sqlite_items::Boxed;
use std::alloc::Global;
use std::collections::BTreeMap;

/// The vec of what it held and of this.
pub(crate) fn vector_of(
    alloc: Global,
    item: Boxed<HackType>,
    new: HackType,
) -> Result<HackType, NoMemory>
    ensures { IfOk result (λ ty. ty ≡ vector_made item new) }
{
    Ok(limited(HackType::Vector(union_with(alloc, item, new)?)))
}

/// The keyset of what it held and of this.
pub(crate) fn keyset_of(
    alloc: Global,
    item: Boxed<HackType>,
    new: HackType,
) -> Result<HackType, NoMemory>
    ensures { IfOk result (λ ty. ty ≡ keyset_made item new) }
{
    Ok(limited(HackType::Keyset(union_with(alloc, item, new)?)))
}

/// The dict of what it held and of this key and value.
pub(crate) fn dict_of(
    alloc: Global,
    key: Boxed<HackType>,
    new_key: HackType,
    value: Boxed<HackType>,
    new: HackType,
) -> Result<HackType, NoMemory>
    ensures { IfOk result (λ ty. ty ≡ dict_made key new_key value new) }
{
    let keys = union_with(alloc, key, new_key)?;
    let values = union_with(alloc, value, new)?;
    Ok(limited(HackType::Dict(keys, values)))
}

// The union of a part and of what it gets.
fn union_with(
    alloc: Global,
    part: Boxed<HackType>,
    new: HackType,
) -> Result<Boxed<HackType>, NoMemory>
    ensures { IfOk result (λ union. union ≡ union_of (part ∷ new ∷ [])) }
{
    let both = [part.into_inner(), new];
    let union = union_of(alloc, &both);
    drop(both);
    Ok(Boxed::new(alloc, union?)?)
}

/// A shape takes a key string, under which it then has this type.
pub(crate) fn shape_with(
    alloc: Global,
    setting: &Setting<'_>,
    state: &mut State,
    at: Place,
    fields: Fields<HackType>,
    rest: bool,
    index: &Option<Index>,
    new: HackType,
) -> Result<HackType, NoMemory>
    ensures { Steps (shape_with at (type.Shape fields rest) fields rest new (key_of index.now))
        (setting_of setting.now) state.old result state.new
        (λ symbols. ShapeIn symbols fields new) TypeIn }
{
    match key_of(index) {
        Some(key) => Ok(shape_of(alloc, fields, rest, key, new)?),
        None => refuse_base(alloc, setting, state, at, HackType::Shape { fields, rest }),
    }
}

fn key_of(index: &Option<Index>) -> Option<NameId>
    ensures { result ≡ key_of index.now }
{
    match index {
        Some(index) => index.key,
        None => None,
    }
}

// The shape once it has this type under this key.
fn shape_of(
    alloc: Global,
    fields: Fields<HackType>,
    rest: bool,
    key: NameId,
    new: HackType,
) -> Result<HackType, NoMemory>
    ensures { IfOk result (λ ty. ty ≡ shape_made fields rest key new) }
{
    let mut by_key = keyed(alloc, &fields)?;
    drop(fields);
    by_key.insert(key, (false, new))?;
    Ok(limited(HackType::Shape {
        fields: in_order(alloc, by_key)?,
        rest,
    }))
}

// The fields under their keys.
fn keyed(
    alloc: Global,
    fields: &Fields<HackType>,
) -> Result<BTreeMap<NameId, (bool, HackType)>, NoMemory>
    ensures { IfOk result (λ by_key. by_key.entries ≡ with_fields [] fields.now) }
{
    let mut by_key = BTreeMap::new(alloc);
    for field in fields.as_slice() {
        by_key.insert(field.key, (field.optional, field.ty.copy(alloc)?))?;
    }
    Ok(by_key)
}
