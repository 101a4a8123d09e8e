// The rule on shapes.
ghost use Rattle.std.specs.Prelude.{◌≡◌, ◌&&◌, ◌||◌, is_some, not, option_copied};
ghost use Rattle.std.specs.List.{list_all};
ghost use Rattle.hack_sub.specs.Named.{PairIn};
ghost use Rattle.hack_sub.specs.inside.Calls.{FieldIn, FieldsIn, Relates, Tells};
ghost use Rattle.hack_sub.specs.IsBelow.{covers, is_below, meets_field, shape};
ghost use Rattle.hack_sub.specs.Rules.{field_at};

use crate::Scope;
use crate::level::{Level, holds};
use crate::parts::{is_open, shape_fields};
use hack_decls::{DeclStop, Decls};
use hack_types::{Field, HackType, NameId};
use std::alloc::Global;

/// Both are shapes, and the lower one meets the upper one.
pub(crate) fn shapes<D: Decls, F>(
    level: &Level<'_, F>,
    decls: &mut D,
    lower: &HackType,
    upper: &HackType,
) -> Result<bool, DeclStop>
where
    F: Fn(Global, &mut D, &Scope, u32, &HackType, &HackType) -> Result<bool, DeclStop>,
    requires { Relates D.state level.now.height (F.pre level.now.below) (F.post level.now.below) }
    ensures { Tells (D.state decls.old) result (D.state decls.new)
        (λ map. shape (is_below map level.now.scope.now level.now.height) lower.now upper.now)
        (λ symbols. PairIn symbols level.now.scope.now lower.now upper.now) }
{
    match (shape_fields(lower), shape_fields(upper)) {
        (Some(fields), Some(others)) => {
            meets(level, decls, is_open(lower), is_open(upper), fields, others)
        }
        _ => Ok(false),
    }
}

// A shape with these fields, and further ones or not, meets one with the others, which may have further ones or not.
fn meets<D: Decls, F>(
    level: &Level<'_, F>,
    decls: &mut D,
    further: bool,
    takes_more: bool,
    fields: &[Field<HackType>],
    others: &[Field<HackType>],
) -> Result<bool, DeclStop>
where
    F: Fn(Global, &mut D, &Scope, u32, &HackType, &HackType) -> Result<bool, DeclStop>,
    requires { Relates D.state level.now.height (F.pre level.now.below) (F.post level.now.below) }
    ensures { Tells (D.state decls.old) result (D.state decls.new)
        (λ map. (takes_more || (not further && covers others.now fields.now))
        && list_all (meets_field (is_below map level.now.scope.now level.now.height)
        further fields.now) others.now)
        (λ symbols. FieldsIn symbols level.now.scope.now fields.now others.now) }
{
    if is_covered(further, takes_more, fields, others) {
        meets_all(level, decls, further, fields, others)
    } else {
        Ok(false)
    }
}

// Whether the second shape takes all fields that the first may have.
fn is_covered(
    further: bool,
    takes_more: bool,
    fields: &[Field<HackType>],
    others: &[Field<HackType>],
) -> bool
    ensures { result ≡ (takes_more || (not further && covers others.now fields.now)) }
{
    takes_more || (!further && covers(others, fields))
}

// A shape with these fields, and further ones or not, meets each of the others.
fn meets_all<D: Decls, F>(
    level: &Level<'_, F>,
    decls: &mut D,
    further: bool,
    fields: &[Field<HackType>],
    others: &[Field<HackType>],
) -> Result<bool, DeclStop>
where
    F: Fn(Global, &mut D, &Scope, u32, &HackType, &HackType) -> Result<bool, DeclStop>,
    requires { Relates D.state level.now.height (F.pre level.now.below) (F.post level.now.below) }
    ensures { Tells (D.state decls.old) result (D.state decls.new)
        (λ map. list_all
        (λ field. meets_field (is_below map level.now.scope.now level.now.height)
        further fields.now field) others.now)
        (λ symbols. FieldsIn symbols level.now.scope.now fields.now others.now) }
{
    for field in others {
        let meets = meets_field(level, decls, further, fields, field)?;
        if !meets {
            return Ok(false);
        }
    }
    Ok(true)
}

// It meets this field.
fn meets_field<D: Decls, F>(
    level: &Level<'_, F>,
    decls: &mut D,
    further: bool,
    fields: &[Field<HackType>],
    field: &Field<HackType>,
) -> Result<bool, DeclStop>
where
    F: Fn(Global, &mut D, &Scope, u32, &HackType, &HackType) -> Result<bool, DeclStop>,
    requires { Relates D.state level.now.height (F.pre level.now.below) (F.post level.now.below) }
    ensures { Tells (D.state decls.old) result (D.state decls.new)
        (λ map. meets_field
        (is_below map level.now.scope.now level.now.height) further fields.now field.now)
        (λ symbols. FieldIn symbols level.now.scope.now fields.now field.now.ty) }
{
    match field_at(fields, field.key) {
        None => Ok(may_lack(field.optional, further)),
        Some(own) => field_below(level, decls, own, field),
    }
}

// Whether a shape may lack a field, which is optional or not, where it has further fields or not.
fn may_lack(optional: bool, further: bool) -> bool
    ensures { result ≡ (optional && not further) }
{
    optional && !further
}

// A field may stand for another, and its type is below that of the other.
fn field_below<D: Decls, F>(
    level: &Level<'_, F>,
    decls: &mut D,
    own: &Field<HackType>,
    field: &Field<HackType>,
) -> Result<bool, DeclStop>
where
    F: Fn(Global, &mut D, &Scope, u32, &HackType, &HackType) -> Result<bool, DeclStop>,
    requires { Relates D.state level.now.height (F.pre level.now.below) (F.post level.now.below) }
    ensures { Tells (D.state decls.old) result (D.state decls.new)
        (λ map. (not own.now.optional || field.now.optional)
        && is_below map level.now.scope.now level.now.height own.now.ty field.now.ty)
        (λ symbols. PairIn symbols level.now.scope.now own.now.ty field.now.ty) }
{
    if !may_stand(own.optional, field.optional) {
        return Ok(false);
    }
    holds(level, decls, &own.ty, &field.ty)
}

// Whether a field, which is optional or not, may stand for one that is or isn't.
fn may_stand(own_optional: bool, optional: bool) -> bool
    ensures { result ≡ (not own_optional || optional) }
{
    !own_optional || optional
}

// The field of this key.
fn field_at(fields: &[Field<HackType>], key: NameId) -> Option<&Field<HackType>>
    ensures { option_copied result ≡ field_at fields.now key }
{
    for field in fields {
        if field.key == key {
            return Some(field);
        }
    }
    None
}

// Whether the others have the key of each of these fields.
fn covers(others: &[Field<HackType>], fields: &[Field<HackType>]) -> bool
    ensures { result ≡ covers others.now fields.now }
{
    for field in fields {
        if !has_key(others, field.key) {
            return false;
        }
    }
    true
}

// Whether one of these fields has this key.
fn has_key(fields: &[Field<HackType>], key: NameId) -> bool
    ensures { result ≡ is_some (field_at fields.now key) }
{
    field_at(fields, key).is_some()
}
