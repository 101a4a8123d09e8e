// Shapes.
ghost use Rattle.std.specs.Prelude.{◌≡◌, All, IfOk, OnOk, map, not};
ghost use Rattle.hack_decls.specs.Asks.{Nothing};
ghost use Rattle.hack_decls.specs.Names.{TypeIn};
ghost use Rattle.hack_diag.specs.Messages.{field_twice};
ghost use Rattle.hack_parts.specs.ExprIn.{FieldIn};
ghost use Rattle.hack_parts.specs.Forms.{given_of};
ghost use Rattle.hack_parts.specs.Parts.{Values};
ghost use Rattle.hack_rules.specs.Values.{shape_row};
ghost use Rattle.hack_rules.specs.Walks.{unless};
ghost use Rattle.hack_walk.specs.Checks.{Steps, Walks, setting_of};
ghost use Rattle.hack_values.specs.inside.Rows as row;
ghost use Rattle.hack_values.specs.inside.Rows.{IsPut};

use hack_decls::{DeclStop, Decls};
use hack_diag::field_twice;
use hack_parts::Reading;
use hack_shallow::in_order;
use hack_tree::{Expr, FieldValue};
use hack_types::{HackType, NameId, NoMemory, Place, limited};
use hack_walk::{Setting, State};
use std::alloc::Global;
use std::collections::BTreeMap;

/// `shape(..)`: closed, and with the type of each field's value; 4023 at a key that was given before, of which the last counts
/// (docs/language.md, Typing expressions). `EdgesFull` says that a lookup's note was refused, and `NoMemory` that memory ran out; what
/// was noted before stays noted.
pub fn shape<
    D: Decls,
    F: Fn(Global, &Setting<'_>, &mut D, &mut State, &Expr, Reading) -> Result<HackType, DeclStop>,
>(
    value: &F,
    alloc: Global,
    setting: &Setting<'_>,
    decls: &mut D,
    state: &mut State,
    fields: &[FieldValue],
) -> Result<HackType, DeclStop>
    requires fields { All (λ field. Values D.state field.value
        (F.pre value.now) (F.post value.now)) fields.now }
    ensures { Walks (shape_row (map given_of fields.now)) (setting_of setting.now)
        (D.state decls.old) state.old result (D.state decls.new) state.new
        (λ symbols. All (FieldIn setting.now.scope.now symbols) fields.now) TypeIn }
{
    let mut by_key = BTreeMap::new(alloc);
    for field in fields {
        let is_given = by_key.contains_key(&field.key);
        let ty = field_type(value, alloc, setting, decls, state, field, is_given)?;
        put(&mut by_key, field.key, ty)?;
    }
    Ok(shape_of(alloc, by_key)?)
}

// The type of a field; 4023 where its key was given before.
fn field_type<
    D: Decls,
    F: Fn(Global, &Setting<'_>, &mut D, &mut State, &Expr, Reading) -> Result<HackType, DeclStop>,
>(
    value: &F,
    alloc: Global,
    setting: &Setting<'_>,
    decls: &mut D,
    state: &mut State,
    field: &FieldValue,
    is_given: bool,
) -> Result<HackType, DeclStop>
    requires field { Values D.state field.now.value (F.pre value.now) (F.post value.now) }
    ensures { Walks (row.field_type field.now is_given) (setting_of setting.now)
        (D.state decls.old) state.old result (D.state decls.new) state.new
        (λ symbols. FieldIn setting.now.scope.now symbols field.now) TypeIn }
{
    expect_new(alloc, setting, state, field.key_at, field.key, is_given)?;
    value(alloc, setting, decls, state, &field.value, Reading::Value)
}

fn expect_new(
    alloc: Global,
    setting: &Setting<'_>,
    state: &mut State,
    at: Place,
    key: NameId,
    is_given: bool,
) -> Result<(), NoMemory>
    ensures { Steps (unless (not is_given) at (field_twice key)) (setting_of setting.now)
        state.old result state.new (λ symbols. Unit {0}) Nothing }
{
    if !is_given {
        return Ok(());
    }
    let diag = field_twice(alloc, setting.names, at, key)?;
    state.report(diag)?;
    Ok(())
}

fn put(
    by_key: &mut BTreeMap<NameId, (bool, HackType)>,
    key: NameId,
    ty: HackType,
) -> Result<(), NoMemory>
    ensures { OnOk result (IsPut by_key.old key ty by_key.new) }
{
    by_key.insert(key, (false, ty))?;
    Ok(())
}

// The shape with the fields under these keys.
fn shape_of(alloc: Global, by_key: BTreeMap<NameId, (bool, HackType)>) -> Result<HackType, NoMemory>
    ensures { IfOk result (λ ty. ty ≡ row.shape_of by_key.entries) }
{
    Ok(limited(HackType::Shape {
        fields: in_order(alloc, by_key)?,
        rest: false,
    }))
}
