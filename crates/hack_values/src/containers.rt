// Containers.
ghost use Rattle.std.specs.Prelude.{◌≡◌, ◌++◌, ◌∷◌, [], All, IfOk, OnOk, length, map};
ghost use Rattle.hack_decls.specs.Asks.{Nothing};
ghost use Rattle.hack_decls.specs.Names.{TypeIn};
ghost use Rattle.hack_parts.specs.ExprIn.{EntryIn, ExprIn};
ghost use Rattle.hack_parts.specs.Forms.{pair_of};
ghost use Rattle.hack_parts.specs.Parts.{Values};
ghost use Rattle.hack_rules.specs.Expressions.{meaning_of};
ghost use Rattle.hack_rules.specs.Values.{container_row, dict_row};
ghost use Rattle.hack_rules.specs.Walks.{expect, unless};
ghost use Rattle.hack_diag.specs.Messages.{expected};
ghost use Rattle.hack_types.specs.declared.hack_type.HackType.TheVariants.{Arraykey, Dict};
ghost use Rattle.hack_types.specs.UnionOf.{union_of};
ghost use Rattle.hack_walk.specs.Checks.{Steps, Walks, setting_of};
ghost use Rattle.hack_values.specs.inside.Rows as row;
ghost use Rattle.hack_values.specs.inside.Rows.{TypesIn};

use hack_decls::{DeclStop, Decls};
use hack_diag::expected;
use hack_parts::{Reading, place_of, types_of_each};
use hack_shallow::container_type;
use hack_tree::{Container, Entry, Expr};
use hack_types::{HackType, NoMemory, Place, limited, union_of};
use hack_walk::{Setting, State, is_below};
use sqlite_items::{Boxed, Items};
use std::alloc::Global;

/// `vec[..]` or `keyset[..]`: of the union of the elements' types; those of a keyset are expected to be arraykey, each at its place
/// (docs/language.md, Typing expressions). `EdgesFull` says that a lookup's note was refused, and `NoMemory` that memory ran out; what
/// was noted before stays noted.
pub fn container<
    D: Decls,
    F: Fn(Global, &Setting<'_>, &mut D, &mut State, &Expr, Reading) -> Result<HackType, DeclStop>,
>(
    value: &F,
    alloc: Global,
    setting: &Setting<'_>,
    decls: &mut D,
    state: &mut State,
    container: Container,
    elements: &[Expr],
) -> Result<HackType, DeclStop>
    requires elements { All (λ e. Values D.state e (F.pre value.now) (F.post value.now))
        elements.now }
    ensures { Walks (container_row container (map meaning_of elements.now)) (setting_of setting.now)
        (D.state decls.old) state.old result (D.state decls.new) state.new
        (λ symbols. All (ExprIn setting.now.scope.now symbols) elements.now) TypeIn }
{
    let types = types_of_each(value, alloc, setting, decls, state, elements)?;
    let answer = contained(
        alloc,
        setting,
        decls,
        state,
        container,
        elements,
        types.as_slice(),
    );
    drop(types);
    answer
}

// The elements have these types.
fn contained<D: Decls>(
    alloc: Global,
    setting: &Setting<'_>,
    decls: &mut D,
    state: &mut State,
    container: Container,
    elements: &[Expr],
    types: &[HackType],
) -> Result<HackType, DeclStop>
    requires { length elements.now ≡ length types.now }
    ensures { Walks (row.contained container elements.now types.now) (setting_of setting.now)
        (D.state decls.old) state.old result (D.state decls.new) state.new
        (λ symbols. All (TypeIn symbols) types.now) TypeIn }
{
    expect_elements(alloc, setting, decls, state, container, elements, types)?;
    Ok(container_of(alloc, container, types)?)
}

// What is expected of the elements.
fn expect_elements<D: Decls>(
    alloc: Global,
    setting: &Setting<'_>,
    decls: &mut D,
    state: &mut State,
    container: Container,
    elements: &[Expr],
    types: &[HackType],
) -> Result<(), DeclStop>
    requires { length elements.now ≡ length types.now }
    ensures { Walks (row.expect_elements container elements.now types.now) (setting_of setting.now)
        (D.state decls.old) state.old result (D.state decls.new) state.new
        (λ symbols. All (TypeIn symbols) types.now) Nothing }
{
    match container {
        Container::Vec => Ok(()),
        Container::Keyset => expect_keys(alloc, setting, decls, state, elements, types),
    }
}

// Each is expected to be arraykey, at its place.
fn expect_keys<D: Decls>(
    alloc: Global,
    setting: &Setting<'_>,
    decls: &mut D,
    state: &mut State,
    elements: &[Expr],
    types: &[HackType],
) -> Result<(), DeclStop>
    requires { length elements.now ≡ length types.now }
    ensures { Walks (row.expect_keys elements.now types.now) (setting_of setting.now)
        (D.state decls.old) state.old result (D.state decls.new) state.new
        (λ symbols. All (TypeIn symbols) types.now) Nothing }
{
    for index in 0..elements.len() {
        let at = place_of(&elements[index]);
        expect_key(alloc, setting, decls, state, at, &types[index])?;
    }
    Ok(())
}

// A type is expected to be arraykey.
fn expect_key<D: Decls>(
    alloc: Global,
    setting: &Setting<'_>,
    decls: &mut D,
    state: &mut State,
    at: Place,
    ty: &HackType,
) -> Result<(), DeclStop>
    ensures { Walks (expect at Arraykey ty.now) (setting_of setting.now)
        (D.state decls.old) state.old result (D.state decls.new) state.new
        (λ symbols. TypeIn symbols ty.now) Nothing }
{
    let fits = is_below(alloc, decls, setting.scope, ty, &HackType::Arraykey)?;
    Ok(report_unless(alloc, setting, state, fits, at, ty)?)
}

// The diagnostic where it isn't.
fn report_unless(
    alloc: Global,
    setting: &Setting<'_>,
    state: &mut State,
    fits: bool,
    at: Place,
    ty: &HackType,
) -> Result<(), NoMemory>
    ensures { Steps (unless fits at (expected Arraykey ty.now)) (setting_of setting.now)
        state.old result state.new (λ symbols. Unit {0}) Nothing }
{
    if fits {
        return Ok(());
    }
    let diag = expected(alloc, setting.names, at, &HackType::Arraykey, ty)?;
    state.report(diag)?;
    Ok(())
}

// The container whose elements have these types.
fn container_of(
    alloc: Global,
    container: Container,
    types: &[HackType],
) -> Result<HackType, NoMemory>
    ensures { IfOk result (λ ty. ty ≡ row.container_of container types.now) }
{
    let element = union_of(alloc, types)?;
    Ok(limited(container_type(alloc, container, element)?))
}

/// `dict[..]`: of the unions of the keys' and of the values' types; each key is expected to be arraykey at its place
/// (docs/language.md, Typing expressions). The errors are as those of `container`.
pub fn dict<
    D: Decls,
    F: Fn(Global, &Setting<'_>, &mut D, &mut State, &Expr, Reading) -> Result<HackType, DeclStop>,
>(
    value: &F,
    alloc: Global,
    setting: &Setting<'_>,
    decls: &mut D,
    state: &mut State,
    entries: &[Entry],
) -> Result<HackType, DeclStop>
    requires keys { All (λ entry. Values D.state entry.key
        (F.pre value.now) (F.post value.now)) entries.now }
    requires values { All (λ entry. Values D.state entry.value
        (F.pre value.now) (F.post value.now)) entries.now }
    ensures { Walks (dict_row (map pair_of entries.now)) (setting_of setting.now)
        (D.state decls.old) state.old result (D.state decls.new) state.new
        (λ symbols. All (EntryIn setting.now.scope.now symbols) entries.now) TypeIn }
{
    let mut keys = Items::new(alloc);
    let mut values = Items::new(alloc);
    for entry in entries {
        let types = entry_types(value, alloc, setting, decls, state, entry)?;
        push(&mut keys, &mut values, types)?;
    }
    Ok(dict_of(alloc, keys.as_slice(), values.as_slice())?)
}

// The types of an entry.
fn entry_types<
    D: Decls,
    F: Fn(Global, &Setting<'_>, &mut D, &mut State, &Expr, Reading) -> Result<HackType, DeclStop>,
>(
    value: &F,
    alloc: Global,
    setting: &Setting<'_>,
    decls: &mut D,
    state: &mut State,
    entry: &Entry,
) -> Result<(HackType, HackType), DeclStop>
    requires key { Values D.state entry.now.key (F.pre value.now) (F.post value.now) }
    requires value { Values D.state entry.now.value (F.pre value.now) (F.post value.now) }
    ensures { Walks (row.entry_types entry.now) (setting_of setting.now)
        (D.state decls.old) state.old result (D.state decls.new) state.new
        (λ symbols. EntryIn setting.now.scope.now symbols entry.now)
        (λ symbols types. TypesIn symbols types) }
{
    let key = key_type(value, alloc, setting, decls, state, &entry.key)?;
    let ty = value(alloc, setting, decls, state, &entry.value, Reading::Value)?;
    Ok((key, ty))
}

// The type of a key.
fn key_type<
    D: Decls,
    F: Fn(Global, &Setting<'_>, &mut D, &mut State, &Expr, Reading) -> Result<HackType, DeclStop>,
>(
    value: &F,
    alloc: Global,
    setting: &Setting<'_>,
    decls: &mut D,
    state: &mut State,
    key: &Expr,
) -> Result<HackType, DeclStop>
    requires key { Values D.state key.now (F.pre value.now) (F.post value.now) }
    ensures { Walks (row.key_type key.now) (setting_of setting.now)
        (D.state decls.old) state.old result (D.state decls.new) state.new
        (λ symbols. ExprIn setting.now.scope.now symbols key.now) TypeIn }
{
    let ty = value(alloc, setting, decls, state, key, Reading::Value)?;
    expect_key(alloc, setting, decls, state, place_of(key), &ty)?;
    Ok(ty)
}

fn push(
    keys: &mut Items<HackType>,
    values: &mut Items<HackType>,
    types: (HackType, HackType),
) -> Result<(), NoMemory>
    ensures keys { OnOk result (keys.new ≡ keys.old ++ types.0 ∷ []) }
    ensures values { OnOk result (values.new ≡ values.old ++ types.1 ∷ []) }
{
    let (key, value) = types;
    keys.push(key)?;
    Ok(values.push(value)?)
}

// The dict whose keys and values have these types.
fn dict_of(alloc: Global, keys: &[HackType], values: &[HackType]) -> Result<HackType, NoMemory>
    ensures { IfOk result (λ ty. ty ≡ row.dict_of keys.now values.now) }
{
    let key = union_of(alloc, keys)?;
    Ok(limited(with_values(alloc, key, values)?))
}

fn with_values(alloc: Global, key: HackType, values: &[HackType]) -> Result<HackType, NoMemory>
    ensures { IfOk result (λ ty. ty ≡ Dict key (union_of values.now)) }
{
    let value = union_of(alloc, values)?;
    dict_type(alloc, key, value)
}

fn dict_type(alloc: Global, key: HackType, value: HackType) -> Result<HackType, NoMemory>
    ensures { IfOk result (λ ty. ty ≡ Dict key value) }
{
    Ok(HackType::Dict(Boxed::new(alloc, key)?, Boxed::new(alloc, value)?))
}
