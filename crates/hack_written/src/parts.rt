// The parts of a written type, one function a row of the page.
ghost use Rattle.std.specs.Prelude.{◌≡◌, ◌++◌, ◌∷◌, [], ◌||◌, All, IfOk, IsTrue, OnOk, is_none, not};
ghost use Rattle.hack_decls.specs.Asks.{Nothing};
ghost use Rattle.hack_decls.specs.Names.{TypeIn, class_symbol};
ghost use Rattle.hack_types.specs.declared.hack_type.HackType.TheVariants as type;
ghost use Rattle.hack_walk.specs.Checks.{Walks};
ghost use Rattle.hack_shallow.specs.Resolved.{in_order};
ghost use Rattle.hack_sub.specs.IsBelow.{is_small};
ghost use Rattle.hack_written.specs.Within.{place_of};
ghost use Rattle.hack_written.specs.WrittenIn.{ClassIn, FieldIn, NameIn, WrittenIn};
ghost use Rattle.hack_written.specs.inside.Rows as row;
ghost use Rattle.hack_written.specs.inside.Rows.{IsPut, names_in, setting_in};

use crate::arguments::count_arguments;
use crate::around::Around;
use crate::bounds::expect_key;
use crate::parameters::parameter;
use crate::reports::{report_field, report_this, report_trait, report_unbound};
use hack_decls::{DeclStop, Decls, HeadingAnswer};
use hack_shallow::{container_type, in_order, primitive_type};
use hack_tree::{ClassType, Container, FieldType, WrittenType};
use hack_types::{
    HackType, Kind, MOST_NODES, NameId, NoMemory, Place, Sort, SymbolId, TypeParam, into_option,
};
use hack_walk::State;
use sqlite_items::{Boxed, Items};
use std::alloc::Global;
use std::collections::BTreeMap;

/// The place of the first token.
pub(crate) fn place_of(written: &WrittenType) -> Place
    ensures { result ≡ place_of written.now }
{
    match written {
        WrittenType::Optional { at, .. } => *at,
        WrittenType::Primitive { at, .. } => *at,
        WrittenType::This { at } => *at,
        WrittenType::Container { at, .. } => *at,
        WrittenType::Dict { at, .. } => *at,
        WrittenType::Shape { at, .. } => *at,
        WrittenType::Class(class) => class.at,
    }
}

/// The type that is written, however large, with its diagnostics.
#[cycle(checked)]
pub(crate) fn checked<D: Decls>(
    around: &Around<'_>,
    decls: &mut D,
    state: &mut State,
    written: &WrittenType,
) -> Result<HackType, DeclStop>
    ensures { Walks (row.checked (names_in around.now) around.now.bounds written.now)
        (setting_in around.now) (D.state decls.old) state.old result (D.state decls.new) state.new
        (λ symbols. WrittenIn (names_in around.now) symbols written.now) TypeIn }
{
    match written {
        WrittenType::Optional { inner, .. } => optional(around, decls, state, inner.get()),
        WrittenType::Primitive { primitive, .. } => Ok(primitive_type(*primitive)),
        WrittenType::This { at } => this(around, decls, state, *at),
        WrittenType::Container {
            container,
            element,
            ..
        } => contained(around, decls, state, element.get(), *container),
        WrittenType::Dict { key, value, .. } => {
            let key_type = checked(around, decls, state, key.get())?;
            dict(
                around,
                decls,
                state,
                value.get(),
                place_of(key.get()),
                key_type,
            )
        }
        WrittenType::Shape {
            fields,
            open: rest,
            ..
        } => shape(around, decls, state, fields.as_slice(), *rest),
        WrittenType::Class(class) => checked_class(around, decls, state, class, false),
    }
}

// `?T`
#[cycle(checked)]
fn optional<D: Decls>(
    around: &Around<'_>,
    decls: &mut D,
    state: &mut State,
    inner: &WrittenType,
) -> Result<HackType, DeclStop>
    ensures { Walks (row.optional (names_in around.now) around.now.bounds inner.now)
        (setting_in around.now) (D.state decls.old) state.old result (D.state decls.new) state.new
        (λ symbols. WrittenIn (names_in around.now) symbols inner.now) TypeIn }
{
    let ty = checked(around, decls, state, inner)?;
    Ok(into_option(around.alloc, ty)?)
}

// 4020 for `this` outside a class.
fn this<D: Decls>(
    around: &Around<'_>,
    _decls: &mut D,
    state: &mut State,
    at: Place,
) -> Result<HackType, DeclStop>
    ensures { Walks (row.this at)
        (setting_in around.now) (D.state _decls.old) state.old result (D.state _decls.new) state.new
        (λ symbols. Unit {0}) TypeIn }
{
    if !is_outside(around) {
        return Ok(HackType::This);
    }
    report_this(around.alloc, around.setting, state, at)?;
    Ok(HackType::This)
}

fn is_outside(around: &Around<'_>) -> bool
    ensures { result ≡ is_none (setting_in around.now).scope.class }
{
    around.setting.scope.class.is_none()
}

// `vec<T>` or `keyset<T>`
#[cycle(checked)]
fn contained<D: Decls>(
    around: &Around<'_>,
    decls: &mut D,
    state: &mut State,
    element: &WrittenType,
    container: Container,
) -> Result<HackType, DeclStop>
    ensures { Walks (row.contained (names_in around.now) around.now.bounds element.now container)
        (setting_in around.now) (D.state decls.old) state.old result (D.state decls.new) state.new
        (λ symbols. WrittenIn (names_in around.now) symbols element.now) TypeIn }
{
    let ty = checked(around, decls, state, element)?;
    expect_key_of(around, decls, state, place_of(element), &ty, container)?;
    Ok(container_type(around.alloc, container, ty)?)
}

// The elements of a keyset are keys.
fn expect_key_of<D: Decls>(
    around: &Around<'_>,
    decls: &mut D,
    state: &mut State,
    at: Place,
    ty: &HackType,
    container: Container,
) -> Result<(), DeclStop>
    ensures { Walks (row.key_of around.now.bounds at ty.now container)
        (setting_in around.now) (D.state decls.old) state.old result (D.state decls.new) state.new
        (λ symbols. TypeIn symbols ty.now) Nothing }
{
    match container {
        Container::Vec => Ok(()),
        Container::Keyset => expect_key_type(around, decls, state, at, ty),
    }
}

// Where bounds are tried, a type of keys is below `arraykey`; one of more than 256 nodes counts as `_`.
fn expect_key_type<D: Decls>(
    around: &Around<'_>,
    decls: &mut D,
    state: &mut State,
    at: Place,
    ty: &HackType,
) -> Result<(), DeclStop>
    ensures { Walks (row.key_checks around.now.bounds at ty.now)
        (setting_in around.now) (D.state decls.old) state.old result (D.state decls.new) state.new
        (λ symbols. TypeIn symbols ty.now) Nothing }
{
    let bounds = around.bounds;
    if !bounds {
        return Ok(());
    }
    if is_small(ty) {
        return expect_key(around.alloc, around.setting, decls, state, at, ty);
    }
    expect_key(
        around.alloc,
        around.setting,
        decls,
        state,
        at,
        &HackType::Any,
    )
}

/// Whether a type has at most 256 nodes.
pub(crate) fn is_small(ty: &HackType) -> bool
    ensures { result ≡ is_small ty.now }
{
    ty.is_within(MOST_NODES)
}

// The type of the values of a dict, behind that of its keys.
#[cycle(checked)]
fn dict<D: Decls>(
    around: &Around<'_>,
    decls: &mut D,
    state: &mut State,
    value: &WrittenType,
    key_at: Place,
    key: HackType,
) -> Result<HackType, DeclStop>
    ensures { Walks (row.dict (names_in around.now) around.now.bounds value.now key_at key)
        (setting_in around.now) (D.state decls.old) state.old result (D.state decls.new) state.new
        (λ symbols. WrittenIn (names_in around.now) symbols value.now × TypeIn symbols key)
        TypeIn }
{
    let value = checked(around, decls, state, value)?;
    expect_key_type(around, decls, state, key_at, &key)?;
    Ok(dict_type(around.alloc, key, value)?)
}

fn dict_type(alloc: Global, key: HackType, value: HackType) -> Result<HackType, NoMemory>
    ensures { IfOk result (λ ty. ty ≡ type.Dict key value) }
{
    Ok(HackType::Dict(Boxed::new(alloc, key)?, Boxed::new(alloc, value)?))
}

// `shape(..)`
#[cycle(checked)]
fn shape<D: Decls>(
    around: &Around<'_>,
    decls: &mut D,
    state: &mut State,
    fields: &[FieldType],
    rest: bool,
) -> Result<HackType, DeclStop>
    ensures { Walks (row.shape (names_in around.now) around.now.bounds fields.now rest)
        (setting_in around.now) (D.state decls.old) state.old result (D.state decls.new) state.new
        (λ symbols. All (FieldIn (names_in around.now) symbols) fields.now) TypeIn }
{
    let mut by_key = BTreeMap::new(around.alloc);
    for field in fields {
        let ty = field_type(around, decls, state, field, by_key.contains_key(&field.key))?;
        put(&mut by_key, field.key, field.optional, ty)?;
    }
    Ok(shape_type(around.alloc, by_key, rest)?)
}

// The type of a field; 4023 for a key that was given before.
#[cycle(checked)]
fn field_type<D: Decls>(
    around: &Around<'_>,
    decls: &mut D,
    state: &mut State,
    field: &FieldType,
    is_given: bool,
) -> Result<HackType, DeclStop>
    ensures { Walks (row.field_type (names_in around.now) around.now.bounds field.now is_given)
        (setting_in around.now) (D.state decls.old) state.old result (D.state decls.new) state.new
        (λ symbols. FieldIn (names_in around.now) symbols field.now) TypeIn }
{
    expect_new(around, decls, state, field.key_at, field.key, is_given)?;
    checked(around, decls, state, &field.value)
}

fn expect_new<D: Decls>(
    around: &Around<'_>,
    _decls: &mut D,
    state: &mut State,
    at: Place,
    key: NameId,
    is_given: bool,
) -> Result<(), DeclStop>
    ensures { Walks (row.expect_new at key is_given)
        (setting_in around.now) (D.state _decls.old) state.old result (D.state _decls.new) state.new
        (λ symbols. Unit {0}) Nothing }
{
    if !is_given {
        return Ok(());
    }
    report_field(around.alloc, around.setting, state, at, key)?;
    Ok(())
}

fn put(
    by_key: &mut BTreeMap<NameId, (bool, HackType)>,
    key: NameId,
    optional: bool,
    ty: HackType,
) -> Result<(), NoMemory>
    ensures { OnOk result (IsPut by_key.old key optional ty by_key.new) }
{
    by_key.insert(key, (optional, ty))?;
    Ok(())
}

fn shape_type(
    alloc: Global,
    by_key: BTreeMap<NameId, (bool, HackType)>,
    rest: bool,
) -> Result<HackType, NoMemory>
    ensures { IfOk result (λ ty. ty ≡ type.Shape (in_order by_key.entries) rest) }
{
    Ok(HackType::Shape {
        fields: in_order(alloc, by_key)?,
        rest,
    })
}

/// The type that a name with its arguments is, however large, with its diagnostics; a trait may stand there or not.
#[cycle(checked)]
pub(crate) fn checked_class<D: Decls>(
    around: &Around<'_>,
    decls: &mut D,
    state: &mut State,
    class: &ClassType,
    traits: bool,
) -> Result<HackType, DeclStop>
    ensures { Walks (row.checked_class (names_in around.now) around.now.bounds class.now traits)
        (setting_in around.now) (D.state decls.old) state.old result (D.state decls.new) state.new
        (λ symbols. ClassIn (names_in around.now) symbols class.now) TypeIn }
{
    let types = arguments(around, decls, state, class.arguments.as_slice())?;
    named(around, decls, state, class, traits, types)
}

// The types of arguments.
#[cycle(checked)]
fn arguments<D: Decls>(
    around: &Around<'_>,
    decls: &mut D,
    state: &mut State,
    written: &[WrittenType],
) -> Result<Items<HackType>, DeclStop>
    ensures { Walks (row.arguments (names_in around.now) around.now.bounds written.now)
        (setting_in around.now) (D.state decls.old) state.old result (D.state decls.new) state.new
        (λ symbols. All (WrittenIn (names_in around.now) symbols) written.now)
        (λ symbols. All (TypeIn symbols)) }
{
    let mut types = Items::new(around.alloc);
    for argument in written {
        let ty = checked(around, decls, state, argument)?;
        push(&mut types, ty)?;
    }
    Ok(types)
}

fn push(types: &mut Items<HackType>, ty: HackType) -> Result<(), NoMemory>
    ensures { OnOk result (types.new ≡ types.old ++ ty ∷ []) }
{
    Ok(types.push(ty)?)
}

// A name whose arguments have these types.
fn named<D: Decls>(
    around: &Around<'_>,
    decls: &mut D,
    state: &mut State,
    class: &ClassType,
    traits: bool,
    types: Items<HackType>,
) -> Result<HackType, DeclStop>
    requires { types ≡ row.types_in (names_in around.now) class.now.arguments }
    ensures { Walks (row.named (names_in around.now) around.now.bounds class.now traits)
        (setting_in around.now) (D.state decls.old) state.old result (D.state decls.new) state.new
        (λ symbols. NameIn (names_in around.now) symbols class.now.name
        × All (TypeIn symbols) types) TypeIn }
{
    match parameter(around.parameters, class.name) {
        Some(parameter) => Ok(parameter),
        None => declared_type(around, decls, state, class, traits, types),
    }
}

// The name is no type parameter.
fn declared_type<D: Decls>(
    around: &Around<'_>,
    decls: &mut D,
    state: &mut State,
    class: &ClassType,
    traits: bool,
    types: Items<HackType>,
) -> Result<HackType, DeclStop>
    requires { types ≡ row.types_in (names_in around.now) class.now.arguments }
    ensures { Walks (row.declared_type (names_in around.now) around.now.bounds class.now traits)
        (setting_in around.now) (D.state decls.old) state.old result (D.state decls.new) state.new
        (λ symbols. IsTrue (symbols (class_symbol class.now.name))
        × All (TypeIn symbols) types) TypeIn }
{
    expect_declared(around, decls, state, class, traits, types.as_slice())?;
    Ok(HackType::Class(class.name, types))
}

// What is declared under the name.
fn expect_declared<D: Decls>(
    around: &Around<'_>,
    decls: &mut D,
    state: &mut State,
    class: &ClassType,
    traits: bool,
    types: &[HackType],
) -> Result<(), DeclStop>
    requires { types.now ≡ row.types_in (names_in around.now) class.now.arguments }
    ensures { Walks (row.expect_declared (names_in around.now) around.now.bounds class.now traits)
        (setting_in around.now) (D.state decls.old) state.old result (D.state decls.new) state.new
        (λ symbols. IsTrue (symbols (class_symbol class.now.name))
        × All (TypeIn symbols) types.now) Nothing }
{
    let heading = decls.heading(around.alloc, class_symbol(class.name))?;
    let done = expect_heading(around, decls, state, class, traits, types, &heading);
    drop(heading);
    done
}

fn class_symbol(name: NameId) -> SymbolId
    ensures { result ≡ class_symbol name }
{
    SymbolId {
        kind: Kind::Class,
        name,
    }
}

// The declaration has this heading.
fn expect_heading<D: Decls>(
    around: &Around<'_>,
    decls: &mut D,
    state: &mut State,
    class: &ClassType,
    traits: bool,
    types: &[HackType],
    heading: &HeadingAnswer,
) -> Result<(), DeclStop>
    requires { types.now ≡ row.types_in (names_in around.now) class.now.arguments }
    ensures { Walks (row.expect_heading
        (names_in around.now) around.now.bounds class.now traits heading.now)
        (setting_in around.now) (D.state decls.old) state.old result (D.state decls.new) state.new
        (λ symbols. All (TypeIn symbols) types.now × row.HeadingIn symbols heading.now) Nothing }
{
    if is_absent(heading) {
        report_unbound(around.alloc, around.setting, state, class.at, class.name)?;
        return Ok(());
    }
    expect_type(around, decls, state, class, traits, heading)?;
    count_arguments(around, decls, state, class, params_of(heading), types)
}

fn is_absent(heading: &HeadingAnswer) -> bool
    ensures { result ≡ row.is_absent heading.now }
{
    matches!(heading, HeadingAnswer::Absent)
}

// 3004 for a trait where none may stand.
fn expect_type<D: Decls>(
    around: &Around<'_>,
    _decls: &mut D,
    state: &mut State,
    class: &ClassType,
    traits: bool,
    heading: &HeadingAnswer,
) -> Result<(), DeclStop>
    ensures { Walks (row.expect_type class.now traits heading.now)
        (setting_in around.now) (D.state _decls.old) state.old result (D.state _decls.new) state.new
        (λ symbols. Unit {0}) Nothing }
{
    if may_stand(traits, heading) {
        return Ok(());
    }
    report_trait(around.alloc, around.setting, state, class.at, class.name)?;
    Ok(())
}

fn may_stand(traits: bool, heading: &HeadingAnswer) -> bool
    ensures { result ≡ (traits || not (row.is_trait heading.now)) }
{
    traits || !is_trait(heading)
}

fn is_trait(heading: &HeadingAnswer) -> bool
    ensures { result ≡ row.is_trait heading.now }
{
    match heading {
        HeadingAnswer::ClassLike(class) => is_trait_sort(class.sort),
        _ => false,
    }
}

fn is_trait_sort(sort: Sort) -> bool
    ensures { result ≡ row.is_trait_sort sort }
{
    matches!(sort, Sort::Trait)
}

// The type parameters that a declaration writes.
fn params_of(heading: &HeadingAnswer) -> &[TypeParam]
    ensures { result.now ≡ row.params_of heading.now }
{
    match heading {
        HeadingAnswer::ClassLike(class) => class.type_params.as_slice(),
        HeadingAnswer::Alias(sig) => sig.type_params.as_slice(),
        _ => &[],
    }
}
