// `new` and what stands behind it.
ghost use Rattle.std.specs.Prelude.{◌≡◌, ◌==◌, ◌||◌, ◌++◌, ◌∷◌, [], All, IsTrue, OnOk, Some, length, nat_le};
ghost use Rattle.hack_types.specs.Substituted.{most_nodes};
ghost use Rattle.hack_types.specs.TypeNodes.{nodes};
ghost use Rattle.hack_types.specs.declared.hack_type.HackType.TheVariants.{Class};
ghost use Rattle.hack_decls.specs.Asks.{Nothing};
ghost use Rattle.hack_decls.specs.Names.{TypeIn, class_symbol};
ghost use Rattle.hack_diag.specs.Messages.{other_arguments, too_big};
ghost use Rattle.hack_parts.specs.ExprIn.{ReferenceIn};
ghost use Rattle.hack_rules.specs.News.{constructed, new_class, new_declared, new_named, new_with, new_without};
ghost use Rattle.hack_rules.specs.Walks.{refuse, report};
ghost use Rattle.hack_rules.specs.WrittenTypes.{names_of};
ghost use Rattle.hack_walk.specs.Checks.{Steps, Walks, setting_of};
ghost use Rattle.hack_written.specs.Within.{ParamsIn, arguments_of};
ghost use Rattle.hack_written.specs.WrittenIn.{WrittenIn};
ghost use Rattle.hack_calls.specs.Named.{GivenIn};
ghost use Rattle.hack_new.specs.inside.Rows as row;
ghost use Rattle.hack_new.specs.inside.Rows.{DeclaredIn};
ghost use Rattle.hack_sub.specs.Parts as parts;

use crate::constructors::construct;
use crate::instances::expect_instance;
use crate::lifting::narrow;
use crate::solved::solved_class;
use crate::words::new_word;
use hack_calls::{Argument, Declared, mention, referred};
use hack_decls::{DeclStop, Decls};
use hack_diag::{other_arguments, too_big};
use hack_sub::arguments_of;
use hack_tree::{ClassReference, WrittenType};
use hack_types::{HackType, MOST_NODES, NameId, NoMemory, Place, TypeParam, limited};
use hack_walk::{Setting, State};
use hack_written::{expect_arguments, written};
use sqlite_items::Items;
use std::alloc::Global;

/// `new C<T>(arguments)`, with the arguments typed: what stands behind `new` is at `class_at` (docs/language.md, Typing expressions, New).
/// `EdgesFull` says that a lookup's note was refused, and `NoMemory` that memory ran out; what was noted before stays noted.
pub fn new_class<D: Decls>(
    alloc: Global,
    setting: &Setting<'_>,
    decls: &mut D,
    state: &mut State,
    at: Place,
    class_at: Place,
    class: &ClassReference,
    types: &[WrittenType],
    given: &[Argument],
) -> Result<HackType, DeclStop>
    ensures { Walks (new_class at class_at class.now types.now given.now) (setting_of setting.now)
        (D.state decls.old) state.old result (D.state decls.new) state.new
        (λ symbols. ReferenceIn symbols class.now
        × All (WrittenIn (names_of setting.now.scope.now) symbols) types.now
        × GivenIn symbols given.now) TypeIn }
{
    match class {
        ClassReference::Named(name) => {
            new_named(
                alloc, setting, decls, state, at, class_at, *name, types, given,
            )
        }
        ClassReference::Self_ | ClassReference::Static | ClassReference::Parent => {
            by_word(alloc, setting, decls, state, at, class_at, class, given)
        }
    }
}

// `new` and a word.
fn by_word<D: Decls>(
    alloc: Global,
    setting: &Setting<'_>,
    decls: &mut D,
    state: &mut State,
    at: Place,
    class_at: Place,
    word: &ClassReference,
    given: &[Argument],
) -> Result<HackType, DeclStop>
    ensures { Walks (row.by_word at class_at word.now given.now) (setting_of setting.now)
        (D.state decls.old) state.old result (D.state decls.new) state.new
        (λ symbols. ReferenceIn symbols word.now × GivenIn symbols given.now) TypeIn }
{
    let ty = referred(alloc, setting, decls, state, class_at, word)?;
    new_word(alloc, setting, decls, state, at, word, given, ty)
}

// `new` and a name.
fn new_named<D: Decls>(
    alloc: Global,
    setting: &Setting<'_>,
    decls: &mut D,
    state: &mut State,
    at: Place,
    name_at: Place,
    name: NameId,
    types: &[WrittenType],
    given: &[Argument],
) -> Result<HackType, DeclStop>
    ensures { Walks (new_named at name_at name types.now given.now) (setting_of setting.now)
        (D.state decls.old) state.old result (D.state decls.new) state.new
        (λ symbols. IsTrue (symbols (class_symbol name))
        × All (WrittenIn (names_of setting.now.scope.now) symbols) types.now
        × GivenIn symbols given.now) TypeIn }
{
    let declared = mention(alloc, setting, decls, state, name_at, name)?;
    let made = with_mention(
        alloc, setting, decls, state, at, name_at, name, types, given, &declared,
    );
    drop(declared);
    made
}

// Behind the mention.
fn with_mention<D: Decls>(
    alloc: Global,
    setting: &Setting<'_>,
    decls: &mut D,
    state: &mut State,
    at: Place,
    name_at: Place,
    name: NameId,
    types: &[WrittenType],
    given: &[Argument],
    declared: &Option<Declared>,
) -> Result<HackType, DeclStop>
    ensures { Walks (row.behind_mention at name_at name types.now given.now declared.now)
        (setting_of setting.now)
        (D.state decls.old) state.old result (D.state decls.new) state.new
        (λ symbols. IsTrue (symbols (class_symbol name))
        × All (WrittenIn (names_of setting.now.scope.now) symbols) types.now
        × GivenIn symbols given.now × DeclaredIn symbols declared.now) TypeIn }
{
    let own = written_types(alloc, setting, decls, state, types)?;
    expect_number(alloc, setting, state, name_at, name, own.len(), declared)?;
    new_by(
        alloc, setting, decls, state, at, name_at, name, types, own, given, declared,
    )
}

// The types that these are.
fn written_types<D: Decls>(
    alloc: Global,
    setting: &Setting<'_>,
    decls: &mut D,
    state: &mut State,
    types: &[WrittenType],
) -> Result<Items<HackType>, DeclStop>
    ensures { Walks (row.types_row types.now) (setting_of setting.now)
        (D.state decls.old) state.old result (D.state decls.new) state.new
        (λ symbols. All (WrittenIn (names_of setting.now.scope.now) symbols) types.now)
        (λ symbols. All (TypeIn symbols)) }
{
    let mut own = Items::new(alloc);
    for ty in types {
        let one = written(alloc, setting, decls, state, ty)?;
        push(&mut own, one)?;
    }
    Ok(own)
}

fn push(types: &mut Items<HackType>, ty: HackType) -> Result<(), NoMemory>
    ensures { OnOk result (types.new ≡ types.old ++ ty ∷ []) }
{
    Ok(types.push(ty)?)
}

// 3002 where type arguments are written, and are another number; of a trait too.
fn expect_number(
    alloc: Global,
    setting: &Setting<'_>,
    state: &mut State,
    name_at: Place,
    name: NameId,
    count: usize,
    declared: &Option<Declared>,
) -> Result<(), NoMemory>
    ensures { Steps (row.expect_number name_at name count declared.now) (setting_of setting.now)
        state.old result state.new (λ symbols. Unit {0}) Nothing }
{
    match declared {
        Some(declared) => {
            let wanted = declared.type_params.len();
            expect_wanted(alloc, setting, state, name_at, name, wanted, count)
        }
        None => Ok(()),
    }
}

// The same against the number that is declared.
fn expect_wanted(
    alloc: Global,
    setting: &Setting<'_>,
    state: &mut State,
    name_at: Place,
    name: NameId,
    wanted: usize,
    count: usize,
) -> Result<(), NoMemory>
    ensures { Steps (row.expect_wanted name_at name wanted count) (setting_of setting.now)
        state.old result state.new (λ symbols. Unit {0}) Nothing }
{
    if is_number(wanted, count) {
        return Ok(());
    }
    report_number(alloc, setting, state, name_at, name, wanted, count)
}

// None where none are written, else as many as are declared.
fn is_number(wanted: usize, count: usize) -> bool
    ensures { result ≡ ((count == 0) || (wanted == count)) }
{
    count == 0 || wanted == count
}

fn report_number(
    alloc: Global,
    setting: &Setting<'_>,
    state: &mut State,
    at: Place,
    name: NameId,
    wanted: usize,
    found: usize,
) -> Result<(), NoMemory>
    ensures { Steps (report at (other_arguments name wanted found)) (setting_of setting.now)
        state.old result state.new (λ symbols. Unit {0}) Nothing }
{
    let wanted = narrow(wanted)?;
    let found = narrow(found)?;
    let diag = other_arguments(alloc, setting.names, at, name, wanted, found)?;
    state.report(diag)
}

// Where nothing goes on from the name, and for a trait, it is `_`.
fn new_by<D: Decls>(
    alloc: Global,
    setting: &Setting<'_>,
    decls: &mut D,
    state: &mut State,
    at: Place,
    name_at: Place,
    name: NameId,
    types: &[WrittenType],
    own: Items<HackType>,
    given: &[Argument],
    declared: &Option<Declared>,
) -> Result<HackType, DeclStop>
    requires { length own ≡ length types.now }
    ensures { Walks
        (row.new_by at name_at name (arguments_of types.now own) given.now declared.now)
        (setting_of setting.now)
        (D.state decls.old) state.old result (D.state decls.new) state.new
        (λ symbols. IsTrue (symbols (class_symbol name)) × All (TypeIn symbols) own
        × GivenIn symbols given.now × DeclaredIn symbols declared.now) TypeIn }
{
    match declared {
        Some(declared) => of_declared(
            alloc, setting, decls, state, at, name_at, name, types, own, given, declared,
        ),
        None => Ok(HackType::Any),
    }
}

// Something is declared under the name.
fn of_declared<D: Decls>(
    alloc: Global,
    setting: &Setting<'_>,
    decls: &mut D,
    state: &mut State,
    at: Place,
    name_at: Place,
    name: NameId,
    types: &[WrittenType],
    own: Items<HackType>,
    given: &[Argument],
    declared: &Declared,
) -> Result<HackType, DeclStop>
    requires { length own ≡ length types.now }
    ensures { Walks
        (row.new_by at name_at name (arguments_of types.now own) given.now (Some declared.now))
        (setting_of setting.now)
        (D.state decls.old) state.old result (D.state decls.new) state.new
        (λ symbols. IsTrue (symbols (class_symbol name)) × All (TypeIn symbols) own
        × GivenIn symbols given.now × ParamsIn symbols declared.now.type_params) TypeIn }
{
    if declared.is_trait {
        return Ok(HackType::Any);
    }
    let params = declared.type_params.as_slice();
    new_declared(
        alloc, setting, decls, state, at, name_at, name, params, types, own, given,
    )
}

// With type arguments or without; another number gives `_`.
fn new_declared<D: Decls>(
    alloc: Global,
    setting: &Setting<'_>,
    decls: &mut D,
    state: &mut State,
    at: Place,
    name_at: Place,
    name: NameId,
    params: &[TypeParam],
    types: &[WrittenType],
    own: Items<HackType>,
    given: &[Argument],
) -> Result<HackType, DeclStop>
    requires { length own ≡ length types.now }
    ensures { Walks
        (new_declared at name_at name params.now (arguments_of types.now own) given.now)
        (setting_of setting.now)
        (D.state decls.old) state.old result (D.state decls.new) state.new
        (λ symbols. IsTrue (symbols (class_symbol name)) × All (TypeIn symbols) own
        × GivenIn symbols given.now × ParamsIn symbols params.now) TypeIn }
{
    if types.is_empty() {
        return new_without(alloc, setting, decls, state, at, name, params, given);
    }
    if params.len() != types.len() {
        return Ok(HackType::Any);
    }
    new_with(
        alloc, setting, decls, state, at, name_at, name, params, types, own, given,
    )
}

// Without written type arguments.
fn new_without<D: Decls>(
    alloc: Global,
    setting: &Setting<'_>,
    decls: &mut D,
    state: &mut State,
    at: Place,
    name: NameId,
    params: &[TypeParam],
    given: &[Argument],
) -> Result<HackType, DeclStop>
    ensures { Walks (new_without at name params.now given.now) (setting_of setting.now)
        (D.state decls.old) state.old result (D.state decls.new) state.new
        (λ symbols. IsTrue (symbols (class_symbol name))
        × GivenIn symbols given.now × ParamsIn symbols params.now) TypeIn }
{
    expect_instance(alloc, setting, decls, state, at, name)?;
    if params.is_empty() {
        return plain_class(alloc, setting, decls, state, at, name, given);
    }
    solved_class(alloc, setting, decls, state, at, name, params, given)
}

// A class without type parameters.
fn plain_class<D: Decls>(
    alloc: Global,
    setting: &Setting<'_>,
    decls: &mut D,
    state: &mut State,
    at: Place,
    name: NameId,
    given: &[Argument],
) -> Result<HackType, DeclStop>
    ensures { Walks (constructed at name [] (Class name []) given.now) (setting_of setting.now)
        (D.state decls.old) state.old result (D.state decls.new) state.new
        (λ symbols. IsTrue (symbols (class_symbol name)) × GivenIn symbols given.now) TypeIn }
{
    let made = HackType::Class(name, Items::new(alloc));
    construct(alloc, setting, decls, state, at, name, &[], &made, given)?;
    Ok(limited(made))
}

// With type arguments that fit in number: above 256 nodes it is 3006 and `_`.
fn new_with<D: Decls>(
    alloc: Global,
    setting: &Setting<'_>,
    decls: &mut D,
    state: &mut State,
    at: Place,
    name_at: Place,
    name: NameId,
    params: &[TypeParam],
    types: &[WrittenType],
    own: Items<HackType>,
    given: &[Argument],
) -> Result<HackType, DeclStop>
    requires { length own ≡ length types.now }
    ensures { Walks
        (new_with at name_at name params.now (arguments_of types.now own) given.now)
        (setting_of setting.now)
        (D.state decls.old) state.old result (D.state decls.new) state.new
        (λ symbols. IsTrue (symbols (class_symbol name)) × All (TypeIn symbols) own
        × GivenIn symbols given.now × ParamsIn symbols params.now) TypeIn }
{
    let made = HackType::Class(name, own);
    if !is_small(&made) {
        return refuse_large(alloc, setting, decls, state, name_at);
    }
    small_class(
        alloc, setting, decls, state, at, name, params, types, &made, given,
    )?;
    Ok(limited(made))
}

fn is_small(ty: &HackType) -> bool
    ensures { result ≡ nat_le (nodes ty.now) most_nodes }
{
    ty.is_within(MOST_NODES)
}

fn refuse_large<D: Decls>(
    alloc: Global,
    _setting: &Setting<'_>,
    _decls: &mut D,
    state: &mut State,
    at: Place,
) -> Result<HackType, DeclStop>
    ensures { Walks (refuse at too_big) (setting_of _setting.now)
        (D.state _decls.old) state.old result (D.state _decls.new) state.new
        (λ symbols. Unit {0}) TypeIn }
{
    report_large(alloc, _setting, state, at)?;
    Ok(HackType::Any)
}

fn report_large(
    alloc: Global,
    _setting: &Setting<'_>,
    state: &mut State,
    at: Place,
) -> Result<(), NoMemory>
    ensures { Steps (report at too_big) (setting_of _setting.now) state.old result state.new
        (λ symbols. Unit {0}) Nothing }
{
    let diag = too_big(alloc, at)?;
    state.report(diag)
}

// The bounds of the type arguments, and the constructor.
fn small_class<D: Decls>(
    alloc: Global,
    setting: &Setting<'_>,
    decls: &mut D,
    state: &mut State,
    at: Place,
    name: NameId,
    params: &[TypeParam],
    types: &[WrittenType],
    made: &HackType,
    given: &[Argument],
) -> Result<(), DeclStop>
    requires { length types.now ≡ length (parts.arguments_of made.now) }
    ensures { Walks (row.small_class at name params.now types.now made.now given.now)
        (setting_of setting.now)
        (D.state decls.old) state.old result (D.state decls.new) state.new
        (λ symbols. IsTrue (symbols (class_symbol name))
        × All (TypeIn symbols) (parts.arguments_of made.now) × TypeIn symbols made.now
        × GivenIn symbols given.now × ParamsIn symbols params.now) Nothing }
{
    let own = arguments_of(made);
    expect_arguments(alloc, setting, decls, state, params, types, own)?;
    expect_instance(alloc, setting, decls, state, at, name)?;
    construct(alloc, setting, decls, state, at, name, own, made, given)
}
