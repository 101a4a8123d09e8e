// Classes below `KeyedContainer`, as values.
ghost use Rattle.std.specs.Prelude.{◌≡◌, ◌==◌, All, IsTrue, Some, option_map};
ghost use Rattle.hack_decls.specs.Names.{TypeIn, class_symbol};
ghost use Rattle.hack_rules.specs.Indices.{keyed_element};
ghost use Rattle.hack_sub.specs.Parts.{keyed_container};
ghost use Rattle.hack_walk.specs.Checks.{Walks, setting_of};
ghost use Rattle.hack_targets.specs.AimIn.{IndexIn};
ghost use Rattle.hack_targets.specs.inside.Pieces.{KeyedIn, named_element, pair_of};

use crate::Index;
use crate::elements::element_at;
use crate::reports::refuse_indexed;
use hack_decls::{DeclStop, Decls};
use hack_infer::ancestor_given;
use hack_types::{HackType, NameId, Place};
use hack_walk::{Setting, State};
use sqlite_items::Items;
use std::alloc::Global;

// The id of the name `KeyedContainer`.
const KEYED_CONTAINER: u32 = 3;

/// An element of a class with these arguments, by what it is as a `KeyedContainer`.
pub(crate) fn class_element<D: Decls>(
    alloc: Global,
    setting: &Setting<'_>,
    decls: &mut D,
    state: &mut State,
    at: Place,
    head: &HackType,
    name: NameId,
    arguments: &[HackType],
    index: &Index,
) -> Result<HackType, DeclStop>
    ensures { Walks (named_element at head.now index.now name arguments.now)
        (setting_of setting.now)
        (D.state decls.old) state.old result (D.state decls.new) state.new
        (λ symbols. IsTrue (symbols (class_symbol name))
        × All (TypeIn symbols) arguments.now × IndexIn symbols index.now) TypeIn }
{
    if is_keyed_container(name) {
        return keyed_element(alloc, setting, decls, state, at, head, index, arguments);
    }
    let keyed = NameId::new(KEYED_CONTAINER);
    let given = ancestor_given(alloc, decls, name, arguments, keyed)?;
    let found = given_element(alloc, setting, decls, state, at, head, index, &given);
    drop(given);
    found
}

fn is_keyed_container(name: NameId) -> bool
    ensures { result ≡ (name == keyed_container) }
{
    name.number() == KEYED_CONTAINER
}

// What stands below it has the element that its arguments say.
fn given_element<D: Decls>(
    alloc: Global,
    setting: &Setting<'_>,
    decls: &mut D,
    state: &mut State,
    at: Place,
    head: &HackType,
    index: &Index,
    given: &Option<Items<HackType>>,
) -> Result<HackType, DeclStop>
    ensures { Walks (keyed_element at head.now index.now given.now) (setting_of setting.now)
        (D.state decls.old) state.old result (D.state decls.new) state.new
        (λ symbols. KeyedIn symbols index.now given.now) TypeIn }
{
    match given {
        Some(arguments) => keyed_element(
            alloc,
            setting,
            decls,
            state,
            at,
            head,
            index,
            arguments.as_slice(),
        ),
        None => Ok(refuse_indexed(alloc, setting, state, at, head)?),
    }
}

// The key and the element of a `KeyedContainer` with these arguments.
fn keyed_element<D: Decls>(
    alloc: Global,
    setting: &Setting<'_>,
    decls: &mut D,
    state: &mut State,
    at: Place,
    head: &HackType,
    index: &Index,
    arguments: &[HackType],
) -> Result<HackType, DeclStop>
    ensures { Walks (keyed_element at head.now index.now (Some arguments.now))
        (setting_of setting.now)
        (D.state decls.old) state.old result (D.state decls.new) state.new
        (λ symbols. All (TypeIn symbols) arguments.now × IndexIn symbols index.now) TypeIn }
{
    match pair_of(arguments) {
        Some((key, value)) => element_at(alloc, setting, decls, state, index, key, value),
        None => Ok(refuse_indexed(alloc, setting, state, at, head)?),
    }
}

// Two arguments.
fn pair_of(arguments: &[HackType]) -> Option<(&HackType, &HackType)>
    ensures { option_map (λ pair. (pair.0.now, pair.1.now)) result ≡ pair_of arguments.now }
{
    match arguments {
        [key, value] => Some((key, value)),
        _ => None,
    }
}
