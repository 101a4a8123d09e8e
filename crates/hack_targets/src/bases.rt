// An index as a target: what its base becomes.
ghost use Rattle.std.specs.Prelude.{◌≡◌, IfSome};
ghost use Rattle.hack_decls.specs.Asks.{Asks, Nothing};
ghost use Rattle.hack_decls.specs.Names.{TypeIn};
ghost use Rattle.hack_rules.specs.Heads.{head_of};
ghost use Rattle.hack_rules.specs.Indices.{dict_with, expect_index, keyset_with, shape_with, vector_with, with_element, with_element_by};
ghost use Rattle.hack_sub.specs.Named.{Around};
ghost use Rattle.hack_types.specs.declared.hack_type.HackType.{out-HackType};
ghost use Rattle.hack_types.specs.declared.hack_type.HackType.TheVariants as type;
ghost use Rattle.hack_walk.specs.Checks.{Walks, setting_of};
ghost use Rattle.hack_targets.specs.AimIn.{IndexIn};
ghost use Rattle.hack_targets.specs.inside.Pieces.{BaseIn, DictIn, dict_at, keyset_behind};

use crate::Index;
use crate::made::{dict_of, keyset_of, shape_with, vector_of};
use crate::reports::refuse_base;
use hack_calls::{expect, head_of};
use hack_decls::{DeclStop, Decls};
use hack_sub::Scope;
use hack_types::{HackType, Place};
use hack_walk::{Setting, State};
use sqlite_items::Boxed;
use std::alloc::Global;

/// What a base of this type becomes where an element of it gets a type; the second place is that of what is assigned (docs/language.md,
/// Typing expressions, Index). `EdgesFull` says that a lookup's note was refused, and `NoMemory` that memory ran out; what was noted before
/// stays noted.
pub fn with_element<D: Decls>(
    alloc: Global,
    setting: &Setting<'_>,
    decls: &mut D,
    state: &mut State,
    at: Place,
    value_at: Place,
    base: HackType,
    index: Option<Index>,
    new: HackType,
) -> Result<HackType, DeclStop>
    ensures { Walks (with_element at value_at base index new) (setting_of setting.now)
        (D.state decls.old) state.old result (D.state decls.new) state.new
        (λ symbols. TypeIn symbols base × IfSome index (IndexIn symbols) × TypeIn symbols new)
        TypeIn }
{
    let head = own_head(alloc, decls, setting.scope, base)?;
    with_head(alloc, setting, decls, state, at, value_at, head, index, new)
}

// The head of a type that is taken over.
fn own_head<D: Decls>(
    alloc: Global,
    decls: &mut D,
    scope: &Scope,
    ty: HackType,
) -> Result<HackType, DeclStop>
    ensures { Asks (D.state decls.old) result (D.state decls.new)
        (λ map answer. answer ≡ head_of map scope.now ty)
        (λ symbols. Around symbols scope.now × TypeIn symbols ty) TypeIn }
{
    match head_of(alloc, decls, scope, &ty)? {
        Some(head) => Ok(head),
        None => Ok(ty),
    }
}

// By the head.
fn with_head<D: Decls>(
    alloc: Global,
    setting: &Setting<'_>,
    decls: &mut D,
    state: &mut State,
    at: Place,
    value_at: Place,
    head: HackType,
    index: Option<Index>,
    new: HackType,
) -> Result<HackType, DeclStop>
    ensures { Walks (with_element_by at value_at head new index (out-HackType head))
        (setting_of setting.now)
        (D.state decls.old) state.old result (D.state decls.new) state.new
        (λ symbols. BaseIn symbols head index × TypeIn symbols new) TypeIn }
{
    match head {
        HackType::Any => Ok(HackType::Any),
        HackType::Vector(item) => vector_with(alloc, setting, decls, state, item, &index, new),
        HackType::Dict(key, value) => dict_with(
            alloc, setting, decls, state, at, key, value, index, new,
        ),
        HackType::Keyset(item) => keyset_with(
            alloc, setting, decls, state, at, value_at, item, &index, new,
        ),
        HackType::Shape { fields, rest } => Ok(shape_with(
            alloc, setting, state, at, fields, rest, &index, new,
        )?),
        other => Ok(refuse_base(alloc, setting, state, at, other)?),
    }
}

// A vec takes int, and values behind its last one.
fn vector_with<D: Decls>(
    alloc: Global,
    setting: &Setting<'_>,
    decls: &mut D,
    state: &mut State,
    item: Boxed<HackType>,
    index: &Option<Index>,
    new: HackType,
) -> Result<HackType, DeclStop>
    ensures { Walks (vector_with item new index.now) (setting_of setting.now)
        (D.state decls.old) state.old result (D.state decls.new) state.new
        (λ symbols. BaseIn symbols item index.now × TypeIn symbols new) TypeIn }
{
    expect_index(alloc, setting, decls, state, &HackType::Int, index)?;
    Ok(vector_of(alloc, item, new)?)
}

// An index expects this type, where there is one.
fn expect_index<D: Decls>(
    alloc: Global,
    setting: &Setting<'_>,
    decls: &mut D,
    state: &mut State,
    key: &HackType,
    index: &Option<Index>,
) -> Result<(), DeclStop>
    ensures { Walks (expect_index key.now index.now) (setting_of setting.now)
        (D.state decls.old) state.old result (D.state decls.new) state.new
        (λ symbols. BaseIn symbols key.now index.now) Nothing }
{
    match index {
        Some(index) => expect(alloc, setting, decls, state, index.at, key, &index.ty),
        None => Ok(()),
    }
}

// A dict takes arraykeys.
fn dict_with<D: Decls>(
    alloc: Global,
    setting: &Setting<'_>,
    decls: &mut D,
    state: &mut State,
    at: Place,
    key: Boxed<HackType>,
    value: Boxed<HackType>,
    index: Option<Index>,
    new: HackType,
) -> Result<HackType, DeclStop>
    ensures { Walks (dict_with at (type.Dict key value) key value new index)
        (setting_of setting.now)
        (D.state decls.old) state.old result (D.state decls.new) state.new
        (λ symbols. DictIn symbols key value new index) TypeIn }
{
    match index {
        Some(index) => dict_at(alloc, setting, decls, state, key, value, index, new),
        None => Ok(refuse_base(alloc, setting, state, at, HackType::Dict(key, value))?),
    }
}

// The dict once it has a value under this index.
fn dict_at<D: Decls>(
    alloc: Global,
    setting: &Setting<'_>,
    decls: &mut D,
    state: &mut State,
    key: Boxed<HackType>,
    value: Boxed<HackType>,
    index: Index,
    new: HackType,
) -> Result<HackType, DeclStop>
    ensures { Walks (dict_at key value new index) (setting_of setting.now)
        (D.state decls.old) state.old result (D.state decls.new) state.new
        (λ symbols. TypeIn symbols key × TypeIn symbols value × IndexIn symbols index
        × TypeIn symbols new) TypeIn }
{
    expect(
        alloc,
        setting,
        decls,
        state,
        index.at,
        &HackType::Arraykey,
        &index.ty,
    )?;
    Ok(dict_of(alloc, key, index.ty, value, new)?)
}

// A keyset takes values behind its last one alone.
fn keyset_with<D: Decls>(
    alloc: Global,
    setting: &Setting<'_>,
    decls: &mut D,
    state: &mut State,
    at: Place,
    value_at: Place,
    item: Boxed<HackType>,
    index: &Option<Index>,
    new: HackType,
) -> Result<HackType, DeclStop>
    ensures { Walks (keyset_with at value_at (type.Keyset item) item new index.now)
        (setting_of setting.now)
        (D.state decls.old) state.old result (D.state decls.new) state.new
        (λ symbols. TypeIn symbols item × TypeIn symbols new) TypeIn }
{
    match index {
        Some(_) => Ok(refuse_base(alloc, setting, state, at, HackType::Keyset(item))?),
        None => keyset_behind(alloc, setting, decls, state, value_at, item, new),
    }
}

// The keyset once it has this value.
fn keyset_behind<D: Decls>(
    alloc: Global,
    setting: &Setting<'_>,
    decls: &mut D,
    state: &mut State,
    value_at: Place,
    item: Boxed<HackType>,
    new: HackType,
) -> Result<HackType, DeclStop>
    ensures { Walks (keyset_behind value_at item new) (setting_of setting.now)
        (D.state decls.old) state.old result (D.state decls.new) state.new
        (λ symbols. TypeIn symbols item × TypeIn symbols new) TypeIn }
{
    expect(
        alloc,
        setting,
        decls,
        state,
        value_at,
        &HackType::Arraykey,
        &new,
    )?;
    Ok(keyset_of(alloc, item, new)?)
}
