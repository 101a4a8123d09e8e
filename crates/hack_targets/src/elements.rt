// An index as a value.
ghost use Rattle.std.specs.Prelude.{IfSome};
ghost use Rattle.hack_decls.specs.Names.{TypeIn};
ghost use Rattle.hack_rules.specs.Indices.{element, element_at, element_by, element_or, indexed_by};
ghost use Rattle.hack_types.specs.declared.hack_type.HackType.{out-HackType};
ghost use Rattle.hack_walk.specs.Checks.{Walks, setting_of};
ghost use Rattle.hack_targets.specs.AimIn.{IndexIn};
ghost use Rattle.hack_targets.specs.inside.Pieces.{BaseIn};

use crate::Index;
use crate::classes::class_element;
use crate::fields::shape_element;
use crate::reports::{refuse_indexed, refuse_null};
use hack_calls::{expect, head_of, or_self};
use hack_decls::{DeclStop, Decls};
use hack_types::{HackType, Place, limited};
use hack_walk::{Setting, State};
use std::alloc::Global;

/// The element of a base of this type, and whether it stands in the left of `??`; without an index, as a value, nothing has one
/// (docs/language.md, Typing expressions, Index). `EdgesFull` says that a lookup's note was refused, and `NoMemory` that memory ran out;
/// what was noted before stays noted.
pub fn element<D: Decls>(
    alloc: Global,
    setting: &Setting<'_>,
    decls: &mut D,
    state: &mut State,
    at: Place,
    left: bool,
    base: &HackType,
    index: &Option<Index>,
) -> Result<HackType, DeclStop>
    ensures { Walks (element at left base.now index.now) (setting_of setting.now)
        (D.state decls.old) state.old result (D.state decls.new) state.new
        (λ symbols. TypeIn symbols base.now × IfSome index.now (IndexIn symbols)) TypeIn }
{
    let head = head_of(alloc, decls, setting.scope, base)?;
    let found = element_by(
        alloc,
        setting,
        decls,
        state,
        at,
        left,
        or_self(&head, base),
        index,
    );
    drop(head);
    found
}

// By the head: `_` gives `_`, and an option and null are 4010.
fn element_by<D: Decls>(
    alloc: Global,
    setting: &Setting<'_>,
    decls: &mut D,
    state: &mut State,
    at: Place,
    left: bool,
    head: &HackType,
    index: &Option<Index>,
) -> Result<HackType, DeclStop>
    ensures { Walks (element_by at left head.now index.now (out-HackType head.now))
        (setting_of setting.now)
        (D.state decls.old) state.old result (D.state decls.new) state.new
        (λ symbols. BaseIn symbols head.now index.now) TypeIn }
{
    match head {
        HackType::Any => Ok(HackType::Any),
        HackType::Option(_) => Ok(refuse_null(alloc, setting, state, at)?),
        HackType::Null => Ok(refuse_null(alloc, setting, state, at)?),
        _ => element_or(alloc, setting, decls, state, at, left, head, index),
    }
}

// Without an index nothing else has an element.
fn element_or<D: Decls>(
    alloc: Global,
    setting: &Setting<'_>,
    decls: &mut D,
    state: &mut State,
    at: Place,
    left: bool,
    head: &HackType,
    index: &Option<Index>,
) -> Result<HackType, DeclStop>
    ensures { Walks (element_or at left head.now index.now) (setting_of setting.now)
        (D.state decls.old) state.old result (D.state decls.new) state.new
        (λ symbols. BaseIn symbols head.now index.now) TypeIn }
{
    match index {
        Some(index) => indexed_by(alloc, setting, decls, state, at, left, head, index),
        None => Ok(refuse_indexed(alloc, setting, state, at, head)?),
    }
}

// By the head, with an index.
fn indexed_by<D: Decls>(
    alloc: Global,
    setting: &Setting<'_>,
    decls: &mut D,
    state: &mut State,
    at: Place,
    left: bool,
    head: &HackType,
    index: &Index,
) -> Result<HackType, DeclStop>
    ensures { Walks (indexed_by at left head.now index.now (out-HackType head.now))
        (setting_of setting.now)
        (D.state decls.old) state.old result (D.state decls.new) state.new
        (λ symbols. TypeIn symbols head.now × IndexIn symbols index.now) TypeIn }
{
    match head {
        HackType::Vector(item) => element_at(
            alloc,
            setting,
            decls,
            state,
            index,
            &HackType::Int,
            item.get(),
        ),
        HackType::Str => element_at(
            alloc,
            setting,
            decls,
            state,
            index,
            &HackType::Int,
            &HackType::Str,
        ),
        HackType::Dict(key, value) => element_at(
            alloc,
            setting,
            decls,
            state,
            index,
            key.get(),
            value.get(),
        ),
        HackType::Keyset(item) => {
            let item = item.get();
            element_at(alloc, setting, decls, state, index, item, item)
        }
        HackType::Shape { fields, .. } => Ok(shape_element(
            alloc,
            setting,
            state,
            at,
            left,
            head,
            fields.as_slice(),
            index,
        )?),
        HackType::Class(name, arguments) => class_element(
            alloc,
            setting,
            decls,
            state,
            at,
            head,
            *name,
            arguments.as_slice(),
            index,
        ),
        _ => Ok(refuse_indexed(alloc, setting, state, at, head)?),
    }
}

/// The index expects this key, and the element has this type.
pub(crate) fn element_at<D: Decls>(
    alloc: Global,
    setting: &Setting<'_>,
    decls: &mut D,
    state: &mut State,
    index: &Index,
    key: &HackType,
    value: &HackType,
) -> Result<HackType, DeclStop>
    ensures { Walks (element_at index.now key.now value.now) (setting_of setting.now)
        (D.state decls.old) state.old result (D.state decls.new) state.new
        (λ symbols. TypeIn symbols key.now × TypeIn symbols value.now × IndexIn symbols index.now)
        TypeIn }
{
    expect(alloc, setting, decls, state, index.at, key, &index.ty)?;
    Ok(limited(value.copy(alloc)?))
}
