// The class's parameters are solved with the constructor's own.
ghost use Rattle.std.specs.Prelude.{◌≡◌, All, IfOk, IsTrue};
ghost use Rattle.hack_decls.specs.Asks.{Nothing};
ghost use Rattle.hack_decls.specs.Names.{TypeIn, class_symbol, types_of_kind};
ghost use Rattle.hack_rules.specs.News.{class_of_solved, solved_by, solved_class, solved_kind};
ghost use Rattle.hack_walk.specs.Checks.{Steps, Walks, setting_of};
ghost use Rattle.hack_written.specs.Within.{ParamsIn};
ghost use Rattle.hack_calls.specs.Named.{GivenIn, SignatureIn};
ghost use Rattle.hack_new.specs.inside.Rows.{ConstructorIn};
ghost use Rattle.hack_new.specs.inside.Solving as row;
ghost use Rattle.hack_new.specs.inside.Solving.{class_of_any};

use crate::constructors::{Constructor, constructor_of, without_constructor};
use crate::lifting::lifted_signature;
use hack_calls::{Argument, call_solved, solved_types};
use hack_decls::{DeclStop, Decls};
use hack_infer::Filling;
use hack_members::{StaticUse, expect_usable};
use hack_types::{
    HackType, Member, MemberKind, NameId, NoMemory, Place, Signature, TypeParam, limited,
};
use hack_walk::{Setting, State};
use sqlite_items::Items;
use std::alloc::Global;

/// `new C(arguments)` of a class with these type parameters: they are solved with the constructor's own (docs/language.md, Typing
/// expressions, New). `EdgesFull` says that a lookup's note was refused, and `NoMemory` that memory ran out; what was noted before stays
/// noted.
pub(crate) fn solved_class<D: Decls>(
    alloc: Global,
    setting: &Setting<'_>,
    decls: &mut D,
    state: &mut State,
    at: Place,
    name: NameId,
    params: &[TypeParam],
    given: &[Argument],
) -> Result<HackType, DeclStop>
    ensures { Walks (solved_class at name params.now given.now) (setting_of setting.now)
        (D.state decls.old) state.old result (D.state decls.new) state.new
        (λ symbols. IsTrue (symbols (class_symbol name)) × ParamsIn symbols params.now
        × GivenIn symbols given.now) TypeIn }
{
    let found = constructor_of(alloc, decls, name)?;
    let made = made_for(
        alloc, setting, decls, state, at, name, params, given, &found,
    );
    drop(found);
    made
}

// With a constructor or without.
fn made_for<D: Decls>(
    alloc: Global,
    setting: &Setting<'_>,
    decls: &mut D,
    state: &mut State,
    at: Place,
    name: NameId,
    params: &[TypeParam],
    given: &[Argument],
    found: &Constructor,
) -> Result<HackType, DeclStop>
    ensures { Walks (row.made_for at name params.now given.now found.now) (setting_of setting.now)
        (D.state decls.old) state.old result (D.state decls.new) state.new
        (λ symbols. ConstructorIn symbols found.now × IsTrue (symbols (class_symbol name))
        × ParamsIn symbols params.now × GivenIn symbols given.now) TypeIn }
{
    match found {
        Constructor::Found(member) => {
            with_constructor(
                alloc, setting, decls, state, at, name, params, given, member,
            )
        }
        Constructor::Missing(partial) => {
            let made = made_without(alloc, setting, state, at, name, params, given, *partial)?;
            Ok(made)
        }
    }
}

// A class without a constructor gets `_` for its parameters.
fn made_without(
    alloc: Global,
    setting: &Setting<'_>,
    state: &mut State,
    at: Place,
    name: NameId,
    params: &[TypeParam],
    given: &[Argument],
    partial: bool,
) -> Result<HackType, NoMemory>
    ensures { Steps (row.made_without at name params.now given.now partial) (setting_of setting.now)
        state.old result state.new (λ symbols. IsTrue (symbols (class_symbol name))) TypeIn }
{
    without_constructor(alloc, setting, state, at, partial, given)?;
    let class = class_of_any(alloc, name, params)?;
    Ok(limited(class))
}

fn class_of_any(alloc: Global, name: NameId, params: &[TypeParam]) -> Result<HackType, NoMemory>
    ensures { IfOk result (λ class. class ≡ class_of_any name params.now) }
{
    let mut types = Vec::with_capacity(alloc, params.len())?;
    for _param in params {
        types.push(HackType::Any)?;
    }
    Ok(HackType::Class(name, Items::from_vec(types)))
}

fn with_constructor<D: Decls>(
    alloc: Global,
    setting: &Setting<'_>,
    decls: &mut D,
    state: &mut State,
    at: Place,
    name: NameId,
    params: &[TypeParam],
    given: &[Argument],
    own: &Member,
) -> Result<HackType, DeclStop>
    ensures { Walks (row.with_constructor at name params.now given.now own.now)
        (setting_of setting.now)
        (D.state decls.old) state.old result (D.state decls.new) state.new
        (λ symbols. All (TypeIn symbols) (types_of_kind own.now.kind)
        × IsTrue (symbols (class_symbol name))
        × ParamsIn symbols params.now × GivenIn symbols given.now) TypeIn }
{
    expect_usable(alloc, setting, decls, state, at, StaticUse::AnyUse, own)?;
    solved_kind(
        alloc, setting, decls, state, at, name, params, given, &own.kind,
    )
}

// A constructor is a method.
fn solved_kind<D: Decls>(
    alloc: Global,
    setting: &Setting<'_>,
    decls: &mut D,
    state: &mut State,
    at: Place,
    name: NameId,
    params: &[TypeParam],
    given: &[Argument],
    kind: &MemberKind,
) -> Result<HackType, DeclStop>
    ensures { Walks (solved_kind at name params.now given.now kind.now) (setting_of setting.now)
        (D.state decls.old) state.old result (D.state decls.new) state.new
        (λ symbols. All (TypeIn symbols) (types_of_kind kind.now)
        × IsTrue (symbols (class_symbol name))
        × ParamsIn symbols params.now × GivenIn symbols given.now) TypeIn }
{
    match kind {
        MemberKind::Method(signature) => {
            solved_by(
                alloc, setting, decls, state, at, name, params, given, signature,
            )
        }
        MemberKind::Constant(_) | MemberKind::Property(_) => Ok(HackType::Any),
    }
}

// The constructor is called as a function that has the class's parameters before its own.
fn solved_by<D: Decls>(
    alloc: Global,
    setting: &Setting<'_>,
    decls: &mut D,
    state: &mut State,
    at: Place,
    name: NameId,
    params: &[TypeParam],
    given: &[Argument],
    signature: &Signature,
) -> Result<HackType, DeclStop>
    ensures { Walks (solved_by at name params.now given.now signature.now) (setting_of setting.now)
        (D.state decls.old) state.old result (D.state decls.new) state.new
        (λ symbols. SignatureIn symbols signature.now × IsTrue (symbols (class_symbol name))
        × ParamsIn symbols params.now × GivenIn symbols given.now) TypeIn }
{
    let lifted = lifted_signature(alloc, params, signature)?;
    let made = made_by(
        alloc, setting, decls, state, at, name, params, given, &lifted,
    );
    drop(lifted);
    made
}

// Its parameters are solved, and it is called with them.
fn made_by<D: Decls>(
    alloc: Global,
    setting: &Setting<'_>,
    decls: &mut D,
    state: &mut State,
    at: Place,
    name: NameId,
    params: &[TypeParam],
    given: &[Argument],
    signature: &Signature,
) -> Result<HackType, DeclStop>
    ensures { Walks (row.made_by at name params.now given.now signature.now)
        (setting_of setting.now)
        (D.state decls.old) state.old result (D.state decls.new) state.new
        (λ symbols. SignatureIn symbols signature.now × IsTrue (symbols (class_symbol name))
        × GivenIn symbols given.now) TypeIn }
{
    let solved = solved_types(alloc, decls, setting.scope, signature, given)?;
    let types = solved.as_slice();
    let made = made_with(
        alloc, setting, decls, state, at, name, params, given, signature, types,
    );
    drop(solved);
    made
}

fn made_with<D: Decls>(
    alloc: Global,
    setting: &Setting<'_>,
    decls: &mut D,
    state: &mut State,
    at: Place,
    name: NameId,
    params: &[TypeParam],
    given: &[Argument],
    signature: &Signature,
    solved: &[HackType],
) -> Result<HackType, DeclStop>
    ensures { Walks (row.made_as at signature.now (class_of_solved name params.now solved.now)
        solved.now given.now)
        (setting_of setting.now)
        (D.state decls.old) state.old result (D.state decls.new) state.new
        (λ symbols. SignatureIn symbols signature.now × IsTrue (symbols (class_symbol name))
        × All (TypeIn symbols) solved.now × GivenIn symbols given.now) TypeIn }
{
    let class = class_of_solved(alloc, name, params, solved)?;
    made_as(
        alloc, setting, decls, state, at, given, signature, solved, class,
    )
}

// The class with the first of these types.
fn class_of_solved(
    alloc: Global,
    name: NameId,
    params: &[TypeParam],
    solved: &[HackType],
) -> Result<HackType, NoMemory>
    ensures { IfOk result (λ class. class ≡ class_of_solved name params.now solved.now) }
{
    let count = params.len().min(solved.len());
    let mut types = Vec::with_capacity(alloc, count)?;
    for index in 0..count {
        types.push(solved[index].copy(alloc)?)?;
    }
    Ok(HackType::Class(name, Items::from_vec(types)))
}

// The constructor is called for an object of this class, which is the type.
fn made_as<D: Decls>(
    alloc: Global,
    setting: &Setting<'_>,
    decls: &mut D,
    state: &mut State,
    at: Place,
    given: &[Argument],
    signature: &Signature,
    solved: &[HackType],
    class: HackType,
) -> Result<HackType, DeclStop>
    ensures { Walks (row.made_as at signature.now class solved.now given.now)
        (setting_of setting.now)
        (D.state decls.old) state.old result (D.state decls.new) state.new
        (λ symbols. SignatureIn symbols signature.now × TypeIn symbols class
        × All (TypeIn symbols) solved.now × GivenIn symbols given.now) TypeIn }
{
    call_as(
        alloc, setting, decls, state, at, given, signature, solved, &class,
    )?;
    Ok(limited(class))
}

// What the call gives says nothing.
fn call_as<D: Decls>(
    alloc: Global,
    setting: &Setting<'_>,
    decls: &mut D,
    state: &mut State,
    at: Place,
    given: &[Argument],
    signature: &Signature,
    solved: &[HackType],
    class: &HackType,
) -> Result<(), DeclStop>
    ensures { Walks (row.call_as at signature.now class.now solved.now given.now)
        (setting_of setting.now)
        (D.state decls.old) state.old result (D.state decls.new) state.new
        (λ symbols. SignatureIn symbols signature.now × TypeIn symbols class.now
        × All (TypeIn symbols) solved.now × GivenIn symbols given.now) Nothing }
{
    let around = Filling {
        class: None,
        function: None,
        this: Some(class),
    };
    let ty = call_solved(
        alloc, setting, decls, state, at, signature, &around, solved, given,
    )?;
    drop(ty);
    Ok(())
}
