// Constructors.
ghost use Rattle.std.specs.Prelude.{◌≡◌, All, IsTrue};
ghost use Rattle.hack_decls.specs.Asks.{Asks, Nothing};
ghost use Rattle.hack_decls.specs.Names.{TypeIn, class_symbol, types_of_kind};
ghost use Rattle.hack_types.specs.declared.shallow.MemberKind.TheVariants.{Method};
ghost use Rattle.hack_walk.specs.Checks.{Steps, Walks, setting_of};
ghost use Rattle.hack_calls.specs.Named.{GivenIn};
ghost use Rattle.hack_new.specs.inside.Rows as row;
ghost use Rattle.hack_new.specs.inside.Rows.{ConstructorIn, constructor_in};

use hack_calls::{Argument, call_with, expect_count};
use hack_decls::{DeclStop, Decls, MemberAnswer, MemberTag};
use hack_infer::Filling;
use hack_members::{StaticUse, expect_usable};
use hack_types::{
    HackType, Kind, Member, MemberKind, NameId, NoMemory, Place, Signature, SymbolId,
};
use hack_walk::{Setting, State};
use std::alloc::Global;

// The number of the name `__construct` (docs/language.md, Names).
const CONSTRUCT: u32 = 6;

/// What a look-up of the constructor says of a class.
#[derive(Drop)]
pub(crate) enum Constructor {
    /// The constructor.
    Found(Member),
    /// There is none; whether something that the class may inherit isn't known.
    Missing(bool),
}

/// The constructor of the class of this name, or whether the class is partial; that of no class is missing, and it isn't partial.
/// `EdgesFull` says that a lookup's note was refused, and `NoMemory` that memory ran out; what was noted before stays noted.
pub(crate) fn constructor_of<D: Decls>(
    alloc: Global,
    decls: &mut D,
    name: NameId,
) -> Result<Constructor, DeclStop>
    ensures { Asks (D.state decls.old) result (D.state decls.new)
        (λ map answer. answer ≡ constructor_in (map (class_symbol name)))
        (λ symbols. IsTrue (symbols (class_symbol name))) ConstructorIn }
{
    let symbol = SymbolId {
        kind: Kind::Class,
        name,
    };
    let found = decls.member(alloc, symbol, MemberTag::Method, NameId::new(CONSTRUCT))?;
    Ok(constructor_in(found))
}

fn constructor_in(found: MemberAnswer) -> Constructor
    ensures { result ≡ row.found_by found }
{
    match found {
        MemberAnswer::At(member) => Constructor::Found(member),
        MemberAnswer::Missing { partial } => Constructor::Missing(partial),
        MemberAnswer::Absent | MemberAnswer::NotClass => Constructor::Missing(false),
    }
}

/// 4004 where a class without a constructor gets arguments, but for a partial one.
pub(crate) fn without_constructor(
    alloc: Global,
    setting: &Setting<'_>,
    state: &mut State,
    at: Place,
    partial: bool,
    given: &[Argument],
) -> Result<(), NoMemory>
    ensures { Steps (row.without at partial given.now) (setting_of setting.now)
        state.old result state.new (λ symbols. Unit {0}) Nothing }
{
    if partial {
        return Ok(());
    }
    expect_count(alloc, setting, state, at, 0, 0, given)
}

/// The arguments go to the constructor of the class of this name, with these for its type parameters; the whole has the type `made`.
/// The errors are as those of `constructor_of`.
pub(crate) fn construct<D: Decls>(
    alloc: Global,
    setting: &Setting<'_>,
    decls: &mut D,
    state: &mut State,
    at: Place,
    name: NameId,
    arguments: &[HackType],
    made: &HackType,
    given: &[Argument],
) -> Result<(), DeclStop>
    ensures { Walks (row.construct_row at name arguments.now made.now given.now)
        (setting_of setting.now)
        (D.state decls.old) state.old result (D.state decls.new) state.new
        (λ symbols. IsTrue (symbols (class_symbol name)) × All (TypeIn symbols) arguments.now
        × TypeIn symbols made.now × GivenIn symbols given.now) Nothing }
{
    let found = constructor_of(alloc, decls, name)?;
    let done = construct_by(
        alloc, setting, decls, state, at, arguments, made, given, &found,
    );
    drop(found);
    done
}

// With a constructor or without.
fn construct_by<D: Decls>(
    alloc: Global,
    setting: &Setting<'_>,
    decls: &mut D,
    state: &mut State,
    at: Place,
    arguments: &[HackType],
    made: &HackType,
    given: &[Argument],
    found: &Constructor,
) -> Result<(), DeclStop>
    ensures { Walks (row.construct_by at arguments.now made.now given.now found.now)
        (setting_of setting.now)
        (D.state decls.old) state.old result (D.state decls.new) state.new
        (λ symbols. ConstructorIn symbols found.now × All (TypeIn symbols) arguments.now
        × TypeIn symbols made.now × GivenIn symbols given.now) Nothing }
{
    match found {
        Constructor::Found(member) => {
            use_constructor(
                alloc, setting, decls, state, at, arguments, made, given, member,
            )
        }
        Constructor::Missing(partial) => {
            without_walk(alloc, setting, decls, state, at, *partial, given)
        }
    }
}

// Nothing is looked up for it.
fn without_walk<D: Decls>(
    alloc: Global,
    setting: &Setting<'_>,
    _decls: &mut D,
    state: &mut State,
    at: Place,
    partial: bool,
    given: &[Argument],
) -> Result<(), DeclStop>
    ensures { Walks (row.without at partial given.now) (setting_of setting.now)
        (D.state _decls.old) state.old result (D.state _decls.new) state.new
        (λ symbols. Unit {0}) Nothing }
{
    without_constructor(alloc, setting, state, at, partial, given)?;
    Ok(())
}

// With a constructor.
fn use_constructor<D: Decls>(
    alloc: Global,
    setting: &Setting<'_>,
    decls: &mut D,
    state: &mut State,
    at: Place,
    arguments: &[HackType],
    made: &HackType,
    given: &[Argument],
    member: &Member,
) -> Result<(), DeclStop>
    ensures { Walks (row.use_constructor at arguments.now made.now given.now member.now)
        (setting_of setting.now)
        (D.state decls.old) state.old result (D.state decls.new) state.new
        (λ symbols. All (TypeIn symbols) (types_of_kind member.now.kind)
        × All (TypeIn symbols) arguments.now
        × TypeIn symbols made.now × GivenIn symbols given.now) Nothing }
{
    expect_usable(alloc, setting, decls, state, at, StaticUse::AnyUse, member)?;
    call_kind(
        alloc,
        setting,
        decls,
        state,
        at,
        arguments,
        made,
        given,
        &member.kind,
    )
}

// A constructor is a method.
fn call_kind<D: Decls>(
    alloc: Global,
    setting: &Setting<'_>,
    decls: &mut D,
    state: &mut State,
    at: Place,
    arguments: &[HackType],
    made: &HackType,
    given: &[Argument],
    kind: &MemberKind,
) -> Result<(), DeclStop>
    ensures { Walks (row.call_kind at arguments.now made.now given.now kind.now)
        (setting_of setting.now)
        (D.state decls.old) state.old result (D.state decls.new) state.new
        (λ symbols. All (TypeIn symbols) (types_of_kind kind.now)
        × All (TypeIn symbols) arguments.now
        × TypeIn symbols made.now × GivenIn symbols given.now) Nothing }
{
    match kind {
        MemberKind::Method(signature) => {
            call(
                alloc, setting, decls, state, at, arguments, made, given, signature,
            )
        }
        MemberKind::Constant(_) | MemberKind::Property(_) => Ok(()),
    }
}

// What the call gives says nothing.
fn call<'a, D: Decls>(
    alloc: Global,
    setting: &Setting<'_>,
    decls: &mut D,
    state: &mut State,
    at: Place,
    arguments: &'a [HackType],
    made: &'a HackType,
    given: &[Argument],
    signature: &Signature,
) -> Result<(), DeclStop>
    ensures { Walks (row.call_kind at arguments.now made.now given.now (Method signature.now))
        (setting_of setting.now)
        (D.state decls.old) state.old result (D.state decls.new) state.new
        (λ symbols. All (TypeIn symbols) (types_of_kind (Method signature.now))
        × All (TypeIn symbols) arguments.now
        × TypeIn symbols made.now × GivenIn symbols given.now) Nothing }
{
    let around = Filling {
        class: Some(arguments),
        function: None,
        this: Some(made),
    };
    let ty = call_with(alloc, setting, decls, state, at, signature, &around, given)?;
    drop(ty);
    Ok(())
}
