// `new` and a word.
ghost use Rattle.std.specs.Prelude.{◌≡◌, IfOk, IfSome, Some};
ghost use Rattle.hack_decls.specs.Asks.{Nothing};
ghost use Rattle.hack_decls.specs.Names.{TypeIn};
ghost use Rattle.hack_rules.specs.Classes.{name_or};
ghost use Rattle.hack_rules.specs.News.{class_behind, expect_parent, new_word};
ghost use Rattle.hack_walk.specs.Checks.{Walks, setting_of};
ghost use Rattle.hack_calls.specs.Named.{GivenIn};
ghost use Rattle.hack_new.specs.inside.Rows as row;
ghost use Rattle.hack_new.specs.inside.Rows.{IsNamed};

use crate::constructors::construct;
use crate::instances::expect_instance;
use hack_calls::{Argument, or_self};
use hack_decls::{DeclStop, Decls};
use hack_sub::{Scope, arguments_of, class_type, name_of};
use hack_tree::ClassReference;
use hack_types::{HackType, NameId, NoMemory, Place, limited};
use hack_walk::{Setting, State};
use std::alloc::Global;

/// `new self`, `new static` and `new parent`, where the word has this type, which names a class; `_` where it has none (docs/language.md, Typing expressions,
/// New). `EdgesFull` says that a lookup's note was refused, and `NoMemory` that memory ran out; what was noted before stays noted.
pub(crate) fn new_word<D: Decls>(
    alloc: Global,
    setting: &Setting<'_>,
    decls: &mut D,
    state: &mut State,
    at: Place,
    word: &ClassReference,
    given: &[Argument],
    ty: Option<HackType>,
) -> Result<HackType, DeclStop>
    requires { IfSome ty (λ own. IsNamed (class_behind word.now own setting.now.scope.now)) }
    ensures { Walks (new_word at word.now given.now ty) (setting_of setting.now)
        (D.state decls.old) state.old result (D.state decls.new) state.new
        (λ symbols. IfSome ty (TypeIn symbols) × GivenIn symbols given.now) TypeIn }
{
    match ty {
        Some(ty) => of_word(alloc, setting, decls, state, at, word, given, ty),
        None => Ok(HackType::Any),
    }
}

// The word has a type.
fn of_word<D: Decls>(
    alloc: Global,
    setting: &Setting<'_>,
    decls: &mut D,
    state: &mut State,
    at: Place,
    word: &ClassReference,
    given: &[Argument],
    ty: HackType,
) -> Result<HackType, DeclStop>
    requires { IsNamed (class_behind word.now ty setting.now.scope.now) }
    ensures { Walks (new_word at word.now given.now (Some ty)) (setting_of setting.now)
        (D.state decls.old) state.old result (D.state decls.new) state.new
        (λ symbols. TypeIn symbols ty × GivenIn symbols given.now) TypeIn }
{
    expect_parent(alloc, setting, decls, state, at, word, &ty)?;
    by_class(alloc, setting, decls, state, at, word, given, ty)
}

// 4011 for `new parent` of an abstract class.
fn expect_parent<D: Decls>(
    alloc: Global,
    setting: &Setting<'_>,
    decls: &mut D,
    state: &mut State,
    at: Place,
    word: &ClassReference,
    ty: &HackType,
) -> Result<(), DeclStop>
    requires { IsNamed (class_behind word.now ty.now setting.now.scope.now) }
    ensures { Walks (expect_parent at word.now ty.now) (setting_of setting.now)
        (D.state decls.old) state.old result (D.state decls.new) state.new
        (λ symbols. TypeIn symbols ty.now) Nothing }
{
    match word {
        ClassReference::Parent => {
            expect_instance(alloc, setting, decls, state, at, name_or(name_of(ty)))
        }
        ClassReference::Named(_) | ClassReference::Self_ | ClassReference::Static => Ok(()),
    }
}

fn name_or(name: Option<NameId>) -> NameId
    ensures { result ≡ name_or name }
{
    match name {
        Some(name) => name,
        None => NameId::new(0),
    }
}

// The word's class, and its constructor.
fn by_class<D: Decls>(
    alloc: Global,
    setting: &Setting<'_>,
    decls: &mut D,
    state: &mut State,
    at: Place,
    word: &ClassReference,
    given: &[Argument],
    ty: HackType,
) -> Result<HackType, DeclStop>
    requires { IsNamed (class_behind word.now ty setting.now.scope.now) }
    ensures { Walks (row.by_class at word.now given.now ty) (setting_of setting.now)
        (D.state decls.old) state.old result (D.state decls.new) state.new
        (λ symbols. TypeIn symbols ty × GivenIn symbols given.now) TypeIn }
{
    let own = own_class(alloc, word, setting.scope)?;
    construct_of(
        alloc,
        setting,
        decls,
        state,
        at,
        or_self(&own, &ty),
        &ty,
        given,
    )?;
    drop(own);
    Ok(limited(ty))
}

// `new static` is of the scope's class.
fn own_class(
    alloc: Global,
    word: &ClassReference,
    scope: &Scope,
) -> Result<Option<HackType>, NoMemory>
    ensures { IfOk result (λ own. own ≡ row.own_class word.now scope.now) }
{
    match word {
        ClassReference::Static => class_type(alloc, scope),
        ClassReference::Named(_) | ClassReference::Self_ | ClassReference::Parent => Ok(None),
    }
}

// The arguments go to the constructor of a type's class.
fn construct_of<D: Decls>(
    alloc: Global,
    setting: &Setting<'_>,
    decls: &mut D,
    state: &mut State,
    at: Place,
    class: &HackType,
    made: &HackType,
    given: &[Argument],
) -> Result<(), DeclStop>
    requires { IsNamed class.now }
    ensures { Walks (row.construct_of at class.now made.now given.now) (setting_of setting.now)
        (D.state decls.old) state.old result (D.state decls.new) state.new
        (λ symbols. TypeIn symbols class.now
        × TypeIn symbols made.now × GivenIn symbols given.now) Nothing }
{
    let name = name_or(name_of(class));
    let arguments = arguments_of(class);
    construct(
        alloc, setting, decls, state, at, name, arguments, made, given,
    )
}
