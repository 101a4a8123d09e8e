// Names of classes, and words, before `::` and behind `new`.
ghost use Rattle.std.specs.Prelude.{◌≡◌, IfOk, IfSome, IsTrue, map};
ghost use Rattle.hack_types.specs.declared.hack_type.HackType.TheVariants as type;
ghost use Rattle.hack_decls.specs.Asks.{Asks, Nothing};
ghost use Rattle.hack_decls.specs.Names.{TypeIn, class_symbol};
ghost use Rattle.hack_parts.specs.ExprIn.{ReferenceIn};
ghost use Rattle.hack_rules.specs.Classes.{name_or, referred, scope_class, shown_name, word_text};
ghost use Rattle.hack_sub.specs.Knowing.{is_trait};
ghost use Rattle.hack_walk.specs.Checks.{Steps, Walks, setting_of};
ghost use Rattle.hack_written.specs.Within.{ParamsIn};
ghost use Rattle.hack_calls.specs.Named.{declared_as, mention};
ghost use Rattle.hack_calls.specs.inside.Rows as row;

use crate::parents::word_type;
use crate::reports::{report_not_allowed, report_trait, report_unbound};
use hack_decls::{DeclStop, Decls, HeadingAnswer};
use hack_sub::{Scope, name_of};
use hack_tree::ClassReference;
use hack_types::{HackType, Kind, NameId, NoMemory, Place, Sort, SymbolId, TypeParam};
use hack_walk::{Setting, State};
use sqlite_items::Items;
use std::alloc::Global;

/// What is declared under a name that is mentioned.
#[derive(Drop)]
pub struct Declared {
    /// Its type parameters: those of a class, an interface, a trait or an alias.
    pub type_params: Items<TypeParam>,
    /// Whether it is a trait, of which 3004 is told already.
    pub is_trait: bool,
}

/// The mention of a name: 3001 where nothing is declared under it, and 3004 for a trait
/// (docs/language.md, Typing expressions, Members and New). `EdgesFull` says that a lookup's note was refused, and `NoMemory` that memory
/// ran out; what was noted before stays noted.
pub fn mention<D: Decls>(
    alloc: Global,
    setting: &Setting<'_>,
    decls: &mut D,
    state: &mut State,
    at: Place,
    name: NameId,
) -> Result<Option<Declared>, DeclStop>
    ensures { Walks (mention at name) (setting_of setting.now)
        (D.state decls.old) state.old result (D.state decls.new) state.new
        (λ symbols. IsTrue (symbols (class_symbol name)))
        (λ symbols answer. IfSome answer (λ declared. ParamsIn symbols declared.type_params)) }
{
    let declared = declared_under(alloc, decls, name)?;
    expect_declared(alloc, setting, state, at, name, &declared)?;
    Ok(declared)
}

// What is declared under the name.
fn declared_under<D: Decls>(
    alloc: Global,
    decls: &mut D,
    name: NameId,
) -> Result<Option<Declared>, DeclStop>
    ensures { Asks (D.state decls.old) result (D.state decls.new)
        (λ map answer. answer ≡ declared_as (map (class_symbol name)))
        (λ symbols. IsTrue (symbols (class_symbol name)))
        (λ symbols answer. IfSome answer (λ declared. ParamsIn symbols declared.type_params)) }
{
    let symbol = SymbolId {
        kind: Kind::Class,
        name,
    };
    let heading = decls.heading(alloc, symbol)?;
    Ok(declared_in(alloc, heading))
}

fn declared_in(alloc: Global, heading: HeadingAnswer) -> Option<Declared>
    ensures { result ≡ row.declared_in heading }
{
    match heading {
        HeadingAnswer::Absent => None,
        HeadingAnswer::ClassLike(class) => Some(Declared {
            type_params: class.type_params,
            is_trait: is_trait(class.sort),
        }),
        HeadingAnswer::Alias(sig) => Some(Declared {
            type_params: sig.type_params,
            is_trait: false,
        }),
        HeadingAnswer::Enum(_) => Some(without_params(alloc)),
        HeadingAnswer::Function(_) => Some(without_params(alloc)),
        HeadingAnswer::Constant(_) => Some(without_params(alloc)),
    }
}

fn without_params(alloc: Global) -> Declared
    ensures { result ≡ row.without_params }
{
    Declared {
        type_params: Items::new(alloc),
        is_trait: false,
    }
}

fn is_trait(sort: Sort) -> bool
    ensures { result ≡ is_trait sort }
{
    matches!(sort, Sort::Trait)
}

// 3001 where nothing is declared, and 3004 for a trait.
fn expect_declared(
    alloc: Global,
    setting: &Setting<'_>,
    state: &mut State,
    at: Place,
    name: NameId,
    declared: &Option<Declared>,
) -> Result<(), NoMemory>
    ensures { Steps (row.expect_declared at name declared.now) (setting_of setting.now)
        state.old result state.new (λ symbols. Unit {0}) Nothing }
{
    match declared {
        Some(declared) => expect_no_trait(alloc, setting, state, at, name, declared),
        None => report_unbound(alloc, setting, state, at, name),
    }
}

fn expect_no_trait(
    alloc: Global,
    setting: &Setting<'_>,
    state: &mut State,
    at: Place,
    name: NameId,
    declared: &Declared,
) -> Result<(), NoMemory>
    ensures { Steps (row.expect_no_trait at name declared.now) (setting_of setting.now)
        state.old result state.new (λ symbols. Unit {0}) Nothing }
{
    let fits = !declared.is_trait;
    if fits {
        return Ok(());
    }
    report_trait(alloc, setting, state, at, name)
}

/// The type that stands before `::`: the class of a name with `_` for each of its parameters, or what the word stands for; none where
/// the expression is `_`, of which 3001, 3004 or 4020 is told then (docs/language.md, Typing expressions, Members). The errors are as
/// those of `mention`.
pub fn referred<D: Decls>(
    alloc: Global,
    setting: &Setting<'_>,
    decls: &mut D,
    state: &mut State,
    at: Place,
    class: &ClassReference,
) -> Result<Option<HackType>, DeclStop>
    ensures { Walks (referred at class.now) (setting_of setting.now)
        (D.state decls.old) state.old result (D.state decls.new) state.new
        (λ symbols. ReferenceIn symbols class.now)
        (λ symbols answer. IfSome answer (TypeIn symbols)) }
{
    match class {
        ClassReference::Named(name) => by_name(alloc, setting, decls, state, at, *name),
        ClassReference::Self_ | ClassReference::Static | ClassReference::Parent => {
            by_word(alloc, setting, decls, state, at, class)
        }
    }
}

// The class of a name.
fn by_name<D: Decls>(
    alloc: Global,
    setting: &Setting<'_>,
    decls: &mut D,
    state: &mut State,
    at: Place,
    name: NameId,
) -> Result<Option<HackType>, DeclStop>
    ensures { Walks (row.by_name at name) (setting_of setting.now)
        (D.state decls.old) state.old result (D.state decls.new) state.new
        (λ symbols. IsTrue (symbols (class_symbol name)))
        (λ symbols answer. IfSome answer (TypeIn symbols)) }
{
    let declared = mention(alloc, setting, decls, state, at, name)?;
    Ok(type_by(alloc, name, &declared)?)
}

// Of what is no trait.
fn type_by(
    alloc: Global,
    name: NameId,
    declared: &Option<Declared>,
) -> Result<Option<HackType>, NoMemory>
    ensures { IfOk result (λ ty. ty ≡ row.type_by name declared.now) }
{
    match declared {
        Some(declared) => type_of(alloc, name, declared),
        None => Ok(None),
    }
}

fn type_of(alloc: Global, name: NameId, declared: &Declared) -> Result<Option<HackType>, NoMemory>
    ensures { IfOk result (λ ty. ty ≡ row.type_of name declared.now) }
{
    if declared.is_trait {
        return Ok(None);
    }
    let arguments = any_for_each(alloc, declared.type_params.as_slice())?;
    Ok(Some(HackType::Class(name, arguments)))
}

// `_` for each parameter.
fn any_for_each(alloc: Global, params: &[TypeParam]) -> Result<Items<HackType>, NoMemory>
    ensures { IfOk result (λ types. types ≡ map (λ param. type.Any) params.now) }
{
    let mut types = Items::new(alloc);
    for _param in params {
        types.push(HackType::Any)?;
    }
    Ok(types)
}

// What a word stands for; 4020 where that is nothing.
fn by_word<D: Decls>(
    alloc: Global,
    setting: &Setting<'_>,
    decls: &mut D,
    state: &mut State,
    at: Place,
    word: &ClassReference,
) -> Result<Option<HackType>, DeclStop>
    ensures { Walks (row.by_word at word.now) (setting_of setting.now)
        (D.state decls.old) state.old result (D.state decls.new) state.new
        (λ symbols. Unit {0}) (λ symbols answer. IfSome answer (TypeIn symbols)) }
{
    let ty = word_type(alloc, decls, setting.scope, word)?;
    expect_allowed(alloc, setting, state, at, word, &ty)?;
    Ok(ty)
}

fn expect_allowed(
    alloc: Global,
    setting: &Setting<'_>,
    state: &mut State,
    at: Place,
    word: &ClassReference,
    ty: &Option<HackType>,
) -> Result<(), NoMemory>
    ensures { Steps (row.expect_allowed at word.now ty.now) (setting_of setting.now)
        state.old result state.new (λ symbols. Unit {0}) Nothing }
{
    match ty {
        Some(_) => Ok(()),
        None => report_not_allowed(alloc, setting, state, at, word_text(word)),
    }
}

// The word as 4020 shows it.
fn word_text(word: &ClassReference) -> &'static [u8]
    ensures { result.now ≡ word_text word.now }
{
    match word {
        ClassReference::Named(_) => b"",
        ClassReference::Self_ => b"self",
        ClassReference::Static => b"static",
        ClassReference::Parent => b"parent",
    }
}

/// The name that 4008 shows for what stands before `::`, where it has this type: as it is written, the parent's, or that of the scope's
/// class (docs/language.md, Typing expressions, Members).
pub fn shown_name(class: &ClassReference, ty: &HackType, scope: &Scope) -> NameId
    ensures { result ≡ shown_name class.now ty.now scope.now }
{
    match class {
        ClassReference::Named(name) => *name,
        ClassReference::Parent => or_zero(name_of(ty)),
        ClassReference::Self_ => or_zero(class_of(scope)),
        ClassReference::Static => or_zero(class_of(scope)),
    }
}

fn class_of(scope: &Scope) -> Option<NameId>
    ensures { result ≡ scope_class scope.now }
{
    match &scope.class {
        Some((name, _)) => Some(*name),
        None => None,
    }
}

// A type without a name and a scope without a class stand before no `::`.
fn or_zero(name: Option<NameId>) -> NameId
    ensures { result ≡ name_or name }
{
    match name {
        Some(name) => name,
        None => NameId::new(0),
    }
}
