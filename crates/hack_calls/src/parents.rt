// What `self`, `static` and `parent` stand for.
ghost use Rattle.std.specs.Prelude.{◌≡◌, IfOk, IfSome, IsTrue, None};
ghost use Rattle.hack_decls.specs.Asks.{Asks, Nothing};
ghost use Rattle.hack_decls.specs.Names.{TypeIn, class_symbol};
ghost use Rattle.hack_rules.specs.Classes.{is_class, is_class_sort, parent_type, scope_class, this_type, word_type};
ghost use Rattle.hack_sub.specs.Named.{Around};
ghost use Rattle.hack_calls.specs.inside.Rows as row;
ghost use Rattle.hack_calls.specs.inside.Rows.{AncestorsIn};

use hack_decls::{Ancestor, DeclStop, Decls, Folded, HeadingAnswer};
use hack_sub::{Scope, class_type};
use hack_tree::ClassReference;
use hack_types::{HackType, Kind, NameId, NoMemory, Sort, SymbolId};
use sqlite_items::Items;
use std::alloc::Global;

/// The type that a word stands for, where there is one: `self` for the scope's class, `static` for `this`, and `parent` for the first
/// class above; a name is no word (docs/language.md, Typing expressions, Members). `EdgesFull` says that a lookup's note was refused, and
/// `NoMemory` that memory ran out; what was noted before stays noted.
pub(crate) fn word_type<D: Decls>(
    alloc: Global,
    decls: &mut D,
    scope: &Scope,
    word: &ClassReference,
) -> Result<Option<HackType>, DeclStop>
    ensures { Asks (D.state decls.old) result (D.state decls.new)
        (λ map answer. answer ≡ word_type word.now map scope.now)
        (λ symbols. Around symbols scope.now) (λ symbols answer. IfSome answer (TypeIn symbols)) }
{
    match word {
        ClassReference::Named(_) => Ok(None),
        ClassReference::Self_ => Ok(class_type(alloc, scope)?),
        ClassReference::Static => Ok(this_type(scope)),
        ClassReference::Parent => parent_type(alloc, decls, scope),
    }
}

// `this`, inside a class.
fn this_type(scope: &Scope) -> Option<HackType>
    ensures { result ≡ this_type (scope_class scope.now) }
{
    match &scope.class {
        Some(_) => Some(HackType::This),
        None => None,
    }
}

// The first class above the scope's class, with its arguments.
fn parent_type<D: Decls>(
    alloc: Global,
    decls: &mut D,
    scope: &Scope,
) -> Result<Option<HackType>, DeclStop>
    ensures { Asks (D.state decls.old) result (D.state decls.new)
        (λ map answer. answer ≡ parent_type map scope.now)
        (λ symbols. Around symbols scope.now) (λ symbols answer. IfSome answer (TypeIn symbols)) }
{
    match &scope.class {
        Some((name, _)) => class_above(alloc, decls, *name),
        None => Ok(None),
    }
}

fn class_above<D: Decls>(
    alloc: Global,
    decls: &mut D,
    name: NameId,
) -> Result<Option<HackType>, DeclStop>
    ensures { Asks (D.state decls.old) result (D.state decls.new)
        (λ map answer. answer ≡ row.first_of map (row.ancestors_of (map (class_symbol name))))
        (λ symbols. IsTrue (symbols (class_symbol name)))
        (λ symbols answer. IfSome answer (TypeIn symbols)) }
{
    let found = decls.folded(alloc, class_symbol(name))?;
    let parent = first_of(alloc, decls, ancestors_of(&found));
    drop(found);
    parent
}

fn class_symbol(name: NameId) -> SymbolId
    ensures { result ≡ class_symbol name }
{
    SymbolId {
        kind: Kind::Class,
        name,
    }
}

fn ancestors_of(found: &Option<Folded>) -> &[Ancestor]
    ensures { result.now ≡ row.ancestors_of found.now }
{
    match found {
        Some(found) => ancestors_in(found),
        None => &[],
    }
}

fn ancestors_in(found: &Folded) -> &[Ancestor]
    ensures { result.now ≡ row.ancestors_in found.now }
{
    match found {
        Folded::ClassLike(class) => class.ancestors.as_slice(),
        _ => &[],
    }
}

// The first class among these.
fn first_of<D: Decls>(
    alloc: Global,
    decls: &mut D,
    ancestors: &[Ancestor],
) -> Result<Option<HackType>, DeclStop>
    ensures { Asks (D.state decls.old) result (D.state decls.new)
        (λ map answer. answer ≡ row.first_of map ancestors.now)
        (λ symbols. AncestorsIn symbols ancestors.now)
        (λ symbols answer. IfSome answer (TypeIn symbols)) }
{
    for ancestor in ancestors {
        let fits = is_class(alloc, decls, ancestor.name)?;
        if fits {
            return Ok(Some(type_of(alloc, ancestor)?));
        }
    }
    Ok(None)
}

// Whether a class is declared under the name, and neither an interface nor a trait.
fn is_class<D: Decls>(alloc: Global, decls: &mut D, name: NameId) -> Result<bool, DeclStop>
    ensures { Asks (D.state decls.old) result (D.state decls.new)
        (λ map answer. answer ≡ is_class map name)
        (λ symbols. IsTrue (symbols (class_symbol name))) Nothing }
{
    let heading = decls.heading(alloc, class_symbol(name))?;
    Ok(is_class_heading(heading))
}

fn is_class_heading(heading: HeadingAnswer) -> bool
    ensures { result ≡ row.is_class_heading heading }
{
    match heading {
        HeadingAnswer::ClassLike(class) => is_class_sort(class.sort),
        _ => false,
    }
}

fn is_class_sort(sort: Sort) -> bool
    ensures { result ≡ is_class_sort sort }
{
    matches!(sort, Sort::Class)
}

fn type_of(alloc: Global, ancestor: &Ancestor) -> Result<HackType, NoMemory>
    ensures { IfOk result (λ ty. ty ≡ row.ancestor_type ancestor.now) }
{
    Ok(HackType::Class(ancestor.name, copies(alloc, ancestor.arguments.as_slice())?))
}

fn copies(alloc: Global, types: &[HackType]) -> Result<Items<HackType>, NoMemory>
    ensures { IfOk result (λ copies. copies ≡ types.now) }
{
    let mut copies = Items::new(alloc);
    for ty in types {
        copies.push(ty.copy(alloc)?)?;
    }
    Ok(copies)
}
