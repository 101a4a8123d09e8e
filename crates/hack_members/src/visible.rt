// Who may use a member.
ghost use Rattle.std.specs.Prelude.{◌≡◌, ◌==◌, IsTrue, false};
ghost use Rattle.std.specs.List.{list_any};
ghost use Rattle.hack_decls.specs.Asks.{Asks, Nothing};
ghost use Rattle.hack_decls.specs.Names.{class_symbol};
ghost use Rattle.hack_rules.specs.Classes.{ancestors_by, class_named};
ghost use Rattle.hack_rules.specs.Members.{is_or_below, is_visible};
ghost use Rattle.hack_sub.specs.Named.{Around};
ghost use Rattle.hack_members.specs.inside.Rows.{is_at, is_class_by, is_inside};

use hack_decls::{AncestorAnswer, DeclStop, Decls};
use hack_sub::Scope;
use hack_types::{Kind, Member, NameId, SymbolId, Visibility};
use std::alloc::Global;

/// Whether the scope's class may use a member: a private one in its origin alone, a protected one in what is or stands below the origin
/// (docs/language.md, Typing expressions, Members). `EdgesFull` says that a lookup's note was refused, and `NoMemory` that memory ran
/// out; what was noted before stays noted.
pub(crate) fn is_visible<D: Decls>(
    alloc: Global,
    decls: &mut D,
    scope: &Scope,
    member: &Member,
) -> Result<bool, DeclStop>
    ensures { Asks (D.state decls.old) result (D.state decls.new)
        (λ map answer. answer ≡ is_visible map scope.now member.now)
        (λ symbols. Around symbols scope.now) Nothing }
{
    match member.visibility {
        Visibility::Public => Ok(true),
        Visibility::Private => Ok(is_class_of(scope, member.origin)),
        Visibility::Protected => is_inside(alloc, decls, scope, member.origin),
    }
}

// Whether the scope's class has this name.
fn is_class_of(scope: &Scope, name: NameId) -> bool
    ensures { result ≡ is_class_by scope.now.class name }
{
    match &scope.class {
        Some((class, _)) => *class == name,
        None => false,
    }
}

// Whether the scope's class is the one of this name, or stands below it.
fn is_inside<D: Decls>(
    alloc: Global,
    decls: &mut D,
    scope: &Scope,
    origin: NameId,
) -> Result<bool, DeclStop>
    ensures { Asks (D.state decls.old) result (D.state decls.new)
        (λ map answer. answer ≡ is_inside map scope.now.class origin)
        (λ symbols. Around symbols scope.now) Nothing }
{
    match &scope.class {
        Some((class, _)) => is_or_below(alloc, decls, *class, origin),
        None => Ok(false),
    }
}

// Whether a class is the one of this name, or stands below it.
fn is_or_below<D: Decls>(
    alloc: Global,
    decls: &mut D,
    class: NameId,
    origin: NameId,
) -> Result<bool, DeclStop>
    ensures { Asks (D.state decls.old) result (D.state decls.new)
        (λ map answer. answer ≡ is_or_below map class origin)
        (λ symbols. IsTrue (symbols (class_symbol class))) Nothing }
{
    if class == origin {
        return Ok(true);
    }
    has_ancestor(alloc, decls, class, origin)
}

fn has_ancestor<D: Decls>(
    alloc: Global,
    decls: &mut D,
    class: NameId,
    origin: NameId,
) -> Result<bool, DeclStop>
    ensures { Asks (D.state decls.old) result (D.state decls.new)
        (λ map answer. answer
        ≡ list_any (λ ancestor. ancestor.name == origin) (ancestors_by (class_named map class)))
        (λ symbols. IsTrue (symbols (class_symbol class))) Nothing }
{
    let answer = decls.ancestor(alloc, class_symbol(class), origin)?;
    Ok(is_at(answer))
}

// Whether there is such an ancestor.
fn is_at(answer: AncestorAnswer) -> bool
    ensures { result ≡ is_at answer }
{
    matches!(answer, AncestorAnswer::At(_))
}

/// The symbol of a class of this name.
pub(crate) fn class_symbol(name: NameId) -> SymbolId
    ensures { result ≡ class_symbol name }
{
    SymbolId {
        kind: Kind::Class,
        name,
    }
}
