// What is looked up of a named type.
ghost use Rattle.std.specs.Prelude.{◌≡◌, ◌==◌, if◌then◌else◌, Some, All, IsTrue, IfOk, IfSome, length, map, option_and_then};
ghost use Rattle.hack_types.specs.Substituted.{substitute};
ghost use Rattle.hack_decls.specs.Asks.{Asks, Nothing};
ghost use Rattle.hack_decls.specs.Names.{TypeIn, class_symbol};
ghost use Rattle.hack_sub.specs.inside.Calls.{base_in, body_in, given_in, known_heading, params_in};
ghost use Rattle.hack_sub.specs.IsBelow.{all_small, ancestor_given, bound_of, bounded_base, expanded_small, small_only};
ghost use Rattle.hack_sub.specs.Knowing.{enum_by, expanded_by, is_trait, known, known_by, known_class, parameters};
ghost use Rattle.hack_sub.specs.declared.known.Known.TheVariants.{Alias, Bad, Enum};

use crate::known::Known;
use crate::parts::{arguments_of, name_of};
use hack_decls::{AncestorAnswer, ClassHeading, DeclStop, Decls, HeadingAnswer};
use hack_types::{
    HackType, Kind, NameId, NoMemory, Sort, SubstStop, SymbolId, TypeParam, substitute,
};
use sqlite_items::Items;
use std::alloc::Global;

fn class_symbol(name: NameId) -> SymbolId
    ensures { result ≡ class_symbol name }
{
    SymbolId {
        kind: Kind::Class,
        name,
    }
}

/// What the type is by what is declared under its name.
pub(crate) fn known<D: Decls>(
    alloc: Global,
    decls: &mut D,
    ty: &HackType,
) -> Result<Known, DeclStop>
    ensures { Asks (D.state decls.old) result (D.state decls.new)
        (λ map answer. answer ≡ known map ty.now) (λ symbols. TypeIn symbols ty.now) Nothing }
{
    match name_of(ty) {
        Some(name) => known_by(alloc, decls, name, arguments_of(ty).len()),
        None => Ok(Known::Unnamed),
    }
}

// What a type of this name with so many arguments is.
fn known_by<D: Decls>(
    alloc: Global,
    decls: &mut D,
    name: NameId,
    count: usize,
) -> Result<Known, DeclStop>
    ensures { Asks (D.state decls.old) result (D.state decls.new)
        (λ map answer. answer ≡ known_by count (map (class_symbol name)))
        (λ symbols. IsTrue (symbols (class_symbol name))) Nothing }
{
    let heading = decls.heading(alloc, class_symbol(name))?;
    Ok(known_heading(heading, count))
}

fn known_heading(heading: HeadingAnswer, count: usize) -> Known
    ensures { result ≡ known_heading count heading }
{
    let known = known_of(&heading, count);
    drop(heading);
    known
}

fn known_of(heading: &HeadingAnswer, count: usize) -> Known
    ensures { result ≡ known_heading count heading.now }
{
    match heading {
        HeadingAnswer::ClassLike(class) => known_class(class, count),
        HeadingAnswer::Enum(_) => known_enum(count),
        HeadingAnswer::Alias(sig) => known_alias(count, &sig.type_params),
        _ => Known::Bad,
    }
}

fn known_enum(count: usize) -> Known
    ensures { result ≡ (if count == 0 then Enum else Bad) }
{
    if count == 0 { Known::Enum } else { Known::Bad }
}

fn known_alias(count: usize, params: &Items<TypeParam>) -> Known
    ensures { result ≡ (if count == length params.now then Alias else Bad) }
{
    if is_as_many(count, params) {
        Known::Alias
    } else {
        Known::Bad
    }
}

fn known_class(class: &ClassHeading, count: usize) -> Known
    ensures { result
        ≡ known_class count class.now.sort class.now.type_params class.now.partial }
{
    if is_trait(class.sort) || !is_as_many(count, &class.type_params) {
        Known::Bad
    } else {
        Known::ClassLike {
            partial: class.partial,
        }
    }
}

fn is_trait(sort: Sort) -> bool
    ensures { result ≡ is_trait sort }
{
    matches!(sort, Sort::Trait)
}

fn is_as_many(count: usize, params: &Items<TypeParam>) -> bool
    ensures { result ≡ (count == length params.now) }
{
    count == params.len()
}

/// The body of an alias with its arguments, where it isn't too large.
pub(crate) fn expanded<D: Decls>(
    alloc: Global,
    decls: &mut D,
    ty: &HackType,
) -> Result<Option<HackType>, DeclStop>
    ensures { Asks (D.state decls.old) result (D.state decls.new)
        (λ map answer. answer ≡ expanded_small map ty.now) (λ symbols. TypeIn symbols ty.now)
        (λ symbols answer. IfSome answer (TypeIn symbols)) }
{
    match name_of(ty) {
        Some(name) => expanded_by(alloc, decls, name, arguments_of(ty)),
        None => Ok(None),
    }
}

fn expanded_by<D: Decls>(
    alloc: Global,
    decls: &mut D,
    name: NameId,
    arguments: &[HackType],
) -> Result<Option<HackType>, DeclStop>
    ensures { Asks (D.state decls.old) result (D.state decls.new)
        (λ map answer. answer
        ≡ option_and_then small_only (expanded_by arguments.now (map (class_symbol name))))
        (λ symbols. IsTrue (symbols (class_symbol name)) × All (TypeIn symbols) arguments.now)
        (λ symbols answer. IfSome answer (TypeIn symbols)) }
{
    let heading = decls.heading(alloc, class_symbol(name))?;
    let body = body_in(alloc, heading, arguments)?;
    Ok(body)
}

fn body_in(
    alloc: Global,
    heading: HeadingAnswer,
    arguments: &[HackType],
) -> Result<Option<HackType>, NoMemory>
    ensures { IfOk result (λ answer. answer ≡ body_in arguments.now heading) }
{
    match &heading {
        HeadingAnswer::Alias(sig) if arguments.len() == sig.type_params.len() => {
            put(alloc, &sig.body, arguments)
        }
        _ => Ok(None),
    }
}

// The type with these in the place of its class parameters, where it isn't too large.
fn put(alloc: Global, ty: &HackType, arguments: &[HackType]) -> Result<Option<HackType>, NoMemory>
    ensures { IfOk result (λ answer. answer ≡ small_only (substitute arguments.now ty.now)) }
{
    match substitute(alloc, ty, arguments) {
        Ok(put) => Ok(Some(put)),
        Err(SubstStop::TooBig) => Ok(None),
        Err(SubstStop::NoMemory) => Err(NoMemory),
    }
}

/// The base that an enum is declared `as`.
pub(crate) fn bounded_base<D: Decls>(
    alloc: Global,
    decls: &mut D,
    ty: &HackType,
) -> Result<Option<HackType>, DeclStop>
    ensures { Asks (D.state decls.old) result (D.state decls.new)
        (λ map answer. answer ≡ bounded_base map ty.now) (λ symbols. TypeIn symbols ty.now)
        (λ symbols answer. IfSome answer (TypeIn symbols)) }
{
    match name_of(ty) {
        Some(name) => base_by(alloc, decls, name, arguments_of(ty).len()),
        None => Ok(None),
    }
}

fn base_by<D: Decls>(
    alloc: Global,
    decls: &mut D,
    name: NameId,
    count: usize,
) -> Result<Option<HackType>, DeclStop>
    ensures { Asks (D.state decls.old) result (D.state decls.new)
        (λ map answer. answer
        ≡ option_and_then bound_of (enum_by count (map (class_symbol name))))
        (λ symbols. IsTrue (symbols (class_symbol name)))
        (λ symbols answer. IfSome answer (TypeIn symbols)) }
{
    let heading = decls.heading(alloc, class_symbol(name))?;
    Ok(base_in(heading, count))
}

fn base_in(heading: HeadingAnswer, count: usize) -> Option<HackType>
    ensures { result ≡ base_in count heading }
{
    match heading {
        HeadingAnswer::Enum(sig) if sig.bounded && count == 0 => Some(sig.base),
        _ => None,
    }
}

/// The type parameters that the declaration of this name writes.
pub(crate) fn parameters<D: Decls>(
    alloc: Global,
    decls: &mut D,
    name: NameId,
) -> Result<Items<TypeParam>, DeclStop>
    ensures { Asks (D.state decls.old) result (D.state decls.new)
        (λ map answer. answer ≡ parameters map name)
        (λ symbols. IsTrue (symbols (class_symbol name))) Nothing }
{
    let heading = decls.heading(alloc, class_symbol(name))?;
    Ok(params_in(alloc, heading))
}

fn params_in(alloc: Global, heading: HeadingAnswer) -> Items<TypeParam>
    ensures { result ≡ params_in heading }
{
    match heading {
        HeadingAnswer::ClassLike(class) => class.type_params,
        HeadingAnswer::Alias(sig) => sig.type_params,
        _ => Items::new(alloc),
    }
}

/// The arguments that a class with these arguments gives its ancestor of this name, where none is too large.
pub(crate) fn ancestor_given<D: Decls>(
    alloc: Global,
    decls: &mut D,
    class: NameId,
    arguments: &[HackType],
    name: NameId,
) -> Result<Option<Items<HackType>>, DeclStop>
    ensures { Asks (D.state decls.old) result (D.state decls.new)
        (λ map answer. answer ≡ ancestor_given map class arguments.now name)
        (λ symbols. IsTrue (symbols (class_symbol class)) × All (TypeIn symbols) arguments.now)
        (λ symbols answer. IfSome answer (All (TypeIn symbols))) }
{
    let answer = decls.ancestor(alloc, class_symbol(class), name)?;
    let given = given_in(alloc, answer, arguments)?;
    Ok(given)
}

fn given_in(
    alloc: Global,
    answer: AncestorAnswer,
    arguments: &[HackType],
) -> Result<Option<Items<HackType>>, NoMemory>
    ensures { IfOk result (λ given. given ≡ given_in arguments.now answer) }
{
    match &answer {
        AncestorAnswer::At(types) => put_all(alloc, types, arguments),
        _ => Ok(None),
    }
}

// The types with these in the place of their class parameters, where none is too large.
fn put_all(
    alloc: Global,
    types: &Items<HackType>,
    arguments: &[HackType],
) -> Result<Option<Items<HackType>>, NoMemory>
    ensures { IfOk result (λ given. given ≡ all_small (map (substitute arguments.now) types.now)) }
{
    let mut all = Vec::with_capacity(alloc, types.len())?;
    for ty in types.as_slice() {
        match put(alloc, ty, arguments)? {
            Some(put) => all.push(put)?,
            None => return Ok(None),
        }
    }
    Ok(Some(Items::from_vec(all)))
}
