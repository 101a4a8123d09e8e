// What is looked up of a named type.
ghost use Rattle.std.specs.Prelude.{◌≡◌, ◌==◌, All, IsTrue, IfOk, IfSome, length, map};
ghost use Rattle.hack_decls.specs.Asks.{Asks};
ghost use Rattle.hack_decls.specs.Names.{TypeIn, class_symbol};
ghost use Rattle.hack_sub.specs.Knowing.{is_trait};
ghost use Rattle.hack_infer.specs.inside.Calls.{alias_sight, class_sight, enum_sight, given_in, looked_at, next_of, sight_in};
ghost use Rattle.hack_infer.specs.Named.{SightIn};
ghost use Rattle.hack_infer.specs.Seeing.{ancestor_given, opened, put_in, sight_of};

use crate::sight::Sight;
use hack_decls::{AncestorAnswer, ClassHeading, DeclStop, Decls, HeadingAnswer};
use hack_sub::{arguments_of, name_of};
use hack_types::{
    AliasSig, HackType, Kind, NameId, NoMemory, Sort, SubstStop, SymbolId, TypeParam, substitute,
};
use sqlite_items::Items;
use std::alloc::Global;

/// How often aliases are looked through (docs/language.md, Typing expressions, Heads).
pub const MOST_STEPS: u32 = 16;

fn class_symbol(name: NameId) -> SymbolId
    ensures { result ≡ class_symbol name }
{
    SymbolId {
        kind: Kind::Class,
        name,
    }
}

/// Whether a type is an alias, bad, or neither (docs/language.md, Typing expressions, Heads). `EdgesFull` says that a lookup's note was
/// refused, and `NoMemory` that memory ran out; what was noted before stays noted.
pub fn sight_of<D: Decls>(alloc: Global, decls: &mut D, ty: &HackType) -> Result<Sight, DeclStop>
    ensures { Asks (D.state decls.old) result (D.state decls.new)
        (λ map answer. answer ≡ sight_of map ty.now) (λ symbols. TypeIn symbols ty.now) SightIn }
{
    match name_of(ty) {
        Some(name) => looked_at(alloc, decls, name, arguments_of(ty)),
        None => Ok(Sight::Other),
    }
}

fn looked_at<D: Decls>(
    alloc: Global,
    decls: &mut D,
    name: NameId,
    arguments: &[HackType],
) -> Result<Sight, DeclStop>
    ensures { Asks (D.state decls.old) result (D.state decls.new)
        (λ map answer. answer ≡ looked_at arguments.now (map (class_symbol name)))
        (λ symbols. IsTrue (symbols (class_symbol name)) × All (TypeIn symbols) arguments.now)
        SightIn }
{
    let heading = decls.heading(alloc, class_symbol(name))?;
    let sight = sight_in(alloc, heading, arguments)?;
    Ok(sight)
}

fn sight_in(
    alloc: Global,
    heading: HeadingAnswer,
    arguments: &[HackType],
) -> Result<Sight, NoMemory>
    ensures { IfOk result (λ sight. sight ≡ sight_in arguments.now heading) }
{
    sight_at(alloc, &heading, arguments)
}

fn sight_at(
    alloc: Global,
    heading: &HeadingAnswer,
    arguments: &[HackType],
) -> Result<Sight, NoMemory>
    ensures { IfOk result (λ sight. sight ≡ sight_in arguments.now heading.now) }
{
    match heading {
        HeadingAnswer::ClassLike(class) => Ok(class_sight(class, arguments.len())),
        HeadingAnswer::Enum(_) => Ok(enum_sight(arguments.len())),
        HeadingAnswer::Alias(sig) => alias_sight(alloc, sig, arguments),
        _ => Ok(Sight::Bad),
    }
}

fn class_sight(class: &ClassHeading, count: usize) -> Sight
    ensures { result ≡ class_sight count class.now.sort class.now.type_params }
{
    if is_trait(class.sort) || !is_as_many(count, &class.type_params) {
        Sight::Bad
    } else {
        Sight::Other
    }
}

fn enum_sight(count: usize) -> Sight
    ensures { result ≡ enum_sight count }
{
    if count == 0 { Sight::Other } else { Sight::Bad }
}

fn alias_sight(alloc: Global, sig: &AliasSig, arguments: &[HackType]) -> Result<Sight, NoMemory>
    ensures { IfOk result (λ sight. sight
        ≡ alias_sight arguments.now sig.now.type_params sig.now.body) }
{
    if !is_as_many(arguments.len(), &sig.type_params) {
        return Ok(Sight::Bad);
    }
    Ok(Sight::Alias(put_in(alloc, &sig.body, arguments)?))
}

fn is_trait(sort: Sort) -> bool
    ensures { result ≡ is_trait sort }
{
    matches!(sort, Sort::Trait)
}

fn is_as_many(count: usize, params: &Items<TypeParam>) -> bool
    ensures { result ≡ (count == length params.now) }
{
    count == params.len()
}

/// The type with these in the place of its class parameters, and `_` where that is too large.
#[tactic(auto, using(crate::proofs::PutLaws::put_any))]
pub(crate) fn put_in(
    alloc: Global,
    ty: &HackType,
    arguments: &[HackType],
) -> Result<HackType, NoMemory>
    ensures { IfOk result (λ put. put ≡ put_in arguments.now ty.now) }
{
    match substitute(alloc, ty, arguments) {
        Ok(put) => Ok(put),
        Err(SubstStop::TooBig) => Ok(HackType::Any),
        Err(SubstStop::NoMemory) => Err(NoMemory),
    }
}

/// What an alias stands for, with its arguments put in.
pub(crate) fn opened<D: Decls>(
    alloc: Global,
    decls: &mut D,
    ty: &HackType,
) -> Result<Option<HackType>, DeclStop>
    ensures { Asks (D.state decls.old) result (D.state decls.new)
        (λ map answer. answer ≡ opened map ty.now) (λ symbols. TypeIn symbols ty.now)
        (λ symbols answer. IfSome answer (TypeIn symbols)) }
{
    let sight = sight_of(alloc, decls, ty)?;
    Ok(next_of(sight))
}

fn next_of(sight: Sight) -> Option<HackType>
    ensures { result ≡ next_of sight }
{
    match sight {
        Sight::Alias(next) => Some(next),
        _ => None,
    }
}

/// The arguments that a class with these gives its ancestor of this name, where it stands below one (docs/language.md, Typing
/// expressions, Heads). The errors are as those of `sight_of`.
pub fn ancestor_given<D: Decls>(
    alloc: Global,
    decls: &mut D,
    class: NameId,
    arguments: &[HackType],
    name: NameId,
) -> Result<Option<Items<HackType>>, DeclStop>
    ensures { Asks (D.state decls.old) result (D.state decls.new)
        (λ map answer. answer ≡ ancestor_given map class arguments.now name)
        (λ symbols. IsTrue (symbols (class_symbol class)) × All (TypeIn symbols) arguments.now)
        (λ symbols answer. IfSome answer (All (TypeIn symbols))) }
{
    let answer = decls.ancestor(alloc, class_symbol(class), name)?;
    let given = given_in(alloc, answer, arguments)?;
    Ok(given)
}

fn given_in(
    alloc: Global,
    answer: AncestorAnswer,
    arguments: &[HackType],
) -> Result<Option<Items<HackType>>, NoMemory>
    ensures { IfOk result (λ given. given ≡ given_in arguments.now answer) }
{
    match &answer {
        AncestorAnswer::At(types) => Ok(Some(put_all(alloc, types, arguments)?)),
        _ => Ok(None),
    }
}

// The types with these in the place of their class parameters.
fn put_all(
    alloc: Global,
    types: &Items<HackType>,
    arguments: &[HackType],
) -> Result<Items<HackType>, NoMemory>
    ensures { IfOk result (λ put. put ≡ map (put_in arguments.now) types.now) }
{
    let mut all = Vec::with_capacity(alloc, types.len())?;
    for ty in types.as_slice() {
        all.push(put_in(alloc, ty, arguments)?)?;
    }
    Ok(Items::from_vec(all))
}
