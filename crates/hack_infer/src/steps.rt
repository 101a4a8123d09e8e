// One level of matching: the first step that fits two types.
ghost use Rattle.std.specs.Prelude.{◌≡◌, fold};
ghost use Rattle.hack_sub.specs.Parts.{as_keyed, option_inside, union_members};
ghost use Rattle.hack_infer.specs.Named.{PairsIn};
ghost use Rattle.hack_infer.specs.inside.Calls.{BothIn, ClassIn, MembersIn, NamedIn, Matching, PairIn, Takes};
ghost use Rattle.hack_infer.specs.Matching.{by_wanted, class_types, dicts, expanding, given_by, given_seen, keyed_or, keysets, match_in, members_by, option_by, pairs, vectors, wanted_seen};
ghost use Rattle.hack_infer.specs.Seeing.{ancestor_given, given, seen_as, sight_of};
ghost use Rattle.hack_infer.specs.WithoutNull.{without_null};

use crate::nulls::without_null;
use crate::parts::fun_param;
use crate::sight::Sight;
use crate::sights::{ancestor_given, sight_of};
use crate::taken::Taken;
use hack_decls::{DeclStop, Decls};
use hack_sub::{
    arguments_of, as_keyed, dict_parts, keyset_item, name_of, option_inside, union_members,
    vector_item,
};
use hack_types::{HackType, NameId};
use std::alloc::Global;

/// How pairs of types inside are matched: by this, so deep.
#[derive(Drop)]
pub(crate) struct Deeper<F> {
    pub(crate) alloc: Global,
    pub(crate) depth: u32,
    /// Matches one pair.
    pub(crate) matches: F,
}

// One pair.
fn matched<D: Decls, F>(
    deeper: &Deeper<F>,
    decls: &mut D,
    wanted: &HackType,
    given: &HackType,
    taken: &mut Taken,
) -> Result<(), DeclStop>
where
    F: Fn(Global, &mut D, u32, &HackType, &HackType, &mut Taken) -> Result<(), DeclStop>,
    requires { Matching D.state deeper.now.depth
        (F.pre deeper.now.matches) (F.post deeper.now.matches) }
    ensures { Takes (D.state decls.old) result (D.state decls.new) taken.old taken.new
        (λ map. match_in deeper.now.depth map wanted.now given.now taken.old)
        (λ symbols. PairIn symbols wanted.now given.now) }
{
    (deeper.matches)(deeper.alloc, decls, deeper.depth, wanted, given, taken)
}

/// The first step that fits.
pub(crate) fn by_wanted<D: Decls, F>(
    deeper: &Deeper<F>,
    decls: &mut D,
    wanted: &HackType,
    given: &HackType,
    taken: &mut Taken,
) -> Result<(), DeclStop>
where
    F: Fn(Global, &mut D, u32, &HackType, &HackType, &mut Taken) -> Result<(), DeclStop>,
    requires { Matching D.state deeper.now.depth
        (F.pre deeper.now.matches) (F.post deeper.now.matches) }
    ensures { Takes (D.state decls.old) result (D.state decls.new) taken.old taken.new
        (λ map. by_wanted (match_in deeper.now.depth map) map wanted.now given.now taken.old)
        (λ symbols. PairIn symbols wanted.now given.now) }
{
    match fun_param(wanted) {
        Some(position) => Ok(taken.take(deeper.alloc, position, given)?),
        None => by_option(deeper, decls, wanted, given, taken),
    }
}

// The wanted type is an option, or a later step fits.
fn by_option<D: Decls, F>(
    deeper: &Deeper<F>,
    decls: &mut D,
    wanted: &HackType,
    given: &HackType,
    taken: &mut Taken,
) -> Result<(), DeclStop>
where
    F: Fn(Global, &mut D, u32, &HackType, &HackType, &mut Taken) -> Result<(), DeclStop>,
    requires { Matching D.state deeper.now.depth
        (F.pre deeper.now.matches) (F.post deeper.now.matches) }
    ensures { Takes (D.state decls.old) result (D.state decls.new) taken.old taken.new
        (λ map. option_by (match_in deeper.now.depth map) map
        wanted.now given.now (option_inside wanted.now) taken.old)
        (λ symbols. PairIn symbols wanted.now given.now) }
{
    match option_inside(wanted) {
        Some(inside) => into_option(deeper, decls, inside, given, taken),
        None => by_members(deeper, decls, wanted, given, taken),
    }
}

// What is inside the wanted option goes on with what is given without null.
fn into_option<D: Decls, F>(
    deeper: &Deeper<F>,
    decls: &mut D,
    inside: &HackType,
    given: &HackType,
    taken: &mut Taken,
) -> Result<(), DeclStop>
where
    F: Fn(Global, &mut D, u32, &HackType, &HackType, &mut Taken) -> Result<(), DeclStop>,
    requires { Matching D.state deeper.now.depth
        (F.pre deeper.now.matches) (F.post deeper.now.matches) }
    ensures { Takes (D.state decls.old) result (D.state decls.new) taken.old taken.new
        (λ map. match_in deeper.now.depth map inside.now (without_null map given.now) taken.old)
        (λ symbols. PairIn symbols inside.now given.now) }
{
    let rest = without_null(deeper.alloc, decls, given)?;
    matched(deeper, decls, inside, &rest, taken)
}

// The given type is a union, or a later step fits.
fn by_members<D: Decls, F>(
    deeper: &Deeper<F>,
    decls: &mut D,
    wanted: &HackType,
    given: &HackType,
    taken: &mut Taken,
) -> Result<(), DeclStop>
where
    F: Fn(Global, &mut D, u32, &HackType, &HackType, &mut Taken) -> Result<(), DeclStop>,
    requires { Matching D.state deeper.now.depth
        (F.pre deeper.now.matches) (F.post deeper.now.matches) }
    ensures { Takes (D.state decls.old) result (D.state decls.new) taken.old taken.new
        (λ map. members_by (match_in deeper.now.depth map) map
        wanted.now given.now (union_members given.now) taken.old)
        (λ symbols. PairIn symbols wanted.now given.now) }
{
    match union_members(given) {
        Some(members) => each_member(deeper, decls, wanted, members, taken),
        None => by_wanted_seen(deeper, decls, wanted, given, taken),
    }
}

// Each member of the given union in order.
fn each_member<D: Decls, F>(
    deeper: &Deeper<F>,
    decls: &mut D,
    wanted: &HackType,
    members: &[HackType],
    taken: &mut Taken,
) -> Result<(), DeclStop>
where
    F: Fn(Global, &mut D, u32, &HackType, &HackType, &mut Taken) -> Result<(), DeclStop>,
    requires { Matching D.state deeper.now.depth
        (F.pre deeper.now.matches) (F.post deeper.now.matches) }
    ensures { Takes (D.state decls.old) result (D.state decls.new) taken.old taken.new
        (λ map. fold (λ so_far member.
        match_in deeper.now.depth map wanted.now member so_far) taken.old members.now)
        (λ symbols. MembersIn symbols wanted.now members.now) }
{
    for member in members {
        matched(deeper, decls, wanted, member, taken)?;
    }
    Ok(())
}

// The wanted type is an alias, or a later step fits.
fn by_wanted_seen<D: Decls, F>(
    deeper: &Deeper<F>,
    decls: &mut D,
    wanted: &HackType,
    given: &HackType,
    taken: &mut Taken,
) -> Result<(), DeclStop>
where
    F: Fn(Global, &mut D, u32, &HackType, &HackType, &mut Taken) -> Result<(), DeclStop>,
    requires { Matching D.state deeper.now.depth
        (F.pre deeper.now.matches) (F.post deeper.now.matches) }
    ensures { Takes (D.state decls.old) result (D.state decls.new) taken.old taken.new
        (λ map. wanted_seen (match_in deeper.now.depth map) map
        wanted.now given.now (sight_of map wanted.now) taken.old)
        (λ symbols. PairIn symbols wanted.now given.now) }
{
    let sight = sight_of(deeper.alloc, decls, wanted)?;
    match &sight {
        Sight::Alias(next) => expanding(deeper, decls, next, given, taken),
        Sight::Bad => Ok(()),
        Sight::Other => by_given_seen(deeper, decls, wanted, given, taken),
    }
}

// The given type is an alias, or a later step fits.
fn by_given_seen<D: Decls, F>(
    deeper: &Deeper<F>,
    decls: &mut D,
    wanted: &HackType,
    given: &HackType,
    taken: &mut Taken,
) -> Result<(), DeclStop>
where
    F: Fn(Global, &mut D, u32, &HackType, &HackType, &mut Taken) -> Result<(), DeclStop>,
    requires { Matching D.state deeper.now.depth
        (F.pre deeper.now.matches) (F.post deeper.now.matches) }
    ensures { Takes (D.state decls.old) result (D.state decls.new) taken.old taken.new
        (λ map. given_seen (match_in deeper.now.depth map) map
        wanted.now given.now (sight_of map given.now) taken.old)
        (λ symbols. PairIn symbols wanted.now given.now) }
{
    let sight = sight_of(deeper.alloc, decls, given)?;
    match &sight {
        Sight::Alias(next) => expanding(deeper, decls, wanted, next, taken),
        Sight::Bad => Ok(()),
        Sight::Other => vectors(deeper, decls, wanted, given, taken),
    }
}

// One of the two is what an alias stands for.
fn expanding<D: Decls, F>(
    deeper: &Deeper<F>,
    decls: &mut D,
    wanted: &HackType,
    given: &HackType,
    taken: &mut Taken,
) -> Result<(), DeclStop>
where
    F: Fn(Global, &mut D, u32, &HackType, &HackType, &mut Taken) -> Result<(), DeclStop>,
    requires { Matching D.state deeper.now.depth
        (F.pre deeper.now.matches) (F.post deeper.now.matches) }
    ensures { Takes (D.state decls.old) result (D.state decls.new) taken.old taken.new
        (λ map. expanding (match_in deeper.now.depth map) wanted.now given.now taken.old)
        (λ symbols. PairIn symbols wanted.now given.now) }
{
    if taken.steps == 0 {
        return Ok(());
    }
    taken.steps -= 1;
    matched(deeper, decls, wanted, given, taken)
}

// Both are vecs, or a later step fits.
fn vectors<D: Decls, F>(
    deeper: &Deeper<F>,
    decls: &mut D,
    wanted: &HackType,
    given: &HackType,
    taken: &mut Taken,
) -> Result<(), DeclStop>
where
    F: Fn(Global, &mut D, u32, &HackType, &HackType, &mut Taken) -> Result<(), DeclStop>,
    requires { Matching D.state deeper.now.depth
        (F.pre deeper.now.matches) (F.post deeper.now.matches) }
    ensures { Takes (D.state decls.old) result (D.state decls.new) taken.old taken.new
        (λ map. vectors (match_in deeper.now.depth map) map wanted.now given.now taken.old)
        (λ symbols. PairIn symbols wanted.now given.now) }
{
    match (vector_item(wanted), vector_item(given)) {
        (Some(item), Some(other)) => matched(deeper, decls, item, other, taken),
        _ => keysets(deeper, decls, wanted, given, taken),
    }
}

// Both are keysets, or a later step fits.
fn keysets<D: Decls, F>(
    deeper: &Deeper<F>,
    decls: &mut D,
    wanted: &HackType,
    given: &HackType,
    taken: &mut Taken,
) -> Result<(), DeclStop>
where
    F: Fn(Global, &mut D, u32, &HackType, &HackType, &mut Taken) -> Result<(), DeclStop>,
    requires { Matching D.state deeper.now.depth
        (F.pre deeper.now.matches) (F.post deeper.now.matches) }
    ensures { Takes (D.state decls.old) result (D.state decls.new) taken.old taken.new
        (λ map. keysets (match_in deeper.now.depth map) map wanted.now given.now taken.old)
        (λ symbols. PairIn symbols wanted.now given.now) }
{
    match (keyset_item(wanted), keyset_item(given)) {
        (Some(item), Some(other)) => matched(deeper, decls, item, other, taken),
        _ => dicts(deeper, decls, wanted, given, taken),
    }
}

// Both are dicts, or a later step fits.
fn dicts<D: Decls, F>(
    deeper: &Deeper<F>,
    decls: &mut D,
    wanted: &HackType,
    given: &HackType,
    taken: &mut Taken,
) -> Result<(), DeclStop>
where
    F: Fn(Global, &mut D, u32, &HackType, &HackType, &mut Taken) -> Result<(), DeclStop>,
    requires { Matching D.state deeper.now.depth
        (F.pre deeper.now.matches) (F.post deeper.now.matches) }
    ensures { Takes (D.state decls.old) result (D.state decls.new) taken.old taken.new
        (λ map. dicts (match_in deeper.now.depth map) map wanted.now given.now taken.old)
        (λ symbols. PairIn symbols wanted.now given.now) }
{
    match (dict_parts(wanted), dict_parts(given)) {
        (Some((key, value)), Some((other_key, other_value))) => {
            both(deeper, decls, key, other_key, value, other_value, taken)
        }
        _ => class_types(deeper, decls, wanted, given, taken),
    }
}

// Two pairs in order.
fn both<D: Decls, F>(
    deeper: &Deeper<F>,
    decls: &mut D,
    key: &HackType,
    other_key: &HackType,
    value: &HackType,
    other_value: &HackType,
    taken: &mut Taken,
) -> Result<(), DeclStop>
where
    F: Fn(Global, &mut D, u32, &HackType, &HackType, &mut Taken) -> Result<(), DeclStop>,
    requires { Matching D.state deeper.now.depth
        (F.pre deeper.now.matches) (F.post deeper.now.matches) }
    ensures { Takes (D.state decls.old) result (D.state decls.new) taken.old taken.new
        (λ map. match_in deeper.now.depth map value.now other_value.now
        (match_in deeper.now.depth map key.now other_key.now taken.old))
        (λ symbols. BothIn symbols key.now other_key.now value.now other_value.now) }
{
    matched(deeper, decls, key, other_key, taken)?;
    matched(deeper, decls, value, other_value, taken)
}

// The wanted type has a name.
fn class_types<D: Decls, F>(
    deeper: &Deeper<F>,
    decls: &mut D,
    wanted: &HackType,
    given: &HackType,
    taken: &mut Taken,
) -> Result<(), DeclStop>
where
    F: Fn(Global, &mut D, u32, &HackType, &HackType, &mut Taken) -> Result<(), DeclStop>,
    requires { Matching D.state deeper.now.depth
        (F.pre deeper.now.matches) (F.post deeper.now.matches) }
    ensures { Takes (D.state decls.old) result (D.state decls.new) taken.old taken.new
        (λ map. class_types (match_in deeper.now.depth map) map wanted.now given.now taken.old)
        (λ symbols. PairIn symbols wanted.now given.now) }
{
    match name_of(wanted) {
        Some(name) => by_keyed(deeper, decls, name, arguments_of(wanted), given, taken),
        None => Ok(()),
    }
}

// A container goes as a `KeyedContainer`.
fn by_keyed<D: Decls, F>(
    deeper: &Deeper<F>,
    decls: &mut D,
    name: NameId,
    arguments: &[HackType],
    given: &HackType,
    taken: &mut Taken,
) -> Result<(), DeclStop>
where
    F: Fn(Global, &mut D, u32, &HackType, &HackType, &mut Taken) -> Result<(), DeclStop>,
    requires { Matching D.state deeper.now.depth
        (F.pre deeper.now.matches) (F.post deeper.now.matches) }
    ensures { Takes (D.state decls.old) result (D.state decls.new) taken.old taken.new
        (λ map. given_by (match_in deeper.now.depth map) arguments.now
        (seen_as map name (keyed_or given.now (as_keyed given.now))) taken.old)
        (λ symbols. NamedIn symbols arguments.now given.now) }
{
    let keyed = as_keyed(deeper.alloc, given)?;
    match &keyed {
        Some(keyed) => by_class(deeper, decls, name, arguments, keyed, taken),
        None => by_class(deeper, decls, name, arguments, given, taken),
    }
}

// The given type has a name.
fn by_class<D: Decls, F>(
    deeper: &Deeper<F>,
    decls: &mut D,
    name: NameId,
    arguments: &[HackType],
    given: &HackType,
    taken: &mut Taken,
) -> Result<(), DeclStop>
where
    F: Fn(Global, &mut D, u32, &HackType, &HackType, &mut Taken) -> Result<(), DeclStop>,
    requires { Matching D.state deeper.now.depth
        (F.pre deeper.now.matches) (F.post deeper.now.matches) }
    ensures { Takes (D.state decls.old) result (D.state decls.new) taken.old taken.new
        (λ map. given_by (match_in deeper.now.depth map) arguments.now
        (seen_as map name given.now) taken.old)
        (λ symbols. NamedIn symbols arguments.now given.now) }
{
    match name_of(given) {
        Some(class) => {
            from_class(
                deeper,
                decls,
                class,
                name,
                arguments,
                arguments_of(given),
                taken,
            )
        }
        None => Ok(()),
    }
}

// It is of the wanted class, or of one below it.
fn from_class<D: Decls, F>(
    deeper: &Deeper<F>,
    decls: &mut D,
    class: NameId,
    name: NameId,
    arguments: &[HackType],
    types: &[HackType],
    taken: &mut Taken,
) -> Result<(), DeclStop>
where
    F: Fn(Global, &mut D, u32, &HackType, &HackType, &mut Taken) -> Result<(), DeclStop>,
    requires { Matching D.state deeper.now.depth
        (F.pre deeper.now.matches) (F.post deeper.now.matches) }
    ensures { Takes (D.state decls.old) result (D.state decls.new) taken.old taken.new
        (λ map. given_by (match_in deeper.now.depth map) arguments.now
        (given map class types.now name) taken.old)
        (λ symbols. ClassIn symbols class arguments.now types.now) }
{
    if class == name {
        pairs(deeper, decls, arguments, types, taken)
    } else {
        from_ancestor(deeper, decls, class, name, arguments, types, taken)
    }
}

// The arguments that it gives the wanted class go on.
fn from_ancestor<D: Decls, F>(
    deeper: &Deeper<F>,
    decls: &mut D,
    class: NameId,
    name: NameId,
    arguments: &[HackType],
    types: &[HackType],
    taken: &mut Taken,
) -> Result<(), DeclStop>
where
    F: Fn(Global, &mut D, u32, &HackType, &HackType, &mut Taken) -> Result<(), DeclStop>,
    requires { Matching D.state deeper.now.depth
        (F.pre deeper.now.matches) (F.post deeper.now.matches) }
    ensures { Takes (D.state decls.old) result (D.state decls.new) taken.old taken.new
        (λ map. given_by (match_in deeper.now.depth map) arguments.now
        (ancestor_given map class types.now name) taken.old)
        (λ symbols. ClassIn symbols class arguments.now types.now) }
{
    let seen = ancestor_given(deeper.alloc, decls, class, types, name)?;
    match &seen {
        Some(given) => pairs(deeper, decls, arguments, given.as_slice(), taken),
        None => Ok(()),
    }
}

// Pairs in order, as far as both lists go.
fn pairs<D: Decls, F>(
    deeper: &Deeper<F>,
    decls: &mut D,
    wanted: &[HackType],
    given: &[HackType],
    taken: &mut Taken,
) -> Result<(), DeclStop>
where
    F: Fn(Global, &mut D, u32, &HackType, &HackType, &mut Taken) -> Result<(), DeclStop>,
    requires { Matching D.state deeper.now.depth
        (F.pre deeper.now.matches) (F.post deeper.now.matches) }
    ensures { Takes (D.state decls.old) result (D.state decls.new) taken.old taken.new
        (λ map. pairs (match_in deeper.now.depth map) wanted.now given.now taken.old)
        (λ symbols. PairsIn symbols wanted.now given.now) }
{
    let count = wanted.len().min(given.len());
    for index in 0..count {
        matched(deeper, decls, &wanted[index], &given[index], taken)?;
    }
    Ok(())
}
