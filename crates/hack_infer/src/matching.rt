// Matching: what function parameters take from the types of arguments.
ghost use Rattle.std.specs.Prelude.{◌≡◌, map};
ghost use Rattle.hack_decls.specs.Asks.{Asks};
ghost use Rattle.hack_infer.specs.Named.{ListsIn, PairsIn, lists_of};
ghost use Rattle.hack_infer.specs.inside.Calls.{PairIn, Takes};
ghost use Rattle.hack_infer.specs.Matching.{match_in, match_pair, match_params, pairs};

use crate::sights::MOST_STEPS;
use crate::steps::{Deeper, by_wanted};
use crate::taken::{Taken, lists};
use hack_decls::{DeclStop, Decls};
use hack_sub::Scope;
use hack_types::HackType;
use std::alloc::Global;

// How deep matching goes; no pair of types of 256 nodes goes deeper.
const MOST_DEPTH: u32 = 8704;

/// What each of so many function parameters takes from the wanted and the given types, pair by pair as far as both lists go, in order
/// (docs/language.md, Typing expressions, Calls). The answer has as many lists as `count` says; a parameter with another position
/// takes nothing. In each pair at most sixteen aliases are expanded. Matching looks at no scope. `EdgesFull` says that a lookup's note
/// was refused, and `NoMemory` that memory ran out; what was noted before stays noted.
pub fn match_params<D: Decls>(
    alloc: Global,
    decls: &mut D,
    _scope: &Scope,
    wanted: &[HackType],
    given: &[HackType],
    count: u32,
) -> Result<Vec<Vec<HackType>>, DeclStop>
    ensures { Asks (D.state decls.old) result (D.state decls.new)
        (λ map answer. lists_of answer.items ≡ match_params map wanted.now given.now count)
        (λ symbols. PairsIn symbols wanted.now given.now)
        (λ symbols answer. ListsIn symbols (lists_of answer.items)) }
{
    let mut taken = Taken::new(alloc);
    match_all(alloc, decls, wanted, given, &mut taken)?;
    Ok(lists(alloc, taken.found.as_slice(), count)?)
}

// The pairs in order, each with its own sixteen expansions.
fn match_all<D: Decls>(
    alloc: Global,
    decls: &mut D,
    wanted: &[HackType],
    given: &[HackType],
    taken: &mut Taken,
) -> Result<(), DeclStop>
    ensures { Takes (D.state decls.old) result (D.state decls.new) taken.old taken.new
        (λ map. pairs (match_pair map) wanted.now given.now taken.old)
        (λ symbols. PairsIn symbols wanted.now given.now) }
{
    let count = wanted.len().min(given.len());
    for index in 0..count {
        match_pair(alloc, decls, &wanted[index], &given[index], taken)?;
    }
    Ok(())
}

fn match_pair<D: Decls>(
    alloc: Global,
    decls: &mut D,
    wanted: &HackType,
    given: &HackType,
    taken: &mut Taken,
) -> Result<(), DeclStop>
    ensures { Takes (D.state decls.old) result (D.state decls.new) taken.old taken.new
        (λ map. match_pair map wanted.now given.now taken.old)
        (λ symbols. PairIn symbols wanted.now given.now) }
{
    taken.steps = MOST_STEPS;
    match_in(alloc, decls, MOST_DEPTH, wanted, given, taken)
}

// One pair, so deep.
fn match_in<D: Decls>(
    alloc: Global,
    decls: &mut D,
    depth: u32,
    wanted: &HackType,
    given: &HackType,
    taken: &mut Taken,
) -> Result<(), DeclStop>
    ensures { Takes (D.state decls.old) result (D.state decls.new) taken.old taken.new
        (λ map. match_in depth map wanted.now given.now taken.old)
        (λ symbols. PairIn symbols wanted.now given.now) }
{
    if depth == 0 {
        return Ok(());
    }
    let deeper = Deeper {
        alloc,
        depth: depth - 1,
        matches: match_in::<D>,
    };
    by_wanted(&deeper, decls, wanted, given, taken)
}
