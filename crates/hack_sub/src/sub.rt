// The relation: which rules are tried, and in which order.
ghost use Rattle.std.specs.Prelude.{◌≡◌, ◌&&◌, ◌||◌};
ghost use Rattle.hack_types.specs.SameType.{same_type};
ghost use Rattle.hack_decls.specs.Asks.{Judges};
ghost use Rattle.hack_sub.specs.Derives.{Derives};
ghost use Rattle.hack_sub.specs.Named.{PairIn};
ghost use Rattle.hack_sub.specs.inside.Calls.{Relates, Tells};
ghost use Rattle.hack_sub.specs.IsBelow.{by_known, by_rules, goes, is_below, is_plain, is_small, some_way};
ghost use Rattle.hack_sub.specs.Knowing.{known};
ghost use Rattle.hack_sub.specs.Parts.{top_of};
ghost use Rattle.hack_sub.specs.Sub.{most_height};

use crate::Scope;
use crate::bounds::{from_param, from_this, into_param};
use crate::class_types::class_types;
use crate::containers::{dicts, into_keyed, keysets, vectors};
use crate::known::Known;
use crate::level::Level;
use crate::lookups::known;
use crate::named::{from_alias, from_enum, into_alias};
use crate::options::{from_option, from_union, into_option, into_union};
use crate::parts::top_of;
use crate::plain::{is_looked, is_plain};
use crate::shapes::shapes;
use crate::way::Way;
use hack_decls::{DeclStop, Decls};
use hack_types::{HackType, MOST_NODES};
use std::alloc::Global;

// How high a tree may be.
const MOST_HEIGHT: u32 = 16;

/// Whether the first type is below the second: there is a derivation of height at most 16 whose types have at most 256 nodes
/// (docs/language.md, Subtyping). `EdgesFull` says that a lookup's note was refused, and `NoMemory` that memory ran out; what was noted
/// before stays noted.
pub fn is_sub<D: Decls>(
    alloc: Global,
    decls: &mut D,
    scope: &Scope,
    lower: &HackType,
    upper: &HackType,
) -> Result<bool, DeclStop>
    ensures { Judges (D.state decls.old) result (D.state decls.new)
        (λ map. Derives map scope.now most_height lower.now upper.now)
        (λ symbols. PairIn symbols scope.now lower.now upper.now) }
{
    related(alloc, decls, scope, MOST_HEIGHT, lower, upper)
}

// Whether the first type is below the second by a tree of this height.
fn related<D: Decls>(
    alloc: Global,
    decls: &mut D,
    scope: &Scope,
    height: u32,
    lower: &HackType,
    upper: &HackType,
) -> Result<bool, DeclStop>
    ensures { Tells (D.state decls.old) result (D.state decls.new)
        (λ map. is_below map scope.now height lower.now upper.now)
        (λ symbols. PairIn symbols scope.now lower.now upper.now) }
{
    if height == 0 {
        return Ok(false);
    }
    let level = Level {
        alloc,
        scope,
        height: height - 1,
        below: related::<D>,
    };
    by_rules(&level, decls, lower, upper)
}

// By one of the rules.
pub(crate) fn by_rules<D: Decls, F>(
    level: &Level<'_, F>,
    decls: &mut D,
    lower: &HackType,
    upper: &HackType,
) -> Result<bool, DeclStop>
where
    F: Fn(Global, &mut D, &Scope, u32, &HackType, &HackType) -> Result<bool, DeclStop>,
    requires { Relates D.state level.now.height (F.pre level.now.below) (F.post level.now.below) }
    ensures { Tells (D.state decls.old) result (D.state decls.new)
        (λ map. by_rules map level.now.scope.now
        (is_below map level.now.scope.now level.now.height) lower.now upper.now)
        (λ symbols. PairIn symbols level.now.scope.now lower.now upper.now) }
{
    if !are_small(lower, upper) {
        return Ok(false);
    }
    if is_told(lower, upper) {
        return Ok(true);
    }
    by_lower(level, decls, lower, upper)
}

// Whether both types may stand at a node of a tree.
fn are_small(lower: &HackType, upper: &HackType) -> bool
    ensures { result ≡ (is_small lower.now && is_small upper.now) }
{
    is_small(lower) && is_small(upper)
}

fn is_small(ty: &HackType) -> bool
    ensures { result ≡ is_small ty.now }
{
    ty.is_within(MOST_NODES)
}

// Whether the first is below the second by a rule that needs neither a lookup nor a premise.
fn is_told(lower: &HackType, upper: &HackType) -> bool
    ensures { result
        ≡ (same_type lower.now upper.now || is_plain (top_of lower.now) (top_of upper.now)) }
{
    same(lower, upper) || is_plain(top_of(lower), top_of(upper))
}

fn same(lower: &HackType, upper: &HackType) -> bool
    ensures { result ≡ same_type lower.now upper.now }
{
    lower.same(upper)
}

// By the rules that need more than the formers of the two types.
fn by_lower<D: Decls, F>(
    level: &Level<'_, F>,
    decls: &mut D,
    lower: &HackType,
    upper: &HackType,
) -> Result<bool, DeclStop>
where
    F: Fn(Global, &mut D, &Scope, u32, &HackType, &HackType) -> Result<bool, DeclStop>,
    requires { Relates D.state level.now.height (F.pre level.now.below) (F.post level.now.below) }
    ensures { Tells (D.state decls.old) result (D.state decls.new)
        (λ map. by_known map level.now.scope.now (known map lower.now) (known map upper.now)
        (is_below map level.now.scope.now level.now.height) lower.now upper.now)
        (λ symbols. PairIn symbols level.now.scope.now lower.now upper.now) }
{
    let lower_is = known(level.alloc, decls, lower)?;
    by_upper(level, decls, lower_is, lower, upper)
}

// The same where this is known of the lower type.
fn by_upper<D: Decls, F>(
    level: &Level<'_, F>,
    decls: &mut D,
    lower_is: Known,
    lower: &HackType,
    upper: &HackType,
) -> Result<bool, DeclStop>
where
    F: Fn(Global, &mut D, &Scope, u32, &HackType, &HackType) -> Result<bool, DeclStop>,
    requires { Relates D.state level.now.height (F.pre level.now.below) (F.post level.now.below) }
    ensures { Tells (D.state decls.old) result (D.state decls.new)
        (λ map. by_known map level.now.scope.now lower_is (known map upper.now)
        (is_below map level.now.scope.now level.now.height) lower.now upper.now)
        (λ symbols. PairIn symbols level.now.scope.now lower.now upper.now) }
{
    let upper_is = known(level.alloc, decls, upper)?;
    by_known(level, decls, lower_is, upper_is, lower, upper)
}

// The same where this is known of both.
fn by_known<D: Decls, F>(
    level: &Level<'_, F>,
    decls: &mut D,
    lower_is: Known,
    upper_is: Known,
    lower: &HackType,
    upper: &HackType,
) -> Result<bool, DeclStop>
where
    F: Fn(Global, &mut D, &Scope, u32, &HackType, &HackType) -> Result<bool, DeclStop>,
    requires { Relates D.state level.now.height (F.pre level.now.below) (F.post level.now.below) }
    ensures { Tells (D.state decls.old) result (D.state decls.new)
        (λ map. by_known map level.now.scope.now lower_is upper_is
        (is_below map level.now.scope.now level.now.height) lower.now upper.now)
        (λ symbols. PairIn symbols level.now.scope.now lower.now upper.now) }
{
    if is_looked(lower_is, upper_is, top_of(upper)) {
        return Ok(true);
    }
    by_some_way(level, decls, lower_is, upper_is, lower, upper)
}

// By a rule that has premises.
fn by_some_way<D: Decls, F>(
    level: &Level<'_, F>,
    decls: &mut D,
    lower_is: Known,
    upper_is: Known,
    lower: &HackType,
    upper: &HackType,
) -> Result<bool, DeclStop>
where
    F: Fn(Global, &mut D, &Scope, u32, &HackType, &HackType) -> Result<bool, DeclStop>,
    requires { Relates D.state level.now.height (F.pre level.now.below) (F.post level.now.below) }
    ensures { Tells (D.state decls.old) result (D.state decls.new)
        (λ map. some_way map level.now.scope.now lower_is upper_is
        (is_below map level.now.scope.now level.now.height) lower.now upper.now)
        (λ symbols. PairIn symbols level.now.scope.now lower.now upper.now) }
{
    for way in Way::ALL {
        let goes = by_way(level, decls, way, lower_is, upper_is, lower, upper)?;
        if goes {
            return Ok(true);
        }
    }
    Ok(false)
}

// By this one.
fn by_way<D: Decls, F>(
    level: &Level<'_, F>,
    decls: &mut D,
    way: Way,
    lower_is: Known,
    upper_is: Known,
    lower: &HackType,
    upper: &HackType,
) -> Result<bool, DeclStop>
where
    F: Fn(Global, &mut D, &Scope, u32, &HackType, &HackType) -> Result<bool, DeclStop>,
    requires { Relates D.state level.now.height (F.pre level.now.below) (F.post level.now.below) }
    ensures { Tells (D.state decls.old) result (D.state decls.new)
        (λ map. goes way map level.now.scope.now lower_is upper_is
        (is_below map level.now.scope.now level.now.height) lower.now upper.now)
        (λ symbols. PairIn symbols level.now.scope.now lower.now upper.now) }
{
    match way {
        Way::IntoOption => into_option(level, decls, lower, upper),
        Way::FromOption => from_option(level, decls, lower, upper),
        Way::FromUnion => from_union(level, decls, lower, upper),
        Way::IntoUnion => into_union(level, decls, lower, upper),
        Way::Vectors => vectors(level, decls, lower, upper),
        Way::Dicts => dicts(level, decls, lower, upper),
        Way::Keysets => keysets(level, decls, lower, upper),
        Way::Shapes => shapes(level, decls, lower, upper),
        Way::FromAlias => from_alias(level, decls, lower_is, lower, upper),
        Way::IntoAlias => into_alias(level, decls, upper_is, lower, upper),
        Way::ClassTypes => class_types(level, decls, lower, upper),
        Way::FromParam => from_param(level, decls, lower, upper),
        Way::IntoParam => into_param(level, decls, lower, upper),
        Way::FromThis => from_this(level, decls, lower, upper),
        Way::FromEnum => from_enum(level, decls, lower_is, lower, upper),
        Way::IntoKeyed => into_keyed(level, decls, lower, upper),
    }
}
