// The types of key and value in a `foreach`.
ghost use Rattle.std.specs.Prelude.{◌≡◌, All, IfOk, IfSome, IsTrue, Some, option_map};
ghost use Rattle.hack_types.specs.Substituted.{limited};
ghost use Rattle.hack_types.specs.declared.hack_type.HackType.{out-HackType};
ghost use Rattle.hack_types.specs.declared.hack_type.HackType.TheVariants as type;
ghost use Rattle.hack_decls.specs.Asks.{Asks};
ghost use Rattle.hack_decls.specs.Names.{TypeIn, class_symbol};
ghost use Rattle.hack_flow.specs.inside.ForeachRows.{TypesIn, head_types, one_of, two_of};
ghost use Rattle.hack_infer.specs.Seeing.{given, seen_as};
ghost use Rattle.hack_parts.specs.ExprIn.{ExprIn};
ghost use Rattle.hack_rules.specs.Expressions.{meaning_of};
ghost use Rattle.hack_rules.specs.Heads.{head_of};
ghost use Rattle.hack_rules.specs.Loops.{class_types, foreach_types, keyed_by, null_types, traversed, types_by, values_by};
ghost use Rattle.hack_sub.specs.Named.{Around};
ghost use Rattle.hack_walk.specs.Checks.{Steps, Walks, setting_of};

use hack_calls::head_of;
use hack_decls::{DeclStop, Decls, copy_types};
use hack_diag::{may_be_null, not_iterated};
use hack_expr::check;
use hack_infer::ancestor_given;
use hack_parts::place_of;
use hack_sub::Scope;
use hack_tree::Expr;
use hack_types::{HackType, NameId, NoMemory, Place, limited};
use hack_walk::{Setting, State};
use sqlite_items::Items;
use std::alloc::Global;

// The id of the name `Traversable`.
const TRAVERSABLE: u32 = 0;

// The id of the name `KeyedTraversable`.
const KEYED_TRAVERSABLE: u32 = 1;

// The types of key and value of this subject, which is typed here.
pub(crate) fn foreach_types<D: Decls>(
    alloc: Global,
    setting: &Setting<'_>,
    decls: &mut D,
    state: &mut State,
    subject: &Expr,
) -> Result<(HackType, HackType), DeclStop>
    ensures { Walks (foreach_types (meaning_of subject.now)) (setting_of setting.now)
        (D.state decls.old) state.old result (D.state decls.new) state.new
        (λ symbols. ExprIn setting.now.scope.now symbols subject.now) TypesIn }
{
    let ty = check(alloc, setting, decls, state, subject)?;
    head_types(alloc, setting, decls, state, place_of(subject), ty)
}

// The types of key and value of a subject of this type.
fn head_types<D: Decls>(
    alloc: Global,
    setting: &Setting<'_>,
    decls: &mut D,
    state: &mut State,
    at: Place,
    ty: HackType,
) -> Result<(HackType, HackType), DeclStop>
    ensures { Walks (head_types at ty) (setting_of setting.now)
        (D.state decls.old) state.old result (D.state decls.new) state.new
        (λ symbols. TypeIn symbols ty) TypesIn }
{
    let head = own_head(alloc, decls, setting.scope, ty)?;
    let types = types_by(alloc, setting, decls, state, at, &head);
    drop(head);
    types
}

// The head of a type that is taken over.
fn own_head<D: Decls>(
    alloc: Global,
    decls: &mut D,
    scope: &Scope,
    ty: HackType,
) -> Result<HackType, DeclStop>
    ensures { Asks (D.state decls.old) result (D.state decls.new)
        (λ map answer. answer ≡ head_of map scope.now ty)
        (λ symbols. Around symbols scope.now × TypeIn symbols ty) TypeIn }
{
    match head_of(alloc, decls, scope, &ty)? {
        Some(head) => Ok(head),
        None => Ok(ty),
    }
}

// By the head.
fn types_by<D: Decls>(
    alloc: Global,
    setting: &Setting<'_>,
    decls: &mut D,
    state: &mut State,
    at: Place,
    head: &HackType,
) -> Result<(HackType, HackType), DeclStop>
    ensures { Walks (types_by at head.now (out-HackType head.now)) (setting_of setting.now)
        (D.state decls.old) state.old result (D.state decls.new) state.new
        (λ symbols. TypeIn symbols head.now) TypesIn }
{
    match head {
        HackType::Any => Ok((HackType::Any, HackType::Any)),
        HackType::Vector(item) => Ok(both_copied(alloc, &HackType::Int, item.get())?),
        HackType::Dict(key, value) => Ok(both_copied(alloc, key.get(), value.get())?),
        HackType::Keyset(item) => {
            let item = item.get();
            Ok(both_copied(alloc, item, item)?)
        }
        HackType::Option(_) => Ok(null_types(alloc, setting, state, at)?),
        HackType::Null => Ok(null_types(alloc, setting, state, at)?),
        _ => class_types(alloc, setting, decls, state, at, head),
    }
}

fn both_copied(
    alloc: Global,
    key: &HackType,
    value: &HackType,
) -> Result<(HackType, HackType), NoMemory>
    ensures { IfOk result (λ types. types ≡ (key.now, value.now)) }
{
    let key = key.copy(alloc)?;
    let value = value.copy(alloc)?;
    Ok((key, value))
}

// 4010: it may be null.
fn null_types(
    alloc: Global,
    _setting: &Setting<'_>,
    state: &mut State,
    at: Place,
) -> Result<(HackType, HackType), NoMemory>
    ensures { Steps (null_types at) (setting_of _setting.now) state.old result state.new
        (λ symbols. Unit {0}) TypesIn }
{
    let diag = may_be_null(alloc, at)?;
    state.report(diag)?;
    Ok((HackType::Any, HackType::Any))
}

// A class below `KeyedTraversable` gives its two, one below `Traversable` `mixed` and its one.
fn class_types<D: Decls>(
    alloc: Global,
    setting: &Setting<'_>,
    decls: &mut D,
    state: &mut State,
    at: Place,
    head: &HackType,
) -> Result<(HackType, HackType), DeclStop>
    ensures { Walks (class_types at head.now) (setting_of setting.now)
        (D.state decls.old) state.old result (D.state decls.new) state.new
        (λ symbols. TypeIn symbols head.now) TypesIn }
{
    let given = seen_as(alloc, decls, NameId::new(KEYED_TRAVERSABLE), head)?;
    let types = keyed_by(alloc, setting, decls, state, at, head, &given);
    drop(given);
    types
}

// What `KeyedTraversable` gives.
fn keyed_by<D: Decls>(
    alloc: Global,
    setting: &Setting<'_>,
    decls: &mut D,
    state: &mut State,
    at: Place,
    head: &HackType,
    given: &Option<Items<HackType>>,
) -> Result<(HackType, HackType), DeclStop>
    ensures { Walks (keyed_by at head.now given.now) (setting_of setting.now)
        (D.state decls.old) state.old result (D.state decls.new) state.new
        (λ symbols. TypeIn symbols head.now × IfSome given.now (All (TypeIn symbols))) TypesIn }
{
    match given_two(given) {
        Some((key, value)) => Ok(both_limited(alloc, key, value)?),
        None => traversed(alloc, setting, decls, state, at, head),
    }
}

fn both_limited(
    alloc: Global,
    key: &HackType,
    value: &HackType,
) -> Result<(HackType, HackType), NoMemory>
    ensures { IfOk result (λ types. types ≡ (limited key.now, limited value.now)) }
{
    let key = limited(key.copy(alloc)?);
    let value = limited(value.copy(alloc)?);
    Ok((key, value))
}

// A class by what it is as a `Traversable`.
fn traversed<D: Decls>(
    alloc: Global,
    setting: &Setting<'_>,
    decls: &mut D,
    state: &mut State,
    at: Place,
    head: &HackType,
) -> Result<(HackType, HackType), DeclStop>
    ensures { Walks (traversed at head.now) (setting_of setting.now)
        (D.state decls.old) state.old result (D.state decls.new) state.new
        (λ symbols. TypeIn symbols head.now) TypesIn }
{
    let given = seen_as(alloc, decls, NameId::new(TRAVERSABLE), head)?;
    let types = values_by(alloc, setting, decls, state, at, head, &given);
    drop(given);
    types
}

// What `Traversable` gives, else 4021.
fn values_by<D: Decls>(
    alloc: Global,
    setting: &Setting<'_>,
    _decls: &mut D,
    state: &mut State,
    at: Place,
    head: &HackType,
    given: &Option<Items<HackType>>,
) -> Result<(HackType, HackType), DeclStop>
    ensures { Walks (values_by at head.now given.now) (setting_of setting.now)
        (D.state _decls.old) state.old result (D.state _decls.new) state.new
        (λ symbols. IfSome given.now (All (TypeIn symbols))) TypesIn }
{
    match given_one(given) {
        Some(value) => Ok(mixed_and(alloc, value)?),
        None => {
            let diag = not_iterated(alloc, setting.names, at, head)?;
            state.report(diag)?;
            Ok((HackType::Any, HackType::Any))
        }
    }
}

fn mixed_and(alloc: Global, value: &HackType) -> Result<(HackType, HackType), NoMemory>
    ensures { IfOk result (λ types. types ≡ (type.Mixed, limited value.now)) }
{
    let value = limited(value.copy(alloc)?);
    Ok((HackType::Mixed, value))
}

fn given_two(given: &Option<Items<HackType>>) -> Option<(&HackType, &HackType)>
    ensures { option_map (λ pair. (pair.0.now, pair.1.now)) result ≡ two_of given.now }
{
    match given {
        Some(arguments) => two_in(arguments.as_slice()),
        None => None,
    }
}

fn two_in(arguments: &[HackType]) -> Option<(&HackType, &HackType)>
    ensures { option_map (λ pair. (pair.0.now, pair.1.now)) result ≡ two_of (Some arguments.now) }
{
    match arguments {
        [key, value] => Some((key, value)),
        _ => None,
    }
}

fn given_one(given: &Option<Items<HackType>>) -> Option<&HackType>
    ensures { option_map (λ one. one.now) result ≡ one_of given.now }
{
    match given {
        Some(arguments) => one_in(arguments.as_slice()),
        None => None,
    }
}

fn one_in(arguments: &[HackType]) -> Option<&HackType>
    ensures { option_map (λ one. one.now) result ≡ one_of (Some arguments.now) }
{
    match arguments {
        [value] => Some(value),
        _ => None,
    }
}

// The arguments that a class type gives the class of this name, where it is that or stands below it.
fn seen_as<D: Decls>(
    alloc: Global,
    decls: &mut D,
    name: NameId,
    head: &HackType,
) -> Result<Option<Items<HackType>>, DeclStop>
    ensures { Asks (D.state decls.old) result (D.state decls.new)
        (λ map answer. answer ≡ seen_as map name head.now)
        (λ symbols. TypeIn symbols head.now)
        (λ symbols answer. IfSome answer (All (TypeIn symbols))) }
{
    match head {
        HackType::Class(class, arguments) => given(alloc, decls, *class, arguments, name),
        _ => Ok(None),
    }
}

// The same of a class with these arguments.
fn given<D: Decls>(
    alloc: Global,
    decls: &mut D,
    class: NameId,
    arguments: &Items<HackType>,
    name: NameId,
) -> Result<Option<Items<HackType>>, DeclStop>
    ensures { Asks (D.state decls.old) result (D.state decls.new)
        (λ map answer. answer ≡ given map class arguments.now name)
        (λ symbols. IsTrue (symbols (class_symbol class)) × All (TypeIn symbols) arguments.now)
        (λ symbols answer. IfSome answer (All (TypeIn symbols))) }
{
    if class == name {
        return Ok(Some(copy_types(alloc, arguments)?));
    }
    ancestor_given(alloc, decls, class, arguments.as_slice(), name)
}
