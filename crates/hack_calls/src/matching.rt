// What the type parameters of a call become.
ghost use Rattle.std.specs.Prelude.{◌≡◌, All, IfOk, map};
ghost use Rattle.hack_decls.specs.Asks.{Asks};
ghost use Rattle.hack_decls.specs.Names.{TypeIn};
ghost use Rattle.hack_infer.specs.Matching.{match_params};
ghost use Rattle.hack_infer.specs.Named.{PairsIn};
ghost use Rattle.hack_infer.specs.Solving.{solve};
ghost use Rattle.hack_sub.specs.Named.{Around};
ghost use Rattle.hack_calls.specs.Named.{GivenIn, SignatureIn};
ghost use Rattle.hack_calls.specs.Solved.{solved_of};

use crate::Argument;
use crate::reports::narrow;
use hack_decls::{DeclStop, Decls};
use hack_infer::{match_params, solve};
use hack_sub::Scope;
use hack_types::{HackType, NoMemory, Param, Signature};
use std::alloc::Global;

/// What a signature's own type parameters become with these arguments, in order: the union of what each takes from them, and `_` where
/// that is nothing (docs/language.md, Typing expressions, Calls). `EdgesFull` says that a lookup's note was refused, and `NoMemory` that
/// memory ran out; what was noted before stays noted.
pub fn solved_types<D: Decls>(
    alloc: Global,
    decls: &mut D,
    scope: &Scope,
    signature: &Signature,
    given: &[Argument],
) -> Result<Vec<HackType>, DeclStop>
    ensures { Asks (D.state decls.old) result (D.state decls.new)
        (λ map answer. answer.items ≡ solved_of map signature.now given.now)
        (λ symbols. Around symbols scope.now × SignatureIn symbols signature.now
        × GivenIn symbols given.now)
        (λ symbols answer. All (TypeIn symbols) answer.items) }
{
    if signature.type_params.is_empty() {
        return Ok(Vec::new(alloc));
    }
    matched(alloc, decls, scope, signature, given)
}

// Of a signature with type parameters.
fn matched<D: Decls>(
    alloc: Global,
    decls: &mut D,
    scope: &Scope,
    signature: &Signature,
    given: &[Argument],
) -> Result<Vec<HackType>, DeclStop>
    ensures { Asks (D.state decls.old) result (D.state decls.new)
        (λ map answer. answer.items ≡ solved_of map signature.now given.now)
        (λ symbols. Around symbols scope.now × SignatureIn symbols signature.now
        × GivenIn symbols given.now)
        (λ symbols answer. All (TypeIn symbols) answer.items) }
{
    let count = narrow(signature.type_params.len())?;
    let wanted = wanted_types(alloc, signature.params.as_slice())?;
    let given = given_types(alloc, given)?;
    solved_in(
        alloc,
        decls,
        scope,
        wanted.as_slice(),
        given.as_slice(),
        count,
    )
}

// The types of parameters.
fn wanted_types(alloc: Global, params: &[Param]) -> Result<Vec<HackType>, NoMemory>
    ensures { IfOk result (λ types. types.items ≡ map (λ param. param.ty) params.now) }
{
    let mut types = Vec::with_capacity(alloc, params.len())?;
    for param in params {
        types.push(param.ty.copy(alloc)?)?;
    }
    Ok(types)
}

// The types of arguments.
fn given_types(alloc: Global, given: &[Argument]) -> Result<Vec<HackType>, NoMemory>
    ensures { IfOk result (λ types. types.items ≡ map (λ a. a.ty) given.now) }
{
    let mut types = Vec::with_capacity(alloc, given.len())?;
    for argument in given {
        types.push(argument.ty.copy(alloc)?)?;
    }
    Ok(types)
}

// What so many parameters become.
fn solved_in<D: Decls>(
    alloc: Global,
    decls: &mut D,
    scope: &Scope,
    wanted: &[HackType],
    given: &[HackType],
    count: u32,
) -> Result<Vec<HackType>, DeclStop>
    ensures { Asks (D.state decls.old) result (D.state decls.new)
        (λ map answer. answer.items ≡ solve (match_params map wanted.now given.now count))
        (λ symbols. PairsIn symbols wanted.now given.now)
        (λ symbols answer. All (TypeIn symbols) answer.items) }
{
    let lists = match_params(alloc, decls, scope, wanted, given, count)?;
    Ok(solve(alloc, lists.as_slice())?)
}
