// What arguments are measured against, and what a call gives.
ghost use Rattle.std.specs.Prelude.{◌≡◌, All, IfOk};
ghost use Rattle.hack_decls.specs.Asks.{Nothing};
ghost use Rattle.hack_decls.specs.Names.{TypeIn};
ghost use Rattle.hack_infer.specs.Filling.{filled_limited, filling_of};
ghost use Rattle.hack_rules.specs.Calls.{call_with, ended, expect_all, least_of};
ghost use Rattle.hack_walk.specs.Checks.{Walks, setting_of};
ghost use Rattle.hack_written.specs.NamesFilled.{FillingIn};
ghost use Rattle.hack_written.specs.Within.{ParamsIn};
ghost use Rattle.hack_calls.specs.Named.{GivenIn, SignatureIn, callee_of};
ghost use Rattle.hack_calls.specs.Solved.{call_filled, call_solved};
ghost use Rattle.hack_calls.specs.inside.Rows as row;

use crate::Argument;
use crate::matching::solved_types;
use crate::reports::{expect, expect_count};
use hack_decls::{DeclStop, Decls};
use hack_infer::{Filling, fill};
use hack_types::{HackType, NoMemory, Param, Place, Signature, SubstStop, TypeParam};
use hack_walk::{Setting, State};
use hack_written::expect_within;
use std::alloc::Global;

/// A call with typed arguments: 4004 for another number of them, each against its parameter, and the solved types within their bounds;
/// what the call gives stays, whatever these say. `around` has what stands for the class's parameters and for `this`; those of the
/// function are solved (docs/language.md, Typing expressions, Calls). `EdgesFull` says that a lookup's note was refused, and `NoMemory`
/// that memory ran out; what was noted before stays noted.
pub fn call_with<D: Decls>(
    alloc: Global,
    setting: &Setting<'_>,
    decls: &mut D,
    state: &mut State,
    at: Place,
    signature: &Signature,
    around: &Filling<'_>,
    given: &[Argument],
) -> Result<HackType, DeclStop>
    ensures { Walks (call_with at (callee_of signature.now (filling_of around.now)) given.now)
        (setting_of setting.now)
        (D.state decls.old) state.old result (D.state decls.new) state.new
        (λ symbols. SignatureIn symbols signature.now
        × FillingIn symbols (filling_of around.now) × GivenIn symbols given.now) TypeIn }
{
    let solved = solved_types(alloc, decls, setting.scope, signature, given)?;
    call_solved(
        alloc,
        setting,
        decls,
        state,
        at,
        signature,
        around,
        solved.as_slice(),
        given,
    )
}

/// The same call, once the function's own parameters are solved. The errors are as those of `call_with`.
pub fn call_solved<D: Decls>(
    alloc: Global,
    setting: &Setting<'_>,
    decls: &mut D,
    state: &mut State,
    at: Place,
    signature: &Signature,
    around: &Filling<'_>,
    solved: &[HackType],
    given: &[Argument],
) -> Result<HackType, DeclStop>
    ensures { Walks (call_solved at signature.now (filling_of around.now).class
        (filling_of around.now).this solved.now given.now)
        (setting_of setting.now)
        (D.state decls.old) state.old result (D.state decls.new) state.new
        (λ symbols. SignatureIn symbols signature.now
        × FillingIn symbols (filling_of around.now)
        × All (TypeIn symbols) solved.now × GivenIn symbols given.now) TypeIn }
{
    let filling = Filling {
        class: around.class,
        function: Some(solved),
        this: around.this,
    };
    call_filled(
        alloc, setting, decls, state, at, signature, &filling, solved, given,
    )
}

// With all that stands for parameters and for `this`.
fn call_filled<D: Decls>(
    alloc: Global,
    setting: &Setting<'_>,
    decls: &mut D,
    state: &mut State,
    at: Place,
    signature: &Signature,
    filling: &Filling<'_>,
    solved: &[HackType],
    given: &[Argument],
) -> Result<HackType, DeclStop>
    ensures { Walks
        (call_filled at signature.now (filling_of filling.now) solved.now given.now)
        (setting_of setting.now)
        (D.state decls.old) state.old result (D.state decls.new) state.new
        (λ symbols. SignatureIn symbols signature.now
        × FillingIn symbols (filling_of filling.now)
        × All (TypeIn symbols) solved.now × GivenIn symbols given.now) TypeIn }
{
    let params = signature.params.as_slice();
    expect_count(
        alloc,
        setting,
        state,
        at,
        least_of(params),
        params.len(),
        given,
    )?;
    expect_all(alloc, setting, decls, state, filling, params, given)?;
    let type_params = signature.type_params.as_slice();
    expect_bounds(
        alloc,
        setting,
        decls,
        state,
        filling,
        at,
        type_params,
        solved,
    )?;
    Ok(result_of(alloc, signature, filling)?)
}

// How many arguments are needed: up to the last parameter without a default.
fn least_of(params: &[Param]) -> usize
    ensures { result ≡ least_of 0 params.now }
{
    let mut least = 0;
    for index in 0..params.len() {
        if !params[index].optional {
            least = index + 1;
        }
    }
    least
}

// Each argument against its parameter, as far as both lists go.
fn expect_all<D: Decls>(
    alloc: Global,
    setting: &Setting<'_>,
    decls: &mut D,
    state: &mut State,
    filling: &Filling<'_>,
    params: &[Param],
    given: &[Argument],
) -> Result<(), DeclStop>
    ensures { Walks (expect_all (filling_of filling.now) params.now given.now)
        (setting_of setting.now)
        (D.state decls.old) state.old result (D.state decls.new) state.new
        (λ symbols. All (λ param. TypeIn symbols param.ty) params.now
        × FillingIn symbols (filling_of filling.now) × GivenIn symbols given.now) Nothing }
{
    let count = params.len().min(given.len());
    for index in 0..count {
        expect_one(
            alloc,
            setting,
            decls,
            state,
            filling,
            &params[index],
            &given[index],
        )?;
    }
    Ok(())
}

fn expect_one<D: Decls>(
    alloc: Global,
    setting: &Setting<'_>,
    decls: &mut D,
    state: &mut State,
    filling: &Filling<'_>,
    param: &Param,
    argument: &Argument,
) -> Result<(), DeclStop>
    ensures { Walks (row.expect_one (filling_of filling.now) param.now argument.now)
        (setting_of setting.now)
        (D.state decls.old) state.old result (D.state decls.new) state.new
        (λ symbols. TypeIn symbols param.now.ty
        × FillingIn symbols (filling_of filling.now) × TypeIn symbols argument.now.ty) Nothing }
{
    let wanted = filled_limited(alloc, &param.ty, filling)?;
    let done = expect(
        alloc,
        setting,
        decls,
        state,
        argument.at,
        &wanted,
        &argument.ty,
    );
    drop(wanted);
    done
}

/// The type with these put in, and `_` where that has more than 256 nodes (docs/language.md, Typing expressions, Calls). An error says that
/// memory ran out.
pub fn filled_limited(
    alloc: Global,
    ty: &HackType,
    filling: &Filling<'_>,
) -> Result<HackType, NoMemory>
    ensures { IfOk result (λ filled. filled ≡ filled_limited (filling_of filling.now) ty.now) }
{
    match fill(alloc, ty, filling) {
        Ok(filled) => Ok(filled),
        Err(SubstStop::TooBig) => Ok(HackType::Any),
        Err(SubstStop::NoMemory) => Err(NoMemory),
    }
}

// Each solved type within the bounds of its parameter.
fn expect_bounds<D: Decls>(
    alloc: Global,
    setting: &Setting<'_>,
    decls: &mut D,
    state: &mut State,
    filling: &Filling<'_>,
    at: Place,
    params: &[TypeParam],
    solved: &[HackType],
) -> Result<(), DeclStop>
    ensures { Walks (row.expect_bounds (filling_of filling.now) at params.now solved.now)
        (setting_of setting.now)
        (D.state decls.old) state.old result (D.state decls.new) state.new
        (λ symbols. ParamsIn symbols params.now
        × FillingIn symbols (filling_of filling.now) × All (TypeIn symbols) solved.now) Nothing }
{
    let count = params.len().min(solved.len());
    for index in 0..count {
        expect_within(
            alloc,
            setting,
            decls,
            state,
            filling,
            at,
            &params[index],
            &solved[index],
        )?;
    }
    Ok(())
}

// What the call gives: `nothing` in the place of `noreturn`.
fn result_of(
    alloc: Global,
    signature: &Signature,
    filling: &Filling<'_>,
) -> Result<HackType, NoMemory>
    ensures { IfOk result (λ ty. ty
        ≡ ended (filled_limited (filling_of filling.now) signature.now.result)) }
{
    Ok(ended(filled_limited(alloc, &signature.result, filling)?))
}

fn ended(ty: HackType) -> HackType
    ensures { result ≡ ended ty }
{
    if is_noreturn(&ty) {
        return HackType::Nothing;
    }
    ty
}

fn is_noreturn(ty: &HackType) -> bool
    ensures { result ≡ row.is_noreturn ty.now }
{
    matches!(ty, HackType::Noreturn)
}
