// What diagnostics say.
ghost use Rattle.std.specs.Prelude.{◌≡◌, IfOk};
ghost use Rattle.hack_first.specs.Functions.{function_of, named};
ghost use Rattle.check_state.specs.Faults.{fault_diag};
ghost use Rattle.check_state.specs.Findings.{unbound};
ghost use Rattle.check_state.specs.Inside.{mismatch_diag, taken_diag, type_of};

use hack_codes::Code;
use hack_diag::{
    expected, int_too_large, name_taken, no_token, too_deep, unbound_function, unexpected_end,
    unexpected_token,
};
use hack_first::{FirstUnit, Primitive};
use hack_names::UnitRef;
use hack_types::{Diag, HackType, NameId, Names, NoMemory, Place};
use std::alloc::Global;

/// The fault of a file that has no tree, by its number.
pub(crate) fn fault(alloc: Global, place: Place, number: u16) -> Result<Diag, NoMemory>
    ensures { IfOk result (λ diag. diag ≡ fault_diag place number) }
{
    if number == Code::NoToken.number() {
        no_token(alloc, place)
    } else if number == Code::UnexpectedToken.number() {
        unexpected_token(alloc, place)
    } else if number == Code::IntTooLarge.number() {
        int_too_large(alloc, place)
    } else if number == Code::TooDeep.number() {
        too_deep(alloc, place)
    } else {
        unexpected_end(alloc, place)
    }
}

/// Another function of its name counts.
pub(crate) fn taken(alloc: Global, names: &Names, unit: &UnitRef) -> Result<Diag, NoMemory>
    ensures { IfOk result (λ diag. diag ≡ taken_diag names.now unit.now) }
{
    name_taken(alloc, names, unit.head.name_at, unit.head.symbol.name)
}

/// The type of what is returned isn't the result that the function states.
pub(crate) fn mismatch(
    alloc: Global,
    names: &Names,
    unit: &FirstUnit,
    found: Primitive,
) -> Result<Diag, NoMemory>
    ensures { IfOk result (λ diag. diag ≡ mismatch_diag unit.now found) }
{
    let wanted = type_of(unit.result);
    let found = type_of(found);
    let diag = expected(alloc, names, unit.at, &wanted, &found);
    drop(wanted);
    drop(found);
    diag
}

/// No file declares the function of this name, which the unit calls.
pub(crate) fn unbound(
    alloc: Global,
    names: &Names,
    unit: &FirstUnit,
    name: NameId,
) -> Result<Diag, NoMemory>
    ensures { IfOk result (λ diag. diag
        ≡ unbound (function_of names.now unit.now) (named names.now name)) }
{
    unbound_function(alloc, names, unit.at, name)
}

// The type that a primitive is.
fn type_of(primitive: Primitive) -> HackType
    ensures { result ≡ type_of primitive }
{
    match primitive {
        Primitive::Int => HackType::Int,
        Primitive::Str => HackType::Str,
    }
}
