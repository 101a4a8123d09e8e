// What is wrong with written types.
ghost use Rattle.std.specs.Prelude.{◌≡◌, [], IfOk};
ghost use Rattle.hack_diag.specs.Messages as message;
ghost use Rattle.hack_diag.specs.Messages.{diag_of};

use crate::pieces::{around, diag, fixed, four, pair, push_number};
use hack_codes::Code;
use hack_types::{Diag, HackType, NameId, Names, NoMemory, Place, name_text, type_text};
use std::alloc::Global;

/// 3001: nothing declares a type of this name.
pub fn unbound_type(alloc: Global, names: &Names, at: Place, name: NameId) -> Result<Diag, NoMemory>
    ensures { IfOk result (λ diag. diag ≡ diag_of names.now at (message.unbound_type name)) }
{
    pair(
        alloc,
        at,
        Code::UnboundType,
        b"unbound type ",
        name_text(names, name),
    )
}

/// 3002: the type takes another number of arguments.
pub fn other_arguments(
    alloc: Global,
    names: &Names,
    at: Place,
    name: NameId,
    wanted: u32,
    found: u32,
) -> Result<Diag, NoMemory>
    ensures { IfOk result (λ diag. diag
        ≡ diag_of names.now at (message.other_arguments name wanted found)) }
{
    let mut text = Vec::from_slice(alloc, name_text(names, name))?;
    text.extend_from_slice(b" takes ")?;
    push_number(&mut text, wanted)?;
    text.extend_from_slice(b" type arguments, found ")?;
    push_number(&mut text, found)?;
    Ok(diag(at, Code::OtherArguments, text))
}

/// 3003: another type parameter before it has this name.
pub fn parameter_taken(
    alloc: Global,
    names: &Names,
    at: Place,
    name: NameId,
) -> Result<Diag, NoMemory>
    ensures { IfOk result (λ diag. diag ≡ diag_of names.now at (message.parameter_taken name)) }
{
    around(
        alloc,
        at,
        Code::ParameterTaken,
        b"type parameter ",
        name_text(names, name),
        b" is already declared",
    )
}

/// 3004: a trait stands where a type is needed.
pub fn trait_as_type(
    alloc: Global,
    names: &Names,
    at: Place,
    name: NameId,
) -> Result<Diag, NoMemory>
    ensures { IfOk result (λ diag. diag ≡ diag_of names.now at (message.trait_as_type name)) }
{
    around(
        alloc,
        at,
        Code::TraitAsType,
        b"trait ",
        name_text(names, name),
        b" is not a type",
    )
}

/// 3005: an alias comes to itself through the aliases in its body.
pub fn alias_in_itself(
    alloc: Global,
    names: &Names,
    at: Place,
    name: NameId,
) -> Result<Diag, NoMemory>
    ensures { IfOk result (λ diag. diag ≡ diag_of names.now at (message.alias_in_itself name)) }
{
    around(
        alloc,
        at,
        Code::AliasInItself,
        b"alias ",
        name_text(names, name),
        b" contains itself",
    )
}

/// 3006: a written type has more than 256 nodes.
pub fn too_big(alloc: Global, at: Place) -> Result<Diag, NoMemory>
    ensures { IfOk result (λ diag. diag ≡ diag_of [] at message.too_big) }
{
    fixed(alloc, at, Code::TooBig, b"type above 256 nodes")
}

/// 3212: a type argument is not within the bounds of its parameter.
pub fn out_of_bounds(
    alloc: Global,
    names: &Names,
    at: Place,
    argument: &HackType,
    param: &[u8],
) -> Result<Diag, NoMemory>
    ensures { IfOk result (λ diag. diag
        ≡ diag_of names.now at (message.out_of_bounds argument.now (λ names. param.now))) }
{
    let argument_text = type_text(alloc, names, argument)?;
    let diag = four(
        alloc,
        at,
        Code::OutOfBounds,
        b"type argument ",
        argument_text.as_slice(),
        b" is not within the bounds of ",
        param,
    );
    drop(argument_text);
    diag
}
