// What is wrong in bodies.
ghost use Rattle.std.specs.Prelude.{◌≡◌, ◌++◌, [], IfOk, OnOk};
ghost use Rattle.hack_types.specs.TypeText.{type_text};
ghost use Rattle.hack_diag.specs.Messages as message;
ghost use Rattle.hack_diag.specs.Messages.{diag_of};

use crate::pieces::{around, diag, fixed, four, pair, push_number};
use hack_codes::Code;
use hack_types::{Diag, HackType, NameId, Names, NoMemory, Place, name_text, type_text};
use std::alloc::Global;

/// 4001: a type is expected where another was found.
pub fn expected(
    alloc: Global,
    names: &Names,
    at: Place,
    wanted: &HackType,
    found: &HackType,
) -> Result<Diag, NoMemory>
    ensures { IfOk result (λ diag. diag
        ≡ diag_of names.now at (message.expected wanted.now found.now)) }
{
    let mut text = Vec::from_slice(alloc, b"expected ")?;
    push_two(alloc, names, &mut text, wanted, b", found ", found)?;
    Ok(diag(at, Code::Expected, text))
}

/// 4002: nothing declares a function of this name.
pub fn unbound_function(
    alloc: Global,
    names: &Names,
    at: Place,
    name: NameId,
) -> Result<Diag, NoMemory>
    ensures { IfOk result (λ diag. diag ≡ diag_of names.now at (message.unbound_function name)) }
{
    pair(
        alloc,
        at,
        Code::UnboundFunction,
        b"unbound function ",
        name_text(names, name),
    )
}

/// 4003: nothing declares a constant of this name.
pub fn unbound_constant(
    alloc: Global,
    names: &Names,
    at: Place,
    name: NameId,
) -> Result<Diag, NoMemory>
    ensures { IfOk result (λ diag. diag ≡ diag_of names.now at (message.unbound_constant name)) }
{
    pair(
        alloc,
        at,
        Code::UnboundConstant,
        b"unbound constant ",
        name_text(names, name),
    )
}

/// 4004: a call has too few arguments, or too many.
pub fn other_count(
    alloc: Global,
    at: Place,
    least: u32,
    most: u32,
    found: u32,
) -> Result<Diag, NoMemory>
    ensures { IfOk result (λ diag. diag ≡ diag_of [] at (message.other_count least most found)) }
{
    let mut text = Vec::from_slice(alloc, b"expected ")?;
    push_number(&mut text, least)?;
    text.extend_from_slice(b" to ")?;
    push_number(&mut text, most)?;
    text.extend_from_slice(b" arguments, found ")?;
    push_number(&mut text, found)?;
    Ok(diag(at, Code::OtherCount, text))
}

/// 4005: the variable is not defined on every path to here.
pub fn undefined_variable(
    alloc: Global,
    names: &Names,
    at: Place,
    name: NameId,
) -> Result<Diag, NoMemory>
    ensures { IfOk result (λ diag. diag ≡ diag_of names.now at (message.undefined_variable name)) }
{
    around(
        alloc,
        at,
        Code::UndefinedVariable,
        b"variable $",
        name_text(names, name),
        b" is not defined here",
    )
}

/// 4006: the type has no method of this name.
pub fn no_method(
    alloc: Global,
    names: &Names,
    at: Place,
    name: NameId,
    ty: &HackType,
) -> Result<Diag, NoMemory>
    ensures { IfOk result (λ diag. diag ≡ diag_of names.now at (message.no_method name ty.now)) }
{
    let ty_text = type_text(alloc, names, ty)?;
    let diag = four(
        alloc,
        at,
        Code::NoMethod,
        b"type ",
        ty_text.as_slice(),
        b" has no method ",
        name_text(names, name),
    );
    drop(ty_text);
    diag
}

/// 4007: the type has no property of this name.
pub fn no_property(
    alloc: Global,
    names: &Names,
    at: Place,
    name: NameId,
    ty: &HackType,
) -> Result<Diag, NoMemory>
    ensures { IfOk result (λ diag. diag ≡ diag_of names.now at (message.no_property name ty.now)) }
{
    let ty_text = type_text(alloc, names, ty)?;
    let diag = four(
        alloc,
        at,
        Code::NoProperty,
        b"type ",
        ty_text.as_slice(),
        b" has no property ",
        name_text(names, name),
    );
    drop(ty_text);
    diag
}

/// 4008: the class has no constant of this name.
pub fn no_constant(
    alloc: Global,
    names: &Names,
    at: Place,
    class: NameId,
    name: NameId,
) -> Result<Diag, NoMemory>
    ensures { IfOk result (λ diag. diag ≡ diag_of names.now at (message.no_constant class name)) }
{
    around(
        alloc,
        at,
        Code::NoConstant,
        name_text(names, class),
        b" has no constant ",
        name_text(names, name),
    )
}

/// 4009: the member is private or protected, and this is not the place for it.
pub fn not_visible(
    alloc: Global,
    names: &Names,
    at: Place,
    name: NameId,
    origin: NameId,
) -> Result<Diag, NoMemory>
    ensures { IfOk result (λ diag. diag ≡ diag_of names.now at (message.not_visible name origin)) }
{
    four(
        alloc,
        at,
        Code::NotVisible,
        name_text(names, name),
        b" of ",
        name_text(names, origin),
        b" is not visible here",
    )
}

/// 4010: a value is used that may be null.
pub fn may_be_null(alloc: Global, at: Place) -> Result<Diag, NoMemory>
    ensures { IfOk result (λ diag. diag ≡ diag_of [] at message.may_be_null) }
{
    fixed(alloc, at, Code::MayBeNull, b"value may be null")
}

/// 4011: there can be no object of exactly this class.
pub fn not_instantiable(
    alloc: Global,
    names: &Names,
    at: Place,
    name: NameId,
) -> Result<Diag, NoMemory>
    ensures { IfOk result (λ diag. diag ≡ diag_of names.now at (message.not_instantiable name)) }
{
    pair(
        alloc,
        at,
        Code::NotInstantiable,
        name_text(names, name),
        b" cannot be instantiated",
    )
}

/// 4012: an operator does not take these two operands.
pub fn operator_refuses(
    alloc: Global,
    names: &Names,
    at: Place,
    operator: &[u8],
    left: &HackType,
    right: &HackType,
) -> Result<Diag, NoMemory>
    ensures { IfOk result (λ diag. diag
        ≡ diag_of names.now at (message.operator_refuses operator.now left.now right.now)) }
{
    let mut text = Vec::from_slice(alloc, b"operator ")?;
    text.extend_from_slice(operator)?;
    text.extend_from_slice(b" does not take ")?;
    push_two(alloc, names, &mut text, left, b" and ", right)?;
    Ok(diag(at, Code::OperatorRefuses, text))
}

/// 4012: a sign does not take this operand.
pub fn sign_refuses(
    alloc: Global,
    names: &Names,
    at: Place,
    operator: &[u8],
    operand: &HackType,
) -> Result<Diag, NoMemory>
    ensures { IfOk result (λ diag. diag
        ≡ diag_of names.now at (message.sign_refuses operator.now operand.now)) }
{
    let operand_text = type_text(alloc, names, operand)?;
    let diag = four(
        alloc,
        at,
        Code::OperatorRefuses,
        b"operator ",
        operator,
        b" does not take ",
        operand_text.as_slice(),
    );
    drop(operand_text);
    diag
}

/// 4013: a value of this type has no elements to be had so.
pub fn not_indexed(alloc: Global, names: &Names, at: Place, ty: &HackType) -> Result<Diag, NoMemory>
    ensures { IfOk result (λ diag. diag ≡ diag_of names.now at (message.not_indexed ty.now)) }
{
    let ty_text = type_text(alloc, names, ty)?;
    let diag = around(
        alloc,
        at,
        Code::NotIndexed,
        b"type ",
        ty_text.as_slice(),
        b" cannot be indexed so",
    );
    drop(ty_text);
    diag
}

/// 4014: the shape has no such field.
pub fn no_field(alloc: Global, names: &Names, at: Place, key: NameId) -> Result<Diag, NoMemory>
    ensures { IfOk result (λ diag. diag ≡ diag_of names.now at (message.no_field key)) }
{
    around(
        alloc,
        at,
        Code::NoField,
        b"shape has no field '",
        name_text(names, key),
        b"'",
    )
}

/// 4015: the shape may be without this field.
pub fn field_may_miss(
    alloc: Global,
    names: &Names,
    at: Place,
    key: NameId,
) -> Result<Diag, NoMemory>
    ensures { IfOk result (λ diag. diag ≡ diag_of names.now at (message.field_may_miss key)) }
{
    around(
        alloc,
        at,
        Code::FieldMayMiss,
        b"field '",
        name_text(names, key),
        b"' may be missing",
    )
}

/// 4016: nothing can be assigned to the expression.
pub fn not_assignable(alloc: Global, at: Place) -> Result<Diag, NoMemory>
    ensures { IfOk result (λ diag. diag ≡ diag_of [] at message.not_assignable) }
{
    fixed(
        alloc,
        at,
        Code::NotAssignable,
        b"this expression cannot be assigned to",
    )
}

/// 4017: the end of a body is reached that has to return.
pub fn no_return(alloc: Global, at: Place) -> Result<Diag, NoMemory>
    ensures { IfOk result (λ diag. diag ≡ diag_of [] at message.no_return) }
{
    fixed(alloc, at, Code::NoReturn, b"a path ends without a return")
}

/// 4018: a static member is used as one of an object, or the other way round.
pub fn against_static(
    alloc: Global,
    names: &Names,
    at: Place,
    name: NameId,
) -> Result<Diag, NoMemory>
    ensures { IfOk result (λ diag. diag ≡ diag_of names.now at (message.against_static name)) }
{
    pair(
        alloc,
        at,
        Code::AgainstStatic,
        name_text(names, name),
        b" is used against its static modifier",
    )
}

/// 4019: a word that ends a turn or a loop stands in none.
pub fn outside_loop(alloc: Global, at: Place, word: &[u8]) -> Result<Diag, NoMemory>
    ensures { IfOk result (λ diag. diag ≡ diag_of [] at (message.outside_loop word.now)) }
{
    pair(alloc, at, Code::OutsideLoop, word, b" outside a loop")
}

/// 4020: a word stands where it means nothing.
pub fn not_allowed(alloc: Global, at: Place, word: &[u8]) -> Result<Diag, NoMemory>
    ensures { IfOk result (λ diag. diag ≡ diag_of [] at (message.not_allowed word.now)) }
{
    pair(alloc, at, Code::NotAllowed, word, b" is not allowed here")
}

/// 4021: a loop cannot go over a value of this type.
pub fn not_iterated(
    alloc: Global,
    names: &Names,
    at: Place,
    ty: &HackType,
) -> Result<Diag, NoMemory>
    ensures { IfOk result (λ diag. diag ≡ diag_of names.now at (message.not_iterated ty.now)) }
{
    let ty_text = type_text(alloc, names, ty)?;
    let diag = around(
        alloc,
        at,
        Code::NotIterated,
        b"type ",
        ty_text.as_slice(),
        b" cannot be iterated",
    );
    drop(ty_text);
    diag
}

/// 4022: a loop stands in more than eight.
pub fn too_many_loops(alloc: Global, at: Place) -> Result<Diag, NoMemory>
    ensures { IfOk result (λ diag. diag ≡ diag_of [] at message.too_many_loops) }
{
    fixed(alloc, at, Code::TooManyLoops, b"loops nested above 8")
}

/// 4023: a shape has this field twice.
pub fn field_twice(alloc: Global, names: &Names, at: Place, key: NameId) -> Result<Diag, NoMemory>
    ensures { IfOk result (λ diag. diag ≡ diag_of names.now at (message.field_twice key)) }
{
    around(
        alloc,
        at,
        Code::FieldTwice,
        b"field '",
        name_text(names, key),
        b"' is given twice",
    )
}

// Adds the texts of two types, with these bytes between them.
fn push_two(
    alloc: Global,
    names: &Names,
    text: &mut Vec<u8>,
    first: &HackType,
    between: &[u8],
    second: &HackType,
) -> Result<(), NoMemory>
    ensures { OnOk result (text.new.items ≡ text.old.items
        ++ (type_text names.now first.now ++ between.now ++ type_text names.now second.now)) }
{
    push_type(alloc, names, text, first)?;
    text.extend_from_slice(between)?;
    push_type(alloc, names, text, second)
}

// Adds the text of a type.
fn push_type(
    alloc: Global,
    names: &Names,
    text: &mut Vec<u8>,
    ty: &HackType,
) -> Result<(), NoMemory>
    ensures { OnOk result (text.new.items ≡ text.old.items ++ type_text names.now ty.now) }
{
    let written = type_text(alloc, names, ty)?;
    let pushed = text.extend_from_slice(written.as_slice());
    drop(written);
    Ok(pushed?)
}
