// The class of an operand.
ghost use Rattle.std.specs.Prelude.{◌≡◌};
ghost use Rattle.hack_decls.specs.Asks.{Asks, Nothing};
ghost use Rattle.hack_rules.specs.Operators.{class_of};
ghost use Rattle.hack_operators.specs.Operands.{OperandIn};
ghost use Rattle.hack_operators.specs.Seen.{class_seen};
ghost use Rattle.hack_operators.specs.inside.Asked.{asked, first_of, is_of, plain_class};

use crate::OperandClass;
use hack_decls::{DeclStop, Decls};
use hack_sub::{Scope, one_relation};
use hack_types::HackType;
use hack_walk::{Setting, is_below};
use std::alloc::Global;

// The classes that a type is asked for, in this order.
const ASKED: [OperandClass; 6] = [
    OperandClass::Int,
    OperandClass::Float,
    OperandClass::Num,
    OperandClass::Str,
    OperandClass::Bool,
    OperandClass::Arraykey,
];

/// The class of an operand of this type (docs/language.md, Typing expressions, Operators): primitives, `_` and `nothing` are told
/// without a question, and for every other type at most six are asked. `EdgesFull` says that a lookup's note was refused, and
/// `NoMemory` that memory ran out; what was noted before stays noted.
pub fn class_of<D: Decls>(
    alloc: Global,
    setting: &Setting<'_>,
    decls: &mut D,
    ty: &HackType,
) -> Result<OperandClass, DeclStop>
    ensures { Asks (D.state decls.old) result (D.state decls.new)
        (λ map class. class_seen class ≡ class_of map setting.now.scope.now ty.now)
        (λ symbols. OperandIn symbols setting.now.scope.now ty.now) Nothing }
{
    // that a primitive is of its own class alone, the trees of the rules say
    one_relation();
    match plain_class(ty) {
        Some(class) => Ok(class),
        None => asked_class(alloc, setting.scope, decls, ty),
    }
}

// The class that a type has by its former alone.
fn plain_class(ty: &HackType) -> Option<OperandClass>
    ensures { result ≡ plain_class ty.now }
{
    match ty {
        HackType::Any | HackType::Nothing => Some(OperandClass::Error),
        HackType::Int => Some(OperandClass::Int),
        HackType::Float => Some(OperandClass::Float),
        HackType::Num => Some(OperandClass::Num),
        HackType::Str => Some(OperandClass::Str),
        HackType::Bool => Some(OperandClass::Bool),
        HackType::Arraykey => Some(OperandClass::Arraykey),
        _ => None,
    }
}

// The first class that a type is of, where it is neither `_` nor `nothing`.
fn asked_class<D: Decls>(
    alloc: Global,
    scope: &Scope,
    decls: &mut D,
    ty: &HackType,
) -> Result<OperandClass, DeclStop>
    ensures { Asks (D.state decls.old) result (D.state decls.new)
        (λ map class. class_seen class ≡ first_of (is_of map scope.now ty.now) asked)
        (λ symbols. OperandIn symbols scope.now ty.now) Nothing }
{
    for class in ASKED {
        let fits = is_of(alloc, scope, decls, ty, class)?;
        if fits {
            return Ok(class);
        }
    }
    Ok(OperandClass::Other)
}

// Whether a type is below the one that a class is named by.
fn is_of<D: Decls>(
    alloc: Global,
    scope: &Scope,
    decls: &mut D,
    ty: &HackType,
    class: OperandClass,
) -> Result<bool, DeclStop>
    ensures { Asks (D.state decls.old) result (D.state decls.new)
        (λ map answer. answer ≡ is_of map scope.now ty.now class)
        (λ symbols. OperandIn symbols scope.now ty.now) Nothing }
{
    match class {
        OperandClass::Int => is_below(alloc, decls, scope, ty, &HackType::Int),
        OperandClass::Float => is_below(alloc, decls, scope, ty, &HackType::Float),
        OperandClass::Num => is_below(alloc, decls, scope, ty, &HackType::Num),
        OperandClass::Str => is_below(alloc, decls, scope, ty, &HackType::Str),
        OperandClass::Bool => is_below(alloc, decls, scope, ty, &HackType::Bool),
        OperandClass::Arraykey => is_below(alloc, decls, scope, ty, &HackType::Arraykey),
        OperandClass::Error | OperandClass::Other => Ok(false),
    }
}
