// Which declarations are first units.
ghost use Rattle.std.specs.Prelude.{◌≡◌, is_some};
ghost use Rattle.std.specs.List.{list_all};
ghost use Rattle.hack_first.specs.FirstTrees as trees;

use crate::{FirstUnit, Primitive, Returned};
use hack_parse_file::absolute;
use hack_tree::{
    Callable, Expr, Literal, Primitive as TypeKeyword, Stmt, Unit, UnitTree, WrittenType,
};
use hack_types::Place;

/// The first unit that a declaration is, if it is one (docs/language.md, First units). Its places are places in the file.
pub fn first_unit(unit: &Unit) -> Option<FirstUnit>
    ensures { result ≡ trees.first_in unit.now.start unit.now.tree }
{
    let UnitTree::Function {
        attributes,
        callable,
        body,
    } = &unit.tree
    else {
        return None;
    };
    if !attributes.is_empty() {
        return None;
    }
    let result = result_of(callable)?;
    let (returned, at) = returned(body.as_slice())?;
    Some(FirstUnit {
        name: callable.name.name,
        name_at: absolute(unit.start, callable.name.at),
        result,
        returned,
        at: absolute(unit.start, at),
    })
}

/// Whether these declarations are first units, all of them (docs/language.md, First units).
pub fn are_first(units: &[Unit]) -> bool
    ensures { result ≡ is_some (trees.first_units units.now) }
{
    each_is_first(units)
}

// The same, one declaration at a time.
fn each_is_first(units: &[Unit]) -> bool
    ensures { result ≡ list_all (λ u. is_some (trees.first_in u.start u.tree)) units.now }
{
    units.iter().all(|unit| first_unit(unit).is_some())
}

// The result type of a function without parameters of either sort, if it is one that a first unit may name.
fn result_of(callable: &Callable) -> Option<Primitive>
    ensures { result ≡ trees.result_of callable.now.type_parameters callable.now.parameters callable.now.result }
{
    if !callable.type_parameters.is_empty() || !callable.parameters.is_empty() {
        return None;
    }
    match &callable.result {
        Some(written) => primitive_of(written),
        None => None,
    }
}

fn primitive_of(written: &WrittenType) -> Option<Primitive>
    ensures { result ≡ trees.primitive_of_type written.now }
{
    match written {
        WrittenType::Primitive {
            primitive: TypeKeyword::Int,
            ..
        } => Some(Primitive::Int),
        WrittenType::Primitive {
            primitive: TypeKeyword::String,
            ..
        } => Some(Primitive::Str),
        _ => None,
    }
}

// What a body returns that is one return of a first unit's value, and the place of that.
fn returned(body: &[Stmt]) -> Option<(Returned, Place)>
    ensures { result ≡ trees.returned body.now }
{
    match body {
        [
            Stmt::Return {
                value: Some(value),
                ..
            },
        ] => value_of(value),
        _ => None,
    }
}

// A literal of a type that a first unit may return, or a call without arguments, and its place.
fn value_of(value: &Expr) -> Option<(Returned, Place)>
    ensures { result ≡ trees.value_of value.now }
{
    match value {
        Expr::Literal { at, literal } => literal_of(*literal).map(|found| (found, *at)),
        Expr::Call {
            at,
            name,
            arguments,
        } if arguments.is_empty() => Some((Returned::Call(*name), *at)),
        _ => None,
    }
}

fn literal_of(literal: Literal) -> Option<Returned>
    ensures { result ≡ trees.literal_of literal }
{
    match literal {
        Literal::Int => Some(Returned::Literal(Primitive::Int)),
        Literal::Text | Literal::KeyText(_) => Some(Returned::Literal(Primitive::Str)),
        _ => None,
    }
}
