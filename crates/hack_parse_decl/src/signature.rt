// Attributes, type parameters, parameters and signatures (docs/language.md, Declarations).
ghost use Rattle.std.specs.Prelude.{◌≡◌};
ghost use Rattle.hack_parse_decl.specs.Declarations as spec;
ghost use Rattle.hack_parse_expr.specs.Parsers.{Reads};
ghost use Rattle.hack_parse_expr.specs.Rows.{begins_attributes, begins_parameter, begins_type_parameter, or_empty};

use hack_lexer::Mark;
use hack_parse_expr::{
    Cursor, ParseStop, arguments_if_any, begins_type, bound_kind, class_type, closed, expression,
    variance, visibility, written_type,
};
use hack_tree::{
    Attribute, Bound, Callable, ClassType, DeclaredName, Expr, Parameter, TypeParameter, Variance,
    Visibility, WrittenType,
};
use sqlite_items::Items;
use std::alloc::Global;

/// How many rows that count as nesting may be open.
pub(crate) const DEEPEST: usize = 128;

/// A name where it is declared.
pub(crate) fn name_read(cursor: &mut Cursor<'_>) -> Result<DeclaredName, ParseStop>
    ensures { Reads (spec.name_read cursor.old) result cursor.new }
{
    let token = cursor.name()?;
    Ok(DeclaredName {
        at: token.at,
        name: token.name,
    })
}

/// A name or a keyword where it is declared.
pub(crate) fn word_read(cursor: &mut Cursor<'_>) -> Result<DeclaredName, ParseStop>
    ensures { Reads (spec.word_read cursor.old) result cursor.new }
{
    let token = cursor.word()?;
    Ok(DeclaredName {
        at: token.at,
        name: token.name,
    })
}

/// A variable where it is declared.
pub(crate) fn variable_read(cursor: &mut Cursor<'_>) -> Result<DeclaredName, ParseStop>
    ensures { Reads (spec.variable_read cursor.old) result cursor.new }
{
    let token = cursor.variable()?;
    Ok(DeclaredName {
        at: token.at,
        name: token.name,
    })
}

/// A type.
pub(crate) fn type_read(alloc: Global, cursor: &mut Cursor<'_>) -> Result<WrittenType, ParseStop>
    ensures { Reads (spec.type_read cursor.old) result cursor.new }
{
    written_type(alloc, cursor, DEEPEST)
}

/// A name with type arguments or without.
pub(crate) fn class_read(alloc: Global, cursor: &mut Cursor<'_>) -> Result<ClassType, ParseStop>
    ensures { Reads (spec.class_type cursor.old) result cursor.new }
{
    class_type(alloc, cursor, DEEPEST)
}

fn expression_read(alloc: Global, cursor: &mut Cursor<'_>) -> Result<Expr, ParseStop>
    ensures { Reads (spec.expression cursor.old) result cursor.new }
{
    expression(alloc, cursor, DEEPEST)
}

fn or_empty<T: Drop>(alloc: Global, items: Option<Items<T>>) -> Items<T>
    ensures { result ≡ or_empty items }
{
    match items {
        None => Items::new(alloc),
        Some(items) => items,
    }
}

/// Whether attributes come next.
pub fn begins_attributes(cursor: &Cursor<'_>) -> bool
    ensures { result ≡ begins_attributes cursor.now.left }
{
    cursor.sees(Mark::OpenAttributes)
}

#[tactic(auto, unfolding(crate::specs::Declarations::attribute))]
fn attribute(alloc: Global, cursor: &mut Cursor<'_>) -> Result<Attribute, ParseStop>
    ensures { Reads (spec.attribute cursor.old) result cursor.new }
{
    let name = name_read(cursor)?;
    let arguments = arguments_if_any(alloc, cursor, DEEPEST)?;
    Ok(Attribute {
        name,
        arguments: or_empty(alloc, arguments),
    })
}

#[tactic(auto, unfolding(crate::specs::Declarations::attribute_list, hack_parse_expr::specs::Parsers::list_from))]
fn attribute_list(alloc: Global, cursor: &mut Cursor<'_>) -> Result<Items<Attribute>, ParseStop>
    ensures { Reads (spec.attribute_list cursor.old) result cursor.new }
{
    let mut found = Items::new(alloc);
    found.push(attribute(alloc, cursor)?)?;
    if !cursor.eat(Mark::Comma) {
        return Ok(found);
    }
    for _turn in 0..cursor.left() {
        if !cursor.sees_name() {
            return Ok(found);
        }
        found.push(attribute(alloc, cursor)?)?;
        if !cursor.eat(Mark::Comma) {
            return Ok(found);
        }
    }
    Ok(found)
}

#[tactic(auto, unfolding(crate::specs::Declarations::attributes))]
fn attributes(alloc: Global, cursor: &mut Cursor<'_>) -> Result<Items<Attribute>, ParseStop>
    ensures { Reads (spec.attributes cursor.old) result cursor.new }
{
    cursor.token()?;
    let found = attribute_list(alloc, cursor)?;
    cursor.expect(Mark::Greater)?;
    closed(cursor, Mark::Greater, found)
}

/// The attributes that come next, none where none do.
#[tactic(auto, unfolding(crate::specs::Declarations::attributes_if_any))]
pub fn attributes_if_any(
    alloc: Global,
    cursor: &mut Cursor<'_>,
) -> Result<Items<Attribute>, ParseStop>
    ensures { Reads (spec.attributes_if_any cursor.old) result cursor.new }
{
    if begins_attributes(cursor) {
        attributes(alloc, cursor)
    } else {
        Ok(Items::new(alloc))
    }
}

#[tactic(auto, unfolding(crate::specs::Declarations::variance_if_any))]
fn variance_if_any(cursor: &mut Cursor<'_>) -> Result<Option<Variance>, ParseStop>
    ensures { Reads (spec.variance_if_any cursor.old) result cursor.new }
{
    let Some(sign) = variance(cursor.kind()) else {
        return Ok(None);
    };
    cursor.token()?;
    Ok(Some(sign))
}

#[tactic(auto, unfolding(crate::specs::Declarations::bounds, hack_parse_expr::specs::Parsers::many_of, hack_parse_expr::specs::Parsers::many_from))]
fn bounds(alloc: Global, cursor: &mut Cursor<'_>) -> Result<Items<Bound>, ParseStop>
    ensures { Reads (spec.bounds cursor.old) result cursor.new }
{
    let mut found = Items::new(alloc);
    for _turn in 0..cursor.left() {
        if !begins_bound(cursor) {
            return Ok(found);
        }
        found.push(bound(alloc, cursor)?)?;
    }
    Ok(found)
}

fn begins_bound(cursor: &Cursor<'_>) -> bool
    ensures { result ≡ spec.begins_bound cursor.now.left }
{
    bound_kind(cursor.kind()).is_some()
}

#[tactic(auto, unfolding(crate::specs::Declarations::bound))]
fn bound(alloc: Global, cursor: &mut Cursor<'_>) -> Result<Bound, ParseStop>
    ensures { Reads (spec.bound cursor.old) result cursor.new }
{
    let Some(kind) = bound_kind(cursor.kind()) else {
        return Err(cursor.refuse());
    };
    cursor.token()?;
    let written = type_read(alloc, cursor)?;
    Ok(Bound { kind, written })
}

#[tactic(auto, unfolding(crate::specs::Declarations::type_parameter))]
fn type_parameter(alloc: Global, cursor: &mut Cursor<'_>) -> Result<TypeParameter, ParseStop>
    ensures { Reads (spec.type_parameter cursor.old) result cursor.new }
{
    let variance = variance_if_any(cursor)?;
    let name = name_read(cursor)?;
    let bounds = bounds(alloc, cursor)?;
    Ok(TypeParameter {
        variance,
        name,
        bounds,
    })
}

fn begins_type_parameter(cursor: &Cursor<'_>) -> bool
    ensures { result ≡ begins_type_parameter cursor.now.left }
{
    variance(cursor.kind()).is_some() || cursor.sees_name()
}

#[tactic(auto, unfolding(crate::specs::Declarations::type_parameter_list, hack_parse_expr::specs::Parsers::list_from))]
fn type_parameter_list(
    alloc: Global,
    cursor: &mut Cursor<'_>,
) -> Result<Items<TypeParameter>, ParseStop>
    ensures { Reads (spec.type_parameter_list cursor.old) result cursor.new }
{
    let mut found = Items::new(alloc);
    found.push(type_parameter(alloc, cursor)?)?;
    if !cursor.eat(Mark::Comma) {
        return Ok(found);
    }
    for _turn in 0..cursor.left() {
        if !begins_type_parameter(cursor) {
            return Ok(found);
        }
        found.push(type_parameter(alloc, cursor)?)?;
        if !cursor.eat(Mark::Comma) {
            return Ok(found);
        }
    }
    Ok(found)
}

#[tactic(auto, unfolding(crate::specs::Declarations::type_parameters))]
fn type_parameters(
    alloc: Global,
    cursor: &mut Cursor<'_>,
) -> Result<Items<TypeParameter>, ParseStop>
    ensures { Reads (spec.type_parameters cursor.old) result cursor.new }
{
    cursor.token()?;
    let found = type_parameter_list(alloc, cursor)?;
    closed(cursor, Mark::Greater, found)
}

/// The type parameters that come next, none where none do.
#[tactic(auto, unfolding(crate::specs::Declarations::type_parameters_if_any))]
pub(crate) fn type_parameters_if_any(
    alloc: Global,
    cursor: &mut Cursor<'_>,
) -> Result<Items<TypeParameter>, ParseStop>
    ensures { Reads (spec.type_parameters_if_any cursor.old) result cursor.new }
{
    if cursor.sees(Mark::Less) {
        type_parameters(alloc, cursor)
    } else {
        Ok(Items::new(alloc))
    }
}

#[tactic(auto, unfolding(crate::specs::Declarations::visibility_if_any))]
fn visibility_if_any(cursor: &mut Cursor<'_>) -> Result<Option<Visibility>, ParseStop>
    ensures { Reads (spec.visibility_if_any cursor.old) result cursor.new }
{
    let Some(shown) = visibility(cursor.kind()) else {
        return Ok(None);
    };
    cursor.token()?;
    Ok(Some(shown))
}

/// `=` and an expression.
#[tactic(auto, unfolding(crate::specs::Declarations::default_value))]
fn default_value(alloc: Global, cursor: &mut Cursor<'_>) -> Result<Expr, ParseStop>
    ensures { Reads (spec.default_value cursor.old) result cursor.new }
{
    cursor.expect(Mark::Assign)?;
    expression_read(alloc, cursor)
}

/// `=` and an expression, where a `=` comes next.
#[tactic(auto, unfolding(crate::specs::Declarations::default_if_any))]
fn default_if_any(alloc: Global, cursor: &mut Cursor<'_>) -> Result<Option<Expr>, ParseStop>
    ensures { Reads (spec.default_if_any cursor.old) result cursor.new }
{
    if cursor.sees(Mark::Assign) {
        Ok(Some(default_value(alloc, cursor)?))
    } else {
        Ok(None)
    }
}

/// `=`, an expression and `;`.
#[tactic(auto, unfolding(crate::specs::Declarations::value_closed))]
pub(crate) fn value_closed(alloc: Global, cursor: &mut Cursor<'_>) -> Result<Expr, ParseStop>
    ensures { Reads (spec.value_closed cursor.old) result cursor.new }
{
    let value = default_value(alloc, cursor)?;
    closed(cursor, Mark::Semicolon, value)
}

/// `;`, with `=` and an expression before it where a `=` comes next.
#[tactic(auto, unfolding(crate::specs::Declarations::value_closed_if_any))]
pub(crate) fn value_closed_if_any(
    alloc: Global,
    cursor: &mut Cursor<'_>,
) -> Result<Option<Expr>, ParseStop>
    ensures { Reads (spec.value_closed_if_any cursor.old) result cursor.new }
{
    let value = default_if_any(alloc, cursor)?;
    closed(cursor, Mark::Semicolon, value)
}

#[tactic(auto, unfolding(hack_parse_expr::specs::Types::begins_type))]
fn begins_parameter(cursor: &Cursor<'_>) -> bool
    ensures { result ≡ begins_parameter cursor.now.left }
{
    begins_attributes(cursor) || visibility(cursor.kind()).is_some() || begins_type(cursor)
}

#[tactic(auto, unfolding(crate::specs::Declarations::parameter))]
fn parameter(alloc: Global, cursor: &mut Cursor<'_>) -> Result<Parameter, ParseStop>
    ensures { Reads (spec.parameter cursor.old) result cursor.new }
{
    let attributes = attributes_if_any(alloc, cursor)?;
    let visibility = visibility_if_any(cursor)?;
    let written = type_read(alloc, cursor)?;
    let name = variable_read(cursor)?;
    let default = default_if_any(alloc, cursor)?;
    Ok(Parameter {
        attributes,
        visibility,
        written,
        name,
        default,
    })
}

#[tactic(auto, unfolding(crate::specs::Declarations::parameter_list, hack_parse_expr::specs::Parsers::list_of, hack_parse_expr::specs::Parsers::list_from))]
fn parameter_list(alloc: Global, cursor: &mut Cursor<'_>) -> Result<Items<Parameter>, ParseStop>
    ensures { Reads (spec.parameter_list cursor.old) result cursor.new }
{
    let mut found = Items::new(alloc);
    for _turn in 0..cursor.left() {
        if !begins_parameter(cursor) {
            return Ok(found);
        }
        found.push(parameter(alloc, cursor)?)?;
        if !cursor.eat(Mark::Comma) {
            return Ok(found);
        }
    }
    Ok(found)
}

#[tactic(auto, unfolding(crate::specs::Declarations::parameters))]
fn parameters(alloc: Global, cursor: &mut Cursor<'_>) -> Result<Items<Parameter>, ParseStop>
    ensures { Reads (spec.parameters cursor.old) result cursor.new }
{
    cursor.expect(Mark::OpenParen)?;
    let found = parameter_list(alloc, cursor)?;
    closed(cursor, Mark::CloseParen, found)
}

#[tactic(auto, unfolding(crate::specs::Declarations::result_if_any))]
fn result_if_any(alloc: Global, cursor: &mut Cursor<'_>) -> Result<Option<WrittenType>, ParseStop>
    ensures { Reads (spec.result_if_any cursor.old) result cursor.new }
{
    if cursor.sees(Mark::Colon) {
        cursor.token()?;
        Ok(Some(type_read(alloc, cursor)?))
    } else {
        Ok(None)
    }
}

/// What a function or a method of this name says of itself behind the name.
#[tactic(auto, unfolding(crate::specs::Declarations::signature))]
pub(crate) fn signature(
    alloc: Global,
    cursor: &mut Cursor<'_>,
    name: DeclaredName,
) -> Result<Callable, ParseStop>
    ensures { Reads (spec.signature name cursor.old) result cursor.new }
{
    let type_parameters = type_parameters_if_any(alloc, cursor)?;
    let parameters = parameters(alloc, cursor)?;
    let result = result_if_any(alloc, cursor)?;
    Ok(Callable {
        name,
        type_parameters,
        parameters,
        result,
    })
}
