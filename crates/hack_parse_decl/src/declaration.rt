// Declarations (docs/language.md, Declarations).
ghost use Rattle.std.specs.Prelude.{◌≡◌};
ghost use Rattle.hack_parse_decl.specs.Declarations as spec;
ghost use Rattle.hack_parse_expr.specs.Parsers.{Reads};

use crate::member::{body_read, interface_members, members, types_behind};
use crate::signature::{
    class_read, name_read, signature, type_parameters_if_any, type_read, value_closed,
};
use hack_lexer::{Keyword, Mark};
use hack_parse_expr::{Cursor, DeclarationRow, ParseStop, class_modifier, closed, declaration_row};
use hack_tree::{
    Attribute, ClassModifier, ClassType, DeclaredName, EnumCase, Expr, TypeParameter, UnitTree,
    WrittenType,
};
use sqlite_items::Items;
use std::alloc::Global;

// What a class says between `class` and its members.
struct ClassHead {
    name: DeclaredName,
    type_parameters: Items<TypeParameter>,
    extends: Option<ClassType>,
    implements: Items<ClassType>,
}

// What an interface or a trait says before its members: its name, its type parameters and the types above it.
struct HeadParts {
    name: DeclaredName,
    type_parameters: Items<TypeParameter>,
    above: Items<ClassType>,
}

// What an enum says before its cases.
struct EnumHead {
    name: DeclaredName,
    base: WrittenType,
    bound: Option<WrittenType>,
}

// What an alias says.
struct AliasParts {
    name: DeclaredName,
    type_parameters: Items<TypeParameter>,
    written: WrittenType,
}

// What a constant says.
struct ConstantParts {
    written: WrittenType,
    name: DeclaredName,
    value: Expr,
}

fn begins_class_modifier(cursor: &Cursor<'_>) -> bool
    ensures { result ≡ spec.begins_class_modifier cursor.now.left }
{
    class_modifier(cursor.kind()).is_some()
}

#[tactic(auto, unfolding(crate::specs::Declarations::class_modifier_read))]
fn class_modifier_read(cursor: &mut Cursor<'_>) -> Result<ClassModifier, ParseStop>
    ensures { Reads (spec.class_modifier_read cursor.old) result cursor.new }
{
    let Some(word) = class_modifier(cursor.kind()) else {
        return Err(cursor.refuse());
    };
    cursor.token()?;
    Ok(word)
}

#[tactic(auto, unfolding(crate::specs::Declarations::class_modifiers, hack_parse_expr::specs::Parsers::many_of, hack_parse_expr::specs::Parsers::many_from))]
fn class_modifiers(
    alloc: Global,
    cursor: &mut Cursor<'_>,
) -> Result<Items<ClassModifier>, ParseStop>
    ensures { Reads (spec.class_modifiers cursor.old) result cursor.new }
{
    let mut found = Items::new(alloc);
    for _turn in 0..cursor.left() {
        if !begins_class_modifier(cursor) {
            return Ok(found);
        }
        found.push(class_modifier_read(cursor)?)?;
    }
    Ok(found)
}

#[tactic(auto, unfolding(crate::specs::Declarations::extends_if_any))]
fn extends_if_any(alloc: Global, cursor: &mut Cursor<'_>) -> Result<Option<ClassType>, ParseStop>
    ensures { Reads (spec.extends_if_any cursor.old) result cursor.new }
{
    if cursor.sees_keyword(Keyword::Extends) {
        cursor.token()?;
        Ok(Some(class_read(alloc, cursor)?))
    } else {
        Ok(None)
    }
}

#[tactic(auto, unfolding(crate::specs::Declarations::bound_if_any))]
fn bound_if_any(alloc: Global, cursor: &mut Cursor<'_>) -> Result<Option<WrittenType>, ParseStop>
    ensures { Reads (spec.bound_if_any cursor.old) result cursor.new }
{
    if cursor.sees_keyword(Keyword::As) {
        cursor.token()?;
        Ok(Some(type_read(alloc, cursor)?))
    } else {
        Ok(None)
    }
}

#[tactic(auto, unfolding(crate::specs::Declarations::enum_case))]
fn enum_case(alloc: Global, cursor: &mut Cursor<'_>) -> Result<EnumCase, ParseStop>
    ensures { Reads (spec.enum_case cursor.old) result cursor.new }
{
    let name = name_read(cursor)?;
    let value = value_closed(alloc, cursor)?;
    Ok(EnumCase { name, value })
}

#[tactic(auto, unfolding(crate::specs::Declarations::enum_cases, hack_parse_expr::specs::Parsers::many_of, hack_parse_expr::specs::Parsers::many_from))]
fn enum_cases(alloc: Global, cursor: &mut Cursor<'_>) -> Result<Items<EnumCase>, ParseStop>
    ensures { Reads (spec.enum_cases cursor.old) result cursor.new }
{
    let mut found = Items::new(alloc);
    for _turn in 0..cursor.left() {
        if !cursor.sees_name() {
            return Ok(found);
        }
        found.push(enum_case(alloc, cursor)?)?;
    }
    Ok(found)
}

#[tactic(auto, unfolding(crate::specs::Declarations::function))]
fn function(
    alloc: Global,
    cursor: &mut Cursor<'_>,
    attributes: Items<Attribute>,
) -> Result<UnitTree, ParseStop>
    ensures { Reads (spec.function attributes cursor.old) result cursor.new }
{
    cursor.token()?;
    let name = name_read(cursor)?;
    let callable = signature(alloc, cursor, name)?;
    let body = body_read(alloc, cursor)?;
    Ok(UnitTree::Function {
        attributes,
        callable,
        body,
    })
}

// The modifiers of a class, with `class` behind them.
#[tactic(auto, unfolding(crate::specs::Declarations::class_words))]
fn class_words(alloc: Global, cursor: &mut Cursor<'_>) -> Result<Items<ClassModifier>, ParseStop>
    ensures { Reads (spec.class_words cursor.old) result cursor.new }
{
    let words = class_modifiers(alloc, cursor)?;
    cursor.expect_keyword(Keyword::Class)?;
    Ok(words)
}

#[tactic(auto, unfolding(crate::specs::Declarations::class_head))]
fn class_head(alloc: Global, cursor: &mut Cursor<'_>) -> Result<ClassHead, ParseStop>
    ensures { Reads (spec.class_head cursor.old) result cursor.new }
{
    let name = name_read(cursor)?;
    let type_parameters = type_parameters_if_any(alloc, cursor)?;
    let extends = extends_if_any(alloc, cursor)?;
    let implements = types_behind(alloc, cursor, Keyword::Implements)?;
    Ok(ClassHead {
        name,
        type_parameters,
        extends,
        implements,
    })
}

#[tactic(auto, unfolding(crate::specs::Declarations::class))]
fn class(
    alloc: Global,
    cursor: &mut Cursor<'_>,
    attributes: Items<Attribute>,
) -> Result<UnitTree, ParseStop>
    ensures { Reads (spec.class attributes cursor.old) result cursor.new }
{
    let modifiers = class_words(alloc, cursor)?;
    let ClassHead {
        name,
        type_parameters,
        extends,
        implements,
    } = class_head(alloc, cursor)?;
    let members = members(alloc, cursor)?;
    Ok(UnitTree::Class {
        attributes,
        modifiers,
        name,
        type_parameters,
        extends,
        implements,
        members,
    })
}

// The head of an interface or a trait, whose types above it stand behind this keyword.
#[tactic(auto, unfolding(crate::specs::Declarations::head))]
fn head(alloc: Global, cursor: &mut Cursor<'_>, keyword: Keyword) -> Result<HeadParts, ParseStop>
    ensures { Reads (spec.head keyword cursor.old) result cursor.new }
{
    cursor.token()?;
    let name = name_read(cursor)?;
    let type_parameters = type_parameters_if_any(alloc, cursor)?;
    let above = types_behind(alloc, cursor, keyword)?;
    Ok(HeadParts {
        name,
        type_parameters,
        above,
    })
}

#[tactic(auto, unfolding(crate::specs::Declarations::interface))]
fn interface(
    alloc: Global,
    cursor: &mut Cursor<'_>,
    attributes: Items<Attribute>,
) -> Result<UnitTree, ParseStop>
    ensures { Reads (spec.interface attributes cursor.old) result cursor.new }
{
    let HeadParts {
        name,
        type_parameters,
        above: extends,
    } = head(alloc, cursor, Keyword::Extends)?;
    let members = interface_members(alloc, cursor)?;
    Ok(UnitTree::Interface {
        attributes,
        name,
        type_parameters,
        extends,
        members,
    })
}

#[tactic(auto, unfolding(crate::specs::Declarations::trait_unit))]
fn trait_unit(
    alloc: Global,
    cursor: &mut Cursor<'_>,
    attributes: Items<Attribute>,
) -> Result<UnitTree, ParseStop>
    ensures { Reads (spec.trait_unit attributes cursor.old) result cursor.new }
{
    let HeadParts {
        name,
        type_parameters,
        above: implements,
    } = head(alloc, cursor, Keyword::Implements)?;
    let members = members(alloc, cursor)?;
    Ok(UnitTree::Trait {
        attributes,
        name,
        type_parameters,
        implements,
        members,
    })
}

#[tactic(auto, unfolding(crate::specs::Declarations::enum_head))]
fn enum_head(alloc: Global, cursor: &mut Cursor<'_>) -> Result<EnumHead, ParseStop>
    ensures { Reads (spec.enum_head cursor.old) result cursor.new }
{
    cursor.token()?;
    let name = name_read(cursor)?;
    cursor.expect(Mark::Colon)?;
    let base = type_read(alloc, cursor)?;
    let bound = bound_if_any(alloc, cursor)?;
    Ok(EnumHead { name, base, bound })
}

// Cases in braces.
#[tactic(auto, unfolding(crate::specs::Declarations::enum_block))]
fn enum_block(alloc: Global, cursor: &mut Cursor<'_>) -> Result<Items<EnumCase>, ParseStop>
    ensures { Reads (spec.enum_block cursor.old) result cursor.new }
{
    cursor.expect(Mark::OpenBrace)?;
    let found = enum_cases(alloc, cursor)?;
    closed(cursor, Mark::CloseBrace, found)
}

#[tactic(auto, unfolding(crate::specs::Declarations::enum_unit))]
fn enum_unit(
    alloc: Global,
    cursor: &mut Cursor<'_>,
    attributes: Items<Attribute>,
) -> Result<UnitTree, ParseStop>
    ensures { Reads (spec.enum_unit attributes cursor.old) result cursor.new }
{
    let EnumHead { name, base, bound } = enum_head(alloc, cursor)?;
    let cases = enum_block(alloc, cursor)?;
    Ok(UnitTree::Enum {
        attributes,
        name,
        base,
        bound,
        cases,
    })
}

// `=`, a type and `;`.
#[tactic(auto, unfolding(crate::specs::Declarations::type_closed))]
fn type_closed(alloc: Global, cursor: &mut Cursor<'_>) -> Result<WrittenType, ParseStop>
    ensures { Reads (spec.type_closed cursor.old) result cursor.new }
{
    cursor.expect(Mark::Assign)?;
    let written = type_read(alloc, cursor)?;
    closed(cursor, Mark::Semicolon, written)
}

#[tactic(auto, unfolding(crate::specs::Declarations::alias_parts))]
fn alias_parts(alloc: Global, cursor: &mut Cursor<'_>) -> Result<AliasParts, ParseStop>
    ensures { Reads (spec.alias_parts cursor.old) result cursor.new }
{
    cursor.token()?;
    let name = name_read(cursor)?;
    let type_parameters = type_parameters_if_any(alloc, cursor)?;
    let written = type_closed(alloc, cursor)?;
    Ok(AliasParts {
        name,
        type_parameters,
        written,
    })
}

#[tactic(auto, unfolding(crate::specs::Declarations::alias))]
fn alias(
    alloc: Global,
    cursor: &mut Cursor<'_>,
    attributes: Items<Attribute>,
) -> Result<UnitTree, ParseStop>
    ensures { Reads (spec.alias attributes cursor.old) result cursor.new }
{
    let AliasParts {
        name,
        type_parameters,
        written,
    } = alias_parts(alloc, cursor)?;
    Ok(UnitTree::Alias {
        attributes,
        name,
        type_parameters,
        aliased: written,
    })
}

#[tactic(auto, unfolding(crate::specs::Declarations::constant_parts))]
fn constant_parts(alloc: Global, cursor: &mut Cursor<'_>) -> Result<ConstantParts, ParseStop>
    ensures { Reads (spec.constant_parts cursor.old) result cursor.new }
{
    cursor.token()?;
    let written = type_read(alloc, cursor)?;
    let name = name_read(cursor)?;
    let value = value_closed(alloc, cursor)?;
    Ok(ConstantParts {
        written,
        name,
        value,
    })
}

#[tactic(auto, unfolding(crate::specs::Declarations::constant))]
fn constant(
    alloc: Global,
    cursor: &mut Cursor<'_>,
    attributes: Items<Attribute>,
) -> Result<UnitTree, ParseStop>
    ensures { Reads (spec.constant attributes cursor.old) result cursor.new }
{
    let ConstantParts {
        written,
        name,
        value,
    } = constant_parts(alloc, cursor)?;
    Ok(UnitTree::Constant {
        attributes,
        written,
        name,
        value,
    })
}

/// A declaration behind its attributes.
#[tactic(auto, unfolding(crate::specs::Declarations::declared))]
pub fn declared(
    alloc: Global,
    cursor: &mut Cursor<'_>,
    attributes: Items<Attribute>,
) -> Result<UnitTree, ParseStop>
    ensures { Reads (spec.declared attributes cursor.old) result cursor.new }
{
    match declaration_row(cursor.kind()) {
        Some(DeclarationRow::Function) => function(alloc, cursor, attributes),
        Some(DeclarationRow::Class) => class(alloc, cursor, attributes),
        Some(DeclarationRow::Interface) => interface(alloc, cursor, attributes),
        Some(DeclarationRow::Trait) => trait_unit(alloc, cursor, attributes),
        Some(DeclarationRow::Enum) => enum_unit(alloc, cursor, attributes),
        Some(DeclarationRow::Alias) => alias(alloc, cursor, attributes),
        Some(DeclarationRow::Constant) => constant(alloc, cursor, attributes),
        None => Err(cursor.refuse()),
    }
}
