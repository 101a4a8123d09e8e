// Members (docs/language.md, Declarations).
ghost use Rattle.std.specs.Prelude.{◌≡◌};
ghost use Rattle.hack_parse_decl.specs.Declarations as spec;
ghost use Rattle.hack_parse_expr.specs.Parsers.{Reads};
ghost use Rattle.hack_parse_expr.specs.Rows.{begins_interface_member, begins_member};

use crate::signature::{
    DEEPEST, attributes_if_any, begins_attributes, class_read, name_read, signature, type_read,
    value_closed_if_any, variable_read, word_read,
};
use hack_lexer::{Keyword, Mark};
use hack_parse_expr::{Cursor, MemberRow, ParseStop, closed, member_row, modifier};
use hack_parse_stmt::block;
use hack_tree::{Attribute, ClassType, DeclaredName, Expr, Member, Modifier, Stmt, WrittenType};
use hack_types::Place;
use sqlite_items::Items;
use std::alloc::Global;

// What a constant or a property says behind its modifiers.
struct Valued {
    written: WrittenType,
    name: DeclaredName,
    value: Option<Expr>,
}

fn begins_modifier(cursor: &Cursor<'_>) -> bool
    ensures { result ≡ spec.begins_modifier cursor.now.left }
{
    modifier(cursor.kind()).is_some()
}

fn begins_member(cursor: &Cursor<'_>) -> bool
    ensures { result ≡ begins_member cursor.now.left }
{
    cursor.sees_keyword(Keyword::Use)
        || begins_attributes(cursor)
        || begins_modifier(cursor)
        || member_row(cursor.kind()).is_some()
}

fn begins_interface_member(cursor: &Cursor<'_>) -> bool
    ensures { result ≡ begins_interface_member cursor.now.left }
{
    begins_attributes(cursor)
        || begins_modifier(cursor)
        || cursor.sees_keyword(Keyword::Const)
        || cursor.sees_keyword(Keyword::Function)
}

#[tactic(auto, unfolding(crate::specs::Declarations::modifier_read))]
fn modifier_read(cursor: &mut Cursor<'_>) -> Result<Modifier, ParseStop>
    ensures { Reads (spec.modifier_read cursor.old) result cursor.new }
{
    let Some(word) = modifier(cursor.kind()) else {
        return Err(cursor.refuse());
    };
    cursor.token()?;
    Ok(word)
}

#[tactic(auto, unfolding(crate::specs::Declarations::modifiers, hack_parse_expr::specs::Parsers::many_of, hack_parse_expr::specs::Parsers::many_from))]
fn modifiers(alloc: Global, cursor: &mut Cursor<'_>) -> Result<Items<Modifier>, ParseStop>
    ensures { Reads (spec.modifiers cursor.old) result cursor.new }
{
    let mut found = Items::new(alloc);
    for _turn in 0..cursor.left() {
        if !begins_modifier(cursor) {
            return Ok(found);
        }
        found.push(modifier_read(cursor)?)?;
    }
    Ok(found)
}

/// Statements in braces.
pub(crate) fn body_read(alloc: Global, cursor: &mut Cursor<'_>) -> Result<Items<Stmt>, ParseStop>
    ensures { Reads (spec.body_read cursor.old) result cursor.new }
{
    block(alloc, cursor, DEEPEST)
}

#[tactic(auto, unfolding(crate::specs::Declarations::method_body))]
fn method_body(alloc: Global, cursor: &mut Cursor<'_>) -> Result<Option<Items<Stmt>>, ParseStop>
    ensures { Reads (spec.method_body cursor.old) result cursor.new }
{
    if cursor.sees(Mark::OpenBrace) {
        return Ok(Some(body_read(alloc, cursor)?));
    }
    cursor.expect(Mark::Semicolon)?;
    Ok(None)
}

// What stands behind the modifiers of a constant.
#[tactic(auto, unfolding(crate::specs::Declarations::constant_valued))]
fn constant_valued(alloc: Global, cursor: &mut Cursor<'_>) -> Result<Valued, ParseStop>
    ensures { Reads (spec.constant_valued cursor.old) result cursor.new }
{
    cursor.token()?;
    let written = type_read(alloc, cursor)?;
    let name = name_read(cursor)?;
    let value = value_closed_if_any(alloc, cursor)?;
    Ok(Valued {
        written,
        name,
        value,
    })
}

// The same of a property.
#[tactic(auto, unfolding(crate::specs::Declarations::property_valued))]
fn property_valued(alloc: Global, cursor: &mut Cursor<'_>) -> Result<Valued, ParseStop>
    ensures { Reads (spec.property_valued cursor.old) result cursor.new }
{
    let written = type_read(alloc, cursor)?;
    let name = variable_read(cursor)?;
    let value = value_closed_if_any(alloc, cursor)?;
    Ok(Valued {
        written,
        name,
        value,
    })
}

#[tactic(auto, unfolding(crate::specs::Declarations::constant_member))]
fn constant_member(
    alloc: Global,
    cursor: &mut Cursor<'_>,
    at: Place,
    attributes: Items<Attribute>,
    modifiers: Items<Modifier>,
) -> Result<Member, ParseStop>
    ensures { Reads (spec.constant_member at attributes modifiers cursor.old) result cursor.new }
{
    let Valued {
        written,
        name,
        value,
    } = constant_valued(alloc, cursor)?;
    Ok(Member::Constant {
        at,
        attributes,
        modifiers,
        written,
        name,
        value,
    })
}

#[tactic(auto, unfolding(crate::specs::Declarations::method_member))]
fn method_member(
    alloc: Global,
    cursor: &mut Cursor<'_>,
    at: Place,
    attributes: Items<Attribute>,
    modifiers: Items<Modifier>,
) -> Result<Member, ParseStop>
    ensures { Reads (spec.method_member at attributes modifiers cursor.old) result cursor.new }
{
    cursor.token()?;
    let name = word_read(cursor)?;
    let callable = signature(alloc, cursor, name)?;
    let body = method_body(alloc, cursor)?;
    Ok(Member::Method {
        at,
        attributes,
        modifiers,
        callable,
        body,
    })
}

#[tactic(auto, unfolding(crate::specs::Declarations::property_member))]
fn property_member(
    alloc: Global,
    cursor: &mut Cursor<'_>,
    at: Place,
    attributes: Items<Attribute>,
    modifiers: Items<Modifier>,
) -> Result<Member, ParseStop>
    ensures { Reads (spec.property_member at attributes modifiers cursor.old) result cursor.new }
{
    let Valued {
        written,
        name,
        value,
    } = property_valued(alloc, cursor)?;
    Ok(Member::Property {
        at,
        attributes,
        modifiers,
        written,
        name,
        value,
    })
}

// A member behind its attributes and modifiers.
#[tactic(auto, unfolding(crate::specs::Declarations::member_body))]
fn member_body(
    alloc: Global,
    cursor: &mut Cursor<'_>,
    at: Place,
    attributes: Items<Attribute>,
    modifiers: Items<Modifier>,
) -> Result<Member, ParseStop>
    ensures { Reads (spec.member_body at attributes modifiers cursor.old) result cursor.new }
{
    match member_row(cursor.kind()) {
        Some(MemberRow::Constant) => constant_member(alloc, cursor, at, attributes, modifiers),
        Some(MemberRow::Method) => method_member(alloc, cursor, at, attributes, modifiers),
        Some(MemberRow::Property) => property_member(alloc, cursor, at, attributes, modifiers),
        None => Err(cursor.refuse()),
    }
}

// The same in an interface, which has no properties.
#[tactic(auto, unfolding(crate::specs::Declarations::interface_body))]
fn interface_body(
    alloc: Global,
    cursor: &mut Cursor<'_>,
    at: Place,
    attributes: Items<Attribute>,
    modifiers: Items<Modifier>,
) -> Result<Member, ParseStop>
    ensures { Reads (spec.interface_body at attributes modifiers cursor.old) result cursor.new }
{
    match member_row(cursor.kind()) {
        Some(MemberRow::Constant) => constant_member(alloc, cursor, at, attributes, modifiers),
        Some(MemberRow::Method) => method_member(alloc, cursor, at, attributes, modifiers),
        _ => Err(cursor.refuse()),
    }
}

#[tactic(auto, unfolding(crate::specs::Declarations::class_types, hack_parse_expr::specs::Parsers::list_from))]
fn class_types(alloc: Global, cursor: &mut Cursor<'_>) -> Result<Items<ClassType>, ParseStop>
    ensures { Reads (spec.class_types cursor.old) result cursor.new }
{
    let mut found = Items::new(alloc);
    found.push(class_read(alloc, cursor)?)?;
    if !cursor.eat(Mark::Comma) {
        return Ok(found);
    }
    for _turn in 0..cursor.left() {
        if !cursor.sees_name() {
            return Ok(found);
        }
        found.push(class_read(alloc, cursor)?)?;
        if !cursor.eat(Mark::Comma) {
            return Ok(found);
        }
    }
    Ok(found)
}

/// The types behind this keyword, none where it does not come next.
#[tactic(auto, unfolding(crate::specs::Declarations::types_behind))]
pub(crate) fn types_behind(
    alloc: Global,
    cursor: &mut Cursor<'_>,
    keyword: Keyword,
) -> Result<Items<ClassType>, ParseStop>
    ensures { Reads (spec.types_behind keyword cursor.old) result cursor.new }
{
    if !cursor.sees_keyword(keyword) {
        return Ok(Items::new(alloc));
    }
    cursor.token()?;
    class_types(alloc, cursor)
}

#[tactic(auto, unfolding(crate::specs::Declarations::use_member))]
fn use_member(alloc: Global, cursor: &mut Cursor<'_>) -> Result<Member, ParseStop>
    ensures { Reads (spec.use_member cursor.old) result cursor.new }
{
    let at = cursor.token()?.at;
    let traits = class_types(alloc, cursor)?;
    cursor.expect(Mark::Semicolon)?;
    Ok(Member::Use { at, traits })
}

#[tactic(auto, unfolding(crate::specs::Declarations::plain_member))]
fn plain_member(alloc: Global, cursor: &mut Cursor<'_>) -> Result<Member, ParseStop>
    ensures { Reads (spec.plain_member cursor.old) result cursor.new }
{
    let at = cursor.place()?;
    let attributes = attributes_if_any(alloc, cursor)?;
    let modifiers = modifiers(alloc, cursor)?;
    member_body(alloc, cursor, at, attributes, modifiers)
}

#[tactic(auto, unfolding(crate::specs::Declarations::member))]
fn member(alloc: Global, cursor: &mut Cursor<'_>) -> Result<Member, ParseStop>
    ensures { Reads (spec.member cursor.old) result cursor.new }
{
    if cursor.sees_keyword(Keyword::Use) {
        use_member(alloc, cursor)
    } else {
        plain_member(alloc, cursor)
    }
}

#[tactic(auto, unfolding(crate::specs::Declarations::interface_member))]
fn interface_member(alloc: Global, cursor: &mut Cursor<'_>) -> Result<Member, ParseStop>
    ensures { Reads (spec.interface_member cursor.old) result cursor.new }
{
    let at = cursor.place()?;
    let attributes = attributes_if_any(alloc, cursor)?;
    let modifiers = modifiers(alloc, cursor)?;
    interface_body(alloc, cursor, at, attributes, modifiers)
}

#[tactic(auto, unfolding(crate::specs::Declarations::member_list, hack_parse_expr::specs::Parsers::many_of, hack_parse_expr::specs::Parsers::many_from))]
fn member_list(alloc: Global, cursor: &mut Cursor<'_>) -> Result<Items<Member>, ParseStop>
    ensures { Reads (spec.member_list cursor.old) result cursor.new }
{
    let mut found = Items::new(alloc);
    for _turn in 0..cursor.left() {
        if !begins_member(cursor) {
            return Ok(found);
        }
        found.push(member(alloc, cursor)?)?;
    }
    Ok(found)
}

#[tactic(auto, unfolding(crate::specs::Declarations::interface_member_list, hack_parse_expr::specs::Parsers::many_of, hack_parse_expr::specs::Parsers::many_from))]
fn interface_member_list(alloc: Global, cursor: &mut Cursor<'_>) -> Result<Items<Member>, ParseStop>
    ensures { Reads (spec.interface_member_list cursor.old) result cursor.new }
{
    let mut found = Items::new(alloc);
    for _turn in 0..cursor.left() {
        if !begins_interface_member(cursor) {
            return Ok(found);
        }
        found.push(interface_member(alloc, cursor)?)?;
    }
    Ok(found)
}

/// The members of a class or a trait, in braces.
#[tactic(auto, unfolding(crate::specs::Declarations::members))]
pub(crate) fn members(alloc: Global, cursor: &mut Cursor<'_>) -> Result<Items<Member>, ParseStop>
    ensures { Reads (spec.members cursor.old) result cursor.new }
{
    cursor.expect(Mark::OpenBrace)?;
    let found = member_list(alloc, cursor)?;
    closed(cursor, Mark::CloseBrace, found)
}

/// The members of an interface, in braces.
#[tactic(auto, unfolding(crate::specs::Declarations::interface_members))]
pub(crate) fn interface_members(
    alloc: Global,
    cursor: &mut Cursor<'_>,
) -> Result<Items<Member>, ParseStop>
    ensures { Reads (spec.interface_members cursor.old) result cursor.new }
{
    cursor.expect(Mark::OpenBrace)?;
    let found = interface_member_list(alloc, cursor)?;
    closed(cursor, Mark::CloseBrace, found)
}
