// How a type is written.
ghost use Rattle.std.specs.Prelude.{◌≡◌, ◌++◌, [], IfOk, OnOk, codes, if◌then◌else◌, map};
ghost use Rattle.hack_types.specs.TypeText.{by_key, joined, key_text, name_text, shape_text, type_text, word_by};
ghost use Rattle.hack_types.specs.declared.hack_type.HackType.{out-HackType};
ghost use Rattle.hack_types.specs.formers.fields.Fields.{on_type};

use crate::{Field, Fields, HackType, NameId, Names, NoMemory};
use sqlite_items::Items;
use std::alloc::Global;
use std::collections::BTreeMap;

/// The text of the name with this id, and nothing where there is no such name. It takes no memory.
pub fn name_text(names: &Names, id: NameId) -> &[u8]
    ensures { result.now ≡ name_text names.now id }
{
    if id.number() < names.count() {
        names.text_of(id)
    } else {
        b""
    }
}

/// The text of a type, in which nothing stands for an id that none of the names has. An error says that memory ran out
/// (docs/language.md, Types and their texts).
pub fn type_text(alloc: Global, names: &Names, ty: &HackType) -> Result<Vec<u8>, NoMemory>
    ensures { IfOk result (λ text. text.items ≡ type_text names.now ty.now) }
{
    let mut text = Vec::new(alloc);
    write_type(alloc, names, ty, &mut text)?;
    Ok(text)
}

// Writes the text of a type behind what is there.
#[cycle(text)]
fn write_type(
    alloc: Global,
    names: &Names,
    ty: &HackType,
    text: &mut Vec<u8>,
) -> Result<(), NoMemory>
    ensures { OnOk result (text.new.items ≡ text.old.items ++ type_text names.now ty.now) }
{
    match ty {
        HackType::Option(inside) => write_around(alloc, names, b"?", inside.get(), b"", text),
        HackType::Vector(item) => write_around(alloc, names, b"vec<", item.get(), b">", text),
        HackType::Keyset(item) => write_around(alloc, names, b"keyset<", item.get(), b">", text),
        HackType::Dict(key, value) => {
            write_around(alloc, names, b"dict<", key.get(), b", ", text)?;
            write_around(alloc, names, b"", value.get(), b">", text)
        }
        HackType::Shape { fields, rest } => write_shape(alloc, names, fields, *rest, text),
        HackType::Class(name, arguments) => {
            text.extend_from_slice(name_text(names, *name))?;
            if arguments.is_empty() {
                return Ok(());
            }
            write_all(alloc, names, b"<", arguments, b", ", b">", text)
        }
        HackType::ClassParam(_, name) | HackType::FunParam(_, name) => {
            Ok(text.extend_from_slice(name_text(names, *name))?)
        }
        HackType::Union(members) => write_all(alloc, names, b"(", members, b"|", b")", text),
        _ => Ok(text.extend_from_slice(word(ty))?),
    }
}

// The word of a type that is a word, and nothing for others.
fn word(ty: &HackType) -> &'static [u8]
    ensures { result.now ≡ word_by (out-HackType ty.now) }
{
    match ty {
        HackType::Any => b"_",
        HackType::Mixed => b"mixed",
        HackType::Nonnull => b"nonnull",
        HackType::Nothing => b"nothing",
        HackType::Null => b"null",
        HackType::Void => b"void",
        HackType::Noreturn => b"noreturn",
        HackType::Bool => b"bool",
        HackType::Int => b"int",
        HackType::Float => b"float",
        HackType::Num => b"num",
        HackType::Str => b"string",
        HackType::Arraykey => b"arraykey",
        HackType::This => b"this",
        _ => b"",
    }
}

// Writes a type between these bytes.
#[cycle(text)]
fn write_around(
    alloc: Global,
    names: &Names,
    before: &[u8],
    ty: &HackType,
    behind: &[u8],
    text: &mut Vec<u8>,
) -> Result<(), NoMemory>
    ensures { OnOk result (text.new.items ≡ text.old.items ++ before.now ++ type_text names.now ty.now ++ behind.now) }
{
    text.extend_from_slice(before)?;
    write_type(alloc, names, ty, text)?;
    text.extend_from_slice(behind)?;
    Ok(())
}

// Writes types in a row, with bytes before, between and behind them.
#[cycle(text)]
fn write_all(
    alloc: Global,
    names: &Names,
    before: &[u8],
    types: &Items<HackType>,
    between: &[u8],
    behind: &[u8],
    text: &mut Vec<u8>,
) -> Result<(), NoMemory>
    ensures { OnOk result (text.new.items ≡ text.old.items ++ before.now ++ joined between.now (map (type_text names.now) types.now) ++ behind.now) }
{
    text.extend_from_slice(before)?;
    let mut ahead: &[u8] = b"";
    for ty in types.as_slice() {
        text.extend_from_slice(ahead)?;
        write_type(alloc, names, ty, text)?;
        ahead = between;
    }
    text.extend_from_slice(behind)?;
    Ok(())
}

// Writes a shape, with its fields in the order of their keys.
#[cycle(text)]
fn write_shape(
    alloc: Global,
    names: &Names,
    fields: &Fields<HackType>,
    rest: bool,
    text: &mut Vec<u8>,
) -> Result<(), NoMemory>
    ensures { OnOk result (text.new.items ≡ text.old.items ++ shape_text names.now (map (on_type (type_text names.now)) fields.now) rest) }
{
    let ordered = in_order(alloc, names, fields)?;
    text.extend_from_slice(b"shape(")?;
    let mut ahead: &[u8] = b"";
    for field in &ordered {
        write_key(ahead, name_text(names, field.key), field.optional, text)?;
        write_type(alloc, names, &field.ty, text)?;
        ahead = b", ";
    }
    write_end(ahead, rest, text)
}

// The fields in the order of the texts of their keys.
fn in_order<'a>(
    alloc: Global,
    names: &'a Names,
    fields: &'a Fields<HackType>,
) -> Result<Vec<&'a Field<HackType>>, NoMemory>
    ensures { IfOk result (λ ordered. map (λ field. field.now) ordered.items ≡ by_key names.now fields.now) }
{
    let mut placed = BTreeMap::new(alloc);
    for field in fields.as_slice() {
        placed.insert(name_text(names, field.key), field)?;
    }
    Ok(placed.into_values().collect(alloc)?)
}

// Writes what stands before the type of a field, with these bytes ahead.
fn write_key(ahead: &[u8], key: &[u8], optional: bool, text: &mut Vec<u8>) -> Result<(), NoMemory>
    ensures { OnOk result (text.new.items ≡ text.old.items ++ ahead.now ++ key_text key.now optional) }
{
    text.extend_from_slice(ahead)?;
    if optional {
        text.push(b'?')?;
    }
    text.push(b'\'')?;
    text.extend_from_slice(key)?;
    text.extend_from_slice(b"' => ")?;
    Ok(())
}

// Writes what stands behind the fields of a shape, with these bytes ahead of the dots.
fn write_end(ahead: &[u8], rest: bool, text: &mut Vec<u8>) -> Result<(), NoMemory>
    ensures { OnOk result (text.new.items ≡ text.old.items ++ (if rest then ahead.now ++ codes "..." else []) ++ codes ")") }
{
    if rest {
        text.extend_from_slice(ahead)?;
        text.extend_from_slice(b"...")?;
    }
    Ok(text.push(b')')?)
}
