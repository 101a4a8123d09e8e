// The texts of types made by hand.

use crate::plain::{push_made, split};
use case_table::cases;
use hack_show::Out;
use hack_types::{Field, Fields, HackType, NameId, Names, NoMemory, type_text};
use sqlite_items::{Boxed, Items};
use std::alloc::Global;

// The names behind the fixed ones: `zeta` has an id below that of `alpha`, and stands behind it in the order of bytes.
fn add_names(alloc: Global, names: &mut Names) -> Result<(), NoMemory> {
    for text in ["zeta", "alpha", "C", "T"] {
        if names.count() < 100 {
            names.intern(alloc, text.as_bytes())?;
        }
    }
    Ok(())
}

/// The text of the type that is made of a word, and then around that, as two further words say.
pub(crate) fn written(alloc: Global, out: &mut Out<'_>, text: &[u8]) -> Result<(), NoMemory> {
    let mut names = Names::new(alloc);
    let done = match add_names(alloc, &mut names) {
        Ok(()) => write(alloc, &names, out, text),
        Err(stop) => Err(stop),
    };
    drop(names);
    done
}

fn write(alloc: Global, names: &Names, out: &mut Out<'_>, text: &[u8]) -> Result<(), NoMemory> {
    let ty = made(alloc, text)?;
    push_text(alloc, names, out, &ty);
    drop(ty);
    Ok(())
}

fn push_text(alloc: Global, names: &Names, out: &mut Out<'_>, ty: &HackType) {
    push_made(out, type_text(alloc, names, ty));
}

fn made(alloc: Global, text: &[u8]) -> Result<HackType, NoMemory> {
    let (first, rest) = split(text, b' ');
    let (second, third) = split(rest, b' ');
    let inside = around(alloc, second, word_type(place_of(first)))?;
    around(alloc, third, inside)
}

// A type around one, by a letter and how many arguments or members it has, or what sort of shape it is.
fn around(alloc: Global, word: &[u8], ty: HackType) -> Result<HackType, NoMemory> {
    match word {
        [] => Ok(ty),
        [b'd', ..] => dict(alloc, ty),
        [b'=', ..] => copied(alloc, ty),
        [b's', count] => {
            drop(ty);
            shape(alloc, *count > b'1', count % 2 == 1)
        }
        [kind, count] => around_many(alloc, *kind, *count, ty),
        [kind, ..] => around_one(alloc, *kind, ty),
    }
}

fn copied(alloc: Global, ty: HackType) -> Result<HackType, NoMemory> {
    let copy = ty.copy(alloc);
    drop(ty);
    copy
}

// `?T`, `vec<T>` and `keyset<T>`
fn around_one(alloc: Global, kind: u8, ty: HackType) -> Result<HackType, NoMemory> {
    let inside = Boxed::new(alloc, ty)?;
    match kind {
        b'?' => Ok(HackType::Option(inside)),
        b'v' => Ok(HackType::Vector(inside)),
        _ => Ok(HackType::Keyset(inside)),
    }
}

// `dict<int, T>`
fn dict(alloc: Global, ty: HackType) -> Result<HackType, NoMemory> {
    let value = Boxed::new(alloc, ty)?;
    Ok(HackType::Dict(Boxed::new(alloc, HackType::Int)?, value))
}

// `C` and a union, around nothing, a type, or a type and `T`.
fn around_many(alloc: Global, kind: u8, count: u8, ty: HackType) -> Result<HackType, NoMemory> {
    let types = types(alloc, count, ty)?;
    if kind == b'C' {
        Ok(HackType::Class(NameId::new(9), types))
    } else {
        Ok(HackType::Union(types))
    }
}

fn types(alloc: Global, count: u8, ty: HackType) -> Result<Items<HackType>, NoMemory> {
    let mut types = Items::new(alloc);
    if count == b'0' {
        drop(ty);
        return Ok(types);
    }
    types.push(ty)?;
    if count > b'1' {
        types.push(HackType::FunParam(0, NameId::new(10)))?;
    }
    Ok(types)
}

// A shape with `zeta`, which may be missing, and `alpha`, or with no field.
#[tactic(auto, using(crate::proofs::FieldsRise::no_fields_rise))]
fn shape(alloc: Global, some: bool, rest: bool) -> Result<HackType, NoMemory> {
    let fields = if some {
        two_fields(alloc)?
    } else {
        Fields::from_vec(Vec::new(alloc))
    };
    Ok(HackType::Shape { fields, rest })
}

#[tactic(auto, using(crate::proofs::FieldsRise::two_fields_rise))]
fn two_fields(alloc: Global) -> Result<Fields<HackType>, NoMemory> {
    let mut fields = Vec::new(alloc);
    fields.push(Field {
        key: NameId::new(7),
        optional: true,
        ty: HackType::Float,
    })?;
    fields.push(Field {
        key: NameId::new(8),
        optional: false,
        ty: HackType::ClassParam(0, NameId::new(10)),
    })?;
    Ok(Fields::from_vec(fields))
}

// The place of a word among the types that are words.
fn place_of(word: &[u8]) -> u16 {
    match cases!(
        "_" => 0,
        "arraykey" => 1,
        "bool" => 2,
        "float" => 3,
        "int" => 4,
        "mixed" => 5,
        "nonnull" => 6,
        "noreturn" => 7,
        "nothing" => 8,
        "null" => 9,
        "num" => 10,
        "string" => 11,
        "this" => 12,
        "void" => 13,
    ) {
        Some(table) => table.get(word).unwrap_or(13),
        None => 13,
    }
}

// The type at a place.
fn word_type(place: u16) -> HackType {
    match place {
        0 => HackType::Any,
        1 => HackType::Arraykey,
        2 => HackType::Bool,
        3 => HackType::Float,
        4 => HackType::Int,
        5 => HackType::Mixed,
        6 => HackType::Nonnull,
        7 => HackType::Noreturn,
        8 => HackType::Nothing,
        9 => HackType::Null,
        10 => HackType::Num,
        11 => HackType::Str,
        12 => HackType::This,
        _ => HackType::Void,
    }
}
