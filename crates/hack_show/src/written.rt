// Types as they are written.

use crate::{Out, words};
use hack_tree::{ClassType, FieldType, WrittenType};

/// Adds a type.
#[cycle(written)]
pub(crate) fn written(out: &mut Out<'_>, ty: &WrittenType) {
    match ty {
        WrittenType::Optional { at, inner } => {
            out.open_at("?", *at);
            written(out, inner.get());
            out.close();
        }
        WrittenType::Primitive { at, primitive } => out.leaf(words::primitive(*primitive), *at),
        WrittenType::This { at } => out.leaf("this", *at),
        WrittenType::Container {
            at,
            container,
            element,
        } => {
            out.open_at(words::container(*container), *at);
            written(out, element.get());
            out.close();
        }
        WrittenType::Dict { at, key, value } => {
            out.open_at("dict", *at);
            written(out, key.get());
            written(out, value.get());
            out.close();
        }
        WrittenType::Shape { at, fields, open } => {
            out.open_at("shape", *at);
            field_types(out, fields.as_slice());
            if *open {
                out.word("...");
            }
            out.close();
        }
        WrittenType::Class(class) => class_type(out, class),
    }
}

/// Adds a name with its type arguments.
#[cycle(written)]
pub(crate) fn class_type(out: &mut Out<'_>, class: &ClassType) {
    out.open_at("class", class.at);
    out.name(class.name);
    all_written(out, class.arguments.as_slice());
    out.close();
}

/// Adds types.
#[cycle(written)]
pub(crate) fn all_written(out: &mut Out<'_>, types: &[WrittenType]) {
    for ty in types {
        written(out, ty);
    }
}

#[cycle(written)]
fn field_types(out: &mut Out<'_>, fields: &[FieldType]) {
    for field in fields {
        let word = if field.optional { "optional" } else { "field" };
        out.open_at(word, field.key_at);
        out.name(field.key);
        written(out, &field.value);
        out.close();
    }
}

/// Adds the types behind a word such as `implements`.
pub(crate) fn class_types(out: &mut Out<'_>, word: &str, types: &[ClassType]) {
    out.open(word);
    for class in types {
        class_type(out, class);
    }
    out.close();
}

/// Adds a type that may be missing.
pub(crate) fn written_if_any(out: &mut Out<'_>, ty: &Option<WrittenType>) {
    match ty {
        Some(ty) => written(out, ty),
        None => out.word("-"),
    }
}
