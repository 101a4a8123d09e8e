// The fields of a shape, by their keys.
ghost use Rattle.std.specs.Prelude.{◌≡◌};
ghost use Rattle.hack_types.specs.Rising.{FieldsRise};

use crate::NameId;
use std::marker::Model;

/// A field of a shape type (docs/language.md, Types and their texts).
#[derive(Drop)]
pub struct Field<T> {
    /// Its key, without quotes.
    pub key: NameId,
    /// Whether it may be missing.
    pub optional: bool,
    /// The type of its value.
    pub ty: T,
}

/// The fields of a shape, each key once. Contracts see the list of them, which rises by the id of the key.
#[derive(Drop)]
pub struct Fields<T> {
    items: Vec<Field<T>>,
}

impl<T> Model for Fields<T> {
    ghost use Rattle.std.specs.Prelude.{List};
    ghost use Rattle.hack_types.specs.Rising.{FieldsRise};
    ghost use Rattle.hack_types.specs.declared.fields.Field.{Field};

    ghost Value = { List (Field T) };

    ghost view = { λ fields. fields.items.items };

    ghost invariant = { λ fields. FieldsRise fields.items.items };
}

impl<T> Fields<T> {
    /// These fields.
    pub fn from_vec(items: Vec<Field<T>>) -> Self
        requires { FieldsRise items.items }
        ensures { result ≡ items.items }
    {
        Fields { items }
    }

    /// The fields, as they lie in memory.
    pub fn as_slice(&self) -> &[Field<T>]
        ensures items { result.now ≡ self.now }
        ensures rise { FieldsRise self.now }
    {
        self.items.as_slice()
    }
}
