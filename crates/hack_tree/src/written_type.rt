// Types as they are written.

use hack_types::{NameId, Place};
use sqlite_items::{Boxed, Items};

/// A type that one keyword spells.
#[derive(Clone, Copy, PartialEq, Eq)]
pub enum Primitive {
    /// `arraykey`
    ArrayKey,
    /// `bool`
    Bool,
    /// `float`
    Float,
    /// `int`
    Int,
    /// `mixed`
    Mixed,
    /// `nonnull`
    NonNull,
    /// `noreturn`
    NoReturn,
    /// `nothing`
    Nothing,
    /// `null`
    Null,
    /// `num`
    Num,
    /// `string`
    String,
    /// `void`
    Void,
}

/// A container with one type argument.
#[derive(Clone, Copy, PartialEq, Eq)]
pub enum Container {
    /// `vec`
    Vec,
    /// `keyset`
    Keyset,
}

/// A type as it is written, one variant for each row of docs/language.md, Types. `at` is the place of its first token,
/// relative to the first token of the declaration (docs/script.md, Places).
#[cycle(types)]
#[derive(Drop)]
pub enum WrittenType {
    /// `?T`
    Optional {
        /// The place of the `?`.
        at: Place,
        /// What stands behind it.
        inner: Boxed<WrittenType>,
    },
    /// A keyword such as `int`.
    Primitive {
        /// The place of the keyword.
        at: Place,
        /// Which it is.
        primitive: Primitive,
    },
    /// `this`
    This {
        /// The place of the keyword.
        at: Place,
    },
    /// `vec<T>` or `keyset<T>`
    Container {
        /// The place of the keyword.
        at: Place,
        /// Which it is.
        container: Container,
        /// The type of its elements.
        element: Boxed<WrittenType>,
    },
    /// `dict<K, V>`
    Dict {
        /// The place of the keyword.
        at: Place,
        /// The type of its keys.
        key: Boxed<WrittenType>,
        /// The type of its values.
        value: Boxed<WrittenType>,
    },
    /// `shape('a' => int, ...)`
    Shape {
        /// The place of the keyword.
        at: Place,
        /// Its fields, as they are written.
        fields: Items<FieldType>,
        /// Whether `...` stands last.
        open: bool,
    },
    /// A name, with type arguments or without.
    Class(ClassType),
}

/// A name with its type arguments, as it stands in a type, behind `extends` and in `catch`.
#[cycle(types)]
#[derive(Drop)]
pub struct ClassType {
    /// The place of the name.
    pub at: Place,
    /// The name.
    pub name: NameId,
    /// The type arguments: none where no `<` follows the name.
    pub arguments: Items<WrittenType>,
}

/// A field of a shape type.
#[cycle(types)]
#[derive(Drop)]
pub struct FieldType {
    /// Whether a `?` stands before it.
    pub optional: bool,
    /// The place of the key.
    pub key_at: Place,
    /// The key, without its quotes.
    pub key: NameId,
    /// The type behind the `=>`.
    pub value: WrittenType,
}
