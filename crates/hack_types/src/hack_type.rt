// Types, as declarations and checks know them.

use crate::{Fields, NameId};
use sqlite_items::{Boxed, Items};

/// A type (docs/language.md, Types and their texts). It has no name that could mean two things: a type parameter is one of the
/// class or of the function, by its position in the list from 0, and every other name is a symbol's of kind `Class`.
#[cycle(types)]
#[derive(Drop)]
pub enum HackType {
    /// `_`: what stands where a type can't be known.
    Any,
    /// `mixed`
    Mixed,
    /// `nonnull`
    Nonnull,
    /// `nothing`
    Nothing,
    /// `null`
    Null,
    /// `void`
    Void,
    /// `noreturn`
    Noreturn,
    /// `bool`
    Bool,
    /// `int`
    Int,
    /// `float`
    Float,
    /// `num`
    Num,
    /// `string`
    Str,
    /// `arraykey`
    Arraykey,
    /// `this`
    This,
    /// `?T`
    Option(Boxed<HackType>),
    /// `vec<T>`
    Vector(Boxed<HackType>),
    /// `dict<K, V>`
    Dict(Boxed<HackType>, Boxed<HackType>),
    /// `keyset<T>`
    Keyset(Boxed<HackType>),
    /// `shape('a' => T, ..)`
    Shape {
        /// Its fields.
        fields: Fields<HackType>,
        /// Whether there may be further fields: `...` stands last.
        rest: bool,
    },
    /// `C<A, B>`: a class, an interface, a trait, an enum or an alias, with its type arguments.
    Class(NameId, Items<HackType>),
    /// A type parameter of the class or alias, by its position and its name.
    ClassParam(u32, NameId),
    /// A type parameter of the function or method, by its position and its name.
    FunParam(u32, NameId),
    /// `(A|B)`: a value of one of them.
    Union(Items<HackType>),
}
