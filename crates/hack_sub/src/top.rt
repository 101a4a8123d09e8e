// What a type is, where nobody has to know the types inside it.

/// The former of a type.
#[derive(Clone, Copy)]
pub(crate) enum Top {
    /// `_`
    Any,
    /// `mixed`
    Mixed,
    /// `nonnull`
    Nonnull,
    /// `nothing`
    Nothing,
    /// `null`
    Null,
    /// `void`
    Void,
    /// `bool`
    Bool,
    /// `int`
    Int,
    /// `float`
    Float,
    /// `num`
    Num,
    /// `string`
    Str,
    /// `arraykey`
    Arraykey,
    /// `this`
    This,
    /// `?T`
    Option,
    /// `vec<T>`, `dict<K, V>`, `keyset<T>`
    Container,
    /// `shape(..)`
    Shape,
    /// Every other type.
    Other,
}
