// What a named type is.

/// What a type is by what is declared under its name.
#[derive(Clone, Copy)]
pub(crate) enum Known {
    /// It has no name.
    Unnamed,
    /// It is bad: there is no such class, interface, enum or alias, or not with so many arguments.
    Bad,
    /// A class or an interface.
    ClassLike {
        /// Whether something that it may inherit isn't known.
        partial: bool,
    },
    /// An enum.
    Enum,
    /// An alias.
    Alias,
}
