// The ways in which a rule with premises may apply.

/// A rule of subtyping that has premises, or a half of one (docs/language.md, Subtyping).
#[derive(Clone, Copy)]
pub(crate) enum Way {
    /// The upper type is an option.
    IntoOption,
    /// The lower type is an option.
    FromOption,
    /// The lower type is a union.
    FromUnion,
    /// The upper type is a union.
    IntoUnion,
    /// Both are vecs.
    Vectors,
    /// Both are dicts.
    Dicts,
    /// Both are keysets.
    Keysets,
    /// Both are shapes.
    Shapes,
    /// The lower type is an alias.
    FromAlias,
    /// The upper type is an alias.
    IntoAlias,
    /// Both have names.
    ClassTypes,
    /// The lower type is a type parameter.
    FromParam,
    /// The upper type is a type parameter.
    IntoParam,
    /// The lower type is `this`.
    FromThis,
    /// The lower type is an enum.
    FromEnum,
    /// The lower type is a container and the upper one has a name.
    IntoKeyed,
}

impl Way {
    /// All of them, in the order in which they are tried.
    pub(crate) const ALL: [Way; 16] = [
        Way::IntoOption,
        Way::FromOption,
        Way::FromUnion,
        Way::IntoUnion,
        Way::Vectors,
        Way::Dicts,
        Way::Keysets,
        Way::Shapes,
        Way::FromAlias,
        Way::IntoAlias,
        Way::ClassTypes,
        Way::FromParam,
        Way::IntoParam,
        Way::FromThis,
        Way::FromEnum,
        Way::IntoKeyed,
    ];
}
