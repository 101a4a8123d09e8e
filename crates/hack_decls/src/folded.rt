// Folded declarations: what a declaration is with all that it inherits.

use hack_types::{AliasSig, EnumSig, HackType, Members, NameId, Signature, Sort, TypeParam};
use sqlite_items::Items;

/// A class-like declaration above a class, with the arguments that the class gives it.
#[derive(Drop)]
pub struct Ancestor {
    /// Its name.
    pub name: NameId,
    /// Its type arguments, in terms of the class's parameters.
    pub arguments: Items<HackType>,
}

/// A class, an interface or a trait with all that it inherits (docs/language.md, Folding).
#[derive(Drop)]
pub struct ClassFolded {
    /// Which of the three.
    pub sort: Sort,
    /// Whether `abstract` is written.
    pub is_abstract: bool,
    /// Whether `final` is written.
    pub is_final: bool,
    /// Whether it is reached from itself over parents, or has more than 256 names in its line.
    pub cyclic: bool,
    /// Whether something that it may inherit isn't known.
    pub partial: bool,
    /// Its type parameters, in order.
    pub type_params: Items<TypeParam>,
    /// All that stands above it, each name once, in the order of the walk.
    pub ancestors: Items<Ancestor>,
    /// Its own members and those that it inherits.
    pub members: Members,
}

/// What a declaration is with all that it inherits (docs/language.md, Folding). All but class-like ones fold to themselves.
#[derive(Drop)]
pub enum Folded {
    /// Of a class, an interface or a trait.
    ClassLike(ClassFolded),
    /// Of an enum.
    Enum(EnumSig),
    /// Of an alias.
    Alias(AliasSig),
    /// Of a function.
    Function(Signature),
    /// Of a constant: its type.
    Constant(HackType),
}
