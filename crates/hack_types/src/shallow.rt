// Shallow declarations: the signature of a declaration by itself, without what it inherits.

use crate::{HackType, Members, NameId, NameSet, Signature, TypeParam};
use sqlite_items::Items;

/// Who may use a member.
#[derive(Clone, Copy, PartialEq, Eq)]
pub enum Visibility {
    /// Everybody.
    Public,
    /// The class and those below it.
    Protected,
    /// The class alone.
    Private,
}

/// What a member is, and its type.
#[derive(Drop)]
pub enum MemberKind {
    /// A constant of this type.
    Constant(HackType),
    /// A property of this type.
    Property(HackType),
    /// A method of this signature.
    Method(Signature),
}

/// A member of a class, an interface or a trait (docs/language.md, Members).
#[derive(Drop)]
pub struct Member {
    /// What it is.
    pub kind: MemberKind,
    /// Its name; that of a property has no `$`.
    pub name: NameId,
    /// The class that it comes from.
    pub origin: NameId,
    /// Who may use it.
    pub visibility: Visibility,
    /// Whether `static` is written.
    pub is_static: bool,
    /// Whether a method has no body or a constant no value; never so for a property.
    pub is_abstract: bool,
    /// Whether `final` is written.
    pub is_final: bool,
}

/// What a class-like declaration is.
#[derive(Clone, Copy, PartialEq, Eq)]
pub enum Sort {
    /// A class.
    Class,
    /// An interface.
    Interface,
    /// A trait.
    Trait,
}

/// The signature of a class, an interface or a trait.
#[derive(Drop)]
pub struct ClassSig {
    /// Which of the three.
    pub sort: Sort,
    /// Whether `abstract` is written.
    pub is_abstract: bool,
    /// Whether `final` is written.
    pub is_final: bool,
    /// Its type parameters, in order.
    pub type_params: Items<TypeParam>,
    /// The traits that it uses, in order.
    pub uses: Items<HackType>,
    /// What stands behind `extends`, in order.
    pub extends: Items<HackType>,
    /// What stands behind `implements`, in order.
    pub implements: Items<HackType>,
    /// Its own members.
    pub members: Members,
}

/// The signature of an enum.
#[derive(Drop)]
pub struct EnumSig {
    /// The type of its values.
    pub base: HackType,
    /// Whether it is declared `as` its base.
    pub bounded: bool,
    /// The names of its cases.
    pub cases: NameSet,
}

/// The signature of an alias.
#[derive(Drop)]
pub struct AliasSig {
    /// Its type parameters, in order.
    pub type_params: Items<TypeParam>,
    /// What it stands for.
    pub body: HackType,
}

/// The signature of a declaration by itself (docs/language.md, Signatures).
#[derive(Drop)]
pub enum Shallow {
    /// Of a class, an interface or a trait.
    ClassLike(ClassSig),
    /// Of an enum.
    Enum(EnumSig),
    /// Of an alias.
    Alias(AliasSig),
    /// Of a function.
    Function(Signature),
    /// Of a constant: its type.
    Constant(HackType),
}
