// What the narrow lookups answer: one member, one ancestor, or what a declaration is without either.

use hack_types::{AliasSig, EnumSig, HackType, Member, Signature, Sort, TypeParam};
use sqlite_items::Items;

/// Which of a class's three lists a member is in.
#[derive(Clone, Copy)]
pub enum MemberTag {
    /// The constants.
    Constant,
    /// The properties.
    Property,
    /// The methods.
    Method,
}

/// A member of a class by its name.
#[derive(Drop)]
pub enum MemberAnswer {
    /// Nothing is declared under the class's name.
    Absent,
    /// What is declared there is no class, interface or trait.
    NotClass,
    /// The member.
    At(Member),
    /// There is no such member.
    Missing {
        /// Whether something that the class may inherit isn't known.
        partial: bool,
    },
}

/// An ancestor of a class by its name.
#[derive(Drop)]
pub enum AncestorAnswer {
    /// Nothing is declared under the class's name.
    Absent,
    /// What is declared there is no class, interface or trait.
    NotClass,
    /// The arguments that the class gives the ancestor.
    At(Items<HackType>),
    /// There is no such ancestor.
    Missing {
        /// Whether something that the class may inherit isn't known.
        partial: bool,
    },
}

/// A class, an interface or a trait without its members and ancestors.
#[derive(Drop)]
pub struct ClassHeading {
    /// Which of the three.
    pub sort: Sort,
    /// Whether `abstract` is written.
    pub is_abstract: bool,
    /// Whether `final` is written.
    pub is_final: bool,
    /// Whether it is reached from itself over parents, or has more than 256 names in its line.
    pub cyclic: bool,
    /// Whether something that it may inherit isn't known.
    pub partial: bool,
    /// Its type parameters, in order.
    pub type_params: Items<TypeParam>,
}

/// What a declaration is without its members and ancestors.
#[derive(Drop)]
pub enum HeadingAnswer {
    /// Nothing is declared under the name.
    Absent,
    /// A class, an interface or a trait.
    ClassLike(ClassHeading),
    /// An enum.
    Enum(EnumSig),
    /// An alias.
    Alias(AliasSig),
    /// A function's signature.
    Function(Signature),
    /// A constant's type.
    Constant(HackType),
}
