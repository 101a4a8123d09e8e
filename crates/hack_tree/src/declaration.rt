// Declarations and files.

use crate::{ClassType, Expr, Stmt, WrittenType};
use hack_base::Bytes;
use hack_types::{NameId, Place, SymbolId};
use sqlite_items::Items;

/// Who may use a member.
#[derive(Clone, Copy, PartialEq, Eq)]
pub enum Visibility {
    /// `public`
    Public,
    /// `protected`
    Protected,
    /// `private`
    Private,
}

/// A word before a member.
#[derive(Clone, Copy, PartialEq, Eq)]
pub enum Modifier {
    /// `public`, `protected` or `private`.
    Visibility(Visibility),
    /// `abstract`
    Abstract,
    /// `final`
    Final,
    /// `static`
    Static,
}

/// A word before `class`.
#[derive(Clone, Copy, PartialEq, Eq)]
pub enum ClassModifier {
    /// `abstract`
    Abstract,
    /// `final`
    Final,
}

/// The sign before a type parameter.
#[derive(Clone, Copy, PartialEq, Eq)]
pub enum Variance {
    /// `+`
    Covariant,
    /// `-`
    Contravariant,
}

/// The word before a bound of a type parameter.
#[derive(Clone, Copy, PartialEq, Eq)]
pub enum BoundKind {
    /// `as`
    As,
    /// `super`
    Super,
}

/// A name where it is declared.
#[derive(Clone, Copy, PartialEq, Eq)]
pub struct DeclaredName {
    /// Its place.
    pub at: Place,
    /// The name: of a variable without its `$`.
    pub name: NameId,
}

/// An attribute.
#[derive(Drop)]
pub struct Attribute {
    /// Its name.
    pub name: DeclaredName,
    /// Its arguments: none where no bracket follows the name.
    pub arguments: Items<Expr>,
}

/// A bound of a type parameter.
#[derive(Drop)]
pub struct Bound {
    /// The word before it.
    pub kind: BoundKind,
    /// The type.
    pub written: WrittenType,
}

/// A type parameter.
#[derive(Drop)]
pub struct TypeParameter {
    /// The sign before it, where one stands.
    pub variance: Option<Variance>,
    /// Its name.
    pub name: DeclaredName,
    /// Its bounds, as they are written.
    pub bounds: Items<Bound>,
}

/// A parameter.
#[derive(Drop)]
pub struct Parameter {
    /// Its attributes.
    pub attributes: Items<Attribute>,
    /// The visibility before its type, where one stands, which makes it a property too.
    pub visibility: Option<Visibility>,
    /// Its type.
    pub written: WrittenType,
    /// Its variable.
    pub name: DeclaredName,
    /// The value behind `=`, where one stands.
    pub default: Option<Expr>,
}

/// What a function or method says of itself before its body.
#[derive(Drop)]
pub struct Callable {
    /// Its name.
    pub name: DeclaredName,
    /// Its type parameters.
    pub type_parameters: Items<TypeParameter>,
    /// Its parameters.
    pub parameters: Items<Parameter>,
    /// The type behind `:`, where one stands.
    pub result: Option<WrittenType>,
}

/// A member of a class, an interface or a trait, one variant for each row of docs/language.md, Declarations. `at` is the
/// place of its first token, relative to that of the declaration.
#[derive(Drop)]
pub enum Member {
    /// `use` and traits.
    Use {
        /// The place of `use`.
        at: Place,
        /// The traits, at least one.
        traits: Items<ClassType>,
    },
    /// A constant.
    Constant {
        /// Its place.
        at: Place,
        /// Its attributes.
        attributes: Items<Attribute>,
        /// The words before it.
        modifiers: Items<Modifier>,
        /// Its type.
        written: WrittenType,
        /// Its name.
        name: DeclaredName,
        /// The value behind `=`, where one stands.
        value: Option<Expr>,
    },
    /// A method.
    Method {
        /// Its place.
        at: Place,
        /// Its attributes.
        attributes: Items<Attribute>,
        /// The words before it.
        modifiers: Items<Modifier>,
        /// What it says of itself.
        callable: Callable,
        /// Its body, or nothing where a `;` stands.
        body: Option<Items<Stmt>>,
    },
    /// A property.
    Property {
        /// Its place.
        at: Place,
        /// Its attributes.
        attributes: Items<Attribute>,
        /// The words before it.
        modifiers: Items<Modifier>,
        /// Its type.
        written: WrittenType,
        /// Its variable.
        name: DeclaredName,
        /// The value behind `=`, where one stands.
        value: Option<Expr>,
    },
}

/// A case of an enum.
#[derive(Drop)]
pub struct EnumCase {
    /// Its name.
    pub name: DeclaredName,
    /// Its value.
    pub value: Expr,
}

/// A declaration, one variant for each row of docs/language.md, Declarations. The place of its first token is 0:0, since
/// places in it are relative to that token.
#[derive(Drop)]
pub enum UnitTree {
    /// A function.
    Function {
        /// Its attributes.
        attributes: Items<Attribute>,
        /// What it says of itself.
        callable: Callable,
        /// Its body.
        body: Items<Stmt>,
    },
    /// A class.
    Class {
        /// Its attributes.
        attributes: Items<Attribute>,
        /// The words before `class`.
        modifiers: Items<ClassModifier>,
        /// Its name.
        name: DeclaredName,
        /// Its type parameters.
        type_parameters: Items<TypeParameter>,
        /// The type behind `extends`, where one stands.
        extends: Option<ClassType>,
        /// The types behind `implements`.
        implements: Items<ClassType>,
        /// Its members.
        members: Items<Member>,
    },
    /// An interface.
    Interface {
        /// Its attributes.
        attributes: Items<Attribute>,
        /// Its name.
        name: DeclaredName,
        /// Its type parameters.
        type_parameters: Items<TypeParameter>,
        /// The types behind `extends`.
        extends: Items<ClassType>,
        /// Its members.
        members: Items<Member>,
    },
    /// A trait.
    Trait {
        /// Its attributes.
        attributes: Items<Attribute>,
        /// Its name.
        name: DeclaredName,
        /// Its type parameters.
        type_parameters: Items<TypeParameter>,
        /// The types behind `implements`.
        implements: Items<ClassType>,
        /// Its members.
        members: Items<Member>,
    },
    /// An enum.
    Enum {
        /// Its attributes.
        attributes: Items<Attribute>,
        /// Its name.
        name: DeclaredName,
        /// The type behind `:`.
        base: WrittenType,
        /// The type behind `as`, where one stands.
        bound: Option<WrittenType>,
        /// Its cases.
        cases: Items<EnumCase>,
    },
    /// An alias of a type.
    Alias {
        /// Its attributes.
        attributes: Items<Attribute>,
        /// Its name.
        name: DeclaredName,
        /// Its type parameters.
        type_parameters: Items<TypeParameter>,
        /// The type behind `=`.
        aliased: WrittenType,
    },
    /// A constant.
    Constant {
        /// Its attributes.
        attributes: Items<Attribute>,
        /// Its type.
        written: WrittenType,
        /// Its name.
        name: DeclaredName,
        /// Its value.
        value: Expr,
    },
}

/// A declaration where it stands in a file.
#[derive(Drop)]
pub struct Unit {
    /// What it declares.
    pub symbol: SymbolId,
    /// The place of its first token in the file.
    pub start: Place,
    /// The place of its name in the file.
    pub name_at: Place,
    /// The bytes from its first token to its last.
    pub text: Bytes,
    /// What it says.
    pub tree: UnitTree,
}

/// The tree of a file: its declarations in order.
#[derive(Drop)]
pub struct FileTree {
    /// The declarations.
    pub units: Items<Unit>,
}
