// Expressions.

use crate::{Container, WrittenType};
use hack_types::{NameId, Place};
use sqlite_items::{Boxed, Items};

/// An assignment's operator.
#[derive(Clone, Copy, PartialEq, Eq)]
pub enum AssignOperator {
    /// `=`
    Assign,
    /// `+=`
    Add,
    /// `-=`
    Subtract,
    /// `*=`
    Multiply,
    /// `/=`
    Divide,
    /// `%=`
    Remainder,
    /// `.=`
    Concat,
    /// `&=`
    BitAnd,
    /// `|=`
    BitOr,
    /// `^=`
    BitXor,
    /// `**=`
    Power,
    /// `??=`
    Coalesce,
}

/// An operator between two operands. Each belongs to one level of docs/language.md, Expressions.
#[derive(Clone, Copy, PartialEq, Eq)]
pub enum BinaryOperator {
    /// `??`, which groups from the right
    Coalesce,
    /// `||`
    Or,
    /// `&&`
    And,
    /// `|`
    BitOr,
    /// `^`
    BitXor,
    /// `&`
    BitAnd,
    /// `==`
    Equal,
    /// `!=`
    NotEqual,
    /// `===`
    Identical,
    /// `!==`
    NotIdentical,
    /// `<`
    Less,
    /// `<=`
    LessEqual,
    /// `>`
    Greater,
    /// `>=`
    GreaterEqual,
    /// `<=>`
    Spaceship,
    /// `+`
    Add,
    /// `-`
    Subtract,
    /// `.`
    Concat,
    /// `*`
    Multiply,
    /// `/`
    Divide,
    /// `%`
    Remainder,
}

/// An operator before its operand.
#[derive(Clone, Copy, PartialEq, Eq)]
pub enum PrefixOperator {
    /// `!`
    Not,
    /// `-`
    Minus,
    /// `+`
    Plus,
    /// `~`
    BitNot,
    /// `++`
    Increment,
    /// `--`
    Decrement,
}

/// What a cast makes of its operand.
#[derive(Clone, Copy, PartialEq, Eq)]
pub enum CastType {
    /// `(int)`
    Int,
    /// `(float)`
    Float,
    /// `(string)`
    String,
    /// `(bool)`
    Bool,
}

/// The word before a type that is tested.
#[derive(Clone, Copy, PartialEq, Eq)]
pub enum TestOperator {
    /// `is`
    Is,
    /// `as`
    As,
    /// `?as`
    NullAs,
}

/// A literal.
#[derive(Clone, Copy, PartialEq, Eq)]
pub enum Literal {
    /// An int.
    Int,
    /// A float.
    Float,
    /// A string that is no key string.
    Text,
    /// A key string, without its quotes.
    KeyText(NameId),
    /// `true`
    True,
    /// `false`
    False,
    /// `null`
    Null,
}

/// What stands before `::`, or behind `new` without type arguments.
#[derive(Clone, Copy, PartialEq, Eq)]
pub enum ClassReference {
    /// A class's name.
    Named(NameId),
    /// `self`
    Self_,
    /// `static`
    Static,
    /// `parent`
    Parent,
}

/// An expression, one variant for each row of docs/language.md, Expressions. `at` is the place of its first token, relative
/// to the first token of the declaration (docs/script.md, Places). A chain of operators of one level is a list.
#[cycle(expressions)]
#[derive(Drop)]
pub enum Expr {
    /// `target = value` and its kin.
    Assign {
        /// The place of the target.
        at: Place,
        /// What stands before the operator.
        target: Boxed<Expr>,
        /// Which assignment it is.
        operator: AssignOperator,
        /// What stands behind it.
        value: Boxed<Expr>,
    },
    /// `condition ? middle : other`
    Conditional {
        /// The place of the condition.
        at: Place,
        /// What stands before the `?`.
        condition: Boxed<Expr>,
        /// What stands between `?` and `:`, where something does.
        middle: Option<Boxed<Expr>>,
        /// What stands behind the `:`.
        other: Boxed<Expr>,
    },
    /// Operands with operators of one level between them.
    Chain {
        /// The place of the first operand.
        at: Place,
        /// The first operand.
        first: Boxed<Expr>,
        /// The others, at least one, each with the operator before it.
        others: Items<Operand>,
    },
    /// An operator and its operand.
    Prefix {
        /// The place of the operator.
        at: Place,
        /// Which it is.
        operator: PrefixOperator,
        /// The operand.
        operand: Boxed<Expr>,
    },
    /// `(int) operand` and its kin.
    Cast {
        /// The place of the bracket.
        at: Place,
        /// What it makes.
        to: CastType,
        /// The operand.
        operand: Boxed<Expr>,
    },
    /// Operands with `**` between them, which group from the right: at least two.
    Power {
        /// The place of the first operand.
        at: Place,
        /// The operands.
        operands: Items<Expr>,
    },
    /// `operand is T` and its kin, one behind another.
    Test {
        /// The place of the operand.
        at: Place,
        /// What is tested.
        operand: Boxed<Expr>,
        /// The tests, at least one.
        tests: Items<TypeTest>,
    },
    /// An operand with indices, members, `++` and `--` behind it.
    Postfix {
        /// The place of the operand.
        at: Place,
        /// What they stand behind.
        operand: Boxed<Expr>,
        /// What stands behind it, at least one.
        suffixes: Items<Suffix>,
    },
    /// An expression in brackets.
    Bracketed {
        /// The place of the bracket.
        at: Place,
        /// What stands in the brackets.
        inner: Boxed<Expr>,
    },
    /// A literal.
    Literal {
        /// Its place.
        at: Place,
        /// Which it is.
        literal: Literal,
    },
    /// A variable.
    Variable {
        /// Its place.
        at: Place,
        /// Its name, without the `$`.
        name: NameId,
    },
    /// `$this`
    This {
        /// Its place.
        at: Place,
    },
    /// A name alone, which is a constant's.
    Constant {
        /// Its place.
        at: Place,
        /// The name.
        name: NameId,
    },
    /// A call of a function by its name.
    Call {
        /// The place of the name.
        at: Place,
        /// The name.
        name: NameId,
        /// The arguments.
        arguments: Items<Expr>,
    },
    /// A member behind `::`.
    Scoped {
        /// The place of what stands before `::`.
        at: Place,
        /// What stands before `::`.
        class: ClassReference,
        /// The member.
        member: ScopedMember,
    },
    /// `new C<T>(arguments)`
    New {
        /// The place of `new`.
        at: Place,
        /// The place of what stands behind `new`.
        class_at: Place,
        /// What stands behind `new`.
        class: ClassReference,
        /// The type arguments: none where no `<` follows.
        type_arguments: Items<WrittenType>,
        /// The arguments.
        arguments: Items<Expr>,
    },
    /// `vec[..]` or `keyset[..]`
    Container {
        /// The place of the keyword.
        at: Place,
        /// Which it is.
        container: Container,
        /// The elements.
        elements: Items<Expr>,
    },
    /// `dict[..]`
    Dict {
        /// The place of the keyword.
        at: Place,
        /// The entries.
        entries: Items<Entry>,
    },
    /// `shape(..)`
    Shape {
        /// The place of the keyword.
        at: Place,
        /// The fields.
        fields: Items<FieldValue>,
    },
}

/// An operand of a chain but the first.
#[cycle(expressions)]
#[derive(Drop)]
pub struct Operand {
    /// The operator before it.
    pub operator: BinaryOperator,
    /// The operand.
    pub operand: Expr,
}

/// A word such as `is`, and the type behind it.
#[derive(Drop)]
pub struct TypeTest {
    /// The word.
    pub operator: TestOperator,
    /// The type.
    pub tested: WrittenType,
}

/// What may stand behind an operand.
#[cycle(expressions)]
#[derive(Drop)]
pub enum Suffix {
    /// `[index]`, or `[]`.
    Index {
        /// What stands between the brackets, where something does.
        index: Option<Boxed<Expr>>,
    },
    /// `->word`, or `?->word`, with arguments or without.
    Member {
        /// Whether it is `?->`.
        null_safe: bool,
        /// The word.
        name: NameId,
        /// The arguments, where brackets follow the word.
        arguments: Option<Items<Expr>>,
    },
    /// `++`
    Increment,
    /// `--`
    Decrement,
}

/// What stands behind `::`.
#[cycle(expressions)]
#[derive(Drop)]
pub enum ScopedMember {
    /// A variable, which is a property.
    Property {
        /// Its name, without the `$`.
        name: NameId,
    },
    /// A word: a method with arguments, and a constant without.
    Word {
        /// The word.
        name: NameId,
        /// The arguments, where brackets follow the word.
        arguments: Option<Items<Expr>>,
    },
}

/// An entry of a `dict`.
#[cycle(expressions)]
#[derive(Drop)]
pub struct Entry {
    /// What stands before the `=>`.
    pub key: Expr,
    /// What stands behind it.
    pub value: Expr,
}

/// A field of a `shape`.
#[cycle(expressions)]
#[derive(Drop)]
pub struct FieldValue {
    /// The place of the key.
    pub key_at: Place,
    /// The key, without its quotes.
    pub key: NameId,
    /// The value behind the `=>`.
    pub value: Expr,
}
