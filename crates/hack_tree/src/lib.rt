//! Syntax trees: what the parser makes of a file's tokens, and what the checker reads.
#![tactic(auto)]

mod declaration;
mod expression;
mod statement;
mod written_type;

pub use declaration::{
    Attribute, Bound, BoundKind, Callable, ClassModifier, DeclaredName, EnumCase, FileTree, Member,
    Modifier, Parameter, TypeParameter, Unit, UnitTree, Variance, Visibility,
};
pub use expression::{
    AssignOperator, BinaryOperator, CastType, ClassReference, Entry, Expr, FieldValue, Literal,
    Operand, PrefixOperator, ScopedMember, Suffix, TestOperator, TypeTest,
};
pub use statement::{Case, Catch, Stmt};
pub use written_type::{ClassType, Container, FieldType, Primitive, WrittenType};
