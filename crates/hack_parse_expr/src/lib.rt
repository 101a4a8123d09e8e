//! Reads types and expressions.
#![tactic(auto)]

mod behind;
mod cursor;
mod grammar;
mod laws;
mod lexeme;
mod lists;
mod operators;
mod primary;
mod rows;
mod stop;
mod types;

pub use behind::{beside, closed};
pub use cursor::Cursor;
pub use grammar::{
    arguments_if_any, expression, expression_if_any, expressions, expressions1, postfix,
};
pub use laws::{as_the_table, one_reading};
pub use lexeme::Lexeme;
pub use rows::{
    ClassWord, DeclarationRow, Level, MemberRow, Nested, PrimaryRow, StatementRow, SuffixRow,
    TypeRow, UnaryRow, bound_kind, class_modifier, declaration_row, member_row, modifier,
    statement_row, variance, visibility,
};
pub use stop::ParseStop;
pub use types::{begins_type, class_type, type_arguments, written_type};
