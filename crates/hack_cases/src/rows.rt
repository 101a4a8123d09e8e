// The rows, one file for each crate.

pub(crate) mod base;
pub(crate) mod below;
pub(crate) mod diag;
pub(crate) mod expressions;
pub(crate) mod first;
pub(crate) mod folding;
pub(crate) mod inferring;
pub(crate) mod lexer;
pub(crate) mod machine;
pub(crate) mod naming;
pub(crate) mod operators;
pub(crate) mod parse_decl;
pub(crate) mod scripts;
pub(crate) mod serve;
pub(crate) mod shallow;
pub(crate) mod streams;
pub(crate) mod targets;
pub(crate) mod types;
pub(crate) mod uses;
pub(crate) mod words;
pub(crate) mod written;
