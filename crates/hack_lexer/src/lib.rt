//! Cuts the bytes of a file into blanks and tokens.
#![tactic(auto)]

mod blank;
mod cut;
mod kind;
mod number;
mod place;
mod range;
mod run;
mod scan;
mod step;
mod tables;
mod text;
mod token;

pub use cut::{one_answer, tokens};
pub use kind::{Keyword, Mark, TokenKind};
pub use token::{LexStop, Token};
