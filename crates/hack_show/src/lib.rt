//! Shows what calls answer as one line of text, for tests: a node is `(word@LINE:COLUMN ..)`, with its parts in the order
//! of its fields. `-` stands for what is missing. A place stands behind the word of each node that has one, and nowhere
//! else. Signatures and the types in them have no places.
#![tactic(auto)]

mod declaration;
mod expression;
mod folded;
mod out;
mod shallow;
mod statement;
mod words;
mod written;

pub use declaration::{show_tree, show_unit};
pub use folded::show_folded;
pub use out::Out;
pub use shallow::{show_shallow, show_type};
