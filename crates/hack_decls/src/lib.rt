//! Folded declarations, and how the checks look them up (docs/ARCHITECTURE.md, Lookups).
#![tactic(auto)]

mod answers;
mod copies;
mod decls;
mod folded;
mod map_decls;
mod picks;
mod stop;

pub use answers::{AncestorAnswer, ClassHeading, HeadingAnswer, MemberAnswer, MemberTag};
pub use copies::{
    copy_alias, copy_class_heading, copy_enum, copy_folded, copy_member, copy_members,
    copy_signature, copy_type_params, copy_types,
};
pub use decls::Decls;
pub use folded::{Ancestor, ClassFolded, Folded};
pub use map_decls::MapDecls;
pub use stop::{DeclStop, EdgesFull};
