//! Subtyping (docs/language.md, Subtyping).
#![tactic(auto)]

mod bounds;
mod class_types;
mod containers;
mod known;
mod laws;
mod level;
mod lookups;
mod named;
mod options;
mod parts;
mod plain;
mod scope;
mod shapes;
mod sub;
mod top;
mod way;

pub use laws::{one_relation, order};
pub use parts::{
    arguments_of, as_keyed, dict_parts, is_open, keyset_item, name_of, option_inside, shape_fields,
    union_members, vector_item,
};
pub use scope::{Scope, class_type, param_of};
pub use sub::is_sub;
