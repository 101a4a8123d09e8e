//! How the report of a check reads: what each diagnostic says, their order, and the bytes of the report.
//!
//! Each call that makes a diagnostic has the place and the parts of its text, in the order in which they stand in it; an error says
//! that memory ran out (docs/language.md, Diagnostics).
#![tactic(auto)]

mod bodies;
mod classes;
mod files;
mod order;
mod pieces;
mod text;
mod types;

pub use bodies::{
    against_static, expected, field_may_miss, field_twice, may_be_null, no_constant, no_field,
    no_method, no_property, no_return, not_allowed, not_assignable, not_indexed, not_instantiable,
    not_iterated, not_visible, operator_refuses, other_count, outside_loop, sign_refuses,
    too_many_loops, unbound_constant, unbound_function, undefined_variable,
};
pub use classes::{
    bad_hierarchy, bad_parent, body_missing, body_unwanted, constant_misfit, enum_base, enum_bound,
    final_method, final_parent, less_visible, member_taken, method_misfit, modifiers_misfit,
    no_implementation, no_return_type, no_visibility, overrides_nothing, property_misfit,
    wrong_variance,
};
pub use files::{int_too_large, name_taken, no_token, too_deep, unexpected_end, unexpected_token};
pub use order::in_report_order;
pub use text::{diag_line, report_text};
pub use types::{
    alias_in_itself, other_arguments, out_of_bounds, parameter_taken, too_big, trait_as_type,
    unbound_type,
};
