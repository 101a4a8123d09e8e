// Arguments of calls.

use hack_types::{HackType, Place};
use std::marker::Model;

/// An argument of a call, once it is typed: the place of its first token, and its type (docs/language.md, Typing expressions, Calls).
#[derive(Drop)]
pub struct Argument {
    /// The place of its first token.
    pub at: Place,
    /// Its type.
    pub ty: HackType,
}

impl Model for Argument {
    ghost use Rattle.hack_rules.specs.WrittenTypes as types;
    ghost use Rattle.hack_calls.specs.inside.Codes.{argument_code};

    ghost Value = { types.Argument };

    ghost coded = { argument_code };

    ghost view = { λ argument. record { at = argument.at; ty = argument.ty } };
}
