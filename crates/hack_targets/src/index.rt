// Indices.

use hack_types::{HackType, NameId, Place};
use std::marker::Model;

/// An index that was typed (docs/language.md, Typing expressions, Index).
#[derive(Drop)]
pub struct Index {
    /// The place of its first token.
    pub at: Place,
    /// The key, where it is a key string.
    pub key: Option<NameId>,
    /// Its type.
    pub ty: HackType,
}

impl Model for Index {
    ghost use Rattle.hack_rules.specs.Meanings as meanings;
    ghost use Rattle.hack_targets.specs.inside.Codes.{index_code};

    ghost Value = { meanings.Index };

    ghost coded = { index_code };

    ghost view = { λ index. record { at = index.at; key = index.key; ty = index.ty } };
}
