// How a value is read.

/// Whether an expression stands as a value, or in the left of `??`, where some diagnostics of indices are left out
/// (docs/language.md, Typing expressions, Index).
#[derive(Clone, Copy, PartialEq, Eq)]
pub enum Reading {
    /// As a value.
    Value,
    /// In the left of `??`.
    Left,
}
