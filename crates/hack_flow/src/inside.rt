// Where a statement stands.

/// How many loops are around a statement, and whether `break` may stand there (docs/language.md, Typing statements).
#[derive(Clone, Copy)]
pub struct Inside {
    /// How many loops are around it.
    pub loops: u32,
    /// Whether a loop or a `switch` is around it.
    pub breakable: bool,
}
