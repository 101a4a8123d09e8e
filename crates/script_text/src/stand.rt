// Where a reader stands in the forms of a script.

/// Where a reader stands in the forms of a script (docs/script.md, Form).
#[derive(Clone, Copy, Debug, PartialEq, Eq)]
pub enum Stand {
    /// Where a command may begin.
    BeforeHead,
    /// Behind the head of a `file`, whose body has so many bytes.
    BeforeBody(u64),
    /// Behind `quit`. Nothing further is looked at.
    Over,
}
