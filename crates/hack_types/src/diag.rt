// Diagnostics: what a report lists.

use crate::Place;
use hack_base::Bytes;

/// One finding: where it stands, its stable code and its text (docs/language.md, Diagnostics). Findings go by place, code
/// and text, in this order of the fields (docs/definitions.md, Report).
#[derive(Debug, PartialEq, Eq, PartialOrd, Ord, Drop)]
pub struct Diag {
    /// The first byte of what it speaks of.
    pub at: Place,
    /// The number that names the rule.
    pub code: u16,
    /// What it says, in one line without an LF.
    pub text: Bytes,
}

/// A finding in the file of this name. They go by file, and then as findings do: in the order of a report
/// (docs/definitions.md, Report).
#[derive(Debug, PartialEq, Eq, PartialOrd, Ord, Drop)]
pub struct FileDiag {
    /// The file's name.
    pub file: Bytes,
    /// What was found there.
    pub diag: Diag,
}
