// Worked out by hand: names are in the order of their bytes by the numbers of these, where a name comes before each longer one
// that begins with it. The length of the builtin text was counted line by line: 30 + 64 + 52 + 47 + 53 + 62 + 39 + 63 + 66
// and 2 bytes.

/// Bytes, and how they come back.
pub(crate) const BYTES: &str = r#"
 ¦ ||
a ¦ a|a|a
a.hack\n\x00\xff\x20 ¦ a.hack\n\x00\xff\x20|a.hack\n\x00\xff\x20|a.hack\n\x00\xff\x20
"#;

/// Names in their order, and how many pairs of them stand as their places do.
pub(crate) const NAMES: &str = r#"
,-,.,/,9,Z,_,a,a.a,aa,b,\xff ¦ 144
"#;

/// The length and the first line of the builtin text.
pub(crate) const BUILTIN: &str = r#"
 ¦ 478 interface Traversable<+Tv> {}
"#;
