// Small texts, worked out by hand from the rule on `Cases::new`.

/// Words, and their values in a table of `a`, `ab` and `b`.
pub(crate) const WORDS: &str = r#"
a ¦ 7
ab ¦ 5
b ¦ 9
 ¦ -
aa ¦ -
abc ¦ -
c ¦ -
\x20 ¦ -
a ab ¦ -
"#;

/// Texts, and whether they make a table of two words.
pub(crate) const LISTS: &str = r#"
a b ¦ a table
a aa ¦ a table
b a ¦ none
a a ¦ none
a  b ¦ none
\x20a b ¦ none
a b\x20 ¦ none
a ¦ none
a b c ¦ none
 ¦ none
\x20 ¦ none
"#;

/// Texts, whether they make a table of no words, and that no cases make one.
pub(crate) const NO_WORDS: &str = r#"
 ¦ a table a table
\x20 ¦ none a table
"#;
