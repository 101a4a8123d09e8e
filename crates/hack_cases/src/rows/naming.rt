// The definitions' cases, worked out by hand: by file in bytes, where an upper letter comes before each lower one, then by line
// and column, then by position in the list. `b` is in no table.

/// Files that are put and taken out, then what counts of a class, a function, a constant and another class, and what loses.
pub(crate) const STEPS: &str = r#"
+a ¦ a0;a3;a1;-; but not a2;
+a +ab ¦ a0;a3;a1;ab1; but not a2; ab0;
+a +ab +B ¦ B2;B1;a1;ab1; but not B0; a3; a0; a2; ab0;
+a +ab +B -a ¦ B2;B1;-;ab1; but not B0; ab0;
+a +ab +B -a -b ¦ B2;B1;-;ab1; but not B0; ab0;
+a +ab +B -a -b -B ¦ ab0;-;-;ab1; but not
+a +ab +B -a -b -B +a ¦ a0;a3;a1;ab1; but not a2; ab0;
"#;
