// The answers were worked out by hand from docs/language.md, Reports, and docs/script.md, Replies. A diagnostic is written as
// `FILE LINE COLUMN CODE TEXT`. Files and texts go by their bytes: B is 66, a is 97, - is 45, . is 46 and / is 47.

/// A number and diagnostics, and the report of that number.
pub(crate) const WRITTEN: &str = r#"
1| ¦ check 1 errors 0\n
2|a.hack 1 28 4001 expected int, found string ¦ check 2 errors 1\na.hack:1:28 4001 expected int, found string\n
30|src/B-1.hack 10 9 1002 |a 7 1 1002 x y|a 7 1 1002 x y ¦ check 30 errors 3\nsrc/B-1.hack:10:9 1002 \na:7:1 1002 x y\na:7:1 1002 x y\n
18446744073709551615|\xff 4294967295 4294967295 65535 : ¦ check 18446744073709551615 errors 1\n\xff:4294967295:4294967295 65535 :\n
"#;

/// Diagnostics, and report 1 of them in the order of a report.
pub(crate) const ORDERED: &str = r#"
 ¦ check 1 errors 0\n
b 2 2 4001 x|b 2 2 4001 x|a 2 2 4001 x|b 2 2 4001 x ¦ check 1 errors 2\na:2:2 4001 x\nb:2:2 4001 x\n
a/b.hack 1 1 1 |aa 1 1 1 |a.hack 1 1 1 |a 9 9 9 z|a-b.hack 1 1 1 |B 9 9 9 z ¦ check 1 errors 6\nB:9:9 9 z\na:9:9 9 z\na-b.hack:1:1 1 \na.hack:1:1 1 \na/b.hack:1:1 1 \naa:1:1 1 \n
a 10 1 1 |a 9 10 1 |a 9 9 9 z|a 9 100 1  ¦ check 1 errors 4\na:9:9 9 z\na:9:10 1 \na:9:100 1 \na:10:1 1 \n
a 1 1 10000 |a 1 1 4001 z ¦ check 1 errors 2\na:1:1 4001 z\na:1:1 10000 \n
a 1 1 1 x y|a 1 1 1 x|a 1 1 1 Z|a 1 1 1 x y|a 1 1 1  ¦ check 1 errors 4\na:1:1 1 \na:1:1 1 Z\na:1:1 1 x\na:1:1 1 x y\n
"#;
