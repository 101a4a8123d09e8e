// The answers were worked out by hand from what the types say of their pieces and failing calls. `streams.rt` says how a row is
// written. Texts are the letters over and over, so that no two bytes near each other are alike.

/// Readers, pulls and what they give. A pull is one read, also where the read before failed or gave nothing, for the shortest
/// slice and for a long one. In the first row the fourth read fails, and the sixth gives nothing. In the second the reads give
/// two bytes, an error, two more and two, one, and then nothing.
pub(crate) const READS: &str = r#"
65536 6 4|1 8 65536 65536 1 8 8 1 65536|\*7692«abcdefghijklmnopqrstuvwxyz»abcdefgh ¦ 1:a, 8:bcdefghi, 65536:jklmnopqrstuvwxyz\*2519«abcdefghijklmnopqrstuvwxyz»abcdefghijklmnopqrstuvwxy, !, 1:z, 0:, 8:abcdefgh, 1:i, 65536:jklmnopqrstuvwxyz\*2519«abcdefghijklmnopqrstuvwxyz»abcdefghijklmnopqrstuvwxy, 9
2 0 2|3 3 3 3 3 3 3|ab\x00\xffefg ¦ 2:ab, !, 2:\x00\xff, 2:ef, 1:g, 0:, 0:, 7
"#;

/// Writers, pieces, and what was written. A push of a piece that the writer takes whole is one write, and none for an empty
/// piece, also where the push before failed. In the second row the writes are two bytes, two, nothing, two, an error, and one.
pub(crate) const WRITES: &str = r#"
1000000 0 2|\*9«abcdefghijklmnopqrstuvwxyz»abcdefghijklmnopqrstuv||\*39«abcdefghijklmnopqrstuvwxyz»abcdefghijk|\*39«abcdefghijklmnopqrstuvwxyz»abcdefghijk||\*2520«abcdefghijklmnopqrstuvwxyz»abcdefghijklmnopq|a| ¦ ..!.... 5:\*9«abcdefghijklmnopqrstuvwxyz»abcdefghijklmnopqrstuv\*39«abcdefghijklmnopqrstuvwxyz»abcdefghijk\*2520«abcdefghijklmnopqrstuvwxyz»abcdefghijklmnopqa
2 3 5|\xff\x00cde|fg|hij|k| ¦ !.!. 6:\xff\x00cdfgk
"#;

/// Sources in memory, and what pulls give.
pub(crate) const SOURCES: &str = r#"
1|3 3 3 3 3 3| ¦ 0:, 0:, 0:, 0:, 0:, 0:,
2|3 3 3 3 3 3|abcdefg ¦ 2:ab, 2:cd, 2:ef, 1:g, 0:, 0:,
9|3 3 3 3 3 3|abcdefg ¦ 3:abc, 3:def, 1:g, 0:, 0:, 0:,
3 2 3|3 3 3 3 3 3|abcde ¦ 3:abc, !, !, 2:de, 0:, 0:,
5 4 1|3 3 3 3 3 3|ab ¦ !, 2:ab, 0:, !, 0:, 0:,
"#;

/// Sinks in memory, and what pushes give.
pub(crate) const SINKS: &str = r#"
5 0|ab||cde| ¦ ...:abcde
4 0|abc|de|f| ¦ .!.:abcf
4 9|abc|de|f| ¦ .!!:abcd
9 2 3 1|abc|de|f|g| ¦ !.!.:abdefg
0 1||a| ¦ .!:
"#;
