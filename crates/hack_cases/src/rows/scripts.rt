// The answers were worked out by hand from docs/script.md. An outline has each command, of a `file` its text behind `=`, and how
// the reader stopped.

/// Scripts and their outlines, whatever the pieces: heads of each form, line ends that may be missing and those that may not,
/// bodies that are cut short or longer than they say, blanks, signs, needless zeros, names, and what stands behind `quit`.
pub(crate) const SCRIPTS: &str = r#"
 ¦ end
\n\n ¦ end
check ¦ check;end
\ncheck\n\n ¦ check;end
begin\nwait\ncheck\nquit\nrubbish ¦ begin;wait;check;quit
quit ¦ quit
drop a/B_9.- ¦ drop a/B_9.-;end
drop a\ndrop b\n ¦ drop a;drop b;end
file a 3\na\nb\ncheck\n ¦ file a=a\nb;check;end
file a 3\na\nb ¦ file a=a\nb;end
file a 0\n\nfile b 0\n ¦ file a=;file b=;end
file a 1\n\n\n\ncheck ¦ file a=\n;check;end
file a 0 ¦ bad 1
\nfile a 2\nb ¦ file abad 2
file a 2\n\n\n\n\nfile b 4\nc ¦ file a=\n\n;file bbad 6
file a 1\nbc\n ¦ file abad 1
check \n ¦ bad 1
 check\n ¦ bad 1
check\x0d\n ¦ bad 1
\tcheck ¦ bad 1
drop  a\n ¦ bad 1
drop a \n ¦ bad 1
file a  1\nb\n ¦ bad 1
file a 1 \nb\n ¦ bad 1
file a 01\nb\n ¦ bad 1
file a +1\nb\n ¦ bad 1
file a -1\n ¦ bad 1
file a \n ¦ bad 1
file  1\n ¦ bad 1
file a\n ¦ bad 1
file a 1048577\n ¦ bad 1
file a 18446744073709551617\nb\n ¦ bad 1
check\ncheck\n\nchec\ncheck\n ¦ check;check;bad 4
Check\n ¦ bad 1
checkx\n ¦ bad 1
drop\n ¦ bad 1
drop \n ¦ bad 1
drop a:b\n ¦ bad 1
end ¦ bad 1
"#;

/// Names of 255 bytes and more, and bodies up to the limit and above it.
pub(crate) const LIMITS: &str = r#"
file \*255«n» 1\nb\n\n ¦ file \*255«n»=b;end
file \*256«n» 1\nb\n\n ¦ bad 1
file \*295«n» 1\nb\n\n ¦ bad 1
file \*400«n» 1\nb\n\n ¦ bad 1
file \*255«n» 70000\n\*4375«bbbbbbbbbbbbbbbb»\n\n ¦ file \*255«n»=\*4375«bbbbbbbbbbbbbbbb»;end
file \*255«n» 1048576\n\*65536«bbbbbbbbbbbbbbbb»\n\n ¦ file \*255«n»=\*65536«bbbbbbbbbbbbbbbb»;end
file \*255«n» 1048577\n\*65536«bbbbbbbbbbbbbbbb»b\n\n ¦ bad 1
"#;

/// A failing pull, and a script by twos. The pulls give `ch`, `ec`, `k` LF, `fi`, `le`, ` a`, ` 4`, LF `a`, and then straight
/// into the body `bc` and `d`; LF `c`, `he`, `ck`, and the end. A line of 300 bytes may still get its LF, and one of 301 bytes
/// is in no form, whatever comes.
pub(crate) const FAULTS: &str = r#"
!check\nfile a 4\nabcd\ncheck ¦ fault
!!!check\nfile a 4\nabcd\ncheck ¦ fault
!!!!check\nfile a 4\nabcd\ncheck ¦ check;fault
!!!!!!!!check\nfile a 4\nabcd\ncheck ¦ check;fault
!!!!!!!!!check\nfile a 4\nabcd\ncheck ¦ check;file afault
!!!!!!!!!!!check\nfile a 4\nabcd\ncheck ¦ check;file afault
!!!!!!!!!!!!check\nfile a 4\nabcd\ncheck ¦ check;file a=abcd;fault
!!!!!!!!!!!!!!check\nfile a 4\nabcd\ncheck ¦ check;file a=abcd;fault
!!!!!!!!!!!!!!!check\nfile a 4\nabcd\ncheck ¦ check;file a=abcd;check;end
\*151«!»\*300«x» ¦ fault
\*152«!»\*301«x» ¦ bad 1
"#;

/// Replies and their bytes.
pub(crate) const REPLIES: &str = r#"
edit 12 ¦ edit 12\n
no file ¦ no file\n
report 3 ¦ check 3 errors 0\n
cancelled 4 ¦ check 4 cancelled\n
"#;
