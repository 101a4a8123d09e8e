// The replies were worked out by hand from docs/script.md and docs/language.md. Scripts of which nothing else is asked than what
// they print stand in tests/scripts.

/// Scripts, their statuses and their replies, whatever the pieces.
pub(crate) const SERVED: &str = r#"
check\nfile a.hack 10\nfunction  ¦ 3 bad script at line 2|check 1 errors 0\n
check\nbegin\nwait\n ¦ 10 not built|check 1 errors 0\n
quit\n\x00file ¦ 0 |
file b 38\nfunction p(): int {\nreturn\n  'a\nb' ; }\nfile a 68\nfunction q(): string { return 1; } function r(): int { return q(); }\ncheck\nfile b 0\n\ncheck\n ¦ 0 |edit 1\nedit 2\ncheck 1 errors 3\na:1:31 4001 expected string, found int\na:1:63 4001 expected int, found string\nb:3:3 4001 expected int, found string\nedit 3\ncheck 2 errors 2\na:1:31 4001 expected string, found int\na:1:63 4001 expected int, found string\n
"#;

/// Scripts in pieces of one byte, of which the pull fails whose number is that of the `!` ahead, or the push whose number is
/// that of the `#`, which keeps four bytes. Status, replies, and what the source still has: each reply is one push, and is
/// written before the next command is read.
pub(crate) const STOPPED: &str = r#"
#file a 31\nfunction f(): int { return 1; }\ncheck\ndrop a\ndrop a\ncheck\n ¦ 5 write fault|edit|check\ndrop a\ndrop a\ncheck\n
##file a 31\nfunction f(): int { return 1; }\ncheck\ndrop a\ndrop a\ncheck\n ¦ 5 write fault|edit 1\nchec|drop a\ndrop a\ncheck\n
###file a 31\nfunction f(): int { return 1; }\ncheck\ndrop a\ndrop a\ncheck\n ¦ 5 write fault|edit 1\ncheck 1 errors 0\nedit|drop a\ncheck\n
####file a 31\nfunction f(): int { return 1; }\ncheck\ndrop a\ndrop a\ncheck\n ¦ 5 write fault|edit 1\ncheck 1 errors 0\nedit 2\nno f|check\n
#####file a 31\nfunction f(): int { return 1; }\ncheck\ndrop a\ndrop a\ncheck\n ¦ 5 write fault|edit 1\ncheck 1 errors 0\nedit 2\nno file\nchec|
######file a 31\nfunction f(): int { return 1; }\ncheck\ndrop a\ndrop a\ncheck\n ¦ 0 |edit 1\ncheck 1 errors 0\nedit 2\nno file\ncheck 2 errors 0\n|
#check\ncheck\n ¦ 5 write fault|chec|check\n
##check\ncheck\n ¦ 5 write fault|check 1 errors 0\nchec|
##file a.hack 33\nfunction f(): int { return 'x'; }\ncheck\ncheck\n ¦ 5 write fault|edit 1\nchec|check\n
###file a.hack 33\nfunction f(): int { return 'x'; }\ncheck\ncheck\n ¦ 5 write fault|edit 1\ncheck 1 errors 1\na.hack:1:28 4001 expected int, found string\nchec|
!!!check\n ¦ 4 read fault||eck\n
\*7«!»check\ncheck\n ¦ 4 read fault|check 1 errors 0\n|check\n
\*13«!»check\ncheck\n ¦ 4 read fault|check 1 errors 0\ncheck 2 errors 0\n|
"#;

/// Statuses by their letters, their numbers and their lines, of docs/script.md, Statuses.
pub(crate) const STATUSES: &str = r#"
done ¦ 0\x20
script ¦ 3 bad script at line 12
read ¦ 4 read fault
write ¦ 5 write fault
too long ¦ 9 script too long
built ¦ 10 not built
memory ¦ 71 no memory
"#;
