// The units and places were worked out by hand from docs/language.md, First units, and docs/script.md, Places.

/// Files and what is a first unit in them.
pub(crate) const UNITS: &str = r#"
 ¦ all
 \n  \n ¦ all
function f(): int { return 'x'; } ¦ f@1:10 int string@1:28 all
function f(): int { return g ( ) ; } ¦ f@1:10 int g()@1:28 all
function f():int{return 0;}function g():string{return'';} ¦ f@1:10 int int@1:25 g@1:37 string string@1:54 all
function f(): int { return 1; }\nfunction g(): string {\n  return f();\n}\n ¦ f@1:10 int int@1:28 g@2:10 string f()@3:10 all
function f(): string { return 'a\nb'; } function g(): int { return 2; } ¦ f@1:10 string string@1:31 g@2:16 int int@2:34 all
function ints(): int { return\nIf(); } ¦ ints@1:10 int If()@2:1 all
function\n  f(): int { return 1; } ¦ f@2:3 int int@2:21 all
<?hh // first\nfunction f(): int {\treturn /* hex */ 0xFF; }\x0d\n ¦ f@2:10 int int@2:38 all
function f(): int { return "a\\"b"; } function g(): string { return ""; } ¦ f@1:10 int string@1:28 g@1:47 string string@1:68 all
function f(): int { return 1; } function f(): int { return f(); } ¦ f@1:10 int int@1:28 f@1:42 int f()@1:60 all
class C {} ¦ -
function f(): int { return 1; } class C {} ¦ f@1:10 int int@1:28 -
class C {} function f(): int { return 1; } ¦ - f@1:21 int int@1:39
<<A>> function f(): int { return 1; } ¦ -
function f<T>(): int { return 1; } ¦ -
function f(int $x): int { return 1; } ¦ -
function f() { return 1; } ¦ -
function f(): bool { return 1; } ¦ -
function f(): ?int { return 1; } ¦ -
function f(): int { } ¦ -
function f(): int { return; } ¦ -
function f(): int { return 1; return 1; } ¦ -
function f(): int { { return 1; } } ¦ -
function f(): int { return 1.0; } ¦ -
function f(): int { return $g; } ¦ -
function f(): int { return G; } ¦ -
function f(): int { return (1); } ¦ -
function f(): int { return -1; } ¦ -
function f(): int { return g(1); } ¦ -
function function(): int { return 1; } ¦ fault
function int(): int { return 1; } ¦ fault
function f(): int { return if(); } ¦ fault
Function f(): int { return 1; } ¦ fault
function f(a): int { return 1; } ¦ fault
function f(): int { return 1 } ¦ fault
function f(): int { return 1; } } ¦ fault
function f(): int { return 1; } function g ¦ fault
function f(): int { return f()(); } ¦ fault
function f(): int { return 08; } ¦ fault
function f(): int { return 1; } /* open ¦ fault
function f(): int { return 9223372036854775808; } ¦ fault
"#;
