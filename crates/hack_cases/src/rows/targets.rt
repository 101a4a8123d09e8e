// Assignment, and index in the left of `??`. Each answer was worked out by hand from docs/language.md, Typing expressions, and then held
// against two other programs; none was taken from this one. A row is as in expressions.rt: declarations, of which the last is a function, or a
// class of which the last member is a method, that returns the expression; and its type, the variables that it changes, and the diagnostics in
// the order in which they come, also where one of them comes twice. Lines behind `--` name the part of docs/language.md.

/// Declarations, and what the expression that the last of them returns gives.
pub(crate) const TARGETS: &str = r#"
-- Assignment: a variable has the type from here on, and isn't read
function f(): void { return\n$x = 1; } ¦ int; $x: int
function f(int $x): void { return\n$x = 'a'; } ¦ string; $x: string
function f(int $x): void { return\n$x = 1; } ¦ int
function f(): void { return\n$x = null; } ¦ null; $x: null
function f(): void { return\n$x = vec[]; } ¦ vec<nothing>; $x: vec<nothing>
function f(): void { return\n$x = $x; } ¦ _; $x: _; 1:6 4005 variable $x is not defined here
function f(): void { return\n$x = $y; } ¦ _; $x: _; 1:6 4005 variable $y is not defined here
function f(int $y): void { return\n$x = $y; } ¦ int; $x: int
function f(): void { return\n$x = $y = 1; } ¦ int; $x: int; $y: int
function f(): void { return\nvec[$x = 1, $x]; } ¦ vec<int>; $x: int
function f(): void { return\nvec[$x, $x = 1]; } ¦ vec<_>; $x: int; 1:5 4005 variable $x is not defined here
function f(int $x): void { return\n$x = $x . 'a'; } ¦ string; $x: string
function f(mixed $x): void { return\n$x = $x as int; } ¦ int; $x: int
function f(): void { return\n$x = 1 + 'a'; } ¦ _; $x: _; 1:6 4012 operator + does not take int and string
function g(): noreturn {} function f(): void { return\n$x = g(); } ¦ nothing; $x: nothing
function g(): void {} function f(): void { return\n$x = g(); } ¦ void; $x: void
class C { public function m(): void { return\n$x = $this; } } ¦ this; $x: this
function f(): void { return\n$x = true ? 1 : 'a'; } ¦ (int|string); $x: (int|string)
function f(?int $y): void { return\n$x = $y ?? 'a'; } ¦ (int|string); $x: (int|string)
function f(): void { return\n$x = ($y = 1) + ($y = 2.5); } ¦ float; $x: float; $y: float
function g(int $a, string $b): bool {} function f(): void { return\ng($x = 1, $x); } ¦ bool; $x: int; 1:11 4001 expected string, found int
-- Assignment: any other target is typed first, then the right side, and then it is 4016 at it
function f(int $x): void { return\n($x) = 'a'; } ¦ string; 1:1 4016 this expression cannot be assigned to
function f(int $x): void { return\n$x = ('a'); } ¦ string; $x: string
function f(): void { return\n($x) = 'a'; } ¦ string; 1:2 4005 variable $x is not defined here; 1:1 4016 this expression cannot be assigned to
function f(): void { return\n1 = 'a'; } ¦ string; 1:1 4016 this expression cannot be assigned to
function f(): void { return\n'a' = $y; } ¦ _; 1:7 4005 variable $y is not defined here; 1:1 4016 this expression cannot be assigned to
class C { public function m(): void { return\n$this = 1; } } ¦ int; 1:1 4016 this expression cannot be assigned to
function f(): void { return\n$this = 1; } ¦ int; 1:1 4020 $this is not allowed here; 1:1 4016 this expression cannot be assigned to
function g(): int {} function f(): void { return\ng() = 1; } ¦ int; 1:1 4016 this expression cannot be assigned to
function f(): void { return\ng($y) = $z; } ¦ _; 1:3 4005 variable $y is not defined here; 1:1 4002 unbound function g; 1:9 4005 variable $z is not defined here; 1:1 4016 this expression cannot be assigned to
const int K = 1; function f(): void { return\nK = 2; } ¦ int; 1:1 4016 this expression cannot be assigned to
function f(): void { return\nK = 2; } ¦ int; 1:1 4003 unbound constant K; 1:1 4016 this expression cannot be assigned to
class C { const int K = 1; } function f(): void { return\nC::K = 2; } ¦ int; 1:1 4016 this expression cannot be assigned to
class C { public static function m(): int {} } function f(): void { return\nC::m() = 2; } ¦ int; 1:1 4016 this expression cannot be assigned to
class C { public function m(): int {} } function f(C $x): void { return\n$x->m() = 2; } ¦ int; 1:1 4016 this expression cannot be assigned to
class C {} function f(): void { return\nnew C() = 2; } ¦ int; 1:1 4016 this expression cannot be assigned to
function f(int $x): void { return\n$x + 1 = 2; } ¦ int; 1:1 4016 this expression cannot be assigned to
function f(bool $x): void { return\n!$x = 2; } ¦ int; 1:1 4016 this expression cannot be assigned to
function f(int $x): void { return\n(int) $x = 'a'; } ¦ string; 1:1 4016 this expression cannot be assigned to
function f(mixed $x): void { return\n$x as int = 'a'; } ¦ string; $x: int; 1:1 4016 this expression cannot be assigned to
function f(int $x): void { return\n$x++ = 'a'; } ¦ string; 1:1 4016 this expression cannot be assigned to
function f(bool $c, int $x): void { return\n$c ? 1 : $x = 'a'; } ¦ string; 1:1 4016 this expression cannot be assigned to
function f(int $x): void { return\n1 + $x = 'a'; } ¦ string; 1:1 4016 this expression cannot be assigned to
function f(): void { return\nvec[1] = vec[]; } ¦ vec<nothing>; 1:1 4016 this expression cannot be assigned to
function f(): void { return\n$x = 1 = 'a'; } ¦ string; $x: string; 1:6 4016 this expression cannot be assigned to
function f(): void { return\n($x = 1) = 'a'; } ¦ string; $x: int; 1:1 4016 this expression cannot be assigned to
function f(): void { return\nvec[1 = 2]; } ¦ vec<int>; 1:5 4016 this expression cannot be assigned to
-- Assignment: a property expects its type, with 4001 at the right side
class C { public int $p = 0; public static int $s = 0; } function f(C $x): void { return\n$x->p = 1; } ¦ int
class C { public int $p = 0; public static int $s = 0; } function f(C $x): void { return\n$x->p = 'a'; } ¦ string; 1:9 4001 expected int, found string
class C { public int $p = 0; public static int $s = 0; } function f(C $x): void { return\n$x->p = ('a'); } ¦ string; 1:9 4001 expected int, found string
class C { public int $p = 0; public static int $s = 0; } function f(): void { return\nC::$s = 1; } ¦ int
class C { public int $p = 0; public static int $s = 0; } function f(): void { return\nC::$s = 'a'; } ¦ string; 1:9 4001 expected int, found string
class C { public num $p = 0; } function f(C $x): void { return\n$x->p = 1; } ¦ int
class C { public int $p = 0; } function f(C $x, num $y): void { return\n$x->p = $y; } ¦ num; 1:9 4001 expected int, found num
class C { public int $p = 0; } function f(?C $x): void { return\n$x->p = 'a'; } ¦ string; 1:1 4010 value may be null; 1:9 4001 expected int, found string
class C { public int $p = 0; } function f(?C $x): void { return\n$x?->p = 'a'; } ¦ string; 1:10 4001 expected ?int, found string
class C { public int $p = 0; } function f(?C $x): void { return\n$x?->p = null; } ¦ null
class C { public int $p = 0; } function f(C $x): void { return\n$x?->p = null; } ¦ null; 1:10 4001 expected int, found null
class C { public int $p = 0; } class D { public string $p = ''; } function f(C $x, D $x): void { return\n$x->p = 1.5; } ¦ float; 1:9 4001 expected (int|string), found float
class C { public int $p = 0; } class D { public string $p = ''; } function f(C $x, D $x): void { return\n$x->p = 1; } ¦ int
class C {} function f(C $x): void { return\n$x->p = 1; } ¦ int; 1:1 4007 type C has no property p
function f(mixed $x): void { return\n$x->p = 1; } ¦ int; 1:1 4007 type mixed has no property p
function f(): void { return\n$y->p = $z; } ¦ _; 1:1 4005 variable $y is not defined here; 1:9 4005 variable $z is not defined here
class C { private int $p = 0; } function f(C $x): void { return\n$x->p = 'a'; } ¦ string; 1:1 4009 p of C is not visible here; 1:9 4001 expected int, found string
class C { public static int $p = 0; } function f(C $x): void { return\n$x->p = 'a'; } ¦ string; 1:1 4018 p is used against its static modifier; 1:9 4001 expected int, found string
class C { public int $p = 0; } function f(): void { return\nC::$p = 'a'; } ¦ string; 1:1 4018 p is used against its static modifier; 1:9 4001 expected int, found string
function f(): void { return\nC::$p = 1; } ¦ int; 1:1 3001 unbound type C
function f(): void { return\nself::$p = 1; } ¦ int; 1:1 4020 self is not allowed here
class C<T> { public vec<T> $p = vec[]; } function f(C<int> $x): void { return\n$x->p = vec['a']; } ¦ vec<string>; 1:9 4001 expected vec<int>, found vec<string>
class C<T> { public ?T $p = null; public function m(): void { return\n$this->p = 1; } } ¦ int; 1:12 4001 expected ?T, found int
class C { public ?this $p = null; public function m(): void { return\n$this->p = $this; } } ¦ this
class C { public ?this $p = null; public function m(): void { return\n$this->p = new C(); } } ¦ C; 1:12 4001 expected ?this, found C
class C { public static ?this $p = null; public function m(): void { return\nstatic::$p = new self(); } } ¦ C; 1:14 4001 expected ?this, found C
class C extends Missing {} function f(C $x): void { return\n$x->p = 1; } ¦ int
class C { public int $p = 0; public string $q = ''; } function f(C $x): void { return\n$x->p = $x->q = 1; } ¦ int; 1:17 4001 expected string, found int
class C { public int $p = 0; } function f(C $x): void { return\n($x->p) = 'a'; } ¦ string; 1:1 4016 this expression cannot be assigned to
class C { public int $p = 0; } function f(C $x): void { return\n($x)->p = 'a'; } ¦ string; 1:11 4001 expected int, found string
class C { public ?C $c = null; public int $p = 0; } function f(C $x): void { return\n$x->c->p = 'a'; } ¦ string; 1:1 4010 value may be null; 1:12 4001 expected int, found string
class C { public mixed $p = 0; } function f(C $x): void { return\n$x->p = $x = 1; } ¦ int; $x: int
class C { public mixed $p = 0; } function g(): void {} function f(C $x): void { return\n$x->p = g(); } ¦ void; 1:9 4001 expected mixed, found void
-- Assignment: a vec expects int, and takes the union
function f(vec<int> $x): void { return\n$x[0] = 1; } ¦ int
function f(vec<int> $x): void { return\n$x[0] = 'a'; } ¦ string; $x: vec<(int|string)>
function f(vec<int> $x): void { return\n$x[] = 1; } ¦ int
function f(vec<int> $x): void { return\n$x[] = null; } ¦ null; $x: vec<?int>
function f(vec<nothing> $x): void { return\n$x[] = 1; } ¦ int; $x: vec<int>
function f(vec<int> $x): void { return\n$x['a'] = 1; } ¦ int; 1:4 4001 expected int, found string
function f(vec<int> $x): void { return\n$x[1.5] = 'a'; } ¦ string; $x: vec<(int|string)>; 1:4 4001 expected int, found float
function f(vec<num> $x): void { return\n$x[0] = 1; } ¦ int; $x: vec<(num|int)>
function f(vec<int> $x): void { return\n$x[0] = $y; } ¦ _; $x: vec<_>; 1:9 4005 variable $y is not defined here
function f(vec<int> $x): void { return\n$x[$y] = 1; } ¦ int; 1:4 4005 variable $y is not defined here
function f(vec<mixed> $x): void { return\n$x[] = 1; } ¦ int
function f(vec<C<\*199«int, »int>> $x, D<\*199«int, »int> $y): void { return\n$x[] = $y; } ¦ D<\*199«int, »int>; $x: _
function f(vec<C<\*251«int, »int>> $x): void { return\n$x[] = 1; } ¦ int; $x: vec<(C<\*251«int, »int>|int)>
function f(vec<C<\*252«int, »int>> $x): void { return\n$x[] = 1; } ¦ int; $x: _
function f(vec<int> $x, vec<string> $y): void { return\n$x[0] = $y[0] = true; } ¦ bool; $x: vec<(int|bool)>; $y: vec<(string|bool)>
-- Assignment: a dict expects arraykey, and takes both unions; `dict[]` is 4013
function f(dict<string, int> $x): void { return\n$x['a'] = 1; } ¦ int
function f(dict<string, int> $x): void { return\n$x[0] = 'a'; } ¦ string; $x: dict<(string|int), (int|string)>
function f(dict<string, int> $x): void { return\n$x[1.5] = 1; } ¦ int; $x: dict<(string|float), int>; 1:4 4001 expected arraykey, found float
function f(dict<nothing, nothing> $x): void { return\n$x['a'] = 1; } ¦ int; $x: dict<string, int>
function f(dict<string, int> $x): void { return\n$x[] = 1; } ¦ int; $x: _; 1:1 4013 type dict<string, int> cannot be indexed so
function f(dict<string, int> $x, arraykey $y): void { return\n$x[$y] = 1; } ¦ int; $x: dict<(string|arraykey), int>
function f(dict<string, int> $x): void { return\n$x[$y] = 1; } ¦ int; $x: dict<_, int>; 1:4 4005 variable $y is not defined here
function f(dict<string, int> $x): void { return\n$x[$y] = $z; } ¦ _; $x: dict<_, _>; 1:4 4005 variable $y is not defined here; 1:10 4005 variable $z is not defined here
enum E: int { A = 1; } function f(dict<string, int> $x): void { return\n$x[E::A] = 1; } ¦ int; $x: dict<(string|E), int>
function f(dict<int, C<\*250«int, »int>> $x): void { return\n$x['a'] = 1; } ¦ int; $x: _
function f(dict<int, C<\*250«int, »int>> $x): void { return\n$x[0] = 1; } ¦ int; $x: dict<int, (C<\*250«int, »int>|int)>
-- Assignment: a keyset takes `[]` with arraykey, which the right side expects; with an index it is 4013
function f(keyset<int> $x): void { return\n$x[] = 1; } ¦ int
function f(keyset<int> $x): void { return\n$x[] = 'a'; } ¦ string; $x: keyset<(int|string)>
function f(keyset<int> $x): void { return\n$x[] = 1.5; } ¦ float; $x: keyset<(int|float)>; 1:8 4001 expected arraykey, found float
function f(keyset<int> $x): void { return\n$x[] = $y; } ¦ _; $x: keyset<_>; 1:8 4005 variable $y is not defined here
function f(keyset<int> $x): void { return\n$x[0] = 1; } ¦ int; $x: _; 1:1 4013 type keyset<int> cannot be indexed so
function f(keyset<nothing> $x): void { return\n$x[] = 'a'; } ¦ string; $x: keyset<string>
-- Assignment: a shape with a key string has this field, which is there, with the new type; another index is 4013
function f(shape('a' => int) $x): void { return\n$x['a'] = 'b'; } ¦ string; $x: shape('a' => string)
function f(shape('a' => int) $x): void { return\n$x['a'] = 1; } ¦ int
function f(shape('b' => int) $x): void { return\n$x['a'] = 'c'; } ¦ string; $x: shape('a' => string, 'b' => int)
function f(shape(?'a' => int) $x): void { return\n$x['a'] = 1; } ¦ int; $x: shape('a' => int)
function f(shape(?'a' => int, ...) $x): void { return\n$x['a'] = 1; } ¦ int; $x: shape('a' => int, ...)
function f(shape('a' => int, ...) $x): void { return\n$x['b'] = 1; } ¦ int; $x: shape('a' => int, 'b' => int, ...)
function f(shape() $x): void { return\n$x['a'] = $x['b'] = 1; } ¦ int; $x: shape('a' => int)
function f(shape('a' => int) $x): void { return\n$x[0] = 1; } ¦ int; $x: _; 1:1 4013 type shape('a' => int) cannot be indexed so
function f(shape('a' => int) $x): void { return\n$x[] = 1; } ¦ int; $x: _; 1:1 4013 type shape('a' => int) cannot be indexed so
function f(shape('a' => int) $x): void { return\n$x[('a')] = 1; } ¦ int; $x: _; 1:1 4013 type shape('a' => int) cannot be indexed so
function f(shape('a' => int) $x, string $y): void { return\n$x[$y] = 1; } ¦ int; $x: _; 1:1 4013 type shape('a' => int) cannot be indexed so
function f(shape('a' => int) $x): void { return\n$x["a"] = 'b'; } ¦ string; $x: shape('a' => string)
function f(shape('a' => C<\*252«int, »int>) $x): void { return\n$x['b'] = 1; } ¦ int; $x: shape('a' => C<\*252«int, »int>, 'b' => int)
function f(shape('a' => C<\*253«int, »int>) $x): void { return\n$x['b'] = 1; } ¦ int; $x: _
function f(shape('a' => C<\*253«int, »int>) $x): void { return\n$x['a'] = 1; } ¦ int; $x: shape('a' => int)
-- Assignment: a base whose head is `_` takes `_` without a code, and any other is 4013 with the head, and becomes `_`
function f(): void { return\n$y[0] = 1; } ¦ int; $y: _; 1:1 4005 variable $y is not defined here
function f(): void { return\n$y[] = 1; } ¦ int; $y: _; 1:1 4005 variable $y is not defined here
function f(Missing $x): void { return\n$x['a'] = 1; } ¦ int; $x: _
function f(Missing $x): void { return\n$x[] = 1; } ¦ int; $x: _
type A = A; function f(A $x): void { return\n$x[0] = 1; } ¦ int; $x: _
function f(): void { return\n$y[$z] = $w; } ¦ _; $y: _; 1:1 4005 variable $y is not defined here; 1:4 4005 variable $z is not defined here; 1:10 4005 variable $w is not defined here
function f(?vec<int> $x): void { return\n$x[0] = 1; } ¦ int; $x: _; 1:1 4013 type ?vec<int> cannot be indexed so
function f(null $x): void { return\n$x[] = 1; } ¦ int; $x: _; 1:1 4013 type null cannot be indexed so
function f(nothing $x): void { return\n$x[0] = 1; } ¦ int; $x: _; 1:1 4013 type nothing cannot be indexed so
function f(string $x): void { return\n$x[0] = 'a'; } ¦ string; $x: _; 1:1 4013 type string cannot be indexed so
function f(int $x): void { return\n$x[0] = 1; } ¦ int; $x: _; 1:1 4013 type int cannot be indexed so
function f(mixed $x): void { return\n$x['a'] = 1; } ¦ int; $x: _; 1:1 4013 type mixed cannot be indexed so
function f(vec<int> $x, vec<string> $x): void { return\n$x[0] = 1; } ¦ int; $x: _; 1:1 4013 type (vec<int>|vec<string>) cannot be indexed so
interface Traversable<+Tv> {} interface KeyedTraversable<+Tk, +Tv> extends Traversable<Tv> {} interface Container<+Tv> extends Traversable<Tv> {} interface KeyedContainer<+Tk as arraykey, +Tv> extends Container<Tv>, KeyedTraversable<Tk, Tv> {} function f(KeyedContainer<int, int> $x): void { return\n$x[0] = 1; } ¦ int; $x: _; 1:1 4013 type KeyedContainer<int, int> cannot be indexed so
class C extends Missing {} function f(C $x): void { return\n$x[0] = 1; } ¦ int; $x: _; 1:1 4013 type C cannot be indexed so
type A = vec<int>; function f(A $x): void { return\n$x[] = 'a'; } ¦ string; $x: vec<(int|string)>
type A = vec<int>; function f(A $x): void { return\n$x[] = 1; } ¦ int; $x: vec<int>
type A = ?vec<int>; function f(A $x): void { return\n$x[] = 1; } ¦ int; $x: _; 1:1 4013 type ?vec<int> cannot be indexed so
function f<T as vec<int>>(T $x): void { return\n$x[] = 1; } ¦ int; $x: vec<int>
function f<T>(T $x): void { return\n$x[] = 1; } ¦ int; $x: _; 1:1 4013 type mixed cannot be indexed so
-- Assignment: elements of elements, from the inside out; what stands inside is read with all codes of a value
function f(vec<vec<int>> $x): void { return\n$x[0][1] = 'a'; } ¦ string; $x: vec<(vec<int>|vec<(int|string)>)>
function f(vec<vec<int>> $x): void { return\n$x[0][1] = 1; } ¦ int
function f(vec<vec<int>> $x): void { return\n$x[0][] = 1; } ¦ int
function f(shape('a' => shape('b' => int)) $x): void { return\n$x['a']['b'] = 'c'; } ¦ string; $x: shape('a' => shape('b' => string))
function f(shape('a' => vec<int>) $x): void { return\n$x['a'][] = 'c'; } ¦ string; $x: shape('a' => vec<(int|string)>)
function f(shape('a' => shape('b' => shape('c' => int))) $x): void { return\n$x['a']['b']['c'] = 'd'; } ¦ string; $x: shape('a' => shape('b' => shape('c' => string)))
function f(shape(?'a' => vec<int>) $x): void { return\n$x['a'][] = 1; } ¦ int; $x: shape('a' => vec<int>); 1:1 4015 field 'a' may be missing
function f(shape('a' => int) $x): void { return\n$x['b']['c'] = 1; } ¦ int; $x: shape('a' => int, 'b' => _); 1:1 4014 shape has no field 'b'
function f(shape('a' => int) $x): void { return\n$x['a']['c'] = 1; } ¦ int; $x: shape('a' => _); 1:1 4013 type int cannot be indexed so
function f(vec<int> $x): void { return\n$x[][0] = 1; } ¦ int; $x: vec<_>; 1:1 4013 type vec<int> cannot be indexed so
function f(dict<string, dict<string, int>> $x): void { return\n$x['a']['b'] = 'c'; } ¦ string; $x: dict<string, (dict<string, int>|dict<string, (int|string)>)>
function f(dict<string, dict<string, int>> $x): void { return\n$x[0]['b'] = 1; } ¦ int; $x: dict<(string|int), dict<string, int>>; 1:4 4001 expected string, found int
function f(dict<string, int> $x): void { return\n$x[1.5][0] = 1; } ¦ int; $x: dict<(string|float), _>; 1:4 4001 expected string, found float; 1:1 4013 type int cannot be indexed so; 1:4 4001 expected arraykey, found float
function f(?vec<vec<int>> $x): void { return\n$x[0][1] = 1; } ¦ int; $x: _; 1:1 4010 value may be null; 1:1 4013 type ?vec<vec<int>> cannot be indexed so
function f(vec<?vec<int>> $x): void { return\n$x[0][1] = 1; } ¦ int; $x: vec<_>; 1:1 4013 type ?vec<int> cannot be indexed so
function f(keyset<int> $x): void { return\n$x[0][1] = 1; } ¦ int; $x: _; 1:1 4013 type int cannot be indexed so; 1:1 4013 type keyset<int> cannot be indexed so
function f(vec<vec<int>> $x): void { return\n$x['a'][1] = 1; } ¦ int; 1:4 4001 expected int, found string; 1:4 4001 expected int, found string
function f(vec<string> $x): void { return\n$x[0][1] = 'a'; } ¦ string; $x: vec<_>; 1:1 4013 type string cannot be indexed so
interface Traversable<+Tv> {} interface KeyedTraversable<+Tk, +Tv> extends Traversable<Tv> {} interface Container<+Tv> extends Traversable<Tv> {} interface KeyedContainer<+Tk as arraykey, +Tv> extends Container<Tv>, KeyedTraversable<Tk, Tv> {} function f(vec<KeyedContainer<int, int>> $x): void { return\n$x[0][1] = 1; } ¦ int; $x: vec<_>; 1:1 4013 type KeyedContainer<int, int> cannot be indexed so
function f(): void { return\n$y['a'][0] = 1; } ¦ int; $y: _; 1:1 4005 variable $y is not defined here
function f(vec<vec<int>> $x): void { return\n$x[$a][$b] = $c; } ¦ _; $x: vec<(vec<int>|vec<_>)>; 1:4 4005 variable $a is not defined here; 1:8 4005 variable $b is not defined here; 1:14 4005 variable $c is not defined here
-- Assignment: the base is typed before the index, and the index before the right side
function f(vec<int> $x): void { return\n$x[$x = 1] = 'a'; } ¦ string; $x: vec<(int|string)>
function f(vec<int> $x): void { return\n$x[0] = $x = 'a'; } ¦ string; $x: vec<(int|string)>
function f(vec<int> $x): void { return\n$x[$i = 0] = $i; } ¦ int; $i: int
function f(vec<int> $x): void { return\n$x[$i] = $i = 0; } ¦ int; $i: int; 1:4 4005 variable $i is not defined here
function f(vec<int> $x): void { return\n$x[$x[] = 1.5] = 'a'; } ¦ string; $x: vec<(int|string)>; 1:4 4001 expected int, found float
function f(mixed $x): void { return\n$y[0] = ($y = $x); } ¦ mixed; $y: _; 1:1 4005 variable $y is not defined here
-- Assignment: elements of properties; 4001 of the new value at the right side
class C { public vec<int> $p = vec[]; public static dict<string, int> $s = dict[]; } function f(C $x): void { return\n$x->p[] = 1; } ¦ int
class C { public vec<int> $p = vec[]; public static dict<string, int> $s = dict[]; } function f(C $x): void { return\n$x->p[0] = 'a'; } ¦ string; 1:12 4001 expected vec<int>, found vec<(int|string)>
class C { public vec<int> $p = vec[]; public static dict<string, int> $s = dict[]; } function f(): void { return\nC::$s['a'] = 1; } ¦ int
class C { public vec<int> $p = vec[]; public static dict<string, int> $s = dict[]; } function f(): void { return\nC::$s[0] = 'a'; } ¦ string; 1:12 4001 expected dict<string, int>, found dict<(string|int), (int|string)>
class C { public shape('a' => int) $p; } function f(C $x): void { return\n$x->p['a'] = 'b'; } ¦ string; 1:14 4001 expected shape('a' => int), found shape('a' => string)
class C { public shape('a' => int) $p; } function f(C $x): void { return\n$x->p['b'] = 1; } ¦ int; 1:14 4001 expected shape('a' => int), found shape('a' => int, 'b' => int)
class C { public shape('a' => int, ...) $p; } function f(C $x): void { return\n$x->p['b'] = 1; } ¦ int
class C { public shape(?'a' => vec<int>) $p; } function f(C $x): void { return\n$x->p['a'][] = 1; } ¦ int; 1:1 4015 field 'a' may be missing
class C { public int $p = 0; } function f(C $x): void { return\n$x->p[0] = 1; } ¦ int; 1:1 4013 type int cannot be indexed so
class C {} function f(C $x): void { return\n$x->p[0] = 1; } ¦ int; 1:1 4007 type C has no property p
class C { public vec<int> $p = vec[]; } function f(?C $x): void { return\n$x->p[] = 'a'; } ¦ string; 1:1 4010 value may be null; 1:11 4001 expected vec<int>, found vec<(int|string)>
class C { public vec<int> $p = vec[]; } function f(?C $x): void { return\n$x?->p[] = 1; } ¦ int; 1:1 4013 type ?vec<int> cannot be indexed so
class C { public vec<int> $p = vec[]; } class D { public vec<int> $p = vec[]; } function f(C $x, D $x): void { return\n$x->p[] = 1.5; } ¦ float; 1:11 4001 expected vec<int>, found vec<(int|float)>
class C<T> { public vec<T> $p = vec[]; public function m(T $x): void { return\n$this->p[] = $x; } } ¦ T
class C<T> { public vec<T> $p = vec[]; public function m(): void { return\n$this->p[] = 1; } } ¦ int; 1:14 4001 expected vec<T>, found vec<(T|int)>
class C { public vec<C> $p = vec[]; } function f(C $x): void { return\n$x->p[0]->p[] = 1; } ¦ int; 1:17 4001 expected vec<C>, found vec<(C|int)>
class C { public int $p = 0; } function f(vec<C> $x): void { return\n$x[0]->p = 'a'; } ¦ string; 1:12 4001 expected int, found string
class C { public keyset<int> $p = keyset[]; } function f(C $x): void { return\n$x->p[] = 1.5; } ¦ float; 1:11 4001 expected arraykey, found float; 1:11 4001 expected keyset<int>, found keyset<(int|float)>
-- Assignment: elements of any other base, whose new value is made, and then 4016 at the base
function g(): vec<int> {} function f(): void { return\ng()[0] = 1; } ¦ int; 1:1 4016 this expression cannot be assigned to
function g(): vec<int> {} function f(): void { return\ng()['a'] = 1; } ¦ int; 1:5 4001 expected int, found string; 1:1 4016 this expression cannot be assigned to
function g(): int {} function f(): void { return\ng()[0] = 1; } ¦ int; 1:1 4013 type int cannot be indexed so; 1:1 4016 this expression cannot be assigned to
function f(vec<int> $x): void { return\n($x)[0] = 'a'; } ¦ string; 1:1 4016 this expression cannot be assigned to
function f(vec<int> $x): void { return\n($x[0]) = 'a'; } ¦ string; 1:1 4016 this expression cannot be assigned to
function f(): void { return\nvec[1][0] = 'a'; } ¦ string; 1:1 4016 this expression cannot be assigned to
class C { public function m(): void { return\n$this[0] = 1; } } ¦ int; 1:1 4013 type C cannot be indexed so; 1:1 4016 this expression cannot be assigned to
class C { const vec<int> K = vec[]; } function f(): void { return\nC::K[] = 1; } ¦ int; 1:1 4016 this expression cannot be assigned to
class C { public function m(): vec<int> {} } function f(C $x): void { return\n$x->m()[] = 1; } ¦ int; 1:1 4016 this expression cannot be assigned to
-- Assignment: `a op= b` is what `op` gives for a and b, with its 4012 at a
function f(int $x): void { return\n$x += 1; } ¦ int
function f(int $x): void { return\n$x += 1.5; } ¦ float; $x: float
function f(string $x): void { return\n$x += 1; } ¦ _; $x: _; 1:1 4012 operator + does not take string and int
function f(int $x): void { return\n$x -= 'a'; } ¦ _; $x: _; 1:1 4012 operator - does not take int and string
function f(int $x): void { return\n$x *= 2.5; } ¦ float; $x: float
function f(int $x): void { return\n$x /= 2; } ¦ num; $x: num
function f(int $x): void { return\n$x %= 2; } ¦ int
function f(num $x): void { return\n$x %= 2; } ¦ _; $x: _; 1:1 4012 operator % does not take num and int
function f(int $x): void { return\n$x .= 'a'; } ¦ string; $x: string
function f(bool $x): void { return\n$x .= 'a'; } ¦ _; $x: _; 1:1 4012 operator . does not take bool and string
function f(int $x): void { return\n$x &= 1; } ¦ int
function f(int $x): void { return\n$x |= 1.5; } ¦ _; $x: _; 1:1 4012 operator | does not take int and float
function f(int $x): void { return\n$x ^= 1; } ¦ int
function f(int $x): void { return\n$x **= 2; } ¦ num; $x: num
function f(float $x): void { return\n$x **= 2; } ¦ float
function f(): void { return\n$y += 1; } ¦ _; $y: _; 1:1 4005 variable $y is not defined here
function f(): void { return\n$y += 'a'; } ¦ _; $y: _; 1:1 4005 variable $y is not defined here
function f(): void { return\n$y += $z; } ¦ _; $y: _; 1:1 4005 variable $y is not defined here; 1:7 4005 variable $z is not defined here
function f(?int $x): void { return\n$x += 1; } ¦ _; $x: _; 1:1 4012 operator + does not take ?int and int
function f(int $x): void { return\n$x .= $x = 'a'; } ¦ string; $x: string
function f(int $x): void { return\n$x += $x = 1.5; } ¦ float; $x: float
function f(int $x): void { return\n$x += $x += 1.5; } ¦ float; $x: float
function f(int $x): void { return\n$x += 1 + 'a'; } ¦ _; $x: _; 1:7 4012 operator + does not take int and string
function f(int $x, nothing $y): void { return\n$x += $y; } ¦ _; $x: _
function f(int $x): void { return\nvec[$x .= 'a', $x]; } ¦ vec<string>; $x: string
enum E: int as int { A = 1; } function f(E $x): void { return\n$x += 1; } ¦ int; $x: int
-- Assignment: `a op= b` for a property, with 4001 at a
class C { public int $p = 0; public static int $s = 0; } function f(C $x): void { return\n$x->p += 1; } ¦ int
class C { public int $p = 0; public static int $s = 0; } function f(C $x): void { return\n$x->p += 1.5; } ¦ float; 1:1 4001 expected int, found float
class C { public int $p = 0; public static int $s = 0; } function f(C $x): void { return\nvec[$x->p /= 2]; } ¦ vec<num>; 1:5 4001 expected int, found num
class C { public int $p = 0; public static int $s = 0; } function f(): void { return\nC::$s .= 'a'; } ¦ string; 1:1 4001 expected int, found string
class C { public int $p = 0; } function f(C $x): void { return\n$x->p += 'a'; } ¦ _; 1:1 4012 operator + does not take int and string
class C { public int $p = 0; } function f(?C $x): void { return\n$x->p .= 'a'; } ¦ string; 1:1 4010 value may be null; 1:1 4001 expected int, found string
class C { public int $p = 0; } function f(?C $x): void { return\n$x?->p += 1; } ¦ _; 1:1 4012 operator + does not take ?int and int
class C { private int $p = 0; } function f(C $x): void { return\n$x->p += 1; } ¦ int; 1:1 4009 p of C is not visible here
class C {} function f(C $x): void { return\n$x->p += 1; } ¦ _; 1:1 4007 type C has no property p
class C { public num $p = 0; } function f(C $x): void { return\n$x->p += $x = 1; } ¦ num; $x: int
class C { public int $p = 0; } class D { public float $p = 0.0; } function f(C $x, D $x): void { return\n$x->p += 1; } ¦ num; 1:1 4001 expected (int|float), found num
-- Assignment: `a op= b` for an element types the parts of a once, and reads it with all codes
function f(vec<int> $x): void { return\n$x[0] += 1; } ¦ int
function f(vec<int> $x): void { return\n$x[0] += 1.5; } ¦ float; $x: vec<(int|float)>
function f(vec<int> $x): void { return\n$x[$y] += 1; } ¦ int; 1:4 4005 variable $y is not defined here
function f(vec<int> $x): void { return\n$x['a'] += 1; } ¦ int; 1:4 4001 expected int, found string; 1:4 4001 expected int, found string
function f(vec<int> $x): void { return\n$x[$i = 0] += $i; } ¦ int; $i: int
function f(vec<int> $x): void { return\n$x[] += 1; } ¦ _; $x: vec<_>; 1:1 4013 type vec<int> cannot be indexed so
function f(dict<string, int> $x): void { return\n$x['a'] .= 'b'; } ¦ string; $x: dict<string, (int|string)>
function f(dict<string, int> $x): void { return\n$x[1.5] += 1; } ¦ int; $x: dict<(string|float), int>; 1:4 4001 expected string, found float; 1:4 4001 expected arraykey, found float
function f(keyset<int> $x): void { return\n$x[0] += 1; } ¦ int; $x: _; 1:1 4013 type keyset<int> cannot be indexed so
function f(string $x): void { return\n$x[0] .= 'a'; } ¦ string; $x: _; 1:1 4013 type string cannot be indexed so
function f(shape('a' => int) $x): void { return\n$x['a'] .= 'b'; } ¦ string; $x: shape('a' => string)
function f(shape(?'a' => int) $x): void { return\n$x['a'] += 1; } ¦ int; $x: shape('a' => int); 1:1 4015 field 'a' may be missing
function f(shape('a' => int) $x): void { return\n$x['b'] += 1; } ¦ _; $x: shape('a' => int, 'b' => _); 1:1 4014 shape has no field 'b'
function f(shape('a' => int) $x): void { return\n$x[('a')] += 1; } ¦ _; $x: _; 1:1 4013 type shape('a' => int) cannot be indexed so; 1:1 4013 type shape('a' => int) cannot be indexed so
function f(?vec<int> $x): void { return\n$x[0] += 1; } ¦ _; $x: _; 1:1 4010 value may be null; 1:1 4013 type ?vec<int> cannot be indexed so
function f(): void { return\n$y[0] += 1; } ¦ _; $y: _; 1:1 4005 variable $y is not defined here
interface Traversable<+Tv> {} interface KeyedTraversable<+Tk, +Tv> extends Traversable<Tv> {} interface Container<+Tv> extends Traversable<Tv> {} interface KeyedContainer<+Tk as arraykey, +Tv> extends Container<Tv>, KeyedTraversable<Tk, Tv> {} function f(KeyedContainer<int, int> $x): void { return\n$x[0] += 1; } ¦ int; $x: _; 1:1 4013 type KeyedContainer<int, int> cannot be indexed so
function f(vec<vec<int>> $x): void { return\n$x[0][1] += 1.5; } ¦ float; $x: vec<(vec<int>|vec<(int|float)>)>
function f(shape('a' => shape('b' => int)) $x): void { return\n$x['a']['b'] .= 'c'; } ¦ string; $x: shape('a' => shape('b' => string))
function f(vec<string> $x): void { return\n$x[0] += 1; } ¦ _; $x: vec<_>; 1:1 4012 operator + does not take string and int
class C { public vec<int> $p = vec[]; } function f(C $x): void { return\n$x->p[0] += 1; } ¦ int
class C { public vec<int> $p = vec[]; } function f(C $x): void { return\n$x->p[0] += 1.5; } ¦ float; 1:1 4001 expected vec<int>, found vec<(int|float)>
class C { public keyset<int> $p = keyset[]; } function f(C $x): void { return\n$x->p[] .= 'a'; } ¦ _; 1:1 4013 type keyset<int> cannot be indexed so
-- Assignment: `a op= b` for any other target
function f(): void { return\n1 += 2; } ¦ int; 1:1 4016 this expression cannot be assigned to
function f(): void { return\n'a' += 2; } ¦ _; 1:1 4012 operator + does not take string and int; 1:1 4016 this expression cannot be assigned to
function f(int $x): void { return\n($x) += 2.5; } ¦ float; 1:1 4016 this expression cannot be assigned to
function g(): int {} function f(): void { return\ng() += $y; } ¦ _; 1:8 4005 variable $y is not defined here; 1:1 4016 this expression cannot be assigned to
class C { public function m(): void { return\n$this .= 'a'; } } ¦ _; 1:1 4012 operator . does not take this and string; 1:1 4016 this expression cannot be assigned to
function g(): vec<int> {} function f(): void { return\ng()[0] += 1.5; } ¦ float; 1:1 4016 this expression cannot be assigned to
-- Assignment: `++` and `--` are `+ 1` and `- 1`, at the place of the first token
function f(int $x): void { return\n$x++; } ¦ int
function f(int $x): void { return\n++$x; } ¦ int
function f(float $x): void { return\n$x--; } ¦ float
function f(num $x): void { return\n--$x; } ¦ num
function f(string $x): void { return\n$x++; } ¦ _; $x: _; 1:1 4012 operator + does not take string and int
function f(string $x): void { return\n++$x; } ¦ _; $x: _; 1:1 4012 operator + does not take string and int
function f(string $x): void { return\n$x--; } ¦ _; $x: _; 1:1 4012 operator - does not take string and int
function f(string $x): void { return\n--$x; } ¦ _; $x: _; 1:1 4012 operator - does not take string and int
function f(?int $x): void { return\n!$x++; } ¦ bool; $x: _; 1:2 4012 operator + does not take ?int and int
function f(?int $x): void { return\n!++$x; } ¦ bool; $x: _; 1:2 4012 operator + does not take ?int and int
function f(): void { return\n$y++; } ¦ _; $y: _; 1:1 4005 variable $y is not defined here
function f(): void { return\n++$y; } ¦ _; $y: _; 1:3 4005 variable $y is not defined here
function f(int $x): void { return\n-$x++; } ¦ int
function f(int $x): void { return\n$x++ + ++$x; } ¦ int
function f(int $x): void { return\n$x++ . $x; } ¦ string
enum E: int as int { A = 1; } function f(E $x): void { return\n$x++; } ¦ int; $x: int
enum E: int as int { A = 1; } class C { public E $p = E::A; } function f(C $x): void { return\n$x->p++; } ¦ int; 1:1 4001 expected E, found int
enum E: int as int { A = 1; } class C { public E $p = E::A; } function f(C $x): void { return\n!--$x->p; } ¦ bool; 1:2 4001 expected E, found int
class C<T as int> { public vec<T> $p = vec[]; public function m(): void { return\n$this->p[0]++; } } ¦ int; 1:1 4001 expected vec<T>, found vec<(T|int)>
class C { public int $p = 0; public static int $s = 0; } function f(C $x): void { return\n$x->p++; } ¦ int
class C { public int $p = 0; public static int $s = 0; } function f(): void { return\n--C::$s; } ¦ int
class C { public ?C $c = null; public int $p = 0; } function f(C $x): void { return\n++$x->c->p; } ¦ int; 1:3 4010 value may be null
class C { public string $p = ''; } function f(C $x): void { return\n++$x->p; } ¦ _; 1:1 4012 operator + does not take string and int
class C { public int $p = 0; } function f(?C $x): void { return\n$x?->p++; } ¦ _; 1:1 4012 operator + does not take ?int and int
function f(vec<int> $x): void { return\n$x[0]++; } ¦ int
function f(vec<int> $x): void { return\n++$x['a']; } ¦ int; 1:6 4001 expected int, found string; 1:6 4001 expected int, found string
function f(shape(?'a' => int) $x): void { return\n$x['a']++; } ¦ int; $x: shape('a' => int); 1:1 4015 field 'a' may be missing
function f(shape(?'a' => int) $x): void { return\n++$x['a']; } ¦ int; $x: shape('a' => int); 1:3 4015 field 'a' may be missing
function f(vec<string> $x): void { return\n--$x[0]; } ¦ _; $x: vec<_>; 1:1 4012 operator - does not take string and int
function f(keyset<int> $x): void { return\n++$x[0]; } ¦ int; $x: _; 1:3 4013 type keyset<int> cannot be indexed so
function f(vec<int> $x): void { return\n$x[]++; } ¦ _; $x: vec<_>; 1:1 4013 type vec<int> cannot be indexed so
function f(): void { return\n1++; } ¦ int; 1:1 4016 this expression cannot be assigned to
function f(): void { return\n++1; } ¦ int; 1:3 4016 this expression cannot be assigned to
function f(): void { return\n--'a'; } ¦ _; 1:1 4012 operator - does not take string and int; 1:3 4016 this expression cannot be assigned to
function f(int $x): void { return\n($x)++; } ¦ int; 1:1 4016 this expression cannot be assigned to
function f(int $x): void { return\n++($x); } ¦ int; 1:3 4016 this expression cannot be assigned to
function f(int $x): void { return\n$x++ ++; } ¦ int; 1:1 4016 this expression cannot be assigned to
function f(int $x): void { return\n++ ++$x; } ¦ int; 1:4 4016 this expression cannot be assigned to
class C { public function m(): void { return\n++$this; } } ¦ _; 1:1 4012 operator + does not take this and int; 1:3 4016 this expression cannot be assigned to
-- Assignment: `a ??= b` is the same with `??`, and a stands in its left
function f(?int $x): void { return\n$x ??= 1; } ¦ int; $x: int
function f(?int $x): void { return\n$x ??= 'a'; } ¦ (int|string); $x: (int|string)
function f(int $x): void { return\n$x ??= 'a'; } ¦ (int|string); $x: (int|string)
function f(?int $x): void { return\n$x ??= null; } ¦ ?int
function f(mixed $x): void { return\n$x ??= 1; } ¦ (nonnull|int); $x: (nonnull|int)
function f(null $x): void { return\n$x ??= 1; } ¦ int; $x: int
type A = ?int; function f(A $x): void { return\n$x ??= 1; } ¦ int; $x: int
function f(): void { return\n$y ??= 1; } ¦ _; $y: _; 1:1 4005 variable $y is not defined here
function f(?int $x): void { return\n$x ??= $y; } ¦ _; $x: _; 1:8 4005 variable $y is not defined here
function f(?int $x): void { return\n$x ??= $y = 1; } ¦ int; $x: int; $y: int
function f(?int $x, ?string $y): void { return\n$x ??= $y ??= true; } ¦ (int|string|bool); $x: (int|string|bool); $y: (string|bool)
function f(?C<\*253«int, »int> $x): void { return\n$x ??= 1; } ¦ _; $x: _
function f(?C<\*252«int, »int> $x): void { return\n$x ??= 1; } ¦ (C<\*252«int, »int>|int); $x: (C<\*252«int, »int>|int)
function f(shape(?'a' => int) $x): void { return\n$x['a'] ??= 1; } ¦ int; $x: shape('a' => int)
function f(shape(?'a' => int) $x): void { return\n$x['a'] ??= 'b'; } ¦ (int|string); $x: shape('a' => (int|string))
function f(shape(?'a' => int) $x): void { return\n$x['a'] ??= null; } ¦ ?int; $x: shape('a' => ?int)
function f(shape('a' => int) $x): void { return\n$x['b'] ??= 1; } ¦ _; $x: shape('a' => int, 'b' => _); 1:1 4014 shape has no field 'b'
function f(shape(?'a' => int) $x): void { return\n($x['a']) ??= 1; } ¦ int; 1:1 4016 this expression cannot be assigned to
function f(shape(?'a' => shape(?'b' => int)) $x): void { return\n$x['a']['b'] ??= 1; } ¦ int; $x: shape('a' => shape('b' => int)); 1:1 4015 field 'a' may be missing
function f(shape('a' => shape(?'b' => int)) $x): void { return\n$x['a']['b'] ??= 1; } ¦ int; $x: shape('a' => shape('b' => int))
function f(dict<string, ?int> $x): void { return\n$x['a'] ??= 1; } ¦ int
function f(dict<string, ?int> $x): void { return\n$x[0] ??= 1; } ¦ int; $x: dict<(string|int), ?int>; 1:4 4001 expected string, found int
function f(vec<?int> $x): void { return\n$x[] ??= 1; } ¦ _; $x: vec<_>; 1:1 4013 type vec<?int> cannot be indexed so
function f(?vec<int> $x): void { return\n$x[0] ??= 1; } ¦ _; $x: _; 1:1 4010 value may be null; 1:1 4013 type ?vec<int> cannot be indexed so
class C { public ?int $p = null; } function f(C $x): void { return\n$x->p ??= 1; } ¦ int
class C { public ?int $p = null; } function f(C $x): void { return\n$x->p ??= 'a'; } ¦ (int|string); 1:1 4001 expected ?int, found (int|string)
class C { public int $p = 0; } function f(?C $x): void { return\n$x->p ??= 1; } ¦ int; 1:1 4010 value may be null
class C { public int $p = 0; } function f(?C $x): void { return\n$x?->p ??= 1; } ¦ int
class C { public shape(?'a' => int) $p; } function f(C $x): void { return\n$x->p['a'] ??= 1; } ¦ int
class C { public shape(?'a' => int) $p; } function f(C $x): void { return\nvec[$x->p['a'] ??= 'b']; } ¦ vec<(int|string)>; 1:5 4001 expected shape(?'a' => int), found shape('a' => (int|string))
function f(): void { return\nnull ??= 1; } ¦ int; 1:1 4016 this expression cannot be assigned to
function f(?int $x): void { return\n($x) ??= 1; } ¦ int; 1:1 4016 this expression cannot be assigned to
-- Index in the left of `??`: a field that may be missing is its option, without 4015; brackets are looked through
function f(shape(?'a' => int) $x): void { return\n$x['a'] ?? 'b'; } ¦ (int|string)
function f(shape(?'a' => int) $x): void { return\n($x['a']) ?? 'b'; } ¦ (int|string)
function f(shape(?'a' => int) $x): void { return\n(($x['a'])) ?? 'b'; } ¦ (int|string)
function f(shape(?'a' => int) $x): void { return\n($x)['a'] ?? 'b'; } ¦ (int|string)
function f(shape(?'a' => ?int) $x): void { return\n$x['a'] ?? 'b'; } ¦ (int|string)
function f(shape(?'a' => mixed) $x): void { return\n$x['a'] ?? 'b'; } ¦ (nonnull|string)
function f(shape('a' => int) $x): void { return\n$x['a'] ?? 'b'; } ¦ (int|string)
function f(shape('a' => int) $x): void { return\n$x['b'] ?? 1; } ¦ _; 1:1 4014 shape has no field 'b'
function f(shape('a' => int, ...) $x): void { return\n$x['b'] ?? 1; } ¦ _; 1:1 4014 shape has no field 'b'
function f(shape(?'a' => int) $x): void { return\n$x[('a')] ?? 1; } ¦ _; 1:1 4013 type shape(?'a' => int) cannot be indexed so
function f(shape(?'a' => int) $x): void { return\n1 ?? $x['a']; } ¦ int; 1:6 4015 field 'a' may be missing
function f(shape(?'a' => int, ?'b' => string) $x): void { return\n$x['a'] ?? $x['b'] ?? true; } ¦ (int|string|bool)
function f(shape(?'a' => int, ?'b' => string) $x): void { return\n$x['a'] ?? $x['b']; } ¦ (int|string); 1:12 4015 field 'b' may be missing
function f(shape(?'a' => int, ?'b' => string) $x): void { return\n($x['a'] ?? $x['b']) ?? true; } ¦ (int|string|bool); 1:13 4015 field 'b' may be missing
function f(shape(?'a' => int, ?'b' => string) $x): void { return\n$x['a'] ?? ($x['b'] ?? true); } ¦ (int|string|bool)
function f(shape(?'a' => shape(?'b' => int)) $x): void { return\n$x['a']['b'] ?? 'c'; } ¦ (int|string); 1:1 4015 field 'a' may be missing
function f(shape(?'a' => shape('b' => int)) $x): void { return\n$x['a']['b'] ?? 'c'; } ¦ (int|string); 1:1 4015 field 'a' may be missing
function f(shape('a' => shape(?'b' => int)) $x): void { return\n$x['a']['b'] ?? 'c'; } ¦ (int|string)
function f(shape(?'a' => int) $x): void { return\n$x['a'] ?: 'b'; } ¦ (int|string); 1:1 4015 field 'a' may be missing
function f(shape(?'a' => int) $x): void { return\n$x['a'] + 1 ?? 'b'; } ¦ (int|string); 1:1 4015 field 'a' may be missing
function f(shape(?'a' => int) $x): void { return\nvec[$x['a']] ?? 'b'; } ¦ (vec<int>|string); 1:5 4015 field 'a' may be missing
function f(shape(?'a' => int) $x): void { return\n-$x['a'] ?? 'b'; } ¦ (int|string); 1:2 4015 field 'a' may be missing
function f(shape(?'a' => int) $x): void { return\n$x['a'] === null; } ¦ bool; 1:1 4015 field 'a' may be missing
function f(shape(?'a' => int) $x): void { return\n($x['a'] as int) ?? 'b'; } ¦ (int|string); 1:2 4015 field 'a' may be missing
class C { public int $p = 0; } function f(shape(?'a' => C) $x): void { return\n$x['a']->p ?? 'b'; } ¦ (int|string); 1:1 4015 field 'a' may be missing
class C { public shape(?'a' => int) $p; } function f(C $x): void { return\n$x->p['a'] ?? 'b'; } ¦ (int|string)
class C { public shape(?'a' => int) $p; } function f(?C $x): void { return\n$x->p['a'] ?? 'b'; } ¦ (int|string); 1:1 4010 value may be null
function g(): shape(?'a' => int) {} function f(): void { return\ng()['a'] ?? 'b'; } ¦ (int|string)
function f(shape(?'a' => int) $x, shape(?'b' => int) $y): void { return\n$x['a'] ?? vec[$y['b']]; } ¦ (int|vec<int>); 1:16 4015 field 'b' may be missing
function f(vec<shape(?'a' => int)> $x): void { return\n$x[0]['a'] ?? 'b'; } ¦ (int|string)
function f(vec<?int> $x): void { return\n$x[0] ?? 'a'; } ¦ (int|string)
function f(vec<int> $x): void { return\n$x['a'] ?? 'a'; } ¦ (int|string); 1:4 4001 expected int, found string
function f(?vec<int> $x): void { return\n$x[0] ?? 1; } ¦ _; 1:1 4010 value may be null
function f(vec<int> $x): void { return\n$x[] ?? 1; } ¦ _; 1:1 4013 type vec<int> cannot be indexed so
function f(): void { return\n$y['a'] ?? 1; } ¦ _; 1:1 4005 variable $y is not defined here
type S = shape(?'a' => int); function f(S $x): void { return\n$x['a'] ?? 'b'; } ¦ (int|string)
function f(shape(?'a' => int) $x): void { return\n$x['a'] ?? ($y = 1); } ¦ int; $y: int
-- Assignment in what stands around it: the variables where paths meet, and conditions, which it says nothing of
function f(bool $c): void { return\n$c ? ($x = 1) : ($x = 'a'); } ¦ (int|string); $x: (int|string)
function f(bool $c): void { return\n$c ? ($x = 1) : 2; } ¦ int
function f(bool $c, string $x): void { return\n$c ? ($x = 1) : 2; } ¦ int; $x: (int|string)
function f(bool $c, string $x): void { return\n$c && ($x = 1); } ¦ bool; $x: (string|int)
function f(bool $c): void { return\n$c && ($x = 1) ? $x : $x; } ¦ _; 1:23 4005 variable $x is not defined here
function f(bool $c): void { return\n$c || ($x = 1) ? $x : $x; } ¦ _; 1:18 4005 variable $x is not defined here
function f(?int $x): void { return\n$x ?? ($x = 'a'); } ¦ (int|string); $x: string
function f(?int $y): void { return\n($x = $y) ? shape('t' => $x) : shape('f' => $x); } ¦ (shape('t' => ?int)|shape('f' => ?int)); $x: ?int
function f(?int $x): void { return\n($x ??= 1) ? shape('t' => $x) : shape('f' => $x); } ¦ (shape('t' => int)|shape('f' => int)); $x: int
function f(?int $x): void { return\n$x is null && ($x = 'a') ? shape('t' => $x) : shape('f' => $x); } ¦ (shape('t' => string)|shape('f' => (int|string))); $x: (string|int)
function f(?int $x): void { return\n$x is null ? ($x = 1) : $x; } ¦ int; $x: int
function f(vec<?int> $x): void { return\n$x[0] is null ? shape('t' => $x[0]) : shape('f' => $x[0]); } ¦ (shape('t' => ?int)|shape('f' => ?int))
class C { public ?int $p = null; } function f(C $x): void { return\n$x->p is null ? shape('t' => $x->p) : shape('f' => $x->p); } ¦ (shape('t' => ?int)|shape('f' => ?int))
class C { public ?int $p = null; } function f(C $x): void { return\n$x->p === null ? 1 : vec[$x->p]; } ¦ (int|vec<?int>)
function f(mixed $x): void { return\n!($x = 1) || $x . true; } ¦ bool; $x: int; 1:14 4012 operator . does not take int and bool
function f(int $x): void { return\n!($x++ is int) && $x . true; } ¦ bool; 1:19 4012 operator . does not take int and bool
function f(?int $x): void { return\n$x as int = $x . 'a'; } ¦ string; $x: int; 1:1 4016 this expression cannot be assigned to
"#;
