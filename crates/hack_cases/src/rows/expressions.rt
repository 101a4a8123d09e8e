// Each answer was worked out by hand from docs/language.md, Typing expressions, and then held against two other programs; none was taken
// from this one. A row has declarations, of which the last is a function, or a class of which the last member is a method, that returns the
// expression; its parameters are the environment, in which a name that several parameters have takes the union of their types. The
// expression begins a line, so that columns count from it. The answer is its type, then each variable that has another type behind it than
// before, and then the diagnostics in the order in which they come. Where a row asks what a condition says of a variable, the type is that
// of `condition ? shape('t' => $x) : shape('f' => $x)`: the variable's type where the condition holds, and where it doesn't. Lines behind
// `--` name the part of docs/language.md.

/// Declarations, and what the expression that the last of them returns gives.
pub(crate) const EXPRESSIONS: &str = r#"
-- The rows: a literal
function f(): void { return\n1; } ¦ int
function f(): void { return\n0x1f; } ¦ int
function f(): void { return\n1.5; } ¦ float
function f(): void { return\n'x'; } ¦ string
function f(): void { return\n"a\\n"; } ¦ string
function f(): void { return\ntrue; } ¦ bool
function f(): void { return\nfalse; } ¦ bool
function f(): void { return\nnull; } ¦ null
-- The rows: a variable
function f(vec<int> $x): void { return\n$x; } ¦ vec<int>
function f(int $x, string $x): void { return\n$x; } ¦ (int|string)
function f(int $x): void { return\n$y; } ¦ _; 1:1 4005 variable $y is not defined here
-- The rows: `$this`
class C<T> { public function m(): void { return\n$this; } } ¦ this
trait C { public function m(): void { return\n$this; } } ¦ this
class C { public static function m(): void { return\n$this; } } ¦ _; 1:1 4020 $this is not allowed here
function f(): void { return\n$this; } ¦ _; 1:1 4020 $this is not allowed here
-- The rows: brackets
function f(int $x): void { return\n(($x)); } ¦ int
function f(): void { return\n($x); } ¦ _; 1:2 4005 variable $x is not defined here
-- The rows: `vec[..]`, `keyset[..]`
function f(): void { return\nvec[]; } ¦ vec<nothing>
function f(): void { return\nvec[1, 2, 3]; } ¦ vec<int>
function f(): void { return\nvec[1, 'x', null, 2]; } ¦ vec<?(int|string)>
function f(): void { return\nvec[1, $y, 'x']; } ¦ vec<_>; 1:8 4005 variable $y is not defined here
function f(mixed $x): void { return\nvec[$x as int, $x]; } ¦ vec<int>; $x: int
function f(): void { return\nkeyset[1, 'x']; } ¦ keyset<(int|string)>
function f(arraykey $x): void { return\nkeyset[$x]; } ¦ keyset<arraykey>
function f(): void { return\nkeyset[1, 1.5, true]; } ¦ keyset<(int|float|bool)>; 1:11 4001 expected arraykey, found float; 1:16 4001 expected arraykey, found bool
function f(): void { return\nkeyset[(1.5)]; } ¦ keyset<float>; 1:8 4001 expected arraykey, found float
function f(): void { return\nkeyset[$y]; } ¦ keyset<_>; 1:8 4005 variable $y is not defined here
enum E: int {} function f(E $x): void { return\nkeyset[$x]; } ¦ keyset<E>
-- The rows: `dict[..]`
function f(): void { return\ndict[]; } ¦ dict<nothing, nothing>
function f(): void { return\ndict['a' => 1, 2 => 'x']; } ¦ dict<(string|int), (int|string)>
function f(): void { return\ndict[1.5 => 1, 'a' => 1.5]; } ¦ dict<(float|string), (int|float)>; 1:6 4001 expected arraykey, found float
function f(): void { return\ndict[true => $y]; } ¦ dict<bool, _>; 1:6 4001 expected arraykey, found bool; 1:14 4005 variable $y is not defined here
function f(mixed $x): void { return\ndict[$x as int => $x]; } ¦ dict<int, int>; $x: int
-- The rows: `shape(..)`
function f(): void { return\nshape(); } ¦ shape()
function f(): void { return\nshape('b' => 1, 'a' => 'x'); } ¦ shape('a' => string, 'b' => int)
function f(): void { return\nshape('a' => 1, 'A' => 2); } ¦ shape('A' => int, 'a' => int)
function f(): void { return\nshape('a' => 1, 'a' => 'x'); } ¦ shape('a' => string); 1:17 4023 field 'a' is given twice
function f(): void { return\nshape('a' => $y, 'a' => 1, 'a' => 1.5); } ¦ shape('a' => float); 1:14 4005 variable $y is not defined here; 1:18 4023 field 'a' is given twice; 1:28 4023 field 'a' is given twice
function f(): void { return\nshape('a' => shape('a' => 1)); } ¦ shape('a' => shape('a' => int))
function f(mixed $x): void { return\nshape('b' => $x as int, 'a' => $x); } ¦ shape('a' => int, 'b' => int); $x: int
-- The rows: a name alone
const vec<int> K = vec[]; function f(): void { return\nK; } ¦ vec<int>
function f(): void { return\nK; } ¦ _; 1:1 4003 unbound constant K
class K {} function K(): int {} function f(): void { return\nvec[K]; } ¦ vec<_>; 1:5 4003 unbound constant K
-- The rows: `e is T`, `e as T`, `e ?as T`
function f(mixed $x): void { return\n$x is int; } ¦ bool
function f(mixed $x): void { return\n$x as int; } ¦ int; $x: int
function f(mixed $x): void { return\n$x ?as int; } ¦ ?int
function f(mixed $x): void { return\n$x ?as ?int; } ¦ ?int
function f(mixed $x): void { return\n$x ?as nonnull; } ¦ mixed
function f(mixed $x): void { return\n$x ?as nothing; } ¦ null
function f(mixed $x): void { return\n$x as num as int; } ¦ int; $x: num
function f(mixed $x): void { return\n$x as num is int; } ¦ bool; $x: num
function f(mixed $x): void { return\n$x is int as bool; } ¦ bool
function f(mixed $x): void { return\n$x ?as num as int; } ¦ int
function f(): void { return\n1 as string; } ¦ string
function f(): void { return\n$y as int; } ¦ int; 1:1 4005 variable $y is not defined here
function f(): void { return\n$y is int; } ¦ bool; 1:1 4005 variable $y is not defined here
-- Written types, in a test
function f(mixed $x): void { return\n$x is Missing; } ¦ bool; 1:7 3001 unbound type Missing
function f(mixed $x): void { return\n$x as Missing; } ¦ Missing; $x: Missing; 1:7 3001 unbound type Missing
function f(mixed $x): void { return\n$x ?as vec<Missing>; } ¦ ?vec<Missing>; 1:12 3001 unbound type Missing
class C {} function f(mixed $x): void { return\n$x ?as vec<C>; } ¦ ?vec<C>
class C<T> {} function f(mixed $x): void { return\n$x as C; } ¦ C; $x: C; 1:7 3002 C takes 1 type arguments, found 0
class C<T> {} function f(mixed $x): void { return\n$x is C<int, int>; } ¦ bool; 1:7 3002 C takes 1 type arguments, found 2
class C<T> {} function f(mixed $x): void { return\n$x as C<int>; } ¦ C<int>; $x: C<int>
trait C {} function f(mixed $x): void { return\n$x ?as C; } ¦ ?C; 1:8 3004 trait C is not a type
interface C {} function f(mixed $x): void { return\n$x ?as C; } ¦ ?C
class C<\*255«T, »T> {} function f(mixed $x): void { return\n$x is C<\*255«int, »int>; } ¦ bool; 1:7 3006 type above 256 nodes
class C<\*255«T, »T> {} function f(mixed $x): void { return\n$x as C<\*255«int, »int>; } ¦ _; $x: _; 1:7 3006 type above 256 nodes
class C<\*254«T, »T> {} function f(mixed $x): void { return\n$x as C<\*254«int, »int>; } ¦ C<\*254«int, »int>; $x: C<\*254«int, »int>
class C<\*254«T, »T> {} function f(mixed $x): void { return\n$x ?as C<\*254«int, »int>; } ¦ _
class C<T as num> {} function f(mixed $x): void { return\n$x is C<string>; } ¦ bool; 1:9 3212 type argument string is not within the bounds of T
class C<T as num> {} function f(mixed $x): void { return\n$x is C<float>; } ¦ bool
function f(mixed $x): void { return\n$x is dict<float, int>; } ¦ bool; 1:12 3212 type argument float is not within the bounds of Tk
function f(mixed $x): void { return\n$x is dict<arraykey, float>; } ¦ bool
function f(mixed $x): void { return\n$x as this; } ¦ this; $x: this; 1:7 4020 this is not allowed here
class C { public static function m(mixed $x): void { return\n$x as this; } } ¦ this; $x: this
function f(mixed $x): void { return\n$x is shape('a' => int, 'a' => string); } ¦ bool; 1:25 4023 field 'a' is given twice
function f(mixed $x): void { return\n$x is shape('a' => int, 'b' => int); } ¦ bool
function f<T>(mixed $x): void { return\n$x as T; } ¦ T; $x: T
function f(mixed $x): void { return\n$x as Missing as C; } ¦ C; $x: Missing; 1:7 3001 unbound type Missing; 1:18 3001 unbound type C
-- The rows: a cast, which expects nothing
function f(vec<int> $x): void { return\n(int) $x; } ¦ int
function f(void $x): void { return\n(float) $x; } ¦ float
function f(): void { return\n(string) null; } ¦ string
function f(): void { return\n(bool) $y; } ¦ bool; 1:8 4005 variable $y is not defined here
function f(mixed $x): void { return\n(string) ($x as int); } ¦ string; $x: int
-- The rows: `!`, `&&`, `||`, which expect nothing
function f(vec<int> $x): void { return\n!$x; } ¦ bool
function f(void $x, mixed $y): void { return\n$x && $y; } ¦ bool
function f(void $x, mixed $y): void { return\n$x || $y; } ¦ bool
function f(): void { return\n!$y; } ¦ bool; 1:2 4005 variable $y is not defined here
function f(): void { return\n$x && $y || $z; } ¦ bool; 1:1 4005 variable $x is not defined here; 1:7 4005 variable $y is not defined here; 1:13 4005 variable $z is not defined here
function f(mixed $x): void { return\n$x is int && $x . true; } ¦ bool; 1:14 4012 operator . does not take int and bool
function f(?int $x): void { return\n$x is null || $x . true; } ¦ bool; 1:15 4012 operator . does not take int and bool
function f(int $x, string $x): void { return\n!($x is int) && $x % 2; } ¦ bool; 1:17 4012 operator % does not take string and int
function f(mixed $x, mixed $y): void { return\n($x as int) && ($y as int); } ¦ bool; $x: int
function f(mixed $x, mixed $y): void { return\n($x as int) || ($y as int); } ¦ bool; $x: int
function f(?int $x, ?int $y): void { return\n$x is null && ($x as nothing); } ¦ bool; $x: int
function f(?int $x, ?int $y): void { return\n$x is nonnull || ($x as nothing); } ¦ bool; $x: int
function f(?int $x): void { return\n!($x is null || ($x as nothing)); } ¦ bool; $x: null
-- The rows: `==` and its kin
function f(void $x, vec<int> $y): void { return\n$x == $y; } ¦ bool
function f(): void { return\n1 != 'x' === null !== 1.5; } ¦ bool
function f(): void { return\n$x === $y; } ¦ bool; 1:1 4005 variable $x is not defined here; 1:8 4005 variable $y is not defined here
function f(mixed $x): void { return\n($x as int) === $x . true; } ¦ bool; $x: int; 1:17 4012 operator . does not take int and bool
function f(?int $x): void { return\n$x === null; } ¦ bool
-- The rows: other operators between operands, and before one
function f(string $x): void { return\n$x + 1; } ¦ _; 1:1 4012 operator + does not take string and int
function f(int $x): void { return\n$x + 1; } ¦ int
function f(): void { return\n1 + 2.0; } ¦ float
function f(): void { return\n1 + 2.0 . 'x'; } ¦ string
function f(): void { return\n1 . 2 + 3; } ¦ _; 1:1 4012 operator + does not take string and int
function f(): void { return\n1 + 'x' + 2; } ¦ _; 1:1 4012 operator + does not take int and string
function f(): void { return\n1 * (2 - 'x'); } ¦ _; 1:6 4012 operator - does not take int and string
function f(): void { return\n1 + 6 / 3 * 2; } ¦ num
function f(): void { return\n1 | 2 & 3.5; } ¦ _; 1:5 4012 operator & does not take int and float
function f(): void { return\n1 < 'x'; } ¦ _; 1:1 4012 operator < does not take int and string
function f(): void { return\n'a' < 'b'; } ¦ bool
function f(): void { return\n1 <=> 2.5; } ¦ int
function f(): void { return\n1 <=> 2 < 'x'; } ¦ _; 1:1 4012 operator < does not take int and string
function f(): void { return\n$y + 'x'; } ¦ _; 1:1 4005 variable $y is not defined here
function f(mixed $x): void { return\n($x as int) + $x; } ¦ int; $x: int
function f(): void { return\n2 ** 3; } ¦ num
function f(): void { return\n2 ** 3 ** 'x'; } ¦ _; 1:6 4012 operator ** does not take int and string
function f(): void { return\n'x' ** 2 ** 3; } ¦ _; 1:1 4012 operator ** does not take string and num
function f(mixed $x): void { return\n($x as int) ** $x ** 2.5; } ¦ float; $x: int
function f(): void { return\n-1; } ¦ int
function f(): void { return\n-'x'; } ¦ _; 1:1 4012 operator - does not take string
function f(): void { return\n- -1.5; } ¦ float
function f(): void { return\n+(2 / 2); } ¦ num
function f(): void { return\n~1; } ¦ int
function f(): void { return\n~1.5; } ¦ _; 1:1 4012 operator ~ does not take float
function f(): void { return\n-2 ** 'x'; } ¦ _; 1:2 4012 operator ** does not take int and string
function f(): void { return\n-$y; } ¦ _; 1:2 4005 variable $y is not defined here
-- The rows: `a ?? b` and `a ?: b`, where the environment simply goes along
function f(?int $x): void { return\n$x ?? 'a'; } ¦ (int|string)
function f(int $x): void { return\n$x ?? 'a'; } ¦ (int|string)
function f(?int $x): void { return\n$x ?? null; } ¦ ?int
function f(mixed $x): void { return\n$x ?? 1; } ¦ (nonnull|int)
function f(): void { return\nnull ?? 1; } ¦ int
function f(): void { return\n$y ?? 1; } ¦ _; 1:1 4005 variable $y is not defined here
function f(?int $x, ?float $y): void { return\n$x ?? $y ?? 'a'; } ¦ (int|float|string)
function f(mixed $x): void { return\n1 ?? ($x as int); } ¦ int; $x: int
function f(mixed $x): void { return\n($x as ?int) ?? $x; } ¦ ?int; $x: ?int
function f(?int $x): void { return\n($x) ?? vec[$x]; } ¦ (int|vec<?int>)
function f(?int $x): void { return\n$x ?: 'a'; } ¦ (int|string)
function f(bool $x): void { return\n$x ?: 1; } ¦ (bool|int)
function f(?int $x): void { return\n$x is null ?: vec[$x]; } ¦ (bool|vec<?int>)
function f(mixed $x): void { return\n1 ?: ($x as int); } ¦ int; $x: int
function f(): void { return\n$y ?: $z; } ¦ _; 1:1 4005 variable $y is not defined here; 1:7 4005 variable $z is not defined here
type A0 = A1; type A1 = A2; type A2 = A3; type A3 = A4; type A4 = A5; type A5 = A6; type A6 = A7; type A7 = A8; type A8 = A9; type A9 = A10; type A10 = A11; type A11 = A12; type A12 = A13; type A13 = A14; type A14 = A15; type A15 = ?int; function f(A0 $x): void { return\n$x ?? 'a'; } ¦ (int|string)
type A0 = A1; type A1 = A2; type A2 = A3; type A3 = A4; type A4 = A5; type A5 = A6; type A6 = A7; type A7 = A8; type A8 = A9; type A9 = A10; type A10 = A11; type A11 = A12; type A12 = A13; type A13 = A14; type A14 = A15; type A15 = A16; type A16 = ?int; function f(A0 $x): void { return\n$x ?? 'a'; } ¦ (A0|string)
-- The rows: `c ? a : b`, whose condition expects nothing
function f(void $x): void { return\n$x ? 1 : 'x'; } ¦ (int|string)
function f(bool $c): void { return\n$c ? 1 : 2; } ¦ int
function f(bool $c): void { return\n$c ? 1 : $y; } ¦ _; 1:10 4005 variable $y is not defined here
function f(bool $c, mixed $x): void { return\n$c ? ($x as int) : ($x as string); } ¦ (int|string); $x: (int|string)
function f(bool $c, mixed $x): void { return\n$c ? ($x as int) : 1; } ¦ int
function f(mixed $x): void { return\n($x as int) ? $x : $x; } ¦ int; $x: int
function f(int $x): void { return\n$z ? $x + 'a' : $x . true; } ¦ _; 1:1 4005 variable $z is not defined here; 1:6 4012 operator + does not take int and string; 1:17 4012 operator . does not take int and bool
function f(bool $c): void { return\n$c ? null : ($c ? 1 : 2.5); } ¦ ?(int|float)
-- Typing expressions: types of at most 256 nodes, and unions of at most eight members
function f(C<\*253«int, »int> $x): void { return\nvec[$x]; } ¦ vec<C<\*253«int, »int>>
function f(C<\*254«int, »int> $x): void { return\nvec[$x]; } ¦ _
function f(C<\*254«int, »int> $x): void { return\nkeyset[$x]; } ¦ _
function f(C<\*253«int, »int> $x): void { return\ndict[1 => $x]; } ¦ _
function f(C<\*252«int, »int> $x): void { return\ndict[1 => $x]; } ¦ dict<int, C<\*252«int, »int>>
function f(C<\*254«int, »int> $x): void { return\nshape('a' => $x); } ¦ _
function f(C<\*254«int, »int> $x): void { return\nshape('a' => $x, 'a' => 1); } ¦ shape('a' => int); 1:18 4023 field 'a' is given twice
function f(C<\*254«int, »int> $x): void { return\n$x ?? 1; } ¦ _
function f(C<\*254«int, »int> $x): void { return\n$x ?: 1; } ¦ _
function f(C<\*254«int, »int> $x, bool $c): void { return\n$c ? $x : 1; } ¦ _
function f(C<\*252«int, »int> $x, bool $c): void { return\n$c ? $x : 1; } ¦ (C<\*252«int, »int>|int)
function f(mixed $x, bool $c): void { return\n$c ? vec[$x as C<\*254«int, »int>] : vec[$x as int]; } ¦ _; $x: _; 1:16 3001 unbound type C
type A = ?C<\*199«int, »int>; type B = ?D<\*199«int, »int>; function f(A $x, B $x): void { return\n$x is nonnull; } ¦ bool
type A = ?C<\*199«int, »int>; type B = ?D<\*199«int, »int>; function f(A $x, B $x): void { return\n$x as nonnull; } ¦ nonnull; $x: _
type A = ?C<\*199«int, »int>; type B = ?D<\*199«int, »int>; function f(A $x, B $x): void { return\n$x ?? 1; } ¦ _
function f(): void { return\nvec[1, 1.5, 'a', true, vec[], keyset[], dict[], shape(), null]; } ¦ vec<?(int|float|string|bool|vec<nothing>|keyset<nothing>|dict<nothing, nothing>|shape())>
function f(): void { return\nvec[1, 1.5, 'a', true, vec[], keyset[], dict[], shape(), vec[1]]; } ¦ vec<mixed>
-- Refinement: `x is T`, by primitives
function f(mixed $x): void { return\n$x is int ? shape('t' => $x) : shape('f' => $x); } ¦ (shape('t' => int)|shape('f' => mixed))
function f(int $x): void { return\n$x is num ? shape('t' => $x) : shape('f' => $x); } ¦ (shape('t' => int)|shape('f' => int))
function f(int $x): void { return\n$x is string ? shape('t' => $x) : shape('f' => $x); } ¦ (shape('t' => string)|shape('f' => int)); $x: (string|int)
function f(int $x, string $x): void { return\n$x is int ? shape('t' => $x) : shape('f' => $x); } ¦ (shape('t' => int)|shape('f' => string))
function f(int $x, string $x): void { return\n$x is arraykey ? shape('t' => $x) : shape('f' => $x); } ¦ (shape('t' => (int|string))|shape('f' => nothing))
function f(int $x, string $x, bool $x): void { return\n$x is arraykey ? shape('t' => $x) : shape('f' => $x); } ¦ (shape('t' => arraykey)|shape('f' => bool)); $x: (arraykey|bool)
function f(string $x, int $x): void { return\n$x is int ? shape('t' => $x) : shape('f' => $x); } ¦ (shape('t' => int)|shape('f' => string)); $x: (int|string)
function f(mixed $x): void { return\n($x) is int ? shape('t' => $x) : shape('f' => $x); } ¦ (shape('t' => int)|shape('f' => mixed))
function f(vec<int> $x, vec<string> $x): void { return\n$x is vec<int> ? shape('t' => $x) : shape('f' => $x); } ¦ (shape('t' => vec<int>)|shape('f' => vec<string>))
-- Refinement: `x is T`, by classes, enums and type parameters
class A {} class B extends A {} function f(A $x): void { return\n$x is B ? shape('t' => $x) : shape('f' => $x); } ¦ (shape('t' => B)|shape('f' => A)); $x: (B|A)
class A {} class B extends A {} function f(B $x): void { return\n$x is A ? shape('t' => $x) : shape('f' => $x); } ¦ (shape('t' => B)|shape('f' => B))
class A {} class B extends A {} class D {} function f(B $x, D $x): void { return\n$x is A ? shape('t' => $x) : shape('f' => $x); } ¦ (shape('t' => A)|shape('f' => D)); $x: (A|D)
class A {} interface I {} function f(A $x): void { return\n$x is I ? shape('t' => $x) : shape('f' => $x); } ¦ (shape('t' => I)|shape('f' => A)); $x: (I|A)
enum E: int {} function f(arraykey $x): void { return\n$x is E ? shape('t' => $x) : shape('f' => $x); } ¦ (shape('t' => E)|shape('f' => arraykey)); $x: (E|arraykey)
class A {} function f<T as A>(T $x): void { return\n$x is A ? shape('t' => $x) : shape('f' => $x); } ¦ (shape('t' => T)|shape('f' => T))
class C { public function m(C $x): void { return\n$x is this ? shape('t' => $x) : shape('f' => $x); } } ¦ (shape('t' => this)|shape('f' => C)); $x: (this|C)
-- Refinement: `x is null` and `x is nonnull`, themselves and not by an alias
function f(?int $x): void { return\n$x is null ? shape('t' => $x) : shape('f' => $x); } ¦ (shape('t' => null)|shape('f' => int))
function f(?int $x): void { return\n$x is nonnull ? shape('t' => $x) : shape('f' => $x); } ¦ (shape('t' => int)|shape('f' => null))
function f(mixed $x): void { return\n$x is null ? shape('t' => $x) : shape('f' => $x); } ¦ (shape('t' => null)|shape('f' => nonnull))
function f(mixed $x): void { return\n$x is nonnull ? shape('t' => $x) : shape('f' => $x); } ¦ (shape('t' => nonnull)|shape('f' => null))
function f(int $x): void { return\n$x is null ? shape('t' => $x) : shape('f' => $x); } ¦ (shape('t' => null)|shape('f' => int)); $x: ?int
function f(null $x): void { return\n$x is null ? shape('t' => $x) : shape('f' => $x); } ¦ (shape('t' => null)|shape('f' => nothing))
function f(?int $x): void { return\n$x is ?null ? shape('t' => $x) : shape('f' => $x); } ¦ (shape('t' => null)|shape('f' => int))
function f(?int $x): void { return\n$x is ?nonnull ? shape('t' => $x) : shape('f' => $x); } ¦ (shape('t' => ?int)|shape('f' => ?int))
type N = null; function f(?int $x): void { return\n$x is N ? shape('t' => $x) : shape('f' => $x); } ¦ (shape('t' => N)|shape('f' => ?int)); $x: ?(N|int)
type N = nonnull; function f(?int $x): void { return\n$x is N ? shape('t' => $x) : shape('f' => $x); } ¦ (shape('t' => N)|shape('f' => ?int)); $x: ?(N|int)
type A = ?int; function f(A $x): void { return\n$x is null ? shape('t' => $x) : shape('f' => $x); } ¦ (shape('t' => null)|shape('f' => int)); $x: ?int
type A = ?int; function f(?A $x): void { return\n$x is null ? shape('t' => $x) : shape('f' => $x); } ¦ (shape('t' => null)|shape('f' => A))
type A = ?int; function f(A $x, string $x): void { return\n$x is nonnull ? shape('t' => $x) : shape('f' => $x); } ¦ (shape('t' => (int|string))|shape('f' => null)); $x: ?(int|string)
function f(?int $x, string $x): void { return\n$x is null ? shape('t' => $x) : shape('f' => $x); } ¦ (shape('t' => null)|shape('f' => (int|string)))
function f<T as ?int>(T $x): void { return\n$x is null ? shape('t' => $x) : shape('f' => $x); } ¦ (shape('t' => null)|shape('f' => T)); $x: ?T
-- Refinement: `x is T`, by options, aliases, and of a union that is inside an option
function f(mixed $x): void { return\n$x is ?int ? shape('t' => $x) : shape('f' => $x); } ¦ (shape('t' => ?int)|shape('f' => mixed))
function f(?int $x): void { return\n$x is ?int ? shape('t' => $x) : shape('f' => $x); } ¦ (shape('t' => ?int)|shape('f' => ?int))
function f(?int $x): void { return\n$x is int ? shape('t' => $x) : shape('f' => $x); } ¦ (shape('t' => int)|shape('f' => ?int))
function f(?int $x, string $x): void { return\n$x is int ? shape('t' => $x) : shape('f' => $x); } ¦ (shape('t' => int)|shape('f' => ?(int|string)))
function f(int $x, string $x): void { return\n$x is ?int ? shape('t' => $x) : shape('f' => $x); } ¦ (shape('t' => ?int)|shape('f' => string)); $x: ?(int|string)
type I = int; function f(int $x, string $x): void { return\n$x is I ? shape('t' => $x) : shape('f' => $x); } ¦ (shape('t' => I)|shape('f' => string)); $x: (I|string)
type I = int; function f(I $x): void { return\n$x is num ? shape('t' => $x) : shape('f' => $x); } ¦ (shape('t' => I)|shape('f' => I))
function f(): void { return\n$y is int ? shape('t' => $y) : 1; } ¦ (shape('t' => _)|int); 1:1 4005 variable $y is not defined here; 1:26 4005 variable $y is not defined here
-- Refinement: a comparison with `null`
function f(?int $x): void { return\n$x === null ? shape('t' => $x) : shape('f' => $x); } ¦ (shape('t' => null)|shape('f' => int))
function f(?int $x): void { return\nnull === $x ? shape('t' => $x) : shape('f' => $x); } ¦ (shape('t' => null)|shape('f' => int))
function f(?int $x): void { return\n$x == null ? shape('t' => $x) : shape('f' => $x); } ¦ (shape('t' => null)|shape('f' => int))
function f(?int $x): void { return\nnull == $x ? shape('t' => $x) : shape('f' => $x); } ¦ (shape('t' => null)|shape('f' => int))
function f(?int $x): void { return\n$x !== null ? shape('t' => $x) : shape('f' => $x); } ¦ (shape('t' => int)|shape('f' => null))
function f(?int $x): void { return\nnull !== $x ? shape('t' => $x) : shape('f' => $x); } ¦ (shape('t' => int)|shape('f' => null))
function f(?int $x): void { return\n$x != null ? shape('t' => $x) : shape('f' => $x); } ¦ (shape('t' => int)|shape('f' => null))
function f(?int $x): void { return\nnull != $x ? shape('t' => $x) : shape('f' => $x); } ¦ (shape('t' => int)|shape('f' => null))
function f(?int $x): void { return\n(null) === (($x)) ? shape('t' => $x) : shape('f' => $x); } ¦ (shape('t' => null)|shape('f' => int))
function f(?int $x): void { return\n$x === 1 ? shape('t' => $x) : shape('f' => $x); } ¦ (shape('t' => ?int)|shape('f' => ?int))
function f(?int $x, null $y): void { return\n$x === $y ? shape('t' => $x) : shape('f' => $x); } ¦ (shape('t' => ?int)|shape('f' => ?int))
function f(?int $x): void { return\n$x === null === true ? shape('t' => $x) : shape('f' => $x); } ¦ (shape('t' => ?int)|shape('f' => ?int))
function f(?int $x): void { return\ntrue === null === $x ? shape('t' => $x) : shape('f' => $x); } ¦ (shape('t' => ?int)|shape('f' => ?int))
function f(?int $x): void { return\n($x ?as int) === null ? shape('t' => $x) : shape('f' => $x); } ¦ (shape('t' => ?int)|shape('f' => ?int))
function f(): void { return\n$y === null ? shape('t' => $y) : 1; } ¦ (shape('t' => _)|int); 1:1 4005 variable $y is not defined here; 1:28 4005 variable $y is not defined here
-- Refinement: a bare variable, and `!`
function f(?int $x): void { return\n$x ? shape('t' => $x) : shape('f' => $x); } ¦ (shape('t' => int)|shape('f' => ?int))
function f(?int $x): void { return\n(($x)) ? shape('t' => $x) : shape('f' => $x); } ¦ (shape('t' => int)|shape('f' => ?int))
function f(mixed $x): void { return\n$x ? shape('t' => $x) : shape('f' => $x); } ¦ (shape('t' => nonnull)|shape('f' => mixed))
function f(null $x): void { return\n$x ? shape('t' => $x) : shape('f' => $x); } ¦ (shape('t' => nothing)|shape('f' => null))
type A = ?B; type B = ?int; function f(A $x): void { return\n$x ? shape('t' => $x) : shape('f' => $x); } ¦ (shape('t' => B)|shape('f' => A)); $x: (B|A)
type A = B; type B = ?int; function f(A $x): void { return\n$x ? shape('t' => $x) : shape('f' => $x); } ¦ (shape('t' => int)|shape('f' => A)); $x: (int|A)
function f(?int $x): void { return\n!$x ? shape('t' => $x) : shape('f' => $x); } ¦ (shape('t' => ?int)|shape('f' => int))
function f(?int $x): void { return\n!($x) ? shape('t' => $x) : shape('f' => $x); } ¦ (shape('t' => ?int)|shape('f' => int))
function f(?int $x): void { return\n!!$x ? shape('t' => $x) : shape('f' => $x); } ¦ (shape('t' => int)|shape('f' => ?int))
function f(?int $x): void { return\n!($x is null) ? shape('t' => $x) : shape('f' => $x); } ¦ (shape('t' => int)|shape('f' => null))
function f(?int $x): void { return\n(bool) $x ? shape('t' => $x) : shape('f' => $x); } ¦ (shape('t' => ?int)|shape('f' => ?int))
function f(): void { return\n$y ? shape('t' => $y) : 1; } ¦ (shape('t' => _)|int); 1:1 4005 variable $y is not defined here; 1:19 4005 variable $y is not defined here
-- Refinement: `&&` and `||`
function f(mixed $x): void { return\n$x is num && $x is int ? shape('t' => $x) : shape('f' => $x); } ¦ (shape('t' => int)|shape('f' => mixed))
function f(int $x, string $x, bool $x): void { return\n$x is int || $x is string ? shape('t' => $x) : shape('f' => $x); } ¦ (shape('t' => (int|string))|shape('f' => bool))
function f(int $x, string $x, bool $x): void { return\n!($x is int || $x is string) ? shape('t' => $x) : shape('f' => $x); } ¦ (shape('t' => bool)|shape('f' => (int|string))); $x: (bool|int|string)
function f(int $x, string $x, bool $x): void { return\n!($x is int) && !($x is bool) ? shape('t' => $x) : shape('f' => $x); } ¦ (shape('t' => string)|shape('f' => (int|bool))); $x: (string|int|bool)
function f(?int $x, string $x): void { return\n$x is null || $x is int ? shape('t' => $x) : shape('f' => $x); } ¦ (shape('t' => ?int)|shape('f' => string))
function f(int $x, string $x, bool $x): void { return\n$x is int || $x is string || $x is bool ? shape('t' => $x) : shape('f' => $x); } ¦ (shape('t' => (int|string|bool))|shape('f' => bool))
function f(?int $x): void { return\n($x is nonnull && true) ? shape('t' => $x) : shape('f' => $x); } ¦ (shape('t' => int)|shape('f' => ?int))
function f(?int $x): void { return\n$x is null || false ? shape('t' => $x) : shape('f' => $x); } ¦ (shape('t' => ?int)|shape('f' => int))
function f(mixed $x): void { return\n$x is int && ($x as string) ? shape('t' => $x) : shape('f' => $x); } ¦ (shape('t' => string)|shape('f' => mixed))
-- Refinement: two variables at once
function f(?int $x, ?int $y): void { return\n$x is nonnull && $y is nonnull ? shape('tx' => $x, 'ty' => $y) : shape('fx' => $x, 'fy' => $y); } ¦ (shape('tx' => int, 'ty' => int)|shape('fx' => ?int, 'fy' => ?int))
function f(?int $x, ?int $y): void { return\n$x === null || $y === null ? shape('tx' => $x, 'ty' => $y) : shape('fx' => $x, 'fy' => $y); } ¦ (shape('tx' => ?int, 'ty' => ?int)|shape('fx' => int, 'fy' => int))
function f(mixed $x, mixed $y): void { return\n$x is int && $y is string ? shape('tx' => $x, 'ty' => $y) : shape('fx' => $x, 'fy' => $y); } ¦ (shape('tx' => int, 'ty' => string)|shape('fx' => mixed, 'fy' => mixed))
function f(?int $x, ?string $y): void { return\n!$x || !$y ? shape('tx' => $x, 'ty' => $y) : shape('fx' => $x, 'fy' => $y); } ¦ (shape('tx' => ?int, 'ty' => ?string)|shape('fx' => int, 'fy' => string))
function f(?int $x, mixed $y): void { return\n$x is null ? ($y as int) : ($y as string); } ¦ (int|string); $y: (int|string)
-- Refinement: `x as T`, and tests in a chain
function f(mixed $x): void { return\n$x as int ? shape('t' => $x) : shape('f' => $x); } ¦ (shape('t' => int)|shape('f' => int)); $x: int
function f(mixed $x): void { return\n$x as num as int ? shape('t' => $x) : shape('f' => $x); } ¦ (shape('t' => num)|shape('f' => num)); $x: num
function f(mixed $x): void { return\n$x as num is int ? shape('t' => $x) : shape('f' => $x); } ¦ (shape('t' => num)|shape('f' => num)); $x: num
function f(mixed $x): void { return\n($x as num) is int ? shape('t' => $x) : shape('f' => $x); } ¦ (shape('t' => num)|shape('f' => num)); $x: num
function f(mixed $x): void { return\n$x is int is bool ? shape('t' => $x) : shape('f' => $x); } ¦ (shape('t' => mixed)|shape('f' => mixed))
function f(mixed $x): void { return\n$x is int == true ? shape('t' => $x) : shape('f' => $x); } ¦ (shape('t' => mixed)|shape('f' => mixed))
function f(mixed $x): void { return\n$x ?as int ? shape('t' => $x) : shape('f' => $x); } ¦ (shape('t' => mixed)|shape('f' => mixed))
function f(?int $x): void { return\n$x as nonnull; } ¦ nonnull; $x: int
function f(?int $x): void { return\n($x) as nonnull ? $x : 'x'; } ¦ (int|string); $x: int
function f(int $x): void { return\n$x as num; } ¦ num
function f(int $x): void { return\n$x as string; } ¦ string; $x: string
type A = ?int; function f(A $x): void { return\n$x as nonnull; } ¦ nonnull; $x: int
type N = nonnull; function f(?int $x): void { return\n$x as N; } ¦ N; $x: N
class A {} class B extends A {} function f(A $x): void { return\nvec[$x as B, $x]; } ¦ vec<B>; $x: B
function f(): void { return\n$y as int ? $y : 1; } ¦ _; 1:1 4005 variable $y is not defined here; 1:13 4005 variable $y is not defined here
-- Refinement: `??`, `?:` and `? :` say nothing
function f(?bool $x): void { return\n$x ?? false ? shape('t' => $x) : shape('f' => $x); } ¦ (shape('t' => ?bool)|shape('f' => ?bool))
function f(?int $x): void { return\n($x ?: $x) ? shape('t' => $x) : shape('f' => $x); } ¦ (shape('t' => ?int)|shape('f' => ?int))
function f(?int $x): void { return\n($x is null ? true : false) ? shape('t' => $x) : shape('f' => $x); } ¦ (shape('t' => ?int)|shape('f' => ?int))
function f(?int $x): void { return\n(1 ?? ($x as nonnull)) ? shape('t' => $x) : shape('f' => $x); } ¦ (shape('t' => int)|shape('f' => int)); $x: int
"#;
