// Calls, members, `new` and index. Each answer was worked out by hand from docs/language.md, Typing expressions, and then held against two
// other programs; none was taken from this one. A row is as in expressions.rt: declarations, of which the last is a function, or a class of
// which the last member is a method, that returns the expression; and its type, the variables that it changes, and the diagnostics in the
// order in which they come, also where one of them comes twice. Lines behind `--` name the part of docs/language.md.

/// Declarations, and what the expression that the last of them returns gives.
pub(crate) const USES: &str = r#"
-- Calls: a function that isn't declared is 4002 and `_`, once its arguments are typed
function g(): int {} function f(): void { return\ng(); } ¦ int
function f(): void { return\ng(); } ¦ _; 1:1 4002 unbound function g
function g(): int {} function f(): void { return\nG(); } ¦ _; 1:1 4002 unbound function G
class g {} const int g = 1; function f(): void { return\ng(); } ¦ _; 1:1 4002 unbound function g
function f(): void { return\ng($y); } ¦ _; 1:3 4005 variable $y is not defined here; 1:1 4002 unbound function g
function f(mixed $x): void { return\ng($x as int, $x); } ¦ _; $x: int; 1:1 4002 unbound function g
function g(mixed $a): int {} function f(): void { return\ng(h()); } ¦ int; 1:3 4002 unbound function h
class C { public function g(): int {} public function m(): void { return\ng(); } } ¦ _; 1:1 4002 unbound function g
function f(): int { return\nf(); } ¦ int
-- Calls: the type is that of the result, and `nothing` for `noreturn` itself
function g() {} function f(): void { return\ng(); } ¦ _
function g(): void {} function f(): void { return\ng(); } ¦ void
function g(): noreturn {} function f(): void { return\ng(); } ¦ nothing
function g(): ?noreturn {} function f(): void { return\ng(); } ¦ ?noreturn
type N = noreturn; function g(): N {} function f(): void { return\ng(); } ¦ N
function g(): nothing {} function f(): void { return\ng(); } ¦ nothing
function g(): Missing {} function f(): void { return\ng(); } ¦ Missing
function g(): this {} function f(): void { return\ng(); } ¦ this
function g(): noreturn {} function f(): void { return\nvec[g()]; } ¦ vec<nothing>
-- Calls: 4004 outside the least and the greatest number of arguments, and the result stays
function g(int $a): int {} function f(): void { return\ng(1); } ¦ int
function g(int $a): int {} function f(): void { return\ng(); } ¦ int; 1:1 4004 expected 1 to 1 arguments, found 0
function g(int $a): int {} function f(): void { return\ng(1, 2); } ¦ int; 1:1 4004 expected 1 to 1 arguments, found 2
function g(): int {} function f(): void { return\ng(1); } ¦ int; 1:1 4004 expected 0 to 0 arguments, found 1
function g(int $a, int $b = 1): int {} function f(): void { return\ng(1); } ¦ int
function g(int $a, int $b = 1): int {} function f(): void { return\ng(1, 2); } ¦ int
function g(int $a, int $b = 1): int {} function f(): void { return\ng(); } ¦ int; 1:1 4004 expected 1 to 2 arguments, found 0
function g(int $a, int $b = 1): int {} function f(): void { return\ng(1, 2, 3); } ¦ int; 1:1 4004 expected 1 to 2 arguments, found 3
function g(int $a = 1, int $b = 2): int {} function f(): void { return\ng(); } ¦ int
-- Calls: a default in the middle, where the least number goes up to the last parameter without one
function g(int $a = 1, int $b, int $c = 2): int {} function f(): void { return\ng(1); } ¦ int; 1:1 4004 expected 2 to 3 arguments, found 1
function g(int $a = 1, int $b, int $c = 2): int {} function f(): void { return\ng(1, 2); } ¦ int
function g(int $a = 1, int $b, int $c = 2): int {} function f(): void { return\ng(1, 2, 3); } ¦ int
function g(int $a = 1, int $b): int {} function f(): void { return\ng(); } ¦ int; 1:1 4004 expected 2 to 2 arguments, found 0
-- Calls: the pairs of 4004 are expected as far as both lists go, and further arguments are typed
function g(int $a): int {} function f(): void { return\ng('x', 2); } ¦ int; 1:1 4004 expected 1 to 1 arguments, found 2; 1:3 4001 expected int, found string
function g(int $a, int $b): int {} function f(): void { return\ng('x'); } ¦ int; 1:1 4004 expected 2 to 2 arguments, found 1; 1:3 4001 expected int, found string
function g(int $a): int {} function f(): void { return\ng(1, $y); } ¦ int; 1:6 4005 variable $y is not defined here; 1:1 4004 expected 1 to 1 arguments, found 2
function g<T>(T $a, T $b): T {} function f(): void { return\ng(1); } ¦ int; 1:1 4004 expected 2 to 2 arguments, found 1
function g<T>(T $a): T {} function f(): void { return\ng(1, 'x'); } ¦ int; 1:1 4004 expected 1 to 1 arguments, found 2
-- Calls: each argument expects the type of its parameter
function g(int $a): int {} function f(): void { return\ng('x'); } ¦ int; 1:3 4001 expected int, found string
function g(num $a): int {} function f(): void { return\ng(1); } ¦ int
function g(int $a): int {} function f(num $x): void { return\ng($x); } ¦ int; 1:3 4001 expected int, found num
function g(?int $a): int {} function f(): void { return\ng(null); } ¦ int
function g(int $a): int {} function f(?int $x): void { return\ng($x); } ¦ int; 1:3 4001 expected int, found ?int
function g(int $a, string $b): int {} function f(): void { return\ng('x', 1); } ¦ int; 1:3 4001 expected int, found string; 1:8 4001 expected string, found int
function g(int $a): int {} function f(): void { return\ng(('x')); } ¦ int; 1:3 4001 expected int, found string
function g(int $a): int {} function f(): void { return\ng($y); } ¦ int; 1:3 4005 variable $y is not defined here
function g(int $a): int {} function f(nothing $x): void { return\ng($x); } ¦ int
function g(int $a): int {} function f(int $x, string $x): void { return\ng($x); } ¦ int; 1:3 4001 expected int, found (int|string)
function g(Missing $a): int {} function f(): void { return\ng(1); } ¦ int
function g(int $a): int {} function f(void $x): void { return\ng($x); } ¦ int; 1:3 4001 expected int, found void
function g(mixed $a): int {} function f(void $x): void { return\ng($x); } ¦ int; 1:3 4001 expected mixed, found void
class A {} class B extends A {} function g(A $a): int {} function f(B $x): void { return\ng($x); } ¦ int
class A {} class B extends A {} function g(B $a): int {} function f(A $x): void { return\ng($x); } ¦ int; 1:3 4001 expected B, found A
function g(int $a): int {} function f<V>(V $x): void { return\ng($x); } ¦ int; 1:3 4001 expected int, found V
function g(num $a, string $b): int {} function f(mixed $x): void { return\ng($x as int, $x); } ¦ int; $x: int; 1:14 4001 expected string, found int
function g(int $a): string {} function f(): void { return\ng(g(1)); } ¦ string; 1:3 4001 expected int, found string
-- Calls: matching gives types to the function's own type parameters
function g<T>(T $a): T {} function f(): void { return\ng(1); } ¦ int
function g<T>(T $a): T {} function f(): void { return\ng(null); } ¦ null
function g<T>(T $a): vec<T> {} function f(): void { return\ng(vec[1]); } ¦ vec<vec<int>>
function g<T>(T $a, T $b): T {} function f(): void { return\ng(1, 'x'); } ¦ (int|string)
function g<T>(T $a, T $b): T {} function f(): void { return\ng(1, 2); } ¦ int
function g<T>(T $a, T $b): T {} function f(): void { return\ng(1, null); } ¦ ?int
function g<T>(): vec<T> {} function f(): void { return\ng(); } ¦ vec<_>
function g<T>(T $a): T {} function f(): void { return\ng($y); } ¦ _; 1:3 4005 variable $y is not defined here
function g<T, U>(T $a, U $b): U {} function f(): void { return\ng(1, 'x'); } ¦ string
function g<T>(T $a): T {} function f(int $x, string $x): void { return\ng($x); } ¦ (int|string)
function g<T>(T $a): T {} function f(void $x): void { return\ng($x); } ¦ void
function g<T, T>(T $a): T {} function f(): void { return\ng(1); } ¦ int
function g<T>(T $a): ?T {} function f(mixed $x): void { return\ng($x); } ¦ mixed
function g<T>(T $a): ?T {} function f(nothing $x): void { return\ng($x); } ¦ null
-- Calls: matching through options, containers, classes, unions and aliases
function g<T>(?T $a): T {} function f(?int $x): void { return\ng($x); } ¦ int
function g<T>(?T $a): T {} function f(): void { return\ng(1); } ¦ int
function g<T>(?T $a): T {} function f(): void { return\ng(null); } ¦ nothing
function g<T>(?T $a): T {} function f(mixed $x): void { return\ng($x); } ¦ nonnull
function g<T>(vec<T> $a): T {} function f(): void { return\ng(vec[1, 'x']); } ¦ (int|string)
function g<T>(vec<T> $a): T {} function f(): void { return\ng(vec[]); } ¦ nothing
function g<T>(vec<T> $a): T {} function f(): void { return\ng(1); } ¦ _; 1:3 4001 expected vec<_>, found int
function g<T>(vec<T> $a): T {} function f(): void { return\ng(keyset[1]); } ¦ _; 1:3 4001 expected vec<_>, found keyset<int>
function g<K, V>(dict<K, V> $a): dict<V, K> {} function f(): void { return\ng(dict['a' => 1]); } ¦ dict<int, string>
function g<T>(keyset<T> $a): T {} function f(): void { return\ng(keyset['x']); } ¦ string
function g<T>(shape('a' => T) $a): T {} function f(): void { return\ng(shape('a' => 1)); } ¦ _
class B<T> {} function g<T>(B<T> $a): T {} function f(B<int> $x): void { return\ng($x); } ¦ int
class B<T> {} class D<U> extends B<vec<U>> {} function g<T>(B<T> $a): T {} function f(D<int> $x): void { return\ng($x); } ¦ vec<int>
class B<T> {} class D {} function g<T>(B<T> $a): T {} function f(D $x): void { return\ng($x); } ¦ _; 1:3 4001 expected B<_>, found D
interface Traversable<+Tv> {} interface KeyedTraversable<+Tk, +Tv> extends Traversable<Tv> {} interface Container<+Tv> extends Traversable<Tv> {} interface KeyedContainer<+Tk as arraykey, +Tv> extends Container<Tv>, KeyedTraversable<Tk, Tv> {} function g<K, V>(KeyedContainer<K, V> $a): dict<K, V> {} function f(): void { return\ng(vec[1.5]); } ¦ dict<int, float>
interface Traversable<+Tv> {} interface KeyedTraversable<+Tk, +Tv> extends Traversable<Tv> {} interface Container<+Tv> extends Traversable<Tv> {} interface KeyedContainer<+Tk as arraykey, +Tv> extends Container<Tv>, KeyedTraversable<Tk, Tv> {} function g<K, V>(KeyedContainer<K, V> $a): dict<K, V> {} function f(): void { return\ng(keyset['x']); } ¦ dict<string, string>
interface Traversable<+Tv> {} interface KeyedTraversable<+Tk, +Tv> extends Traversable<Tv> {} interface Container<+Tv> extends Traversable<Tv> {} interface KeyedContainer<+Tk as arraykey, +Tv> extends Container<Tv>, KeyedTraversable<Tk, Tv> {} function g<T>(Traversable<T> $a): T {} function f(): void { return\ng(dict['a' => 1]); } ¦ int
function g<T>(vec<T> $a): T {} function f(vec<int> $x, vec<string> $x): void { return\ng($x); } ¦ (int|string)
type A<T> = vec<T>; function g<T>(A<T> $a): T {} function f(): void { return\ng(vec[1]); } ¦ int
type A = vec<int>; function g<T>(vec<T> $a): T {} function f(A $x): void { return\ng($x); } ¦ int
class C { public function m(): void { return\ng($this); } } ¦ _; 1:1 4002 unbound function g
function g<T>(T $a): T {} class C { public function m(): void { return\ng($this); } } ¦ this
function g<T>(vec<T> $a): T {} function f<V as vec<int>>(V $x): void { return\ng($x); } ¦ _
function g<T>(vec<T> $a): T {} function f(Missing $x): void { return\ng($x); } ¦ _
-- Calls: each solved type must be within its bounds, with all solved types put into them, else 3212 at the call
function g<T as num>(T $a): T {} function f(): void { return\ng('x'); } ¦ string; 1:1 3212 type argument string is not within the bounds of T
function g<T as num>(T $a): T {} function f(): void { return\ng(1.5); } ¦ float
function g<T as num>(T $a, T $b): T {} function f(): void { return\ng(1, 'x'); } ¦ (int|string); 1:1 3212 type argument (int|string) is not within the bounds of T
function g<T as num>(T $a, T $b): T {} function f(): void { return\ng(1, 2.5); } ¦ (int|float)
function g<T super num>(T $a): T {} function f(): void { return\ng(1); } ¦ int; 1:1 3212 type argument int is not within the bounds of T
function g<T super num>(T $a): T {} function f(mixed $x): void { return\ng($x); } ¦ mixed
function g<T as num>(): T {} function f(): void { return\ng(); } ¦ _
function g<T as num as int>(T $a): T {} function f(): void { return\ng(1.5); } ¦ float; 1:1 3212 type argument float is not within the bounds of T
function g<T, U as T>(T $a, U $b): U {} function f(): void { return\ng(1, 2.5); } ¦ float; 1:1 3212 type argument float is not within the bounds of U
function g<T, U as T>(T $a, U $b): U {} function f(num $x): void { return\ng($x, 2.5); } ¦ float
function g<T as U, U>(T $a, U $b): T {} function f(num $x): void { return\ng($x, 1); } ¦ num; 1:1 3212 type argument num is not within the bounds of T
function g<T, U as vec<T>>(T $a, U $b): U {} function f(): void { return\ng('x', vec[1]); } ¦ vec<int>; 1:1 3212 type argument vec<int> is not within the bounds of U
function g<T as num, U as num>(T $a, U $b): U {} function f(): void { return\ng('x', true); } ¦ bool; 1:1 3212 type argument string is not within the bounds of T; 1:1 3212 type argument bool is not within the bounds of U
class B<T> {} class D extends B<D> {} function g<T as B<T>>(T $a): T {} function f(D $x): void { return\ng($x); } ¦ D
class B<T> {} class D extends B<D> {} class E extends B<D> {} function g<T as B<T>>(T $a): T {} function f(E $x): void { return\ng($x); } ¦ E; 1:1 3212 type argument E is not within the bounds of T
function g<T as num>(T $a, int $b): T {} function f(): void { return\ng('x', 'y', 1); } ¦ string; 1:1 4004 expected 2 to 2 arguments, found 3; 1:8 4001 expected int, found string; 1:1 3212 type argument string is not within the bounds of T
function g<T as arraykey>(T $a): keyset<T> {} function f(): void { return\ng(1.5); } ¦ keyset<float>; 1:1 3212 type argument float is not within the bounds of T
function g<T as int>(T $a): T {} function f<V as int>(V $x): void { return\ng($x); } ¦ V
function g<T as int>(T $a): T {} function f<V>(V $x): void { return\ng($x); } ¦ V; 1:1 3212 type argument V is not within the bounds of T
-- Calls: no parameter of the caller is taken for one of the callee
class B<T> { public function m<U>(U $u, T $t): T {} } function f<V>(B<V> $b, V $v): V { return\n$b->m(1, $v); } ¦ V
function g<T, U>(T $a, U $b): U {} function f<V>(V $x): void { return\ng(1, $x); } ¦ V
function g<T, U>(T $a, U $b): U {} function f<V>(V $x): void { return\ng($x, 1); } ¦ int
function g<T>(T $a): vec<T> {} function f<T>(T $x): void { return\ng($x); } ¦ vec<T>
function g<T>(T $a, vec<T> $b): T {} function f<V>(V $x): void { return\ng($x, vec[1]); } ¦ (V|int)
class C<T> { public function m<U>(T $t, U $u): vec<U> {} public function n<W>(C<W> $x, W $w): void { return\n$x->m($w, 1); } } ¦ vec<int>
class C<T> { public function m(T $x): T {} public function n(C<int> $x): void { return\n$x->m('a'); } } ¦ int; 1:7 4001 expected int, found string
-- Calls: types of at most 256 nodes
function g<T>(T $a): vec<T> {} function f(C<\*253«int, »int> $x): void { return\ng($x); } ¦ vec<C<\*253«int, »int>>
function g<T>(T $a): vec<T> {} function f(C<\*254«int, »int> $x): void { return\ng($x); } ¦ _
function g<T>(T $a, T $b): T {} function f(C<\*199«int, »int> $x, D<\*199«int, »int> $y): void { return\ng($x, $y); } ¦ _
-- Members: before `::` stands a name, which is a mention, with `_` for each of its type arguments
class C { const int K = 1; } function f(): void { return\nC::K; } ¦ int
function f(): void { return\nC::K; } ¦ _; 1:1 3001 unbound type C
function C(): void {} function f(): void { return\nC::K; } ¦ _; 1:1 3001 unbound type C
trait T { const int K = 1; } function f(): void { return\nT::K; } ¦ _; 1:1 3004 trait T is not a type
function f(): void { return\nC::$p; } ¦ _; 1:1 3001 unbound type C
trait T { public static int $p = 0; } function f(): void { return\nT::$p; } ¦ _; 1:1 3004 trait T is not a type
function f(): void { return\nC::m($y); } ¦ _; 1:1 3001 unbound type C; 1:6 4005 variable $y is not defined here
trait T { public static function m(): int {} } function f(): void { return\nT::m($y); } ¦ _; 1:1 3004 trait T is not a type; 1:6 4005 variable $y is not defined here
class C<T> { const vec<T> K = vec[]; } function f(): void { return\nC::K; } ¦ vec<_>
class C<T> { public static ?vec<T> $p = null; } function f(): void { return\nC::$p; } ¦ ?vec<_>
class C<T> { public static function m(vec<T> $x): vec<T> {} } function f(): void { return\nC::m(vec[1]); } ¦ vec<_>
class C<T> { public static function m(vec<T> $x): vec<T> {} } function f(): void { return\nC::m(1); } ¦ vec<_>; 1:6 4001 expected vec<_>, found int
class C<T as num> { public static function m(): this {} } function f(): void { return\nC::m(); } ¦ C<_>
class T { const int K = 1; } function f<T>(): void { return\nT::K; } ¦ int
function f<T>(): void { return\nT::K; } ¦ _; 1:1 3001 unbound type T
class C<T> { public function m(): void { return\nT::K; } } ¦ _; 1:1 3001 unbound type T
-- Members: `self`, `static` and `parent`; where there is none, 4020 at the word, and `_` once the arguments are typed
class C<T> { const vec<T> K = vec[]; public function m(): void { return\nself::K; } } ¦ vec<T>
class C<T> { const vec<T> K = vec[]; public function m(): void { return\nstatic::K; } } ¦ vec<T>
class B<T> { const vec<T> K = vec[]; } class C<U> extends B<keyset<U>> { public function m(): void { return\nparent::K; } } ¦ vec<keyset<U>>
class C { const int K = 1; public static function m(): void { return\nself::K; } } ¦ int
class C { const int K = 1; public static function m(): void { return\nstatic::K; } } ¦ int
class B { const int K = 1; } class C extends B { public static function m(): void { return\nparent::K; } } ¦ int
function f(): void { return\nself::K; } ¦ _; 1:1 4020 self is not allowed here
function f(): void { return\nstatic::$p; } ¦ _; 1:1 4020 static is not allowed here
function f(): void { return\nparent::m($y); } ¦ _; 1:1 4020 parent is not allowed here; 1:11 4005 variable $y is not defined here
function f(): void { return\nself::m($x = 1); } ¦ _; $x: int; 1:1 4020 self is not allowed here
class C { public function m(): void { return\nparent::K; } } ¦ _; 1:1 4020 parent is not allowed here
class C { public function m(): void { return\nparent::m(1 + 'x'); } } ¦ _; 1:1 4020 parent is not allowed here; 1:11 4012 operator + does not take int and string
class C extends Missing { public function m(): void { return\nparent::K; } } ¦ _; 1:1 4020 parent is not allowed here
interface I { const int K = 1; } class C implements I { public function m(): void { return\nparent::K; } } ¦ _; 1:1 4020 parent is not allowed here
interface I { const int K = 1; } class C extends I { public function m(): void { return\nparent::K; } } ¦ _; 1:1 4020 parent is not allowed here
class B<T> { const int K = 1; } class C extends B { public function m(): void { return\nparent::K; } } ¦ _; 1:1 4020 parent is not allowed here
class C extends C { public function m(): void { return\nparent::K; } } ¦ _; 1:1 4020 parent is not allowed here
interface I { const int K = 1; } trait T implements I { public function m(): void { return\nparent::K; } } ¦ _; 1:1 4020 parent is not allowed here
trait T { const int K = 1; public function m(): void { return\nself::K; } } ¦ int
trait T { const int K = 1; public function m(): void { return\nstatic::K; } } ¦ int
class A { const string K = 'a'; } class B extends A { const int K = 1; } class C extends B { public function m(): void { return\nparent::K; } } ¦ int
class A { const string K = 'a'; } class B extends A {} class C extends B { public function m(): void { return\nparent::K; } } ¦ string
trait T { const string K = 'a'; } interface I { const bool K = true; } class B { const int K = 1; } class C extends B implements I { use T; public function m(): void { return\nparent::K; } } ¦ int
-- Members: a constant, and 4008 with the name that stands before `::`, or of the class that the word stands for
class C { const int K = 1; } function f(): void { return\nC::L; } ¦ _; 1:1 4008 C has no constant L
class C<T> {} function f(): void { return\nC::L; } ¦ _; 1:1 4008 C has no constant L
class C { public static int $K = 1; public static function K(): int {} } function f(): void { return\nC::K; } ¦ _; 1:1 4008 C has no constant K
class C<T> { public function m(): void { return\nself::L; } } ¦ _; 1:1 4008 C has no constant L
class C<T> { public function m(): void { return\nstatic::L; } } ¦ _; 1:1 4008 C has no constant L
class B<T> {} class C extends B<int> { public function m(): void { return\nparent::L; } } ¦ _; 1:1 4008 B has no constant L
class C { const int K = 1; } type A = C; function f(): void { return\nA::K; } ¦ int
class C {} type A = C; function f(): void { return\nA::L; } ¦ _; 1:1 4008 A has no constant L
class C<T> { const vec<T> K = vec[]; } type A<T> = C<keyset<T>>; function f(): void { return\nA::K; } ¦ vec<keyset<_>>
type I = int; function f(): void { return\nI::K; } ¦ _; 1:1 4008 I has no constant K
class C { const int K = 1; } type N = ?C; function f(): void { return\nN::K; } ¦ int; 1:1 4010 value may be null
class C { const int K = 1; } type N = ?C; function f(): void { return\nN::L; } ¦ _; 1:1 4010 value may be null; 1:1 4008 N has no constant L
type N = null; function f(): void { return\nN::K; } ¦ _; 1:1 4010 value may be null
type N = nothing; function f(): void { return\nN::K; } ¦ _
type A = Missing; function f(): void { return\nA::K; } ¦ _
type A = A; function f(): void { return\nA::K; } ¦ _
interface I { const int K; } function f(): void { return\nI::K; } ¦ int
interface I { const int K = 1; } class C implements I {} function f(): void { return\nC::K; } ¦ int
abstract class C { abstract const int K; } function f(): void { return\nC::K; } ¦ int
trait T { const int K = 1; } class C { use T; } function f(): void { return\nC::K; } ¦ int
class B<T> { const ?T K = null; } class C extends B<string> {} function f(): void { return\nC::K; } ¦ ?string
class C { const this K = 1; } function f(): void { return\nC::K; } ¦ C
class C { const this K = 1; public function m(): void { return\nstatic::K; } } ¦ this
class C<T> { const this K = 1; public function m(): void { return\nself::K; } } ¦ C<T>
class B<T> { const this K = 1; } class C extends B<int> { public function m(): void { return\nparent::K; } } ¦ B<int>
class C { const int K = 1; } type A = C; function f(): void { return\n(A::K); } ¦ int
class C extends Missing {} function f(): void { return\nC::K; } ¦ _
class C extends Missing { const int K = 1; } function f(): void { return\nC::K; } ¦ int
class C { use Missing; public function m(): void { return\nself::K; } } ¦ _
class B extends Missing {} class C extends B {} function f(): void { return\nC::K; } ¦ _
-- Members: a case of an enum has the type of the enum
enum E: int { A = 1; } function f(): void { return\nE::A; } ¦ E
enum E: int { A = 1; } function f(): void { return\nE::B; } ¦ _; 1:1 4008 E has no constant B
enum E: string as string { A = 'a'; } function f(): void { return\nE::A; } ¦ E
enum E: int { A = 1; } type F = E; function f(): void { return\nF::A; } ¦ E
enum E: int { A = 1; } type F = E; function f(): void { return\nF::B; } ¦ _; 1:1 4008 F has no constant B
enum E: int { A = 1; } function f(): void { return\nE::$A; } ¦ _; 1:1 4007 type E has no property A
enum E: int { A = 1; } function f(): void { return\nE::A(1.5 + 'x'); } ¦ _; 1:6 4012 operator + does not take float and string; 1:1 4006 type E has no method A
enum E: int { A = 1; } function f(E $x): void { return\n$x->A; } ¦ _; 1:1 4007 type E has no property A
enum E: int as int { A = 1; } function f(): void { return\nE::A + 1; } ¦ int
-- Members: a property behind `::` must be static, else 4018, which leaves the type
class C { public static int $p = 0; public string $q = ''; } function f(): void { return\nC::$p; } ¦ int
class C { public static int $p = 0; public string $q = ''; } function f(): void { return\nC::$q; } ¦ string; 1:1 4018 q is used against its static modifier
class C { public static int $p = 0; public string $q = ''; } function f(): void { return\nC::$r; } ¦ _; 1:1 4007 type C has no property r
class C { public static function p(): int {} const int p = 1; } function f(): void { return\nC::$p; } ¦ _; 1:1 4007 type C has no property p
class C<T> {} function f(): void { return\nC::$p; } ¦ _; 1:1 4007 type C<_> has no property p
class C<T> {} type A = C<int>; function f(): void { return\nA::$p; } ¦ _; 1:1 4007 type C<int> has no property p
interface I {} function f(): void { return\nI::$p; } ¦ _; 1:1 4007 type I has no property p
class C<T> { public static ?T $p = null; public string $q = ''; public static function m(): void { return\nself::$p; } } ¦ ?T
class C { public string $q = ''; public function m(): void { return\nself::$q; } } ¦ string; 1:1 4018 q is used against its static modifier
class C { public string $q = ''; public function m(): void { return\nstatic::$q; } } ¦ string; 1:1 4018 q is used against its static modifier
class B { public string $q = ''; } class C extends B { public function m(): void { return\nparent::$q; } } ¦ string; 1:1 4018 q is used against its static modifier
class C<T> { public function m(): void { return\nself::$r; } } ¦ _; 1:1 4007 type C<T> has no property r
class C<T> { public function m(): void { return\nstatic::$r; } } ¦ _; 1:1 4007 type C<T> has no property r
class B<T> {} class C extends B<int> { public function m(): void { return\nparent::$r; } } ¦ _; 1:1 4007 type B<int> has no property r
class C { public static ?this $p = null; } function f(): void { return\nC::$p; } ¦ ?C
class C { public static ?this $p = null; public function m(): void { return\nstatic::$p; } } ¦ ?this
class C { public static int $p = 0; } type N = ?C; function f(): void { return\nN::$p; } ¦ int; 1:1 4010 value may be null
type I = int; function f(): void { return\nI::$p; } ¦ _; 1:1 4007 type int has no property p
class C extends Missing {} function f(): void { return\nC::$p; } ¦ _
-- Members: a method behind `::` must be static, but behind `parent` in a method that isn't static
class C { public static function m(int $a): string {} public function n(): int {} } function f(): void { return\nC::m(1); } ¦ string
class C { public static function m(int $a): string {} public function n(): int {} } function f(): void { return\nC::n(); } ¦ int; 1:1 4018 n is used against its static modifier
class C { public static function m(int $a): string {} public function n(): int {} } function f(): void { return\nC::o(); } ¦ _; 1:1 4006 type C has no method o
class C { public static int $o = 0; const int o = 1; } function f(): void { return\nC::o(); } ¦ _; 1:1 4006 type C has no method o
class C {} function f(): void { return\nC::o($y); } ¦ _; 1:6 4005 variable $y is not defined here; 1:1 4006 type C has no method o
class C { public static function m(int $a): string {} } function f(): void { return\nC::m(); } ¦ string; 1:1 4004 expected 1 to 1 arguments, found 0
class C { public static function m(int $a): string {} } function f(): void { return\nC::m('x'); } ¦ string; 1:6 4001 expected int, found string
class C { public function n(int $a): int {} } function f(): void { return\nC::n('x', 1); } ¦ int; 1:1 4018 n is used against its static modifier; 1:1 4004 expected 1 to 1 arguments, found 2; 1:6 4001 expected int, found string
class C { public function n(): int {} public function m(): void { return\nself::n(); } } ¦ int; 1:1 4018 n is used against its static modifier
class C { public function n(): int {} public function m(): void { return\nstatic::n(); } } ¦ int; 1:1 4018 n is used against its static modifier
class C { public static function n(): int {} public function m(): void { return\nstatic::n(); } } ¦ int
class B { public function n(): int {} } class C extends B { public function m(): void { return\nparent::n(); } } ¦ int
class B { public function n(): int {} } class C extends B { public static function m(): void { return\nparent::n(); } } ¦ int; 1:1 4018 n is used against its static modifier
class B { public static function n(): int {} } class C extends B { public function m(): void { return\nparent::n(); } } ¦ int
class B { public static function n(): int {} } class C extends B { public static function m(): void { return\nparent::n(); } } ¦ int
class B { public function n(): int {} } class C extends B { public function m(): void { return\nB::n(); } } ¦ int; 1:1 4018 n is used against its static modifier
class B { public function __construct(int $a) {} } class C extends B { public function m(): void { return\nparent::__construct('x'); } } ¦ void; 1:21 4001 expected int, found string
class C { public function __construct(int $a) {} } function f(): void { return\nC::__construct(1); } ¦ void; 1:1 4018 __construct is used against its static modifier
abstract class C { public abstract static function m(): int; } function f(): void { return\nC::m(); } ¦ int
interface I { public static function m(): int; } function f(): void { return\nI::m(); } ¦ int
class B<T> { public static function m(T $a): T {} } class C extends B<int> {} function f(): void { return\nC::m('x'); } ¦ int; 1:6 4001 expected int, found string
class C { public static function m<U>(U $a): vec<U> {} } function f(): void { return\nC::m(1); } ¦ vec<int>
class C { public static function m<U as num>(U $a): vec<U> {} } function f(): void { return\nC::m('x'); } ¦ vec<string>; 1:1 3212 type argument string is not within the bounds of U
class C { public static function m(): noreturn {} } function f(): void { return\nC::m(); } ¦ nothing
class C extends Missing {} function f(): void { return\nC::o($y); } ¦ _; 1:6 4005 variable $y is not defined here
class C<T> {} function f(): void { return\nC::o(); } ¦ _; 1:1 4006 type C<_> has no method o
class C<T> {} type A = ?C<int>; function f(): void { return\nA::o(); } ¦ _; 1:1 4010 value may be null; 1:1 4006 type C<int> has no method o
-- Members: `this` in a result, behind `::`
class C { public static function m(): this {} } function f(): void { return\nC::m(); } ¦ C
class C { public static function m(): this {} } type A = C; function f(): void { return\nA::m(); } ¦ A
class C { public static function m(): this {} } class D extends C {} function f(): void { return\nD::m(); } ¦ D
class C<T> { public static function n(): vec<this> {} public static function m(): void { return\nself::n(); } } ¦ vec<C<T>>
class C<T> { public static function n(): vec<this> {} public static function m(): void { return\nstatic::n(); } } ¦ vec<this>
class C<T> { public static function n(): vec<this> {} public static function m(): void { return\nC::n(); } } ¦ vec<C<_>>
class B<T> { public function n(): this {} } class C extends B<int> { public function m(): void { return\nparent::n(); } } ¦ B<int>
class C { public static function n(this $a): int {} public static function m(C $x): void { return\nstatic::n($x); } } ¦ int; 1:11 4001 expected this, found C
-- Members: a property behind `->` must not be static, else 4018, and one that isn't there is 4007 with the head
class C { public int $p = 0; public static string $s = ''; } function f(C $x): void { return\n$x->p; } ¦ int
class C { public int $p = 0; public static string $s = ''; } function f(C $x): void { return\n$x->s; } ¦ string; 1:1 4018 s is used against its static modifier
class C { public int $p = 0; public static string $s = ''; } function f(C $x): void { return\n$x->r; } ¦ _; 1:1 4007 type C has no property r
class C { public function p(): int {} const int p = 1; } function f(C $x): void { return\n$x->p; } ¦ _; 1:1 4007 type C has no property p
class C { public function __construct(public int $p, private string $q, bool $r) {} } function f(C $x): void { return\n$x->p; } ¦ int
class C { public function __construct(public int $p, private string $q, bool $r) {} } function f(C $x): void { return\n$x->q; } ¦ string; 1:1 4009 q of C is not visible here
class C { public function __construct(public int $p, private string $q, bool $r) {} } function f(C $x): void { return\n$x->r; } ¦ _; 1:1 4007 type C has no property r
class C { public int $p = 0; public static string $s = ''; public function m(): void { return\n$this->p; } } ¦ int
class C { public int $p = 0; public static string $s = ''; public function m(): void { return\n$this->s; } } ¦ string; 1:1 4018 s is used against its static modifier
class C { public int $p = 0; public static function m(): void { return\n$this->p; } } ¦ _; 1:1 4020 $this is not allowed here
class C<T> { public function m(): void { return\n$this->r; } } ¦ _; 1:1 4007 type C<T> has no property r
trait T { public int $p = 0; public function m(): void { return\n$this->p; } } ¦ int
trait T { public function m(): void { return\n$this->r; } } ¦ _; 1:1 4007 type T has no property r
function f(): void { return\n$y->p; } ¦ _; 1:1 4005 variable $y is not defined here
function f(nothing $x): void { return\n$x->p; } ¦ _
function f(Missing $x): void { return\n$x->p; } ¦ _
function f(mixed $x): void { return\n$x->p; } ¦ _; 1:1 4007 type mixed has no property p
function f(nonnull $x): void { return\n$x->p; } ¦ _; 1:1 4007 type nonnull has no property p
function f(void $x): void { return\n$x->p; } ¦ _; 1:1 4007 type void has no property p
function f(vec<int> $x): void { return\n$x->p; } ¦ _; 1:1 4007 type vec<int> has no property p
function f(): void { return\nshape('p' => 1)->p; } ¦ _; 1:1 4007 type shape('p' => int) has no property p
enum E: int {} function f(E $x): void { return\n$x->p; } ¦ _; 1:1 4007 type E has no property p
interface I {} function f(I $x): void { return\n$x->p; } ¦ _; 1:1 4007 type I has no property p
class C extends Missing { public int $p = 0; } function f(C $x): void { return\n$x->p; } ¦ int
class C extends Missing { public int $p = 0; } function f(C $x): void { return\n$x->q; } ¦ _
class C<T> {} function f(C $x): void { return\n$x->p; } ¦ _
class C<T> { public ?T $p = null; public function m(C $x): void { return\n$x->p; } } ¦ _
class C<T> { public ?T $p = null; public function m(C $x): void { return\n$x->q; } } ¦ _; 1:1 4007 type C has no property q
class C { public C $c; public int $p = 0; } function f(C $x): void { return\n$x->c->c->p; } ¦ int
class C { public C $c; public int $p = 0; } function f(C $x): void { return\nvec[$x->c->q]; } ¦ vec<_>; 1:5 4007 type C has no property q
class C { public int $p = 0; } function f(C $x): void { return\n(($x))->q; } ¦ _; 1:1 4007 type C has no property q
-- Members: an option and null are 4010, and `?->` gives an option instead
class C { public int $p = 0; } function f(?C $x): void { return\n$x->p; } ¦ int; 1:1 4010 value may be null
class C { public int $p = 0; } function f(?C $x): void { return\n$x?->p; } ¦ ?int
class C { public int $p = 0; } function f(C $x): void { return\n$x?->p; } ¦ int
class C { public int $p = 0; } function f(?C $x): void { return\n$x->q; } ¦ _; 1:1 4010 value may be null; 1:1 4007 type C has no property q
class C { public int $p = 0; } function f(?C $x): void { return\n$x?->q; } ¦ _; 1:1 4007 type C has no property q
function f(null $x): void { return\n$x->p; } ¦ _; 1:1 4010 value may be null
function f(null $x): void { return\n$x?->p; } ¦ _
function f(?int $x): void { return\n$x->p; } ¦ _; 1:1 4010 value may be null; 1:1 4007 type int has no property p
class C { public ?int $p = 0; } function f(?C $x): void { return\n$x?->p; } ¦ ?int
class C { public mixed $p = 0; } function f(?C $x): void { return\n$x?->p; } ¦ mixed
class C { public nothing $p; } function f(?C $x): void { return\n$x?->p; } ¦ null
class C { public ?C $c = null; public int $p = 0; } function f(C $x): void { return\n$x->c?->c?->p; } ¦ ?int
class C { public ?C $c = null; public int $p = 0; } function f(C $x): void { return\n$x->c->c->p; } ¦ int; 1:1 4010 value may be null; 1:1 4010 value may be null
class C { public int $p = 0; public static string $s = ''; } function f(?C $x): void { return\n$x?->s; } ¦ ?string; 1:1 4018 s is used against its static modifier
class C { public int $p = 0; } type A = ?C; function f(A $x): void { return\n$x->p; } ¦ int; 1:1 4010 value may be null
class C { public int $p = 0; } type A = ?C; function f(?A $x): void { return\n$x?->p; } ¦ ?int
class C { public int $p = 0; } type A = ?C; function f(?A $x): void { return\n$x->q; } ¦ _; 1:1 4010 value may be null; 1:1 4010 value may be null; 1:1 4007 type C has no property q
type A = ?A; function f(A $x): void { return\n$x?->p; } ¦ _
type A = ?A; function f(A $x): void { return\n$x->p; } ¦ _\*17«; 1:1 4010 value may be null»
class C { public int $p = 0; } type A0 = ?A1; type A1 = ?A2; type A2 = ?A3; type A3 = ?A4; type A4 = ?A5; type A5 = ?A6; type A6 = ?A7; type A7 = ?A8; type A8 = ?A9; type A9 = ?A10; type A10 = ?A11; type A11 = ?A12; type A12 = ?A13; type A13 = ?A14; type A14 = ?A15; type A15 = ?C; function f(A0 $x): void { return\n$x?->p; } ¦ ?int
class C { public int $p = 0; } type A0 = ?A1; type A1 = ?A2; type A2 = ?A3; type A3 = ?A4; type A4 = ?A5; type A5 = ?A6; type A6 = ?A7; type A7 = ?A8; type A8 = ?A9; type A9 = ?A10; type A10 = ?A11; type A11 = ?A12; type A12 = ?A13; type A13 = ?A14; type A14 = ?A15; type A15 = ?A16; type A16 = ?C; function f(A0 $x): void { return\n$x?->p; } ¦ _
class C { public int $p = 0; } type A = ?C; function f(?A $x): void { return\n$x->p; } ¦ int; 1:1 4010 value may be null; 1:1 4010 value may be null
-- Members: a union goes per member, and 4007 shows the head of the one that fails
class C { public int $p = 0; } class D { public string $p = ''; } function f(C $x, D $x): void { return\n$x->p; } ¦ (int|string)
class C { public int $p = 0; } class D { public int $p = 0; } function f(C $x, D $x): void { return\n$x->p; } ¦ int
class C { public int $p = 0; } class D {} function f(C $x, D $x): void { return\n$x->p; } ¦ _; 1:1 4007 type D has no property p
class C {} class D {} function f(C $x, D $x): void { return\n$x->p; } ¦ _; 1:1 4007 type C has no property p; 1:1 4007 type D has no property p
class C { public int $p = 0; } function f(C $x, int $x): void { return\n$x->p; } ¦ _; 1:1 4007 type int has no property p
class C { public int $p = 0; } class D { public string $p = ''; } function f(?C $x, D $x): void { return\n$x->p; } ¦ (int|string); 1:1 4010 value may be null
class C { public int $p = 0; } class D { public string $p = ''; } function f(?C $x, D $x): void { return\n$x?->p; } ¦ ?(int|string)
class C { public int $p = 0; } class D {} type A = D; function f(C $x, A $x): void { return\n$x->p; } ¦ _; 1:1 4007 type D has no property p
class C { public int $p = 0; } class D { public string $p = ''; } type A = ?D; function f(C $x, A $x): void { return\n$x->p; } ¦ (int|string); 1:1 4010 value may be null
class C { private int $p = 0; } class D { public static string $p = ''; } function f(C $x, D $x): void { return\n$x->p; } ¦ (int|string); 1:1 4009 p of C is not visible here; 1:1 4018 p is used against its static modifier
class C { public int $p = 0; } function f(C $x, Missing $x): void { return\n$x->p; } ¦ _
-- Members: aliases and type parameters by their heads
class C { public int $p = 0; } type A = C; function f(A $x): void { return\n$x->p; } ¦ int
class C { public int $p = 0; } type A = B; type B = C; function f(A $x): void { return\n$x->q; } ¦ _; 1:1 4007 type C has no property q
class C { public int $p = 0; } function f<T as C>(T $x): void { return\n$x->p; } ¦ int
class C { public int $p = 0; } function f<T as C>(T $x): void { return\n$x->q; } ¦ _; 1:1 4007 type C has no property q
function f<T>(T $x): void { return\n$x->p; } ¦ _; 1:1 4007 type mixed has no property p
class C { public int $p = 0; } function f<T super C>(T $x): void { return\n$x->p; } ¦ _; 1:1 4007 type mixed has no property p
class C { public int $p = 0; } class D { public string $p = ''; } function f<T as C as D>(T $x): void { return\n$x->p; } ¦ int
class C { public int $p = 0; } class D { public string $p = ''; } function f<T super D as C>(T $x): void { return\n$x->p; } ¦ int
class C { public int $p = 0; } function f<T as U, U as ?C>(T $x): void { return\n$x->p; } ¦ int; 1:1 4010 value may be null
class B { public int $p = 0; } class C<T as B> { public function m(T $x): void { return\n$x->p; } } ¦ int
class B { public int $p = 0; } class C<T as B> { public function m<T>(T $x): void { return\n$x->p; } } ¦ _; 1:1 4007 type mixed has no property p
type A0 = A1; type A1 = A2; type A2 = A3; type A3 = A4; type A4 = A5; type A5 = A6; type A6 = A7; type A7 = A8; type A8 = A9; type A9 = A10; type A10 = A11; type A11 = A12; type A12 = A13; type A13 = A14; type A14 = A15; type A15 = int; function f(A0 $x): void { return\n$x->p; } ¦ _; 1:1 4007 type int has no property p
type A0 = A1; type A1 = A2; type A2 = A3; type A3 = A4; type A4 = A5; type A5 = A6; type A6 = A7; type A7 = A8; type A8 = A9; type A9 = A10; type A10 = A11; type A11 = A12; type A12 = A13; type A13 = A14; type A14 = A15; type A15 = A16; type A16 = int; function f(A0 $x): void { return\n$x->p; } ¦ _
function f<T as T>(T $x): void { return\n$x->p; } ¦ _
-- Members: the arguments of the class, and `this` as the type before its head was taken
class C<T> { public vec<T> $p = vec[]; } function f(C<int> $x): void { return\n$x->p; } ¦ vec<int>
class B<T> { public vec<T> $p = vec[]; } class C<U> extends B<keyset<U>> {} function f(C<int> $x): void { return\n$x->p; } ¦ vec<keyset<int>>
class C<T> { public vec<T> $p = vec[]; public function m(): void { return\n$this->p; } } ¦ vec<T>
class B<T> { public vec<T> $p = vec[]; } class C extends B<int> { public function m(): void { return\n$this->p; } } ¦ vec<int>
class C<T> { public ?T $p = null; } function f(C<?int> $x): void { return\n$x->p; } ¦ ?int
class C<T> { public dict<int, T> $p = dict[]; } function f(C<D<\*252«int, »int>> $x): void { return\n$x->p; } ¦ dict<int, D<\*252«int, »int>>
class C<T> { public dict<int, T> $p = dict[]; } function f(C<D<\*253«int, »int>> $x): void { return\n$x->p; } ¦ _
class C { public ?this $p = null; } function f(C $x): void { return\n$x->p; } ¦ ?C
class C { public ?this $p = null; public function m(): void { return\n$this->p; } } ¦ ?this
class C { public ?this $p = null; } type A = C; function f(A $x): void { return\n$x->p; } ¦ ?A
class C { public ?this $p = null; } function f<T as C>(T $x): void { return\n$x->p; } ¦ ?T
class C { public vec<this> $p = vec[]; } class D { public vec<this> $p = vec[]; } function f(C $x, D $x): void { return\n$x->p; } ¦ (vec<C>|vec<D>)
class C { public vec<this> $p = vec[]; } function f(?C $x): void { return\n$x?->p; } ¦ ?vec<C>
class C { public vec<this> $p = vec[]; } type A = ?C; function f(A $x): void { return\n$x?->p; } ¦ ?vec<C>
class B { public vec<this> $p = vec[]; } class C extends B {} function f(C $x): void { return\n$x->p; } ¦ vec<C>
-- Members: a method behind `->`, whose arguments are typed behind its object and before it is looked for
class C { public function m(int $a): string {} public static function s(): int {} } function f(C $x): void { return\n$x->m(1); } ¦ string
class C { public function m(int $a): string {} public static function s(): int {} } function f(C $x): void { return\n$x->s(); } ¦ int; 1:1 4018 s is used against its static modifier
class C { public function m(int $a): string {} public static function s(): int {} } function f(C $x): void { return\n$x->o(); } ¦ _; 1:1 4006 type C has no method o
class C { public int $o = 0; const int o = 1; } function f(C $x): void { return\n$x->o(); } ¦ _; 1:1 4006 type C has no method o
class C { public function m(int $a): string {} } function f(C $x): void { return\n$x->m(); } ¦ string; 1:1 4004 expected 1 to 1 arguments, found 0
class C { public function m(int $a): string {} } function f(C $x): void { return\n$x->m('x'); } ¦ string; 1:7 4001 expected int, found string
class C { public function m(int $a): string {} } function f(?C $x): void { return\n$x->m($y); } ¦ string; 1:7 4005 variable $y is not defined here; 1:1 4010 value may be null
class C { public function m(int $a): string {} } function f(?C $x): void { return\n$x?->m('x'); } ¦ ?string; 1:8 4001 expected int, found string
class C {} function f(?C $x): void { return\n$x?->o(); } ¦ _; 1:1 4006 type C has no method o
function f(null $x): void { return\n$x->m($y); } ¦ _; 1:7 4005 variable $y is not defined here; 1:1 4010 value may be null
function f(null $x): void { return\n$x?->m(); } ¦ _
function f(): void { return\n$y->m($z); } ¦ _; 1:1 4005 variable $y is not defined here; 1:7 4005 variable $z is not defined here
function f(nothing $x): void { return\n$x->m($y); } ¦ _; 1:7 4005 variable $y is not defined here
function f(mixed $x): void { return\n$x->m(); } ¦ _; 1:1 4006 type mixed has no method m
function f(): void { return\n(1)->m(); } ¦ _; 1:1 4006 type int has no method m
function f<T>(T $x): void { return\n$x->m(); } ¦ _; 1:1 4006 type mixed has no method m
type A = vec<int>; function f(A $x): void { return\n$x->m(); } ¦ _; 1:1 4006 type vec<int> has no method m
class C { public function m(int $a): int {} } class D { public function m(string $a): string {} } function f(C $x, D $x): void { return\n$x->m(1); } ¦ (int|string); 1:7 4001 expected string, found int
class C { public function m(int $a): int {} } class D { public function m(num $a): int {} } function f(C $x, D $x): void { return\n$x->m('a'); } ¦ int; 1:7 4001 expected int, found string; 1:7 4001 expected num, found string
class C { public function m(): int {} } class D {} function f(C $x, D $x): void { return\n$x->m(); } ¦ _; 1:1 4006 type D has no method m
class C { public function m(): int {} } class D { public function m(): noreturn {} } function f(C $x, D $x): void { return\n$x->m(); } ¦ int
class C { public function m(): noreturn {} } function f(C $x): void { return\n$x->m(); } ¦ nothing
class C { public function m(): noreturn {} } function f(?C $x): void { return\n$x?->m(); } ¦ null
class C { public function m(): void {} } function f(?C $x): void { return\n$x?->m(); } ¦ ?void
class C { public function m() {} } function f(?C $x): void { return\n$x?->m(); } ¦ _
class C<T> { public function m(T $a): vec<T> {} } function f(C<int> $x): void { return\n$x->m('a'); } ¦ vec<int>; 1:7 4001 expected int, found string
class C<T> { public function m<U as T>(U $a): U {} } function f(C<num> $x): void { return\n$x->m('a'); } ¦ string; 1:1 3212 type argument string is not within the bounds of U
class C<T> { public function m<U as T>(U $a): U {} } function f(C<num> $x): void { return\n$x->m(1); } ¦ int
class C<T> { public function m<U super T>(U $a): U {} } function f(C<num> $x): void { return\n$x->m(1); } ¦ int; 1:1 3212 type argument int is not within the bounds of U
class C<T> { public function m<U>(dict<int, T> $a, U $b): dict<int, U> {} } function f(C<int> $x): void { return\n$x->m(dict[], 'x'); } ¦ dict<int, string>
class C { public function m(): this {} } function f(C $x): void { return\n$x->m()->m(); } ¦ C
class C { public function m(): this {} public function n(): void { return\n$this->m()->m(); } } ¦ this
class C { public function m(): this {} } function f<T as C>(T $x): void { return\n$x->m(); } ¦ T
class C { public function m(): this {} } function f<T as C>(?T $x): void { return\n$x?->m(); } ¦ ?T
class C { public function m(): this {} } class D { public function m(): ?this {} } function f(C $x, D $x): void { return\n$x->m(); } ¦ ?(C|D)
class C { public function m(this $a): int {} public function n(C $x): void { return\n$this->m($x); } } ¦ int; 1:10 4001 expected this, found C
class C { public function m(this $a): int {} public function n(C $x): void { return\n$x->m($this); } } ¦ int
class C { public function m(mixed $a, mixed $b): int {} } function f(C $x, mixed $y): void { return\n$x->m($y as int, $y = 'a'); } ¦ int; $y: string
class C { public function m(): int {} } function f(C $x): void { return\n($x = null)->m($x); } ¦ _; $x: null; 1:1 4010 value may be null
class C { public function m(): C {} } function f(C $x): void { return\n1 + $x->m()->o(); } ¦ _; 1:5 4006 type C has no method o
class C { public function m(): int {} } function f(C $x): void { return\n$x->m; } ¦ _; 1:1 4007 type C has no property m
interface Throwable { public function getMessage(): string; } class Exception implements Throwable { public function __construct(private string $message = '') {} public function getMessage(): string {} } function f(Exception $x): void { return\n$x->getMessage(); } ¦ string
interface Throwable { public function getMessage(): string; } function f(Throwable $x): void { return\n$x->getMessage(1); } ¦ string; 1:1 4004 expected 0 to 0 arguments, found 1
interface Throwable { public function getMessage(): string; } class Exception implements Throwable { public function __construct(private string $message = '') {} public function getMessage(): string {} } class C extends Exception {} function f(C $x): void { return\n$x->message; } ¦ string; 1:1 4009 message of Exception is not visible here
class C extends Missing {} function f(C $x): void { return\n$x->m(1); } ¦ _
class C { public function __construct(int $a) {} } function f(C $x): void { return\n$x->__construct('x'); } ¦ void; 1:17 4001 expected int, found string
abstract class C { public abstract function m(): int; public function n(): void { return\n$this->m(); } } ¦ int
class C { public function list(): int {} } function f(C $x): void { return\n$x->list(); } ¦ int
class C { public function new(): int {} } function f(C $x): void { return\n$x->new(); } ¦ int
-- Members: a private member in its origin alone, else 4009 with the origin, which leaves the type
class C { private int $p = 0; public function m(C $x): void { return\n$x->p; } } ¦ int
class C { private int $p = 0; } function f(C $x): void { return\n$x->p; } ¦ int; 1:1 4009 p of C is not visible here
class C { private function p(): int {} } function f(C $x): void { return\n$x->p(); } ¦ int; 1:1 4009 p of C is not visible here
class C { private static int $p = 0; } function f(): void { return\nC::$p; } ¦ int; 1:1 4009 p of C is not visible here
class C { private static function p(int $a): int {} } function f(): void { return\nC::p('x'); } ¦ int; 1:1 4009 p of C is not visible here; 1:6 4001 expected int, found string
class C { private const int K = 1; } function f(): void { return\nC::K; } ¦ int; 1:1 4009 K of C is not visible here
class C { private const int K = 1; public function m(): void { return\nself::K; } } ¦ int
class B { private int $p = 0; } class C extends B { public function m(): void { return\n$this->p; } } ¦ int; 1:1 4009 p of B is not visible here
class C extends B {} class B { private int $p = 0; public function m(C $x): void { return\n$x->p; } } ¦ int
class B { private const int K = 1; } class C extends B { public function m(): void { return\nparent::K; } } ¦ int; 1:1 4009 K of B is not visible here
class C { private static int $p = 0; } function f(C $x): void { return\n$x->p; } ¦ int; 1:1 4009 p of C is not visible here; 1:1 4018 p is used against its static modifier
class C { private int $p = 0; public static function m(C $x): void { return\n$x->p; } } ¦ int
trait T { private int $p = 0; } class C { use T; public function m(): void { return\n$this->p; } } ¦ int
trait T { private int $p = 0; } class C { use T; } function f(C $x): void { return\n$x->p; } ¦ int; 1:1 4009 p of C is not visible here
trait T { private int $p = 0; public function m(): void { return\n$this->p; } } ¦ int
class C { use T; } trait T { private int $p = 0; public function m(C $x): void { return\n$x->p; } } ¦ int; 1:1 4009 p of C is not visible here
class C { private int $p = 0; } class D { private int $p = 0; public function m(C $x, D $x): void { return\n$x->p; } } ¦ int; 1:1 4009 p of C is not visible here
-- Members: a protected member in what is or stands below its origin
class C { protected int $p = 0; public function m(C $x): void { return\n$x->p; } } ¦ int
class C { protected int $p = 0; } function f(C $x): void { return\n$x->p; } ¦ int; 1:1 4009 p of C is not visible here
class B { protected int $p = 0; } class C extends B { public function m(B $x): void { return\n$x->p; } } ¦ int
class A { protected int $p = 0; } class B extends A {} class C extends B { public function m(): void { return\n$this->p; } } ¦ int
class C extends B { protected int $p = 0; } class B { public function m(C $x): void { return\n$x->p; } } ¦ int; 1:1 4009 p of C is not visible here
class C { protected int $p = 0; } class D { public function m(C $x): void { return\n$x->p; } } ¦ int; 1:1 4009 p of C is not visible here
class B { protected static function n(): int {} } class C extends B { public static function m(): void { return\nB::n(); } } ¦ int
class B { protected const int K = 1; } class C extends B { public function m(): void { return\nparent::K; } } ¦ int
class B { protected const int K = 1; } class C extends B {} function f(): void { return\nC::K; } ¦ int; 1:1 4009 K of B is not visible here
trait T { protected int $p = 0; } class B { use T; } class C extends B { public function m(): void { return\n$this->p; } } ¦ int
class B { protected int $p = 0; } trait T { public function m(B $x): void { return\n$x->p; } } ¦ int; 1:1 4009 p of B is not visible here
class B { protected function n(): int {} } class C extends B { public function m(): void { return\nparent::n(); } } ¦ int
class B { protected function n(): int {} } class C extends B { public function n(): int {} } class D extends B { public function m(C $x): void { return\n$x->n(); } } ¦ int
class B { protected function n(): int {} } class C extends B { protected function n(): int {} } class D extends B { public function m(C $x): void { return\n$x->n(); } } ¦ int; 1:1 4009 n of C is not visible here
-- New: the arguments are typed first; a name is a mention, and never a type parameter
class C {} function f(): void { return\nnew C(); } ¦ C
function f(): void { return\nnew C(); } ¦ _; 1:5 3001 unbound type C
function f(): void { return\nnew C($y); } ¦ _; 1:7 4005 variable $y is not defined here; 1:5 3001 unbound type C
trait T {} function f(): void { return\nnew T($x = 1); } ¦ _; $x: int; 1:5 3004 trait T is not a type
function C(): void {} function f(): void { return\nnew C(); } ¦ _; 1:5 3001 unbound type C
function f<T>(): void { return\nnew T(); } ¦ _; 1:5 3001 unbound type T
class T {} function f<T>(): void { return\nnew T(); } ¦ T
class C<T> { public function m(): void { return\nnew T(); } } ¦ _; 1:5 3001 unbound type T
class C {} function f(): void { return\nvec[new C(), new D()]; } ¦ vec<_>; 1:18 3001 unbound type D
function f(): void { return\nnew D<Missing>($y); } ¦ _; 1:16 4005 variable $y is not defined here; 1:5 3001 unbound type D; 1:7 3001 unbound type Missing
-- New: 4011 where the name isn't that of a class that isn't abstract; an alias isn't looked through, and the type stays
abstract class C {} function f(): void { return\nnew C(); } ¦ C; 1:1 4011 C cannot be instantiated
final class C {} function f(): void { return\nnew C(); } ¦ C
abstract class B {} class C extends B {} function f(): void { return\nnew C(); } ¦ C
interface I {} function f(): void { return\nnew I(); } ¦ I; 1:1 4011 I cannot be instantiated
enum E: int {} function f(): void { return\nnew E(); } ¦ E; 1:1 4011 E cannot be instantiated
class C {} type A = C; function f(): void { return\nnew A(); } ¦ A; 1:1 4011 A cannot be instantiated
class C { public function __construct(int $a) {} } type A = C; function f(): void { return\nnew A(1); } ¦ A; 1:1 4011 A cannot be instantiated; 1:1 4004 expected 0 to 0 arguments, found 1
abstract class C { public function __construct(int $a) {} } function f(): void { return\nnew C('x'); } ¦ C; 1:1 4011 C cannot be instantiated; 1:7 4001 expected int, found string
interface I { public function __construct(int $a); } function f(): void { return\nnew I(); } ¦ I; 1:1 4011 I cannot be instantiated; 1:1 4004 expected 1 to 1 arguments, found 0
interface I {} function f(): void { return\nnew I(1); } ¦ I; 1:1 4011 I cannot be instantiated; 1:1 4004 expected 0 to 0 arguments, found 1
interface Throwable { public function getMessage(): string; } function f(): void { return\nnew Throwable(); } ¦ Throwable; 1:1 4011 Throwable cannot be instantiated
interface Traversable<+Tv> {} function f(): void { return\nnew Traversable(); } ¦ Traversable<_>; 1:1 4011 Traversable cannot be instantiated
interface Traversable<+Tv> {} function f(): void { return\nnew Traversable<int>(); } ¦ Traversable<int>; 1:1 4011 Traversable cannot be instantiated
abstract final class C {} function f(): void { return\nvec[new C()]; } ¦ vec<C>; 1:5 4011 C cannot be instantiated
abstract class C<T> { public function __construct(T $a) {} } function f(): void { return\nnew C(1); } ¦ C<int>; 1:1 4011 C cannot be instantiated
type A<T> = vec<T>; function f(): void { return\nnew A(1); } ¦ A<_>; 1:1 4011 A cannot be instantiated; 1:1 4004 expected 0 to 0 arguments, found 1
type A<T> = vec<T>; function f(): void { return\nnew A<int>(); } ¦ A<int>; 1:1 4011 A cannot be instantiated
-- New: the arguments go to the folded `__construct`; without one there must be none, but for a partial class
class C { public function __construct(int $a, string $b = '') {} } function f(): void { return\nnew C(1); } ¦ C
class C { public function __construct(int $a, string $b = '') {} } function f(): void { return\nnew C(); } ¦ C; 1:1 4004 expected 1 to 2 arguments, found 0
class C { public function __construct(int $a, string $b = '') {} } function f(): void { return\nnew C(1, 2); } ¦ C; 1:10 4001 expected string, found int
class C { public function __construct(int $a, string $b = '') {} } function f(): void { return\nnew C('x', '', 1); } ¦ C; 1:1 4004 expected 1 to 2 arguments, found 3; 1:7 4001 expected int, found string
class C {} function f(): void { return\nnew C(1); } ¦ C; 1:1 4004 expected 0 to 0 arguments, found 1
class B { public function __construct(int $a) {} } class C extends B {} function f(): void { return\nnew C('x'); } ¦ C; 1:7 4001 expected int, found string
trait T { public function __construct(int $a) {} } class C { use T; } function f(): void { return\nnew C(); } ¦ C; 1:1 4004 expected 1 to 1 arguments, found 0
interface I { public function __construct(int $a); } class C implements I {} function f(): void { return\nnew C(); } ¦ C; 1:1 4004 expected 1 to 1 arguments, found 0
class C extends Missing {} function f(): void { return\nnew C(1, 'x'); } ¦ C
class C extends Missing { public function __construct(int $a) {} } function f(): void { return\nnew C(1, 'x'); } ¦ C; 1:1 4004 expected 1 to 1 arguments, found 2
class C<T> extends Missing {} function f(): void { return\nnew C(1); } ¦ C<_>
class C<T> extends Missing {} function f(): void { return\nnew C<int>(1); } ¦ C<int>
class C extends C {} function f(): void { return\nnew C(1); } ¦ C
class C { public function __construct(private int $p) {} } function f(): void { return\nnew C('x'); } ¦ C; 1:7 4001 expected int, found string
class C { public function __construct(?this $a = null) {} } function f(): void { return\nnew C(1); } ¦ C; 1:7 4001 expected ?C, found int
class C { public function __construct(?this $a = null) {} } function f(): void { return\nnew C(new C()); } ¦ C
class C { public function __construct<U as num>(U $a, vec<U> $b) {} } function f(): void { return\nnew C(1, vec['x']); } ¦ C; 1:1 3212 type argument (int|string) is not within the bounds of U
class C { public function __construct<U as num>(U $a, vec<U> $b) {} } function f(): void { return\nnew C(1, vec[1.5]); } ¦ C
class C { public function __construct(int $a): noreturn {} } function f(): void { return\nnew C(1); } ¦ C
class C { public static function __construct(int $a): void {} } function f(): void { return\nnew C(1); } ¦ C
interface Throwable { public function getMessage(): string; } class Exception implements Throwable { public function __construct(private string $message = '') {} public function getMessage(): string {} } function f(): void { return\nnew Exception(); } ¦ Exception
interface Throwable { public function getMessage(): string; } class Exception implements Throwable { public function __construct(private string $message = '') {} public function getMessage(): string {} } function f(): void { return\nnew Exception(1); } ¦ Exception; 1:15 4001 expected string, found int
interface Throwable { public function getMessage(): string; } class Exception implements Throwable { public function __construct(private string $message = '') {} public function getMessage(): string {} } function f(): void { return\nnew Exception('a', 'b'); } ¦ Exception; 1:1 4004 expected 0 to 1 arguments, found 2
class C { public int $p = 0; } function f(): void { return\nnew C()->p; } ¦ int
class C { public int $p = 0; } function f(): void { return\nnew C()->q; } ¦ _; 1:1 4007 type C has no property q
-- New: a `__construct` that isn't visible is 4009 at `new`
class C { private function __construct() {} } function f(): void { return\nnew C(); } ¦ C; 1:1 4009 __construct of C is not visible here
class C { private function __construct(int $a) {} } function f(): void { return\nvec[new C('x')]; } ¦ vec<C>; 1:5 4009 __construct of C is not visible here; 1:11 4001 expected int, found string
class C { private function __construct() {} public static function m(): void { return\nnew C(); } } ¦ C
class B { private function __construct() {} } class C extends B {} function f(): void { return\nnew C(); } ¦ C; 1:1 4009 __construct of B is not visible here
class B { protected function __construct() {} } class C extends B { public static function m(): void { return\nnew B(); } } ¦ B
class B { protected function __construct() {} } function f(): void { return\nnew B(); } ¦ B; 1:1 4009 __construct of B is not visible here
class B { private function __construct() {} } class C extends B { public static function m(): void { return\nnew self(); } } ¦ C; 1:1 4009 __construct of B is not visible here
class C<T> { private function __construct(T $a) {} } function f(): void { return\nnew C(1); } ¦ C<int>; 1:1 4009 __construct of C is not visible here
abstract class C { private function __construct() {} } function f(): void { return\nnew C(1); } ¦ C; 1:1 4011 C cannot be instantiated; 1:1 4009 __construct of C is not visible here; 1:1 4004 expected 0 to 0 arguments, found 1
-- New: written type arguments are written types; another number is 3002, and each is measured against its bounds
class C<T> {} function f(): void { return\nnew C<int>(); } ¦ C<int>
class C<T> {} function f(): void { return\nnew C<int, int>($y); } ¦ _; 1:17 4005 variable $y is not defined here; 1:5 3002 C takes 1 type arguments, found 2
class C {} function f(): void { return\nnew C<int>(); } ¦ _; 1:5 3002 C takes 0 type arguments, found 1
class C<T, U> {} function f(): void { return\nnew C<Missing>(); } ¦ _; 1:7 3001 unbound type Missing; 1:5 3002 C takes 2 type arguments, found 1
trait T<U> {} function f(): void { return\nnew T<int, int>(); } ¦ _; 1:5 3004 trait T is not a type; 1:5 3002 T takes 1 type arguments, found 2
trait T<U as num> {} function f(): void { return\nnew T<string>(); } ¦ _; 1:5 3004 trait T is not a type
class C<T> {} function f(): void { return\nnew C<Missing>(); } ¦ C<Missing>; 1:7 3001 unbound type Missing
class C<T> {} function f<T>(): void { return\nnew C<vec<T>>(); } ¦ C<vec<T>>
class C<T> {} function f(): void { return\nnew C<this>(); } ¦ C<this>; 1:7 4020 this is not allowed here
class C<T> {} function f(): void { return\nnew C<keyset<float>>(); } ¦ C<keyset<float>>; 1:14 3212 type argument float is not within the bounds of Tk
class C<T as num> {} function f(): void { return\nnew C<string>(); } ¦ C<string>; 1:7 3212 type argument string is not within the bounds of T
class C<T as num> {} function f(): void { return\nnew C<int>(); } ¦ C<int>
class C<T, U as T> {} function f(): void { return\nnew C<int, num>(); } ¦ C<int, num>; 1:12 3212 type argument num is not within the bounds of U
class C<T as num, U as num> {} function f(): void { return\nnew C<string, bool>(); } ¦ C<string, bool>; 1:7 3212 type argument string is not within the bounds of T; 1:15 3212 type argument bool is not within the bounds of U
class C<T> { public function __construct(T $a) {} } function f(): void { return\nnew C<int>('x'); } ¦ C<int>; 1:12 4001 expected int, found string
class C<T> { public function __construct(T $a) {} } function f(): void { return\nnew C<num>(1); } ¦ C<num>
class C<T> { public function __construct<U as T>(U $a) {} } function f(): void { return\nnew C<num>('x'); } ¦ C<num>; 1:1 3212 type argument string is not within the bounds of U
abstract class C<T as num> { public function __construct(T $a) {} } function f(): void { return\nnew C<string>(1); } ¦ C<string>; 1:7 3212 type argument string is not within the bounds of T; 1:1 4011 C cannot be instantiated; 1:15 4001 expected string, found int
class C<T> {} function f(): void { return\nnew C<int>(1); } ¦ C<int>; 1:1 4004 expected 0 to 0 arguments, found 1
class C<\*255«T, »T> {} function f(): void { return\nnew C<\*255«int, »int>(); } ¦ _; 1:5 3006 type above 256 nodes
class C<\*254«T, »T> {} function f(): void { return\nnew C<\*254«int, »int>(); } ¦ C<\*254«int, »int>
class C<T as num> {} class D<\*254«T, »T> {} function f(): void { return\nnew C<D<\*254«int, »int>>($y); } ¦ _; 1:1285 4005 variable $y is not defined here; 1:5 3006 type above 256 nodes
class C<T> {} class D<\*255«T, »T> {} function f(): void { return\nnew C<D<\*255«int, »int>>(); } ¦ C<_>; 1:7 3006 type above 256 nodes
-- New: without written type arguments they are solved together with the constructor's own, and both are within their bounds
class C<T> { public function __construct(T $a) {} } function f(): void { return\nnew C(1); } ¦ C<int>
class C<T> { public function __construct(T $a, T $b) {} } function f(): void { return\nnew C(1, 'x'); } ¦ C<(int|string)>
class C<T> { public function __construct(?T $a = null) {} } function f(): void { return\nnew C(); } ¦ C<_>
class C<T> { public function __construct(?T $a = null) {} } function f(?int $x): void { return\nnew C($x); } ¦ C<int>
class C<T> {} function f(): void { return\nnew C(); } ¦ C<_>
class C<T> {} function f(): void { return\nnew C(1); } ¦ C<_>; 1:1 4004 expected 0 to 0 arguments, found 1
class C<T as num> {} function f(): void { return\nnew C(); } ¦ C<_>
class C<T> { public function __construct() {} } function f(): void { return\nnew C(); } ¦ C<_>
class C<T, U> { public function __construct(U $a) {} } function f(): void { return\nnew C(1); } ¦ C<_, int>
class C<T> { public function __construct(vec<T> $a) {} } function f(): void { return\nnew C(1); } ¦ C<_>; 1:7 4001 expected vec<_>, found int
class C<T as num> { public function __construct(T $a) {} } function f(): void { return\nnew C('x'); } ¦ C<string>; 1:1 3212 type argument string is not within the bounds of T
class C<T as num> { public function __construct(T $a) {} } function f(): void { return\nnew C(1); } ¦ C<int>
class C<T, U as T> { public function __construct(T $a, U $b) {} } function f(): void { return\nnew C(1, 'x'); } ¦ C<int, string>; 1:1 3212 type argument string is not within the bounds of U
class C<T, U as T> { public function __construct(T $a, U $b) {} } function f(num $x): void { return\nnew C($x, 1); } ¦ C<num, int>
class C<T> { public function __construct<U as T>(T $a, U $b) {} } function f(): void { return\nnew C(1, 'x'); } ¦ C<int>; 1:1 3212 type argument string is not within the bounds of U
class C<T> { public function __construct<U as T>(T $a, U $b) {} } function f(num $x): void { return\nnew C($x, 1.5); } ¦ C<num>
class C<T as string> { public function __construct<U as T>(T $a, U $b) {} } function f(): void { return\nnew C(1, 2.5); } ¦ C<int>; 1:1 3212 type argument int is not within the bounds of T; 1:1 3212 type argument float is not within the bounds of U
class C<T> { public function __construct<U>(U $a, dict<int, U> $b, T $c) {} } function f(): void { return\nnew C(1, dict[1 => 'x'], 1.5); } ¦ C<float>
class C<T> { public function __construct<T>(T $a) {} } function f(): void { return\nnew C(1); } ¦ C<_>
class B<T> { public function __construct(T $a) {} } class C<U> extends B<vec<U>> {} function f(): void { return\nnew C(vec[1]); } ¦ C<int>
class B<T> { public function __construct(T $a) {} } class C extends B<int> {} function f(): void { return\nnew C('x'); } ¦ C; 1:7 4001 expected int, found string
class C<T> { public function __construct(T $a, ?this $b) {} } function f(): void { return\nnew C(1, 2); } ¦ C<int>; 1:10 4001 expected ?C<int>, found int
class C<T> { public function __construct(T $a, int $b) {} } function f(): void { return\nnew C(1.5); } ¦ C<float>; 1:1 4004 expected 2 to 2 arguments, found 1
class C<T> { public function __construct(shape('a' => T) $a) {} } function f(): void { return\nnew C(shape('a' => 1)); } ¦ C<_>
class C<T> { public function __construct(T $a) {} } function f<V>(V $x): void { return\nnew C($x); } ¦ C<V>
class C<T> { public function __construct(T $a) {} public function m(T $x): void { return\nnew C(vec[$x]); } } ¦ C<vec<T>>
class C<T> { public function __construct(T $a) {} } function f(D<\*253«int, »int> $x): void { return\nnew C($x); } ¦ C<D<\*253«int, »int>>
class C<T> { public function __construct(T $a) {} } function f(D<\*254«int, »int> $x): void { return\nnew C($x); } ¦ _
class C<\*255«T, »T> {} function f(): void { return\nnew C(); } ¦ _
-- New: the words; `new static` has the type `this`, and 4020 stands at the word
class C { public function m(): void { return\nnew self(); } } ¦ C
class C<T> { public function m(): void { return\nnew self(); } } ¦ C<T>
class C { public static function m(): void { return\nnew static(); } } ¦ this
class C<T> { public function m(): void { return\nnew static(); } } ¦ this
class B<T> {} class C extends B<int> { public function m(): void { return\nnew parent(); } } ¦ B<int>
abstract class C { public function m(): void { return\nnew self(); } } ¦ C
abstract class C { public function m(): void { return\nnew static(); } } ¦ this
abstract class B {} class C extends B { public function m(): void { return\nnew parent(); } } ¦ B; 1:1 4011 B cannot be instantiated
abstract class B { public function __construct(int $a) {} } class C extends B { public function m(): void { return\nnew parent('x'); } } ¦ B; 1:1 4011 B cannot be instantiated; 1:12 4001 expected int, found string
abstract class C { public function m(): void { return\nnew C(); } } ¦ C; 1:1 4011 C cannot be instantiated
class C { public function __construct(int $a) {} public function m(): void { return\nnew static('x'); } } ¦ this; 1:12 4001 expected int, found string
class C { public function __construct(int $a) {} public function m(): void { return\nnew self(); } } ¦ C; 1:1 4004 expected 1 to 1 arguments, found 0
class C { public function m(): void { return\nnew static(1); } } ¦ this; 1:1 4004 expected 0 to 0 arguments, found 1
class C extends Missing { public function m(): void { return\nnew static(1); } } ¦ this
class C<T> { public function __construct(T $a) {} public function m(): void { return\nnew self(1); } } ¦ C<T>; 1:10 4001 expected T, found int
class C<T> { public function __construct(T $a) {} public function m(T $x): void { return\nnew static($x); } } ¦ this
class C<T> { public function __construct<U as T>(U $a) {} public function m(): void { return\nnew self(1); } } ¦ C<T>; 1:1 3212 type argument int is not within the bounds of U
class B<T> { public function __construct(T $a) {} } class C extends B<int> { public function m(): void { return\nnew parent('x'); } } ¦ B<int>; 1:12 4001 expected int, found string
class C { public function __construct(?this $a) {} public function m(C $x): void { return\nnew static($x); } } ¦ this; 1:12 4001 expected ?this, found C
class C { public function __construct(?this $a) {} public function m(): void { return\nnew self($this); } } ¦ C
class B { private function __construct() {} } class C extends B { public function m(): void { return\nnew static(); } } ¦ this; 1:1 4009 __construct of B is not visible here
class B { private function __construct() {} } class C extends B { public function m(): void { return\nnew parent(); } } ¦ B; 1:1 4009 __construct of B is not visible here
trait T { public function m(): void { return\nnew self(); } } ¦ T
trait T { public function m(): void { return\nnew static(); } } ¦ this
function f(): void { return\nnew self($y); } ¦ _; 1:10 4005 variable $y is not defined here; 1:5 4020 self is not allowed here
function f(): void { return\nnew static(); } ¦ _; 1:5 4020 static is not allowed here
function f(): void { return\nnew parent(); } ¦ _; 1:5 4020 parent is not allowed here
class C { public function m(): void { return\nnew parent($y); } } ¦ _; 1:12 4005 variable $y is not defined here; 1:5 4020 parent is not allowed here
interface I {} trait T implements I { public function m(): void { return\nnew parent(); } } ¦ _; 1:5 4020 parent is not allowed here
class C { public int $p = 0; public function m(): void { return\nnew static()->p; } } ¦ int
-- Index: `vec` and `string` expect int
function f(vec<string> $x): void { return\n$x[0]; } ¦ string
function f(vec<string> $x): void { return\n$x['a']; } ¦ string; 1:4 4001 expected int, found string
function f(vec<string> $x, num $y): void { return\n$x[$y]; } ¦ string; 1:4 4001 expected int, found num
function f(string $x): void { return\n$x[0]; } ¦ string
function f(string $x): void { return\n$x['a']; } ¦ string; 1:4 4001 expected int, found string
function f(): void { return\n'abc'[1]; } ¦ string
function f(): void { return\nvec[1, 'x'][0]; } ¦ (int|string)
function f(): void { return\nvec[][0]; } ¦ nothing
function f(vec<int> $x): void { return\n($x)[(1.5)]; } ¦ int; 1:6 4001 expected int, found float
function f(vec<?int> $x): void { return\n$x[null]; } ¦ ?int; 1:4 4001 expected int, found null
function f(vec<int> $x): void { return\n$x[$y]; } ¦ int; 1:4 4005 variable $y is not defined here
-- Index: `dict` and `keyset` expect their key
function f(dict<string, int> $x): void { return\n$x['a']; } ¦ int
function f(dict<string, int> $x): void { return\n$x[0]; } ¦ int; 1:4 4001 expected string, found int
function f(dict<string, int> $x, arraykey $y): void { return\n$x[$y]; } ¦ int; 1:4 4001 expected string, found arraykey
function f(dict<arraykey, int> $x): void { return\n$x[0]; } ¦ int
function f(): void { return\ndict['a' => 1, 2 => 'x'][0]; } ¦ (int|string)
function f(): void { return\ndict[]['a']; } ¦ nothing; 1:8 4001 expected nothing, found string
function f(keyset<string> $x): void { return\n$x['a']; } ¦ string
function f(keyset<string> $x): void { return\n$x[0]; } ¦ string; 1:4 4001 expected string, found int
enum E: int { A = 1; } function f(dict<E, int> $x): void { return\n$x[E::A]; } ¦ int
enum E: int { A = 1; } function f(dict<E, int> $x): void { return\n$x[1]; } ¦ int; 1:4 4001 expected E, found int
-- Index: a class that is or stands below `KeyedContainer` expects its key
interface Traversable<+Tv> {} interface KeyedTraversable<+Tk, +Tv> extends Traversable<Tv> {} interface Container<+Tv> extends Traversable<Tv> {} interface KeyedContainer<+Tk as arraykey, +Tv> extends Container<Tv>, KeyedTraversable<Tk, Tv> {} function f(KeyedContainer<string, int> $x): void { return\n$x['a']; } ¦ int
interface Traversable<+Tv> {} interface KeyedTraversable<+Tk, +Tv> extends Traversable<Tv> {} interface Container<+Tv> extends Traversable<Tv> {} interface KeyedContainer<+Tk as arraykey, +Tv> extends Container<Tv>, KeyedTraversable<Tk, Tv> {} function f(KeyedContainer<string, int> $x): void { return\n$x[0]; } ¦ int; 1:4 4001 expected string, found int
interface Traversable<+Tv> {} interface KeyedTraversable<+Tk, +Tv> extends Traversable<Tv> {} interface Container<+Tv> extends Traversable<Tv> {} interface KeyedContainer<+Tk as arraykey, +Tv> extends Container<Tv>, KeyedTraversable<Tk, Tv> {} abstract class K implements KeyedContainer<string, int> {} function f(K $x): void { return\n$x['a']; } ¦ int
interface Traversable<+Tv> {} interface KeyedTraversable<+Tk, +Tv> extends Traversable<Tv> {} interface Container<+Tv> extends Traversable<Tv> {} interface KeyedContainer<+Tk as arraykey, +Tv> extends Container<Tv>, KeyedTraversable<Tk, Tv> {} abstract class K<T> implements KeyedContainer<int, vec<T>> {} function f(K<string> $x): void { return\n$x[0]; } ¦ vec<string>
interface Traversable<+Tv> {} interface KeyedTraversable<+Tk, +Tv> extends Traversable<Tv> {} interface Container<+Tv> extends Traversable<Tv> {} interface KeyedContainer<+Tk as arraykey, +Tv> extends Container<Tv>, KeyedTraversable<Tk, Tv> {} abstract class K<T> implements KeyedContainer<int, vec<T>> {} function f(K<string> $x): void { return\n$x['a']; } ¦ vec<string>; 1:4 4001 expected int, found string
interface Traversable<+Tv> {} interface KeyedTraversable<+Tk, +Tv> extends Traversable<Tv> {} interface Container<+Tv> extends Traversable<Tv> {} interface KeyedContainer<+Tk as arraykey, +Tv> extends Container<Tv>, KeyedTraversable<Tk, Tv> {} abstract class K<T> implements KeyedContainer<int, vec<T>> { public function m(): void { return\n$this[0]; } } ¦ vec<T>
interface Traversable<+Tv> {} interface KeyedTraversable<+Tk, +Tv> extends Traversable<Tv> {} interface Container<+Tv> extends Traversable<Tv> {} interface KeyedContainer<+Tk as arraykey, +Tv> extends Container<Tv>, KeyedTraversable<Tk, Tv> {} interface J<T as arraykey> extends KeyedContainer<T, T> {} class K implements J<string> {} function f(K $x): void { return\n$x['a']; } ¦ string
interface Traversable<+Tv> {} interface KeyedTraversable<+Tk, +Tv> extends Traversable<Tv> {} interface Container<+Tv> extends Traversable<Tv> {} interface KeyedContainer<+Tk as arraykey, +Tv> extends Container<Tv>, KeyedTraversable<Tk, Tv> {} class K<T> implements KeyedContainer<int, dict<int, T>> {} function f(K<C<\*252«int, »int>> $x): void { return\n$x[0]; } ¦ dict<int, C<\*252«int, »int>>
interface Traversable<+Tv> {} interface KeyedTraversable<+Tk, +Tv> extends Traversable<Tv> {} interface Container<+Tv> extends Traversable<Tv> {} interface KeyedContainer<+Tk as arraykey, +Tv> extends Container<Tv>, KeyedTraversable<Tk, Tv> {} class K<T> implements KeyedContainer<int, dict<int, T>> {} function f(K<C<\*253«int, »int>> $x): void { return\n$x[0]; } ¦ _
class C {} function f(C $x): void { return\n$x[0]; } ¦ _; 1:1 4013 type C cannot be indexed so
class C extends Missing {} function f(C $x): void { return\n$x[0]; } ¦ _; 1:1 4013 type C cannot be indexed so
interface Traversable<+Tv> {} interface KeyedTraversable<+Tk, +Tv> extends Traversable<Tv> {} interface Container<+Tv> extends Traversable<Tv> {} interface KeyedContainer<+Tk as arraykey, +Tv> extends Container<Tv>, KeyedTraversable<Tk, Tv> {} class C extends Missing implements KeyedContainer<int, string> {} function f(C $x): void { return\n$x[0]; } ¦ string
interface Traversable<+Tv> {} interface KeyedTraversable<+Tk, +Tv> extends Traversable<Tv> {} interface Container<+Tv> extends Traversable<Tv> {} interface KeyedContainer<+Tk as arraykey, +Tv> extends Container<Tv>, KeyedTraversable<Tk, Tv> {} class C implements KeyedContainer<int> {} function f(C $x): void { return\n$x[0]; } ¦ _; 1:1 4013 type C cannot be indexed so
interface Traversable<+Tv> {} interface Container<+Tv> extends Traversable<Tv> {} function f(Container<int> $x): void { return\n$x[0]; } ¦ _; 1:1 4013 type Container<int> cannot be indexed so
interface Traversable<+Tv> {} function f(Traversable<int> $x): void { return\n$x[0]; } ¦ _; 1:1 4013 type Traversable<int> cannot be indexed so
enum E: string as string {} function f(E $x): void { return\n$x[0]; } ¦ _; 1:1 4013 type E cannot be indexed so
-- Index: a shape with a key string; a field that isn't there is 4014, and one that may be missing 4015
function f(shape('a' => int, ?'b' => string) $x): void { return\n$x['a']; } ¦ int
function f(shape('a' => int, ?'b' => string) $x): void { return\n$x["a"]; } ¦ int
function f(shape('a' => int, ?'b' => string) $x): void { return\n$x['b']; } ¦ string; 1:1 4015 field 'b' may be missing
function f(shape('a' => int, ?'b' => string) $x): void { return\n$x['c']; } ¦ _; 1:1 4014 shape has no field 'c'
function f(shape('a' => int, ?'b' => string) $x): void { return\n$x['A']; } ¦ _; 1:1 4014 shape has no field 'A'
function f(shape('a' => int, ...) $x): void { return\n$x['c']; } ¦ _; 1:1 4014 shape has no field 'c'
function f(shape('a' => int, ...) $x): void { return\n$x['a']; } ¦ int
function f(): void { return\nshape('a' => 1)['a']; } ¦ int
function f(): void { return\nshape('a' => 1, 'b' => shape('c' => 'x'))['b']['c']; } ¦ string
function f(shape('a' => ?int) $x): void { return\n$x['a']; } ¦ ?int
function f(shape(?'a' => shape(?'b' => int)) $x): void { return\n$x['a']['b']; } ¦ int; 1:1 4015 field 'a' may be missing; 1:1 4015 field 'b' may be missing
-- Index: a shape with any other index is 4013, once that was typed; brackets hide a key string
function f(shape('a' => int) $x): void { return\n$x[('a')]; } ¦ _; 1:1 4013 type shape('a' => int) cannot be indexed so
function f(shape('a' => int) $x): void { return\n$x[0]; } ¦ _; 1:1 4013 type shape('a' => int) cannot be indexed so
function f(shape('a' => int) $x, string $y): void { return\n$x[$y]; } ¦ _; 1:1 4013 type shape('a' => int) cannot be indexed so
function f(shape('a' => int) $x): void { return\n$x[$y]; } ¦ _; 1:4 4005 variable $y is not defined here; 1:1 4013 type shape('a' => int) cannot be indexed so
function f(shape('a' => int) $x): void { return\n$x['a' . '']; } ¦ _; 1:1 4013 type shape('a' => int) cannot be indexed so
function f(shape('a' => int) $x): void { return\n$x['']; } ¦ _; 1:1 4013 type shape('a' => int) cannot be indexed so
function f(shape('a' => int) $x): void { return\n($x)['a']; } ¦ int
function f(shape(?'b' => int, 'a' => string, ...) $x): void { return\nvec[$x[1]]; } ¦ vec<_>; 1:5 4013 type shape('a' => string, ?'b' => int, ...) cannot be indexed so
const string K = 'a'; function f(shape('a' => int) $x): void { return\n$x[K]; } ¦ _; 1:1 4013 type shape('a' => int) cannot be indexed so
-- Index: `?T` and `null` are 4010 and `_`, `_` is `_`, and any other is 4013 with the head
function f(?vec<int> $x): void { return\n$x[0]; } ¦ _; 1:1 4010 value may be null
function f(null $x): void { return\n$x[0]; } ¦ _; 1:1 4010 value may be null
function f(?int $x): void { return\n$x['a']; } ¦ _; 1:1 4010 value may be null
function f(): void { return\n$y[$z]; } ¦ _; 1:1 4005 variable $y is not defined here; 1:4 4005 variable $z is not defined here
function f(Missing $x): void { return\n$x['a']; } ¦ _
function f(nothing $x): void { return\n$x[0]; } ¦ _; 1:1 4013 type nothing cannot be indexed so
function f(vec<int> $x, vec<string> $x): void { return\n$x[0]; } ¦ _; 1:1 4013 type (vec<int>|vec<string>) cannot be indexed so
function f(?vec<int> $x, vec<string> $x): void { return\n$x[0]; } ¦ _; 1:1 4010 value may be null
function f(mixed $x): void { return\n$x[0]; } ¦ _; 1:1 4013 type mixed cannot be indexed so
function f(nonnull $x): void { return\n$x[0]; } ¦ _; 1:1 4013 type nonnull cannot be indexed so
function f(void $x): void { return\n$x[0]; } ¦ _; 1:1 4013 type void cannot be indexed so
function f(arraykey $x): void { return\n$x[0]; } ¦ _; 1:1 4013 type arraykey cannot be indexed so
function f(): void { return\n1[0]; } ¦ _; 1:1 4013 type int cannot be indexed so
type A = vec<int>; function f(A $x): void { return\n$x[0]; } ¦ int
type A = ?vec<int>; function f(A $x): void { return\n$x[0]; } ¦ _; 1:1 4010 value may be null
type A = B; type B = int; function f(A $x): void { return\n$x[0]; } ¦ _; 1:1 4013 type int cannot be indexed so
type A<T> = dict<string, T>; function f(A<int> $x): void { return\n$x['a']; } ¦ int
function f<T as vec<int>>(T $x): void { return\n$x[0]; } ¦ int
function f<T>(T $x): void { return\n$x[0]; } ¦ _; 1:1 4013 type mixed cannot be indexed so
function f<T as arraykey, U as dict<T, int>>(U $x, T $y): void { return\n$x[$y]; } ¦ int
class C { public function m(): void { return\n$this[0]; } } ¦ _; 1:1 4013 type C cannot be indexed so
function f(int $x): void { return\n$x[$y]; } ¦ _; 1:4 4005 variable $y is not defined here; 1:1 4013 type int cannot be indexed so
function f(?vec<int> $x): void { return\n$x['a' + 1]; } ¦ _; 1:4 4012 operator + does not take string and int; 1:1 4010 value may be null
-- Index: `e[]` as a value is 4013, but `_` for `_`, and 4010 for an option and null
function f(vec<int> $x): void { return\n$x[]; } ¦ _; 1:1 4013 type vec<int> cannot be indexed so
function f(dict<string, int> $x): void { return\n$x[]; } ¦ _; 1:1 4013 type dict<string, int> cannot be indexed so
function f(shape('a' => int) $x): void { return\n$x[]; } ¦ _; 1:1 4013 type shape('a' => int) cannot be indexed so
interface Traversable<+Tv> {} interface KeyedTraversable<+Tk, +Tv> extends Traversable<Tv> {} interface Container<+Tv> extends Traversable<Tv> {} interface KeyedContainer<+Tk as arraykey, +Tv> extends Container<Tv>, KeyedTraversable<Tk, Tv> {} function f(KeyedContainer<int, int> $x): void { return\n$x[]; } ¦ _; 1:1 4013 type KeyedContainer<int, int> cannot be indexed so
function f(): void { return\n$y[]; } ¦ _; 1:1 4005 variable $y is not defined here
function f(?vec<int> $x): void { return\n$x[]; } ¦ _; 1:1 4010 value may be null
function f(null $x): void { return\n$x[]; } ¦ _; 1:1 4010 value may be null
function f(nothing $x): void { return\n$x[]; } ¦ _; 1:1 4013 type nothing cannot be indexed so
type A = string; function f(A $x): void { return\n$x[]; } ¦ _; 1:1 4013 type string cannot be indexed so
-- Index: behind other suffixes, each at the first token of the whole
function f(vec<dict<string, int>> $x): void { return\n$x[0]['a']; } ¦ int
function f(vec<dict<string, int>> $x): void { return\n$x['a'][0]; } ¦ int; 1:4 4001 expected int, found string; 1:9 4001 expected string, found int
function f(vec<?vec<int>> $x): void { return\n$x[0][1]; } ¦ _; 1:1 4010 value may be null
function f(vec<int> $x): void { return\n$x[0][1]; } ¦ _; 1:1 4013 type int cannot be indexed so
function g(): vec<int> {} function f(): void { return\ng()[0]; } ¦ int
function g(): vec<int> {} function f(): void { return\n1 + g()['a']; } ¦ int; 1:9 4001 expected int, found string
class C { public vec<C> $p = vec[]; } function f(C $x): void { return\n$x->p[0]->p; } ¦ vec<C>
class C { public vec<C> $p = vec[]; } function f(C $x): void { return\n$x->p[0]->q; } ¦ _; 1:1 4007 type C has no property q
class C { public vec<?C> $p = vec[]; } function f(C $x): void { return\n$x->p[0]?->p; } ¦ ?vec<?C>
class C { public static dict<string, int> $p = dict[]; } function f(): void { return\nC::$p[0]; } ¦ int; 1:7 4001 expected string, found int
class C { const vec<string> K = vec[]; } function f(): void { return\nC::K[0]; } ¦ string
class C { public function m(): vec<this> {} } function f(C $x): void { return\n$x->m()[0]->m()[1]; } ¦ C
function f(mixed $x): void { return\n($x as vec<int>)[$x['a']]; } ¦ int; $x: vec<int>; 1:21 4001 expected int, found string
function f(vec<int> $x, mixed $y): void { return\n$x[$y as int]; } ¦ int; $y: int
class C { public int $p = 0; public function m(): vec<int> {} } function f(?C $x): void { return\n$x?->m()[0]; } ¦ _; 1:1 4010 value may be null
"#;
