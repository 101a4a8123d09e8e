// Each answer was worked out by hand from docs/language.md, Subtyping, in the order of the rules: for each one pair that is below and
// one that fails by a hair. A row has declarations, of which the last is a function that takes the lower type, or the members of a
// union, and returns the upper one, or a class with such a method. Where a container may stand below a name, the declarations of the
// builtin text that the rule on containers needs are among them.

/// Declarations, and whether the lower type is below the upper one.
pub(crate) const BELOW: &str = r#"
function f(dict<int, ?string> $s): dict<int, ?string> { return $s; } ¦ below
function f(shape('b' => int, 'a' => string) $s): shape('a' => string, 'b' => int) { return $s; } ¦ below
function f(void $s): void { return $s; } ¦ below
function f(void $s): noreturn { return $s; } ¦ not
function f(Missing $s): int { return $s; } ¦ below
function f(int $s): Missing { return $s; } ¦ below
trait R {} function f(R $s): int { return $s; } ¦ below
class A<T> {} function f(A $s): int { return $s; } ¦ below
enum E: int {} function f(E<int> $s): string { return $s; } ¦ below
class A<T> {} function f(A<int> $s): int { return $s; } ¦ not
class A extends Missing {} class B {} function f(A $s): B { return $s; } ¦ below
class A extends Missing {} class B {} function f(B $s): A { return $s; } ¦ not
class A extends Missing {} enum E: int {} function f(A $s): E { return $s; } ¦ not
function f(nothing $s): int { return $s; } ¦ below
function f(noreturn $s): int { return $s; } ¦ not
function f(?void $s): mixed { return $s; } ¦ below
function f(void $s): mixed { return $s; } ¦ not
function f(int $s): num { return $s; } ¦ below
function f(float $s): arraykey { return $s; } ¦ not
function f(num $s): nonnull { return $s; } ¦ below
function f(void $s): nonnull { return $s; } ¦ not
function f(shape() $s): nonnull { return $s; } ¦ below
enum E: int {} function f(E $s): nonnull { return $s; } ¦ below
type A = ?int; function f(A $s): nonnull { return $s; } ¦ not
function f(null $s): ?int { return $s; } ¦ below
function f(null $s): nonnull { return $s; } ¦ not
function f(int $s): ?num { return $s; } ¦ below
function f(num $s): ?int { return $s; } ¦ not
type A = ?num; function f(?int $s): A { return $s; } ¦ below
type A = num; function f(?int $s): A { return $s; } ¦ not
function f(int $s, float $t): num { return $s; } ¦ below
function f(int $s, string $t): num { return $s; } ¦ not
function f(int $s, ?float $t): ?num { return $s; } ¦ below
function f(vec<int> $s): vec<num> { return $s; } ¦ below
function f(vec<num> $s): vec<int> { return $s; } ¦ not
function f(vec<int> $s): keyset<int> { return $s; } ¦ not
interface Traversable<+Tv> {} interface KeyedTraversable<+Tk, +Tv> extends Traversable<Tv> {} interface Container<+Tv> extends Traversable<Tv> {} interface KeyedContainer<+Tk as arraykey, +Tv> extends Container<Tv>, KeyedTraversable<Tk, Tv> {} function f(dict<string, int> $s): KeyedContainer<arraykey, num> { return $s; } ¦ below
interface Traversable<+Tv> {} interface KeyedTraversable<+Tk, +Tv> extends Traversable<Tv> {} interface Container<+Tv> extends Traversable<Tv> {} interface KeyedContainer<+Tk as arraykey, +Tv> extends Container<Tv>, KeyedTraversable<Tk, Tv> {} function f(dict<string, int> $s): KeyedContainer<int, num> { return $s; } ¦ not
interface Traversable<+Tv> {} interface KeyedTraversable<+Tk, +Tv> extends Traversable<Tv> {} interface Container<+Tv> extends Traversable<Tv> {} interface KeyedContainer<+Tk as arraykey, +Tv> extends Container<Tv>, KeyedTraversable<Tk, Tv> {} function f(keyset<string> $s): Traversable<arraykey> { return $s; } ¦ below
interface Traversable<+Tv> {} interface KeyedTraversable<+Tk, +Tv> extends Traversable<Tv> {} interface Container<+Tv> extends Traversable<Tv> {} interface KeyedContainer<+Tk as arraykey, +Tv> extends Container<Tv>, KeyedTraversable<Tk, Tv> {} function f(vec<int> $s): Container<int> { return $s; } ¦ below
interface Traversable<+Tv> {} interface KeyedTraversable<+Tk, +Tv> extends Traversable<Tv> {} interface Container<+Tv> extends Traversable<Tv> {} interface KeyedContainer<+Tk as arraykey, +Tv> extends Container<Tv>, KeyedTraversable<Tk, Tv> {} function f(shape() $s): Container<int> { return $s; } ¦ not
type A<T> = B<T>; type B<T> = vec<T>; function f(A<int> $s): vec<num> { return $s; } ¦ below
interface Traversable<+Tv> {} interface KeyedTraversable<+Tk, +Tv> extends Traversable<Tv> {} interface Container<+Tv> extends Traversable<Tv> {} interface KeyedContainer<+Tk as arraykey, +Tv> extends Container<Tv>, KeyedTraversable<Tk, Tv> {} type A<T> = B<T>; type B<T> = vec<T>; function f(vec<num> $s): A<int> { return $s; } ¦ not
function f(shape('a' => int) $s): shape('a' => num, ?'b' => int) { return $s; } ¦ below
function f(shape('a' => int, ...) $s): shape('a' => num, ?'b' => int, ...) { return $s; } ¦ not
function f(shape(?'a' => int) $s): shape('a' => int) { return $s; } ¦ not
function f(shape('a' => int, 'b' => int) $s): shape('a' => int) { return $s; } ¦ not
function f(shape('a' => int, 'b' => int) $s): shape('a' => int, ...) { return $s; } ¦ below
function f(shape('a' => int, ...) $s): shape('a' => int) { return $s; } ¦ not
interface I<+T> {} function f(I<int> $s): I<num> { return $s; } ¦ below
interface I<-T> {} function f(I<num> $s): I<int> { return $s; } ¦ below
interface I<T> {} function f(I<int> $s): I<num> { return $s; } ¦ not
interface I<T> {} type A = int; function f(I<A> $s): I<int> { return $s; } ¦ below
interface I<+T> {} interface J<T> extends I<vec<T>> {} function f(J<int> $s): I<vec<num>> { return $s; } ¦ below
interface I<T> {} interface J<T> extends I<vec<T>> {} function f(J<int> $s): I<vec<num>> { return $s; } ¦ not
type A<+T> = shape('k' => I<T>); interface I<T> {} function f(A<int> $s): A<num> { return $s; } ¦ below
function f<T as num>(T $s): num { return $s; } ¦ below
function f<T as num>(T $s): int { return $s; } ¦ not
function f<T super int>(int $s): T { return $s; } ¦ below
function f<T as int>(int $s): T { return $s; } ¦ not
function f<T>(T $s): mixed { return $s; } ¦ below
function f<T>(T $s): nonnull { return $s; } ¦ not
interface I<T> {} abstract class A<T> implements I<T> { public function m(this $s): I<T> { return $s; } } ¦ below
interface I<T> {} abstract class A<T> implements I<T> { public function m(this $s): I<int> { return $s; } } ¦ not
class A { public function m(A $s): this { return $s; } } ¦ not
enum E: int {} function f(E $s): arraykey { return $s; } ¦ below
enum E: int {} function f(E $s): int { return $s; } ¦ not
enum E: int as int {} function f(E $s): num { return $s; } ¦ below
enum E: int as int {} function f(E $s): string { return $s; } ¦ not
function f(vec<vec<vec<vec<vec<vec<vec<vec<vec<vec<vec<vec<vec<vec<vec<int>>>>>>>>>>>>>>> $s): vec<vec<vec<vec<vec<vec<vec<vec<vec<vec<vec<vec<vec<vec<vec<num>>>>>>>>>>>>>>> { return $s; } ¦ below
function f(vec<vec<vec<vec<vec<vec<vec<vec<vec<vec<vec<vec<vec<vec<vec<vec<int>>>>>>>>>>>>>>>> $s): vec<vec<vec<vec<vec<vec<vec<vec<vec<vec<vec<vec<vec<vec<vec<vec<num>>>>>>>>>>>>>>>> { return $s; } ¦ not
function f(int $s, ?float $t): num { return $s; } ¦ not
"#;
