// Each answer was worked out by hand from docs/language.md, Typing expressions, Calls. A row has declarations; the last but one is a function
// with type parameters, which is called with what the parameters of the last one take.

/// Declarations, what the type parameters are solved to, and what the call gives.
pub(crate) const SOLVED: &str = r#"
function m<T>(T $x): vec<T> {} function f(int $a): void {} ¦ int (vec int)
function m<T>(vec<T> $x): T {} function f(vec<int> $a): void {} ¦ int int
function m<T>(vec<T> $x): T {} function f(keyset<int> $a): void {} ¦ _ _
function m<T>(keyset<T> $x): T {} function f(keyset<int> $a): void {} ¦ int int
function m<K, V>(dict<K, V> $x): dict<V, K> {} function f(dict<int, string> $a): void {} ¦ int string (dict string int)
function m<T>(T $x, T $y): T {} function f(int $a, string $b): void {} ¦ (union int string) (union int string)
function m<T>(vec<T> $x, vec<T> $y): T {} function f(vec<int> $a, vec<int> $b): void {} ¦ int int
function m<T>(int $x): T {} function f(int $a): void {} ¦ _ _
function m<T>(T $x): T {} function f(int $a, string $b): void {} ¦ int int
function m<T, U>(T $x, U $y): U {} function f(int $a): void {} ¦ int _ _
function m<T>(?T $x): T {} function f(?int $a): void {} ¦ int int
function m<T>(?T $x): T {} function f(int $a): void {} ¦ int int
function m<T>(?T $x): T {} function f(null $a): void {} ¦ nothing nothing
function m<T>(?T $x): T {} function f(mixed $a): void {} ¦ nonnull nonnull
type O = ?int; function m<T>(?T $x): T {} function f(O $a): void {} ¦ int int
function m<T>(T $x): T {} function f(?int $a): void {} ¦ (? int) (? int)
function m<T>(T $x): ?T {} function f(mixed $a): void {} ¦ mixed mixed
function m<T>(shape('a' => T) $x): T {} function f(shape('a' => int) $a): void {} ¦ _ _
interface Traversable<+Tv> {} interface KeyedTraversable<+Tk, +Tv> extends Traversable<Tv> {} interface Container<+Tv> extends Traversable<Tv> {} interface KeyedContainer<+Tk as arraykey, +Tv> extends Container<Tv>, KeyedTraversable<Tk, Tv> {} function m<K, V>(KeyedContainer<K, V> $x): V {} function f(vec<string> $a): void {} ¦ int string string
interface Traversable<+Tv> {} interface KeyedTraversable<+Tk, +Tv> extends Traversable<Tv> {} interface Container<+Tv> extends Traversable<Tv> {} interface KeyedContainer<+Tk as arraykey, +Tv> extends Container<Tv>, KeyedTraversable<Tk, Tv> {} function m<T>(Traversable<T> $x): T {} function f(keyset<int> $a): void {} ¦ int int
interface Traversable<+Tv> {} interface KeyedTraversable<+Tk, +Tv> extends Traversable<Tv> {} interface Container<+Tv> extends Traversable<Tv> {} interface KeyedContainer<+Tk as arraykey, +Tv> extends Container<Tv>, KeyedTraversable<Tk, Tv> {} function m<T>(Traversable<T> $x): T {} function f(dict<int, string> $a): void {} ¦ string string
class C<T> {} function m<T>(C<T> $x): T {} function f(C<int> $a): void {} ¦ int int
interface I<T> {} class D<T> implements I<vec<T>> {} function m<T>(I<T> $x): T {} function f(D<int> $a): void {} ¦ (vec int) (vec int)
interface I<T> {} class D<T> {} function m<T>(I<T> $x): T {} function f(D<int> $a): void {} ¦ _ _
class C<T> {} function m<T>(C<T, T> $x): T {} function f(C<int, int> $a): void {} ¦ _ _
function m<T>(C<T> $x): T {} function f(C<int> $a): void {} ¦ _ _
type A<T> = vec<T>; function m<T>(A<T> $x): T {} function f(vec<int> $a): void {} ¦ int int
type A<T> = vec<T>; function m<T>(vec<T> $x): T {} function f(A<int> $a): void {} ¦ int int
type A0<T> = A1<T>; type A1<T> = A2<T>; type A2<T> = A3<T>; type A3<T> = A4<T>; type A4<T> = A5<T>; type A5<T> = A6<T>; type A6<T> = A7<T>; type A7<T> = A8<T>; type A8<T> = A9<T>; type A9<T> = A10<T>; type A10<T> = A11<T>; type A11<T> = A12<T>; type A12<T> = A13<T>; type A13<T> = A14<T>; type A14<T> = A15<T>; type A15<T> = vec<T>; function m<T>(A0<T> $x): T {} function f(vec<int> $a): void {} ¦ int int
type A0<T> = A1<T>; type A1<T> = A2<T>; type A2<T> = A3<T>; type A3<T> = A4<T>; type A4<T> = A5<T>; type A5<T> = A6<T>; type A6<T> = A7<T>; type A7<T> = A8<T>; type A8<T> = A9<T>; type A9<T> = A10<T>; type A10<T> = A11<T>; type A11<T> = A12<T>; type A12<T> = A13<T>; type A13<T> = A14<T>; type A14<T> = A15<T>; type A15<T> = A16<T>; type A16<T> = vec<T>; function m<T>(A0<T> $x): T {} function f(vec<int> $a): void {} ¦ _ _
type A0<T> = A1<T>; type A1<T> = A2<T>; type A2<T> = A3<T>; type A3<T> = A4<T>; type A4<T> = A5<T>; type A5<T> = A6<T>; type A6<T> = A7<T>; type A7<T> = A8<T>; type A8<T> = A9<T>; type A9<T> = A10<T>; type A10<T> = A11<T>; type A11<T> = A12<T>; type A12<T> = A13<T>; type A13<T> = A14<T>; type A14<T> = A15<T>; type A15<T> = vec<T>; function m<T>(vec<T> $x): T {} function f(A0<int> $a): void {} ¦ int int
type A0<T> = A1<T>; type A1<T> = A2<T>; type A2<T> = A3<T>; type A3<T> = A4<T>; type A4<T> = A5<T>; type A5<T> = A6<T>; type A6<T> = A7<T>; type A7<T> = A8<T>; type A8<T> = A9<T>; type A9<T> = A10<T>; type A10<T> = A11<T>; type A11<T> = A12<T>; type A12<T> = A13<T>; type A13<T> = A14<T>; type A14<T> = A15<T>; type A15<T> = A16<T>; type A16<T> = vec<T>; function m<T>(vec<T> $x): T {} function f(A0<int> $a): void {} ¦ _ _
function m<T>(T $x): dict<T, T> {} function f(C<\*125«int, »int> $a): void {} ¦ (class C\*126« int») (dict (class C\*126« int») (class C\*126« int»))
function m<T>(T $x): dict<T, T> {} function f(C<\*127«int, »int> $a): void {} ¦ (class C\*128« int») too big
"#;
