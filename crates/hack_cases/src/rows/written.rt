// Each answer was worked out by hand from docs/language.md, Written types, and then held against two other programs; none was taken from
// this one. A row has declarations, of which the last is a function, or a class of which the last member is a method, and the written type is
// that of its first parameter. It begins a line, so that columns count from it. The answer is the type that it is, and then the diagnostics in
// the order in which they come. Lines behind `--` name the part of docs/language.md.

/// Declarations, and what the type of the first parameter of the last of them gives.
pub(crate) const WRITTEN: &str = r#"
-- Types and their texts: what a written type is
function f(\nint $x): void {} ¦ int
function f(\n?int $x): void {} ¦ ?int
function f(\n? ?int $x): void {} ¦ ?int
function f(\n?mixed $x): void {} ¦ mixed
function f(\n?nonnull $x): void {} ¦ mixed
function f(\n?nothing $x): void {} ¦ null
function f(\n?null $x): void {} ¦ null
function f(\nvec<keyset<string>> $x): void {} ¦ vec<keyset<string>>
function f(\ndict<int, ?bool> $x): void {} ¦ dict<int, ?bool>
function f(\nshape('b' => int, ?'a' => ?float, ...) $x): void {} ¦ shape(?'a' => ?float, 'b' => int, ...)
function f(\nshape() $x): void {} ¦ shape()
-- Written types: a name that is a type parameter, whose arguments are dropped
function f<T>(\nvec<T> $x): void {} ¦ vec<T>
class C<T> { public function m(\nT $x): void {} } ¦ T
class C<T> { public function m<U>(\ndict<int, U> $x): void {} } ¦ dict<int, U>
trait T {} function f<T>(\nT $x): void {} ¦ T
function f<T>(\nT<int> $x): void {} ¦ T
class C<T> { public static function m(\nT<int, int> $x): void {} } ¦ T
function f<T>(\nT<Missing> $x): void {} ¦ T; 1:3 3001 unbound type Missing
class C<T as int> { public function m<T as bool>(\nkeyset<T> $x): void {} } ¦ keyset<T>; 1:8 3212 type argument T is not within the bounds of Tk
class C<T as int> { public function m<U as bool>(\nkeyset<T> $x): void {} } ¦ keyset<T>
-- Written types: any other name, 3001 where nothing is declared under it
function f(\nMissing $x): void {} ¦ Missing; 1:1 3001 unbound type Missing
function f(\n?dict<Missing, vec<Missing>> $x): void {} ¦ ?dict<Missing, vec<Missing>>; 1:7 3001 unbound type Missing; 1:20 3001 unbound type Missing
function f(\nMissing<Other> $x): void {} ¦ Missing<Other>; 1:9 3001 unbound type Other; 1:1 3001 unbound type Missing
function C(): void {} const int C = 1; function f(\nC $x): void {} ¦ C; 1:1 3001 unbound type C
class C {} function f(\nC $x): void {} ¦ C
interface I {} function f(\nI $x): void {} ¦ I
enum E: int {} function f(\nE $x): void {} ¦ E
type A = int; function f(\nA $x): void {} ¦ A
-- Written types: 3004 for a trait
trait T {} function f(\nT $x): void {} ¦ T; 1:1 3004 trait T is not a type
trait T {} function f(\nshape('a' => vec<T>) $x): void {} ¦ shape('a' => vec<T>); 1:18 3004 trait T is not a type
-- Written types: 3002 for another number of arguments
class C<T> {} function f(\nC $x): void {} ¦ C; 1:1 3002 C takes 1 type arguments, found 0
class C<T> {} function f(\nvec<C<int, int>> $x): void {} ¦ vec<C<int, int>>; 1:5 3002 C takes 1 type arguments, found 2
class C<T> {} function f(\nC<int> $x): void {} ¦ C<int>
class C {} function f(\nC<int> $x): void {} ¦ C<int>; 1:1 3002 C takes 0 type arguments, found 1
enum E: int {} function f(\nE<int> $x): void {} ¦ E<int>; 1:1 3002 E takes 0 type arguments, found 1
type A<K, V> = dict<K, V>; function f(\nA<int> $x): void {} ¦ A<int>; 1:1 3002 A takes 2 type arguments, found 1
type A<K, V> = dict<K, V>; function f(\nA<int, string> $x): void {} ¦ A<int, string>
-- Written types: 3001, 3002, 3004 and 3212 without regard to the others
trait T<U> {} function f(\nT<int, Missing> $x): void {} ¦ T<int, Missing>; 1:8 3001 unbound type Missing; 1:1 3004 trait T is not a type; 1:1 3002 T takes 1 type arguments, found 2
trait T<U as num> {} function f(\nT<string> $x): void {} ¦ T<string>; 1:1 3004 trait T is not a type; 1:3 3212 type argument string is not within the bounds of U
class C<T as num> {} function f(\nC<C> $x): void {} ¦ C<C>; 1:3 3002 C takes 1 type arguments, found 0
-- Written types: 3212 for an argument out of its bounds, once an argument
class C<T as num> {} function f(\nC<string> $x): void {} ¦ C<string>; 1:3 3212 type argument string is not within the bounds of T
class C<T as num> {} function f(\nC<int> $x): void {} ¦ C<int>
class C<T super num> {} function f(\nC<int> $x): void {} ¦ C<int>; 1:3 3212 type argument int is not within the bounds of T
class C<T super num> {} function f(\nC<mixed> $x): void {} ¦ C<mixed>
class C<T as num as int super int> {} function f(\nC<string> $x): void {} ¦ C<string>; 1:3 3212 type argument string is not within the bounds of T
class C<T, U as T> {} function f(\nC<int, num> $x): void {} ¦ C<int, num>; 1:8 3212 type argument num is not within the bounds of U
class C<T, U as T> {} function f(\nC<num, int> $x): void {} ¦ C<num, int>
class C<T as num> {} function f(\nC<C<bool>> $x): void {} ¦ C<C<bool>>; 1:5 3212 type argument bool is not within the bounds of T; 1:3 3212 type argument C<bool> is not within the bounds of T
class C<T as num> {} function f<U as int>(\nC<U> $x): void {} ¦ C<U>
class C<T as num> {} function f<U>(\nC<U> $x): void {} ¦ C<U>; 1:3 3212 type argument U is not within the bounds of T
type A<T as num> = vec<T>; function f(\nvec<A<string>> $x): void {} ¦ vec<A<string>>; 1:7 3212 type argument string is not within the bounds of T
-- Written types: the type of keys
function f(\ndict<float, int> $x): void {} ¦ dict<float, int>; 1:6 3212 type argument float is not within the bounds of Tk
function f(\ndict<arraykey, float> $x): void {} ¦ dict<arraykey, float>
function f(\nkeyset<vec<keyset<bool>>> $x): void {} ¦ keyset<vec<keyset<bool>>>; 1:19 3212 type argument bool is not within the bounds of Tk; 1:8 3212 type argument vec<keyset<bool>> is not within the bounds of Tk
function f(\nkeyset<?int> $x): void {} ¦ keyset<?int>; 1:8 3212 type argument ?int is not within the bounds of Tk
enum E: int {} function f(\nkeyset<E> $x): void {} ¦ keyset<E>
function f(\nkeyset<Missing> $x): void {} ¦ keyset<Missing>; 1:8 3001 unbound type Missing
-- Written types: `this`
function f(\nvec<this> $x): void {} ¦ vec<this>; 1:5 4020 this is not allowed here
class C { public function m(\nvec<this> $x): void {} } ¦ vec<this>
class C { public static function m(\nthis $x): void {} } ¦ this
-- Written types: a key of a shape that was given before
function f(\nshape('a' => int, 'a' => string) $x): void {} ¦ shape('a' => string); 1:19 4023 field 'a' is given twice
function f(\nshape('a' => Missing, ?'a' => int, 'a' => string, ...) $x): void {} ¦ shape('a' => string, ...); 1:14 3001 unbound type Missing; 1:24 4023 field 'a' is given twice; 1:36 4023 field 'a' is given twice
function f(\nshape('a' => shape('a' => int), 'A' => int) $x): void {} ¦ shape('A' => int, 'a' => shape('a' => int))
-- Written types: 3006 at the first token, where no bounds are tried
class C<T as num, \*254«T, »T> {} function f(\nC<string, \*254«int, »int> $x): void {} ¦ _; 1:1 3006 type above 256 nodes
class C<T as num, \*253«T, »T> {} function f(\nC<string, \*253«int, »int> $x): void {} ¦ C<string, \*253«int, »int>; 1:3 3212 type argument string is not within the bounds of T
class C<\*254«T, »T> {} function f(\nC<\*254«?mixed, »?mixed> $x): void {} ¦ C<\*254«mixed, »mixed>
class C<\*254«T, »T> {} function f(\n?C<\*254«?int, »?int> $x): void {} ¦ _; 1:1 3006 type above 256 nodes
class C<\*199«T, »T> {} function f(\nshape('a' => C<\*199«int, »int>, 'a' => C<\*199«int, »int>) $x): void {} ¦ shape('a' => C<\*199«int, »int>); 1:1017 4023 field 'a' is given twice
class C<\*199«T, »T> {} function f(\nshape('a' => C<\*199«int, »int>, 'b' => C<\*199«int, »int>) $x): void {} ¦ _; 1:1 3006 type above 256 nodes
function f(\nC<this, shape('a' => int, 'a' => int), keyset<bool>, \*254«int, »int> $x): void {} ¦ _; 1:3 4020 this is not allowed here; 1:27 4023 field 'a' is given twice; 1:1 3001 unbound type C; 1:1 3006 type above 256 nodes
function f<T>(\nT<\*256«int, »int> $x): void {} ¦ T
"#;
