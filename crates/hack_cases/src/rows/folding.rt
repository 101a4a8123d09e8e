// Each answer was worked out by hand from docs/language.md, Folding, and then held against a plain program of those rules. A row has
// declarations, and what the last of them folds to over all of them. Members of one kind stand in the order of their ids.

/// Declarations, and what the last of them folds to.
pub(crate) const FOLDED: &str = r#"
class A {} ¦ (class (ancestors))
class A { const int K = 1; public int $x; public function m(): int { return 1; } } ¦ (class (ancestors) (constant K A public int) (property x A public int) (method m A public int))
class A { public function m(): int { return 1; } } class B extends A {} ¦ (class (ancestors (class A)) (method m A public int))
class A { public function m(): int { return 1; } } class B extends A { public function m(): string { return ''; } } ¦ (class (ancestors (class A)) (method m B public string))
trait T { public function m(): int { return 1; } } class A { public function m(): string { return ''; } } class B extends A { use T; } ¦ (class (ancestors (class T) (class A)) (method m B public int))
class A extends B {} class B extends A {} ¦ (class cyclic partial (ancestors))
class B extends A {} class A extends B {} ¦ (class cyclic partial (ancestors))
class A extends A { public function m(): int { return 1; } } ¦ (class cyclic partial (ancestors) (method m A public int))
class A extends B {} class B extends A { public function m(): int { return 1; } } class C extends B {} ¦ (class partial (ancestors (class B)) (method m B public int))
class A extends B<int> {} class B extends A {} ¦ (class cyclic partial (ancestors))
trait T { use T; public function m(): int { return 1; } } class A { use T; } ¦ (class partial (ancestors (class T)) (method m A public int))
class A extends X { public function m(): int { return 1; } } ¦ (class partial (ancestors) (method m A public int))
class A extends X { public function m(): int { return 1; } } class B extends A {} ¦ (class partial (ancestors (class A)) (method m A public int))
interface I {} class A extends I {} ¦ (class partial (ancestors))
class A {} class B { use A; } ¦ (class partial (ancestors))
trait T {} class A implements T {} ¦ (class partial (ancestors))
class A {} interface I extends A {} ¦ (interface partial (ancestors))
class A {} trait T implements A {} ¦ (trait partial (ancestors))
enum E: int {} class A implements E {} ¦ (class partial (ancestors))
type E = int; class A extends E {} ¦ (class partial (ancestors))
class A<T> {} class B extends A {} ¦ (class partial (ancestors))
class A {} class B extends A<int> {} ¦ (class partial (ancestors))
class A<T> extends T {} ¦ (class partial (type = T (as) (super)) (ancestors))
interface I { public function m(): int; } class A extends X implements I { public function m(): int { return 1; } } ¦ (class partial (ancestors (class I)) (method m A public int))
class A<T> { public T $x; public function m(T $a): vec<T> { return vec[]; } } class B<U> extends A<dict<int, U>> {} ¦ (class (type = U (as) (super)) (ancestors (class A (dict int (class-param 0 U)))) (property x A public (dict int (class-param 0 U))) (method m A public (param (dict int (class-param 0 U))) (vec (dict int (class-param 0 U)))))
class A<T> { public T $x; } class B<T> extends A<vec<T>> {} class C extends B<int> {} ¦ (class (ancestors (class B int) (class A (vec int))) (property x A public (vec int)))
class A<T> { public function m<U as T>(U $u, T $t): U { return $u; } } class B extends A<int> {} ¦ (class (ancestors (class A int)) (method m A public (type = U (as int) (super)) (param (fun-param 0 U)) (param int) (fun-param 0 U)))
class A<T> { public function m(): dict<T, this> { return dict[]; } } class B<T> extends A<vec<T>> {} ¦ (class (type = T (as) (super)) (ancestors (class A (vec (class-param 0 T)))) (method m A public (dict (vec (class-param 0 T)) this)))
class A<T> { public ?T $x; } class B extends A<?int> {} ¦ (class (ancestors (class A (? int))) (property x A public (? int)))
class A<T> { public ?T $x; } class B extends A<nothing> {} ¦ (class (ancestors (class A nothing)) (property x A public null))
class A<T> { public ?T $x; } class B extends A<nonnull> {} ¦ (class (ancestors (class A nonnull)) (property x A public mixed))
class A<T> { public dict<T, T> $x; } class B extends A<C<\*253«int, »int>> {} ¦ (class (ancestors (class A (class C\*254« int»))) (property x A public _))
class A<T> { public dict<T, T> $x; } class B<T> extends A<T> {} class D extends B<C<\*253«int, »int>> {} ¦ (class (ancestors (class B (class C\*254« int»)) (class A (class C\*254« int»))) (property x A public _))
class A<T> { public T $x; } class B extends A<C<\*254«int, »int>> {} ¦ (class partial (ancestors))
interface I<T> { public function m(T $a): void; } interface J extends I<int> {} interface K extends I<string> {} abstract class A implements J, K {} ¦ (class abstract (ancestors (class J) (class I int) (class K)) (method m I public abstract (param int) void))
interface I<T> { public function m(T $a): void; } abstract class A implements I<int>, I<string> {} ¦ (class abstract (ancestors (class I int)) (method m I public abstract (param int) void))
interface I { public function m(): int; } interface J extends I {} interface K extends I {} interface L extends J, K {} ¦ (interface (ancestors (class J) (class I) (class K)) (method m I public abstract int))
interface I { public function m(): int; } interface J { const int K = 1; } interface L extends I, J {} ¦ (interface (ancestors (class I) (class J)) (constant K J public int) (method m I public abstract int))
trait T { public function m(): int { return 1; } } trait U { use T; } ¦ (trait (ancestors (class T)) (method m U public int))
trait T { public function m(): int { return 1; } } trait U { use T; } class A { use U; } ¦ (class (ancestors (class U) (class T)) (method m A public int))
trait T { public function m(): int { return 1; } } class A { use T; } class B extends A {} ¦ (class (ancestors (class A) (class T)) (method m A public int))
interface I { public function m(): int; } trait T implements I {} abstract class A { use T; } ¦ (class abstract (ancestors (class T) (class I)) (method m A public abstract int))
interface I { public function m(): int; } trait T implements I {} abstract class B { use T; } abstract class A extends B {} ¦ (class abstract (ancestors (class B) (class T) (class I)) (method m B public abstract int))
trait T { public function m(): int { return 1; } } trait U { public function m(): string { return ''; } } class A { use T, U; } ¦ (class (ancestors (class T) (class U)) (method m A public int))
trait T { abstract public function m(): int; } class A { public function m(): string { return ''; } } class B extends A { use T; } ¦ (class (ancestors (class T) (class A)) (method m A public string))
interface I { public function m(): int; } interface J { public function m(): string; } abstract class A implements I, J {} ¦ (class abstract (ancestors (class I) (class J)) (method m I public abstract int))
class A { public function m(): int { return 1; } } abstract class B extends A { abstract public function m(): string; } ¦ (class abstract (ancestors (class A)) (method m A public int))
abstract class A { abstract public function m(): int; } abstract class B extends A { abstract public function m(): string; } ¦ (class abstract (ancestors (class A)) (method m B public abstract string))
trait T { abstract const int K; } class A { const string K = ''; } class B extends A { use T; } ¦ (class (ancestors (class T) (class A)) (constant K A public string))
class A { private int $x; private function m(): int { return 1; } } class B extends A {} ¦ (class (ancestors (class A)) (property x A private int) (method m A private int))
class A { public function __construct(private int $x) {} } class B extends A {} ¦ (class (ancestors (class A)) (property x A private int) (method __construct A public (param int) void))
class A { const int m = 1; public string $m; public function m(): bool { return true; } } class B extends A {} ¦ (class (ancestors (class A)) (constant m A public int) (property m A public string) (method m A public bool))
class A { final public static function m(): int { return 1; } } final class B extends A {} ¦ (class final (ancestors (class A)) (method m A public static final int))
trait T { const int K = 1; public function m(): int { return 1; } } class A { public function m(): string { return ''; } public function n(): int { return 1; } } interface I { public function n(): bool; } class B extends A implements I { use T; } ¦ (class (ancestors (class T) (class A) (class I)) (constant K B public int) (method m B public int) (method n A public int))
enum E: int as int { A = 1; } ¦ (enum int bounded A)
type A<T> = vec<T>; ¦ (alias (type = T (as) (super)) (vec (class-param 0 T)))
function f(int $x): string { return ''; } ¦ (function (param int) string)
const int K = 1; ¦ (constant int)
"#;

/// Declarations, and the line of the last of them.
pub(crate) const LINES: &str = r#"
class A {} ¦ A
class A {} class B extends A {} ¦ B A
class A extends X {} ¦ A X
class A<T> extends T {} ¦ A
class A extends B<int> {} class B extends C implements I {} ¦ B C I
class A extends A {} ¦ A cyclic
class A extends B {} class B extends A {} ¦ B A cyclic
class A extends B {} class B extends A {} class C extends B {} ¦ C B A
interface I {} interface J extends I {} interface K extends I {} class A extends B implements J, K { use T; } class B implements K {} trait T implements J {} class C extends A {} ¦ C A T J I B K
enum E: X {} class A implements E {} ¦ A E
type E = X; class A extends E {} ¦ A E
function f(): X { return new X(); } ¦ f
interface I extends J, I {} interface J extends K {} interface K extends J {} class A implements I {} ¦ A I J K
"#;
