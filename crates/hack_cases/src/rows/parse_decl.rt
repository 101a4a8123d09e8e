// Every answer was worked out by hand from the rules of the grammar, and then held against two other programs; none was taken
// from this one (docs/definitions.md, Trees).

/// Files and how many declarations they have, or their faults. In the last rows what is counted as nesting stops at its limit, and
/// what is a list is long.
pub(crate) const FILES: &str = r#"
type A =\n?int; ¦ ok 1
type A =\n? ?int; ¦ ok 1
type A =\n??int; ¦ 1002 2:1
type A =\n? ¦ 1005 2:2
type A =\n?1; ¦ 1002 2:2
type A =\nC<arraykey, bool, float, int, mixed, nonnull, noreturn, nothing, null, num, string, void>; ¦ ok 1
type A =\nint<int>; ¦ 1002 2:4
type A =\nthis; ¦ ok 1
type A =\n$this; ¦ 1002 2:1
type A =\nvec<int>; ¦ ok 1
type A =\nkeyset<string>; ¦ ok 1
type A =\nvec<vec<int>>; ¦ ok 1
type A =\nvec ¦ 1005 2:4
type A =\nvec<>; ¦ 1002 2:5
type A =\nvec<int,>; ¦ 1002 2:8
type A =\nvec<int ¦ 1005 2:8
type A =\nvec<int>=; ¦ 1002 2:8
type A =\ndict<int, string>; ¦ ok 1
type A =\ndict<int>; ¦ 1002 2:9
type A =\ndict<int, string,>; ¦ 1002 2:17
type A =\nshape(); ¦ ok 1
type A =\nshape(...); ¦ ok 1
type A =\nshape('a' => int,); ¦ ok 1
type A =\nshape("a" => ?int, ?'b' => shape(), ...); ¦ ok 1
type A =\nshape(...,); ¦ 1002 2:10
type A =\nshape(?); ¦ 1002 2:8
type A =\nshape('' => int); ¦ 1002 2:7
type A =\nshape('a' int); ¦ 1002 2:11
type A =\nshape('a' =>); ¦ 1002 2:13
type A =\nshape('a' => int ...); ¦ 1002 2:18
type A =\nC; ¦ ok 1
type A =\nC<int,>; ¦ ok 1
type A =\nC<int, D<C>, ?this>; ¦ ok 1
type A =\nC<>; ¦ 1002 2:3
type A =\nC<,>; ¦ 1002 2:3
type A =\nC<int int>; ¦ 1002 2:7
type A =\nC D; ¦ 1002 2:3
type A =\nC::D; ¦ 1002 2:2
type A =\n ¦ 1005 2:1
type A =\n \n ¦ 1005 3:1
const int C =\n$x = $y = 1; ¦ ok 1
const int C =\n$x = ¦ 1005 2:5
const int C =\n$x => 1; ¦ 1002 2:4
const int C =\n$a += $b -= $c *= $d /= $e %= $f .= $g &= $h |= $i ^= $j **= $k ??= 1; ¦ ok 1
const int C =\n$x + 1 = 2; ¦ ok 1
const int C =\n$a = ;; ¦ 1002 2:6
const int C =\n$a ?: $c; ¦ ok 1
const int C =\n$a ? $b ? 1 : 2 : 3; ¦ ok 1
const int C =\n$a ? $b : $c = 1; ¦ ok 1
const int C =\n$a ?? $b ? $c : $d ?? $e; ¦ ok 1
const int C =\n$a ? $b : $c ? $d : $e; ¦ 1002 2:14
const int C =\n$a ?: $b ?: $c; ¦ 1002 2:10
const int C =\n$a ? , : 1; ¦ 1002 2:6
const int C =\n$a ?? $b ?? $c; ¦ ok 1
const int C =\n$a ?? ?? $b; ¦ 1002 2:7
const int C =\n$a || $b || $c; ¦ ok 1
const int C =\n|| $a; ¦ 1002 2:1
const int C =\n$a && $b && !$c; ¦ ok 1
const int C =\n$a &&  ¦ 1005 2:7
const int C =\n1 | 2 | 3; ¦ ok 1
const int C =\n1 | | 2; ¦ 1002 2:5
const int C =\n1 ^ 2 ^ 3; ¦ ok 1
const int C =\n^1; ¦ 1002 2:1
const int C =\n1 & 2 & 3; ¦ ok 1
const int C =\n1 & = 2; ¦ 1002 2:5
const int C =\n1 == 2 != 3 === 4 !== 5; ¦ ok 1
const int C =\n1 === == 2; ¦ 1002 2:7
const int C =\n1 < 2 <= 3 > 4 >= 5 <=> 6; ¦ ok 1
const int C =\n1 < > 2; ¦ 1002 2:5
const int C =\n1 << 2; ¦ 1002 2:3
const int C =\n1 >> 2; ¦ 1002 2:4
const int C =\n1 + 2 - 3 . 4; ¦ ok 1
const int C =\n1 + ;; ¦ 1002 2:5
const int C =\n1 .5; ¦ 1002 2:3
const int C =\n1 * 2 / 3 % 4; ¦ ok 1
const int C =\n1 * / 2; ¦ 1002 2:5
const int C =\n!-+~$x; ¦ ok 1
const int C =\n++--$x; ¦ ok 1
const int C =\n+*1; ¦ 1002 2:2
const int C =\n(int)$x; ¦ ok 1
const int C =\n(float)(string)(bool)1; ¦ ok 1
const int C =\n(int, 1); ¦ 1002 2:5
const int C =\n(num)1; ¦ 1002 2:2
const int C =\n$x is ?int as mixed ?as C<int>; ¦ ok 1
const int C =\n$x is int < 1; ¦ ok 1
const int C =\n$x is 1; ¦ 1002 2:7
const int C =\n$x is C < 1; ¦ 1002 2:11
const int C =\n$x is int->m; ¦ 1002 2:10
const int C =\n$x ?assert ¦ 1005 2:11
const int C =\n2 ** 3 ** 4; ¦ ok 1
const int C =\n-2 ** -3 ** 4; ¦ ok 1
const int C =\n$x as int ** 2 is num; ¦ ok 1
const int C =\n2 ** * 3; ¦ 1002 2:6
const int C =\n($x = 1)->m()[0]++--; ¦ ok 1
const int C =\n(); ¦ 1002 2:2
const int C =\n$x[1][]; ¦ ok 1
const int C =\n$x[1,]; ¦ 1002 2:5
const int C =\n$x->class; ¦ ok 1
const int C =\n$x?->m(1, 2,); ¦ ok 1
const int C =\n$x->$y; ¦ 1002 2:5
const int C =\n$x->m()(); ¦ 1002 2:8
const int C =\n$x ++ --; ¦ ok 1
const int C =\n$x++ $y; ¦ 1002 2:6
const int C =\n1.5e3; ¦ ok 1
const int C =\n''; ¦ ok 1
const int C =\n'a'; ¦ ok 1
const int C =\ntrue; ¦ ok 1
const int C =\nfalse; ¦ ok 1
const int C =\nnull; ¦ ok 1
const int C =\n$this; ¦ ok 1
const int C =\nthis; ¦ 1002 2:1
const int C =\nnewtype; ¦ 1002 2:1
const int C =\n08; ¦ 1002 2:2
const int C =\nC; ¦ ok 1
const int C =\nf(1, 2,); ¦ ok 1
const int C =\nC::class; ¦ ok 1
const int C =\nC::m(1); ¦ ok 1
const int C =\nC::$x[0]->y; ¦ ok 1
const int C =\nC::$this; ¦ 1002 2:4
const int C =\nC::D::E; ¦ 1002 2:5
const int C =\nf(,); ¦ 1002 2:3
const int C =\nself::m(); ¦ ok 1
const int C =\nstatic::$x; ¦ ok 1
const int C =\nparent::A; ¦ ok 1
const int C =\nself(); ¦ 1002 2:5
const int C =\nnew C<int,>(1,); ¦ ok 1
const int C =\nnew self(); ¦ ok 1
const int C =\nnew static(1); ¦ ok 1
const int C =\nnew parent(); ¦ ok 1
const int C =\nnew C<>(); ¦ 1002 2:7
const int C =\nnew self<int>(); ¦ 1002 2:9
const int C =\nvec[1, 2,]; ¦ ok 1
const int C =\nkeyset['a']; ¦ ok 1
const int C =\nvec[,]; ¦ 1002 2:5
const int C =\ndict[1 => 2, 'a' => 3,]; ¦ ok 1
const int C =\ndict[1]; ¦ 1002 2:7
const int C =\nshape('a' => 1, "b" => 2,); ¦ ok 1
const int C =\nshape($x => 1); ¦ 1002 2:7
const int C =\n ¦ 1005 2:1
const int C =\n$x +\n ¦ 1005 3:1
const int C =\n) 'a; ¦ 1001 2:3
const int C =\n\*128«(»); ¦ 1004 2:129
const int C =\n\*127«!»1; ¦ ok 1
const int C =\n\*127«!»); ¦ 1002 2:128
const int C =\n\*127«!»$x is int; ¦ 1004 2:134
const int C =\n\*127«(»$x[,]; ¦ 1002 2:131
const int C =\n\*127«(»$x[1]; ¦ 1004 2:131
function f(): void {\n\n} ¦ ok 1
function f(): void {\n{ ; { return; } 1; }\n} ¦ ok 1
function f(): void {\n{ ) }\n} ¦ 1002 2:3
function f(): void {\n{ 1;\n} ¦ 1005 3:2
function f(): void {\n{ } }\n} ¦ 1002 3:1
function f(): void {\n,\n} ¦ 1002 2:1
function f(): void {\nclass A {}\n} ¦ 1002 2:1
function f(): void {\n; case 1: ;\n} ¦ 1002 2:3
function f(): void {\nnewtype\n} ¦ 1002 2:1
function f(): void {\nif (1) if (2) ; else ;\n} ¦ ok 1
function f(): void {\nif 1 ;\n} ¦ 1002 2:4
function f(): void {\nif () ;\n} ¦ 1002 2:5
function f(): void {\nif (1) else ;\n} ¦ 1002 2:8
function f(): void {\nif (1) ; else\n} ¦ 1002 3:1
function f(): void {\nif (1) ; else ; else ;\n} ¦ 1002 2:17
function f(): void {\nwhile (true) break;\n} ¦ ok 1
function f(): void {\nwhile { }\n} ¦ 1002 2:7
function f(): void {\nwhile () ;\n} ¦ 1002 2:8
function f(): void {\nwhile (1)\n} ¦ 1002 3:1
function f(): void {\ndo ; while (1);\n} ¦ ok 1
function f(): void {\ndo while (0) ; while (1);\n} ¦ ok 1
function f(): void {\ndo while (1);\n} ¦ 1002 3:1
function f(): void {\ndo ; until (1);\n} ¦ 1002 2:6
function f(): void {\ndo ; while (1)\n} ¦ 1002 3:1
function f(): void {\nfor (;;) ;\n} ¦ ok 1
function f(): void {\nfor ($i = 0, $j = 1,; true; $i++, $j++,) ;\n} ¦ ok 1
function f(): void {\nfor (,;;) ;\n} ¦ 1002 2:6
function f(): void {\nfor (;1, 2;) ;\n} ¦ 1002 2:8
function f(): void {\nfor (;;,) ;\n} ¦ 1002 2:8
function f(): void {\nfor (;) ;\n} ¦ 1002 2:7
function f(): void {\nforeach ($a as $v) ;\n} ¦ ok 1
function f(): void {\nforeach (($a + 1) as $v) ;\n} ¦ ok 1
function f(): void {\nforeach (-$a as $v) ;\n} ¦ 1002 2:10
function f(): void {\nforeach ($a + 1 as $v) ;\n} ¦ 1002 2:13
function f(): void {\nforeach ($a as int) ;\n} ¦ 1002 2:16
function f(): void {\nforeach ($a as $this) ;\n} ¦ 1002 2:16
function f(): void {\nforeach ($a as $k => $this) ;\n} ¦ 1002 2:22
function f(): void {\nforeach ($a as $v, $w) ;\n} ¦ 1002 2:18
function f(): void {\nswitch (1) { }\n} ¦ ok 1
function f(): void {\nswitch (1) { 1; }\n} ¦ 1002 2:14
function f(): void {\nswitch (1) { case : ; }\n} ¦ 1002 2:19
function f(): void {\nswitch (1) { case 1; }\n} ¦ 1002 2:20
function f(): void {\nswitch (1) { default 1: }\n} ¦ 1002 2:22
function f(): void {\nswitch (1) {\n} ¦ 1005 3:2
function f(): void {\nreturn;\n} ¦ ok 1
function f(): void {\nreturn 1;\n} ¦ ok 1
function f(): void {\nreturn )\n} ¦ 1002 2:8
function f(): void {\nreturn 1\n} ¦ 1002 3:1
function f(): void {\nthrow new E();\n} ¦ ok 1
function f(): void {\nthrow ;\n} ¦ 1002 2:7
function f(): void {\nthrow $e\n} ¦ 1002 3:1
function f(): void {\nbreak;\n} ¦ ok 1
function f(): void {\nbreak 2;\n} ¦ 1002 2:7
function f(): void {\ncontinue;\n} ¦ ok 1
function f(): void {\ncontinue 1;\n} ¦ 1002 2:10
function f(): void {\necho 1, 'a', $x,;\n} ¦ ok 1
function f(): void {\necho ;\n} ¦ 1002 2:6
function f(): void {\necho 1,, 2;\n} ¦ 1002 2:8
function f(): void {\necho 1 2;\n} ¦ 1002 2:8
function f(): void {\n(int) $x;\n} ¦ ok 1
function f(): void {\nstatic::f(); -1; vec[1]; null; C::d();\n} ¦ ok 1
function f(): void {\n1\n} ¦ 1002 3:1
function f(): void {\n$x $y;\n} ¦ 1002 2:4
function f(): void {\n1, 2;\n} ¦ 1002 2:2
function f(): void {\ntry { }\n} ¦ ok 1
function f(): void {\ntry { 1; } catch (A<int> $a) { 2; } catch (B $b) { } finally { 3; }\n} ¦ ok 1
function f(): void {\ntry { } finally { }\n} ¦ ok 1
function f(): void {\ntry ;\n} ¦ 1002 2:5
function f(): void {\ntry { } catch (E $e) ;\n} ¦ 1002 2:22
function f(): void {\ntry { } catch (int $e) { }\n} ¦ 1002 2:16
function f(): void {\ntry { } catch (E $this) { }\n} ¦ 1002 2:18
function f(): void {\ntry { } finally ;\n} ¦ 1002 2:17
function f(): void {\ntry { } finally { } catch (E $e) { }\n} ¦ 1002 2:21
function f(): void {\n\*127«{»throw )\n} ¦ 1004 2:134
function f(): void {\n\*127«{»return )\n} ¦ 1002 2:135
function f(): void {\n\*127«{»foreach ($a as $v) ;\n} ¦ 1004 2:147
function f(): void {\n\*127«{»try {} catch (E<int> $e) {}\n} ¦ 1004 2:144
function f(): void {\nreturn 9223372036854775808;\n} ¦ 1003 2:8
function f(): void {\n) @\n} ¦ 1001 2:3
function f(): void {\nif (1) ; else if (2) { 1; } else ;\n} ¦ ok 1
function f(): void {\nforeach (f()[0]->m()++ as $k => $v) { }\n} ¦ ok 1
function f(): void {\nforeach ((int) $x as $v) ;\n} ¦ 1002 2:11
function f(): void {\nswitch ($x) { default: default: 1; case 'a': case 1 ? 2 : 3: ; break; }\n} ¦ ok 1
function f(): void {\ntrue; false; null; self::a(); static::b(); parent::c(); new D(); vec[]; keyset[]; dict[]; shape();\n} ¦ ok 1
 ¦ ok 0
<?hh\n// c\n ¦ ok 0
<?hhfunction f(): void {} ¦ ok 1
function f() {}\nclass A {} const int B = 1; type C = int; ¦ ok 4
function f() {} } ¦ 1002 1:17
1 ¦ 1002 1:1
newtype A = int; ¦ 1002 1:1
public function f() {} ¦ 1002 1:1
<<A>> function f() {} <<A>> abstract class B {} <<A>> interface I {} <<A>> trait T {} <<A>> enum E: int {} <<A>> type F = int; <<A>> const int G = 1; ¦ ok 7
<<A>> ¦ 1005 1:6
<<A>> <<B>> class C {} ¦ 1002 1:7
<<A, B(), C(1, 'a',),>>\nclass D {} ¦ ok 1
<<A> > class B {} ¦ ok 1
<<>> class A {} ¦ 1002 1:3
<<A(,)>> class B {} ¦ 1002 1:5
<<A> class B {} ¦ 1002 1:6
<<A>= class B {} ¦ 1002 1:4
<<A::B>> class C {} ¦ 1002 1:4
<<A(1>> class B {} ¦ 1002 1:7
function f<T>(T $x): vec<T> { return vec[$x]; } ¦ ok 1
function echo() {} ¦ 1002 1:10
function f: int {} ¦ 1002 1:11
function f(): {} ¦ 1002 1:15
function f(); ¦ 1002 1:13
function f(): void { ¦ 1005 1:21
class A<> {} ¦ 1002 1:9
class A<+ -T> {} ¦ 1002 1:11
class A<int> {} ¦ 1002 1:9
class A<T as> {} ¦ 1002 1:13
type A<T>= int; ¦ 1002 1:9
function f(int $x, ?string $y = null,) {} ¦ ok 1
function f(,) {} ¦ 1002 1:12
function f(int $x int $y) {} ¦ 1002 1:19
function f(<<A>> int $x, <<B(1), C>> private D $y, public ?int $z, protected this $w = 1) {} ¦ ok 1
function f($x) {} ¦ 1002 1:12
function f(int x) {} ¦ 1002 1:16
function f(int $this) {} ¦ 1002 1:16
function f(int $x =) {} ¦ 1002 1:20
function f(public private int $x) {} ¦ 1002 1:19
function f(public <<A>> int $x) {} ¦ 1002 1:19
function f(<<A>> <<B>> int $x) {} ¦ 1002 1:18
function f(static int $x) {} ¦ 1002 1:12
class A {} ¦ ok 1
abstract final abstract class A<T> extends B<int> implements C, D<T>, {} ¦ ok 1
abstract interface I {} ¦ 1002 1:10
final <<A>> class B {} ¦ 1002 1:7
class trait {} ¦ 1002 1:7
class A extends {} ¦ 1002 1:17
class A extends B, C {} ¦ 1002 1:18
class A extends ?B {} ¦ 1002 1:17
class A implements {} ¦ 1002 1:20
class A implements B extends C {} ¦ 1002 1:22
class A { ¦ 1005 1:10
interface I<T> extends J, K<T>, { const int A; function f(); } ¦ ok 1
interface I implements J {} ¦ 1002 1:13
interface I extends {} ¦ 1002 1:21
interface I { <<X>> const int B = 1; abstract static function g() {} <<X, Y>> public function h(): void; } ¦ ok 1
interface I { public int $x; } ¦ 1002 1:22
interface I { int $x; } ¦ 1002 1:15
interface I { use T; } ¦ 1002 1:15
interface I { <<A>> } ¦ 1002 1:21
trait T<U> implements I<U>, J { use V; public int $x = 1; const int A; function f(); } ¦ ok 1
trait T extends A {} ¦ 1002 1:9
trait T implements {} ¦ 1002 1:20
class A { use T; use U<int>, V,; } ¦ ok 1
class A { use ; } ¦ 1002 1:15
class A { use T } ¦ 1002 1:17
class A { <<B>> use T; } ¦ 1002 1:17
class A { <<B>> <<C>> int $x; } ¦ 1002 1:17
class A { public <<B>> int $x; } ¦ 1002 1:18
class A { const int B = 1; public abstract const C D; <<E>> const ?F G = null; } ¦ ok 1
class A { const B = 1; } ¦ 1002 1:19
class A { const int class = 1; } ¦ 1002 1:21
class A { const int B =; } ¦ 1002 1:24
class A { function f(); public static function class<T>(T $x): T { return $x; } } ¦ ok 1
class A { function newtype(): void {} function echo() {} } ¦ ok 1
class A { abstract final static public protected private abstract function f(); } ¦ ok 1
class A { <<B>> public function __construct(private int $x, <<C>> public ?D $y = null) {} } ¦ ok 1
class A { function () {} } ¦ 1002 1:20
class A { function f() } ¦ 1002 1:24
class A { function f(): ; } ¦ 1002 1:25
class A { function f() {} ; } ¦ 1002 1:27
class A { int $x; public static ?B $y = null; <<C>> private final vec<int> $z; D<E> $w = 1 + 2; } ¦ ok 1
class A { public $x; } ¦ 1002 1:18
class A { int x; } ¦ 1002 1:15
class A { int $this; } ¦ 1002 1:15
class A { int $x =; } ¦ 1002 1:19
class A { int $x, $y; } ¦ 1002 1:17
enum E: int {} ¦ ok 1
enum E: string as string { A = 'a'; B = 'b'; } ¦ ok 1
enum E {} ¦ 1002 1:8
enum E: {} ¦ 1002 1:9
enum E: int as {} ¦ 1002 1:16
enum E<T>: int {} ¦ 1002 1:7
enum E: int { A = 1, B = 2; } ¦ 1002 1:20
enum E: int { A; } ¦ 1002 1:16
enum E: int { const A = 1; } ¦ 1002 1:15
type A<T> = dict<T, C<T>>; ¦ ok 1
type type = int; ¦ 1002 1:6
type A int; ¦ 1002 1:8
type A = ; ¦ 1002 1:10
type A = int as int; ¦ 1002 1:14
const ?B A = f(1); ¦ ok 1
const int A; ¦ 1002 1:12
const A = 1; ¦ 1002 1:9
const int A =; ¦ 1002 1:14
function f(): int { return 1 } ¦ 1002 1:30
function f( ¦ 1005 1:12
class A { newtype ¦ 1002 1:11
function f(): int { return 9223372036854775808; } ¦ 1003 1:28
function f(\n ¦ 1005 2:1
class @ ¦ 1001 1:7
class A { function f() { \*128«{»; ¦ 1004 1:154
class A<+T, -U as B super C as D<T>, V,> {} ¦ ok 1
enum E: int { A = \*128«!»1; } ¦ 1004 1:146
interface I { const int class; } ¦ 1002 1:25
interface I { function newtype(); } ¦ ok 1
trait class {} ¦ 1002 1:7
enum type: int {} ¦ 1002 1:6
interface type {} ¦ 1002 1:11
const int C = $a\*2000«+1»; ¦ ok 1
const int C = $a\*2000«**1»; ¦ ok 1
const int C = $a\*2000«??1»; ¦ ok 1
const int C = $a\*2000«->b»; ¦ ok 1
const int C = $a\*2000«[0]»; ¦ ok 1
const int C = $a\*2000«++»; ¦ ok 1
const int C = $a\*2000« is int»; ¦ ok 1
const int C = $a\*2000« as C<int>»; ¦ ok 1
const int C = f(\*2000«1,»); ¦ ok 1
function f(): void {\*2000«;»} ¦ ok 1
class A {\*2000«use T;»} ¦ ok 1
enum A: int {\*2000«B = 1;»} ¦ ok 1
function f(): int { return \*126«(»1\*126«)»; } ¦ ok 1
function f(): int { return \*127«(»1\*127«)»; } ¦ 1004 1:155
"#;

/// Files and their trees, each written by hand from docs/language.md, Grammar.
pub(crate) const TREES: &str = r#"
const int C =\n1; ¦ (const@1:1 C@1:11 16 (constant C@0:10 (int@0:6) (literal@1:1 int)))
const int C =\n'k'; ¦ (const@1:1 C@1:11 18 (constant C@0:10 (int@0:6) (literal@1:1 key k)))
const int C =\n$a = $b; ¦ (const@1:1 C@1:11 22 (constant C@0:10 (int@0:6) (=@1:1 (variable@1:1 a) (variable@1:6 b))))
const int C =\n$a ? : 2; ¦ (const@1:1 C@1:11 23 (constant C@0:10 (int@0:6) (conditional@1:1 (variable@1:1 a) - (literal@1:8 int))))
const int C =\n1 - 2 . 3; ¦ (const@1:1 C@1:11 24 (constant C@0:10 (int@0:6) (chain@1:1 (literal@1:1 int) - (literal@1:5 int) . (literal@1:9 int))))
const int C =\n1 + 2 * 3; ¦ (const@1:1 C@1:11 24 (constant C@0:10 (int@0:6) (chain@1:1 (literal@1:1 int) + (chain@1:5 (literal@1:5 int) * (literal@1:9 int)))))
const int C =\n1 ** -2 ** 3; ¦ (const@1:1 C@1:11 27 (constant C@0:10 (int@0:6) (power@1:1 (literal@1:1 int) (prefix@1:6 - (power@1:7 (literal@1:7 int) (literal@1:12 int))))))
const int C =\n(int) !$a; ¦ (const@1:1 C@1:11 24 (constant C@0:10 (int@0:6) (cast@1:1 int (prefix@1:7 ! (variable@1:8 a)))))
const int C =\n(A) is B<int> as ?C; ¦ (const@1:1 C@1:11 34 (constant C@0:10 (int@0:6) (test@1:1 (brackets@1:1 (constant@1:2 A)) is (class@1:8 B (int@1:10)) as (?@1:18 (class@1:19 C)))))
const int C =\n$a->b[1]?->c()++; ¦ (const@1:1 C@1:11 31 (constant C@0:10 (int@0:6) (postfix@1:1 (variable@1:1 a) (-> b) (index (literal@1:7 int)) (?-> c (of)) ++)))
const int C =\nf(1, A::b(), self::$c); ¦ (const@1:1 C@1:11 37 (constant C@0:10 (int@0:6) (call@1:1 f (literal@1:3 int) (scoped@1:6 A b (of)) (scoped@1:14 self $ c))))
const int C =\nnew A<int>(1); ¦ (const@1:1 C@1:11 28 (constant C@0:10 (int@0:6) (new@1:1 A@1:5 (types (int@1:7)) (literal@1:12 int))))
const int C =\ndict['k' => vec[1]]; ¦ (const@1:1 C@1:11 34 (constant C@0:10 (int@0:6) (dict@1:1 (entry (literal@1:6 key k) (vec@1:13 (literal@1:17 int))))))
const int C =\nshape('k' => $this); ¦ (const@1:1 C@1:11 34 (constant C@0:10 (int@0:6) (shape@1:1 (field@1:7 k (this@1:14)))))
type A =\n?vec<keyset<C<this>>>; ¦ (class@1:1 A@1:6 31 (alias A@0:5 (?@1:1 (vec@1:2 (keyset@1:6 (class@1:13 C (this@1:15)))))))
type A =\nshape(?'k' => dict<int, string>, ...); ¦ (class@1:1 A@1:6 47 (alias A@0:5 (shape@1:1 (optional@1:8 k (dict@1:15 (int@1:20) (string@1:25))) ...)))
function f(): void {\nif ($a) { } else return;\n} ¦ (func@1:1 f@1:10 47 (function f@0:9 (void@0:14) (body (if@1:1 (variable@1:5 a) (block@1:9) (return@1:18 -)))))
function f(): void {\nforeach ($a as $k => $v) echo 1, 2;\n} ¦ (func@1:1 f@1:10 58 (function f@0:9 (void@0:14) (body (foreach@1:1 (variable@1:10 a) k@1:16 v@1:22 (echo@1:26 (literal@1:31 int) (literal@1:34 int))))))
function f(): void {\nswitch (1) { case 2: break; default: ; }\n} ¦ (func@1:1 f@1:10 63 (function f@0:9 (void@0:14) (body (switch@1:1 (literal@1:9 int) (case@1:14 (literal@1:19 int) (break@1:22)) (case@1:29 - (empty@1:38))))))
function f(): void {\ntry { } catch (E $e) { } finally { f(); }\n} ¦ (func@1:1 f@1:10 64 (function f@0:9 (void@0:14) (body (try@1:1 (body) (catch (class@1:16 E) e@1:18) (finally (expression@1:36 (call@1:36 f)))))))
<<A(1)>> function f<+T as int>(int $a = 1): T {} ¦ (func@1:1 f@1:19 48 (function (attribute A@0:2 (literal@0:4 int)) f@0:18 (type + T@0:21 as (int@0:26)) (parameter (int@0:31) a@0:35 (literal@0:40 int)) (class@0:44 T) (body)))
final class A extends B implements C, D {\n  use T;\n  private int $p;\n} ¦ (class@1:1 A@1:13 70 (class A@0:12 final (extends (class@0:22 B)) (implements (class@0:35 C) (class@0:38 D)) (use@1:3 (class@1:7 T)) (property@2:3 private (int@2:11) p@2:15 -)))
interface I { const int C; function class(): void; } ¦ (class@1:1 I@1:11 52 (interface I@0:10 (extends) (constant@0:14 (int@0:20) C@0:24 -) (method@0:27 class@0:36 (void@0:45) -)))
enum E: int as int { A = 1; } ¦ (class@1:1 E@1:6 29 (enum E@0:5 (int@0:8) (int@0:15) (case A@0:21 (literal@0:25 int))))
trait T { public static function __construct(private int $x) {} } ¦ (class@1:1 T@1:7 65 (trait T@0:6 (implements) (method@0:10 public static __construct@0:33 (parameter private (int@0:53) x@0:57 -) - (body))))
"#;
