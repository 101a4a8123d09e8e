// Each answer was worked out by hand from docs/language.md, Types and their texts, and docs/language.md, Names.

/// Two types, and whether the second is the option of the first.
pub(crate) const OPTIONS: &str = r#"
type A = C<\*255«int, »int>; type B = C<\*255«int, »int>; ¦ its option, made of it, once
type A = mixed; type B = mixed; ¦ its option, made of it, once
type A = nonnull; type B = mixed; ¦ its option, made of it, once
type A = nothing; type B = null; ¦ its option, made of it, once
type A = null; type B = null; ¦ its option, made of it, once
type A = void; type B = ?void; ¦ its option, made of it, once
type A = ?int; type B = ?int; ¦ its option, made of it, once
type A = int; type B = ?int; ¦ its option, made of it, once
type A = C<int>; type B = ?C<int>; ¦ its option, made of it, once
type A = ?C<int>; type B = ?C<int>; ¦ its option, made of it, once
type A = int; type B = ?string; ¦ , once
type A = ?int; type B = int; ¦ -
type A = nothing; type B = ?nothing; ¦ its option, made of it, once
"#;

/// Types and how many nodes they have.
pub(crate) const NODES: &str = r#"
type A = ?shape('alpha' => int, ?'zeta' => float); ¦ 4
type A = C<int, D>; ¦ 3
type A = int; ¦ 1
type A = dict<int, vec<?string>>; ¦ 5
type A<T> = C<T, \*253«int, »int>; ¦ 256
"#;

/// Names in their order, their ids, and how many names there are then.
pub(crate) const NAMES: &str = r#"
f,Traversable,,f,__construct,KeyedContainer,F,,g ¦ 7 0 8 7 6 3 9 8 10 of 11
Traversable,KeyedTraversable,Container,KeyedContainer,Throwable,Exception,__construct ¦ 0 1 2 3 4 5 6 of 7
"#;

/// Symbols in their order, by kind and then by id, and how many pairs of them stand as their places do.
pub(crate) const SYMBOLS: &str = r#"
class 1,class 9,func 1,func 2,func 9,const 1,const 9 ¦ 49
"#;

/// Types and their texts. A type begins with a word; then `?`, `v`, `k` and `d` stand for an option, a vec, a keyset and a dict of
/// int around it, `C` and `U` for a class and a union of nothing, of it, and of it and T, `s` for a shape of no field or two, closed or
/// open, and `=` for a copy.
pub(crate) const TEXTS: &str = r#"
_ ¦ _
arraykey ¦ arraykey
bool ¦ bool
float ¦ float
int ¦ int
mixed ¦ mixed
nonnull ¦ nonnull
noreturn ¦ noreturn
nothing ¦ nothing
null ¦ null
num ¦ num
string ¦ string
this ¦ this
void ¦ void
string v ? ¦ ?vec<string>
arraykey k ¦ keyset<arraykey>
bool ? d ¦ dict<int, ?bool>
int C0 ¦ C
int C1 ¦ C<int>
int C2 ¦ C<int, T>
int U0 ¦ ()
int U1 ¦ (int)
int U2 ¦ (int|T)
int s0 ¦ shape()
int s1 ¦ shape(...)
int s2 ¦ shape('alpha' => T, ?'zeta' => float)
int s3 ¦ shape('alpha' => T, ?'zeta' => float, ...)
int s0 = ¦ shape()
int s1 = ¦ shape(...)
int s2 = ¦ shape('alpha' => T, ?'zeta' => float)
int s3 = ¦ shape('alpha' => T, ?'zeta' => float, ...)
"#;

/// Types, and what they are joined to: repeats stand once, `nothing` goes, `_` and `mixed` swallow what stands beside them, `null`
/// makes an option of what stands beside it, and members stand in the order in which they come first.
pub(crate) const JOINS: &str = r#"
 ¦ nothing
type A = int; type B = nothing; type C = int; ¦ int
function f() {} type A = mixed; type B = null; ¦ _
type A = int; type B = mixed; ¦ mixed
type A = null; type B = int; ¦ (? int)
type A = int; type B = string; type C = int; ¦ (union int string)
type A = string; type B = int; ¦ (union string int)
"#;

/// A type, and what stands in the place of its class parameters. Positions are those of the list, `_` stands where it is too
/// short, and 257 nodes are too many.
pub(crate) const PUT_IN: &str = r#"
type A<T, U> = dict<U, T>; type B = int; ¦ (dict _ int)
type A<T, U> = dict<U, T>; type B = C<\*125«int, »int>; type D = C<\*126«int, »int>; ¦ (dict (class C\*127« int») (class C\*126« int»))
type A<T, U> = dict<U, T>; type B = C<\*126«int, »int>; type D = C<\*126«int, »int>; ¦ too big
type A<T, U> = dict<U, T>; type B = C<\*127«int, »int>; type D = C<\*127«int, »int>; ¦ too big
"#;

/// Declarations whose types differ from each other, and how many these and five unions are, made twice. The fourteenth is too
/// large, and stands as `_`.
pub(crate) const DIFFERENT: &str = r#"
type A = int; type A = string; type A = mixed; type A = nonnull; type A = nothing; type A = null; type A = void; type A = noreturn; type A = bool; type A = float; type A = num; type A = arraykey; type A = this; type A = C<\*255«int, »int>; type A = ?int; type A = vec<int>; type A = keyset<int>; type A = dict<int, int>; type A = dict<int, string>; type A = ?string; type A = vec<string>; type A = keyset<string>; type A = dict<string, int>; type A = dict<string, string>; type A = C; type A = D; type A = ?vec<C>; type A = C<int>; type A = D<int>; type A = ?vec<C<int>>; type A = C<string>; type A = D<string>; type A = ?vec<C<string>>; type A = C<int, string>; type A = D<int, string>; type A = ?vec<C<int, string>>; type A = C<string, int>; type A = D<string, int>; type A = ?vec<C<string, int>>; type A<T> = T; function f<T>(): T {} type A<U> = U; function f<U>(): U {} type A<U, T> = T; function f<U, T>(): T {} type A<T, U> = U; function f<T, U>(): U {} type A = shape(); type A = shape('k' => int); type A = shape('k' => string); type A = shape(?'k' => int); type A = shape(?'k' => string); type A = shape('l' => int); type A = shape('l' => string); type A = shape(?'l' => int); type A = shape(?'l' => string); type A = shape(...); type A = shape('k' => int, ...); type A = shape('k' => string, ...); type A = shape(?'k' => int, ...); type A = shape(?'k' => string, ...); type A = shape('l' => int, ...); type A = shape('l' => string, ...); type A = shape(?'l' => int, ...); type A = shape(?'l' => string, ...); ¦ 70 70
"#;
