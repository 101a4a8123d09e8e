// Each answer was worked out by hand from docs/language.md, Typing expressions, Operators: the class of each operand first (`_` and `nothing`
// are in error; else the first of int, float, num, string, bool, arraykey that the type is below; else other), and then the table. A row has
// declarations; the last is a function that returns an operator between two of its parameters, or before one. A name that several
// parameters have takes the union of their types, and one that none has is `_`. `no table` stands for an operator that has none.

/// Declarations, and what the operator gives, with its diagnostic.
pub(crate) const OPERATORS: &str = r#"
function f(int $a, int $b): void { return $a + $b; } ¦ int
function f(int $a, float $b): void { return $a + $b; } ¦ float
function f(float $a, num $b): void { return $a - $b; } ¦ float
function f(int $a, num $b): void { return $a * $b; } ¦ num
function f(num $a, num $b): void { return $a - $b; } ¦ num
function f(string $a, int $b): void { return $a + $b; } ¦ _ 4012 operator + does not take string and int
function f(bool $a, int $b): void { return $a * $b; } ¦ _ 4012 operator * does not take bool and int
function f(arraykey $a, int $b): void { return $a + $b; } ¦ _ 4012 operator + does not take arraykey and int
function f(mixed $a, int $b): void { return $a + $b; } ¦ _ 4012 operator + does not take mixed and int
function f(int $a, float $a, int $b): void { return $a + $b; } ¦ num
function f(int $a, float $a, float $b): void { return $a + $b; } ¦ float
function f(int $a, string $a, int $b): void { return $a * $b; } ¦ _ 4012 operator * does not take (int|string) and int
function f(?int $a, int $b): void { return $a + $b; } ¦ _ 4012 operator + does not take ?int and int
function f(null $a, int $b): void { return $a - $b; } ¦ _ 4012 operator - does not take null and int
function f(string $b): void { return $a + $b; } ¦ _
function f(vec<int> $a, nothing $b): void { return $a + $b; } ¦ _
function f(nothing $a, int $b): void { return $a * $b; } ¦ _
function f(int $a, int $b): void { return $a / $b; } ¦ num
function f(num $a, float $b): void { return $a / $b; } ¦ float
function f(int $a, int $b): void { return $a ** $b; } ¦ num
function f(float $a, int $b): void { return $a ** $b; } ¦ float
function f(string $a, string $b): void { return $a / $b; } ¦ _ 4012 operator / does not take string and string
function f(int $a, bool $b): void { return $a ** $b; } ¦ _ 4012 operator ** does not take int and bool
function f(int $a, int $b): void { return $a % $b; } ¦ int
function f(int $a, float $b): void { return $a & $b; } ¦ _ 4012 operator & does not take int and float
function f(num $a, int $b): void { return $a | $b; } ¦ _ 4012 operator | does not take num and int
function f(int $a): void { return $a ^ $b; } ¦ _
function f(int $a, float $a, int $b): void { return $a % $b; } ¦ _ 4012 operator % does not take (int|float) and int
function f(string $a, int $b): void { return $a . $b; } ¦ string
function f(float $a, string $b): void { return $a . $b; } ¦ string
function f(arraykey $a, num $b): void { return $a . $b; } ¦ string
function f(int $a, string $a, string $b): void { return $a . $b; } ¦ string
function f(bool $a, string $b): void { return $a . $b; } ¦ _ 4012 operator . does not take bool and string
function f(string $a, void $b): void { return $a . $b; } ¦ _ 4012 operator . does not take string and void
function f(?string $a, string $b): void { return $a . $b; } ¦ _ 4012 operator . does not take ?string and string
function f(float $a, string $a, string $b): void { return $a . $b; } ¦ _ 4012 operator . does not take (float|string) and string
function f(nothing $a, vec<int> $b): void { return $a . $b; } ¦ _
function f(int $a, float $b): void { return $a < $b; } ¦ bool
function f(int $a, float $a, num $b): void { return $a <= $b; } ¦ bool
function f(string $a, string $b): void { return $a <=> $b; } ¦ int
function f(num $a, int $b): void { return $a <=> $b; } ¦ int
function f(arraykey $a, arraykey $b): void { return $a >= $b; } ¦ _ 4012 operator >= does not take arraykey and arraykey
function f(int $a, string $b): void { return $a < $b; } ¦ _ 4012 operator < does not take int and string
function f(bool $a, bool $b): void { return $a > $b; } ¦ _ 4012 operator > does not take bool and bool
function f(int $a, string $a, string $b): void { return $a <=> $b; } ¦ _ 4012 operator <=> does not take (int|string) and string
type A = int; function f(A $a, A $b): void { return $a + $b; } ¦ int
type A = ?int; function f(A $a, int $b): void { return $a + $b; } ¦ _ 4012 operator + does not take A and int
type A = float; type B = A; function f(B $a, int $b): void { return $a / $b; } ¦ float
type K = arraykey; function f(K $a, K $b): void { return $a . $b; } ¦ string
enum E: int {} function f(E $a, string $b): void { return $a . $b; } ¦ string
enum E: int {} function f(E $a, int $b): void { return $a + $b; } ¦ _ 4012 operator + does not take E and int
enum E: int as int {} function f(E $a, int $b): void { return $a + $b; } ¦ int
function f(Missing $a, int $b): void { return $a + $b; } ¦ int
function f(Missing $a, bool $b): void { return $a . $b; } ¦ _ 4012 operator . does not take Missing and bool
function f<T as num>(T $a, int $b): void { return $a - $b; } ¦ num
function f<T>(T $a, int $b): void { return $a + $b; } ¦ _ 4012 operator + does not take T and int
function f(int $a): void { return -$a; } ¦ int
function f(float $a): void { return -$a; } ¦ float
function f(num $a): void { return +$a; } ¦ num
function f(int $a, float $a): void { return +$a; } ¦ num
function f(string $a): void { return -$a; } ¦ _ 4012 operator - does not take string
function f(?float $a): void { return -$a; } ¦ _ 4012 operator - does not take ?float
function f(arraykey $a): void { return +$a; } ¦ _ 4012 operator + does not take arraykey
function f(int $a): void { return ~$a; } ¦ int
function f(float $a): void { return ~$a; } ¦ _ 4012 operator ~ does not take float
function f(): void { return ~$a; } ¦ _
function f(nothing $a): void { return -$a; } ¦ _
function f(bool $a, int $b): void { return $a += $b; } ¦ _ 4012 operator + does not take bool and int
function f(bool $a, int $b): void { return $a -= $b; } ¦ _ 4012 operator - does not take bool and int
function f(bool $a, int $b): void { return $a *= $b; } ¦ _ 4012 operator * does not take bool and int
function f(bool $a, int $b): void { return $a /= $b; } ¦ _ 4012 operator / does not take bool and int
function f(bool $a, int $b): void { return $a %= $b; } ¦ _ 4012 operator % does not take bool and int
function f(bool $a, int $b): void { return $a .= $b; } ¦ _ 4012 operator . does not take bool and int
function f(bool $a, int $b): void { return $a &= $b; } ¦ _ 4012 operator & does not take bool and int
function f(bool $a, int $b): void { return $a |= $b; } ¦ _ 4012 operator | does not take bool and int
function f(bool $a, int $b): void { return $a ^= $b; } ¦ _ 4012 operator ^ does not take bool and int
function f(bool $a, int $b): void { return $a **= $b; } ¦ _ 4012 operator ** does not take bool and int
function f(string $a, int $b): void { return $a .= $b; } ¦ string
function f(bool $a, bool $b): void { return $a == $b; } ¦ no table
function f(int $a, int $b): void { return $a ?? $b; } ¦ no table
function f(int $a, int $b): void { return $a = $b; } ¦ no table
function f(int $a, int $b): void { return $a ??= $b; } ¦ no table
function f(int $a): void { return !$a; } ¦ no table
function f(int $a): void { return ++$a; } ¦ no table
"#;
