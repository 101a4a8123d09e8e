// What operators tell apart of an operand.
ghost use Rattle.std.specs.Prelude.{◌≡◌, ◌<◌};
ghost use Rattle.hack_rules.specs.Operators.{is_error};
ghost use Rattle.hack_operators.specs.Seen.{class_seen};
ghost use Rattle.hack_operators.specs.inside.Tables.{place};

/// What operators tell apart of an operand: the first of these that its type is below (docs/language.md, Typing expressions,
/// Operators).
#[derive(Clone, Copy, PartialEq, Eq)]
pub enum OperandClass {
    /// `_` and `nothing`
    Error,
    /// `int`
    Int,
    /// `float`
    Float,
    /// `num`
    Num,
    /// `string`
    Str,
    /// `bool`
    Bool,
    /// `arraykey`
    Arraykey,
    /// Every other type.
    Other,
}

impl OperandClass {
    /// Whether it is that of `_` and `nothing`.
    pub(crate) fn is_error(self) -> bool
        ensures { result ≡ is_error (class_seen self) }
    {
        matches!(self, OperandClass::Error)
    }

    /// Its row and its column in a table of results.
    pub(crate) fn place(self) -> usize
        ensures value { result ≡ place self }
        ensures inside { result < 8 }
    {
        match self {
            OperandClass::Error => 0,
            OperandClass::Int => 1,
            OperandClass::Float => 2,
            OperandClass::Num => 3,
            OperandClass::Str => 4,
            OperandClass::Bool => 5,
            OperandClass::Arraykey => 6,
            OperandClass::Other => 7,
        }
    }
}
