// Ids of names, and symbols.
ghost use Rattle.std.specs.Prelude.{◌≡◌, ◌<◌, ◌^◌};

use std::marker::Model;

/// The id of a name in a `Names`. Contracts see a number, which is below 2^30.
#[derive(Clone, Copy, Debug, PartialEq, Eq, PartialOrd, Ord, Hash)]
pub struct NameId {
    number: u32,
}

impl Model for NameId {
    ghost use Rattle.std.specs.Prelude.{ℕ, ◌<◌, ◌^◌};

    ghost Value = { ℕ };

    ghost view = { λ id. id.number };

    ghost invariant = { λ id. id.number < 2 ^ 30 };

    ghost inverse = { λ n. record { number = n } };
}

impl NameId {
    /// The id of this number.
    pub fn new(number: u32) -> Self
        requires { number < 2 ^ 30 }
        ensures { result ≡ number }
    {
        NameId { number }
    }

    /// The number of this id.
    pub fn number(self) -> u32
        ensures value { result ≡ self }
        ensures small { result < 2 ^ 30 }
    {
        self.number
    }
}

/// What a symbol is declared as.
#[derive(Clone, Copy, Debug, PartialEq, Eq, PartialOrd, Ord, Hash)]
pub enum Kind {
    /// A class, an interface, a trait, an enum or an alias.
    Class,
    /// A function.
    Func,
    /// A constant.
    Const,
}

/// What a declaration declares: a kind, and a name of that kind.
#[derive(Clone, Copy, Debug, PartialEq, Eq, PartialOrd, Ord, Hash)]
pub struct SymbolId {
    /// What it is declared as.
    pub kind: Kind,
    /// Its name.
    pub name: NameId,
}
