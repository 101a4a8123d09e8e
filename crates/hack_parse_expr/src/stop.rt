// Why a text has no tree.

use hack_types::{NoMemory, Place};
use std::alloc::{AllocError, AllocFailed};

/// Why a parse ended without a tree.
#[derive(Clone, Copy, Debug, PartialEq, Eq)]
pub enum ParseStop {
    /// The text has a fault (docs/language.md, Tokens and Grammar).
    Fault {
        /// Where it is, in the file.
        place: Place,
        /// Which it is.
        code: u16,
    },
    /// Memory ran out.
    NoMemory,
}

impl From<AllocError> for ParseStop {
    ghost use Rattle.std.specs.Prelude.{◌≡◌};
    ghost use Rattle.hack_parse_expr.specs.declared.stop.ParseStop.TheVariants.{NoMemory};

    ghost from_gives = { λ _ stop. stop ≡ NoMemory };

    fn from(_error: AllocError) -> ParseStop {
        ParseStop::NoMemory
    }
}

impl<T: Drop> From<AllocFailed<T>> for ParseStop {
    ghost use Rattle.std.specs.Prelude.{◌≡◌};
    ghost use Rattle.hack_parse_expr.specs.declared.stop.ParseStop.TheVariants.{NoMemory};

    ghost from_gives = { λ _ stop. stop ≡ NoMemory };

    fn from(_error: AllocFailed<T>) -> ParseStop {
        ParseStop::NoMemory
    }
}

impl From<NoMemory> for ParseStop {
    ghost use Rattle.std.specs.Prelude.{◌≡◌};
    ghost use Rattle.hack_parse_expr.specs.declared.stop.ParseStop.TheVariants.{NoMemory as no_memory};

    ghost from_gives = { λ _ stop. stop ≡ no_memory };

    fn from(_error: NoMemory) -> ParseStop {
        ParseStop::NoMemory
    }
}
