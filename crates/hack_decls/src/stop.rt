// Why a declaration can't be had.
ghost use Rattle.std.specs.Prelude.{◌≡◌};

use hack_types::NoMemory;

/// No edge word was left for what was asked.
#[derive(Clone, Copy)]
pub struct EdgesFull {
    /// How many edge words there are.
    pub have: u64,
}

/// Why a declaration can't be had.
#[derive(Clone, Copy)]
pub enum DeclStop {
    /// That it was asked for can't be kept.
    EdgesFull(EdgesFull),
    /// Memory ran out.
    NoMemory,
}

impl From<NoMemory> for DeclStop {
    ghost use Rattle.hack_decls.specs.declared.stop.DeclStop.TheVariants as stop;

    ghost from_gives = { λ _ stopped. stopped ≡ stop.NoMemory };

    fn from(_error: NoMemory) -> DeclStop {
        DeclStop::NoMemory
    }
}
