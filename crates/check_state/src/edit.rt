// Edits, and how they are refused.
ghost use Rattle.std.specs.Prelude.{◌≡◌};
ghost use Rattle.check_state.specs.declared.edit.EditStop.TheVariants.{NoMemory as NoMemoryStop};

use hack_types::NoMemory;

/// A change of one file.
#[derive(Drop)]
pub enum Edit {
    /// The file of this name has these bytes from now on.
    Put { name: Vec<u8>, bytes: Vec<u8> },
    /// There is no file of this name from now on.
    Drop { name: Vec<u8> },
}

/// Why an edit was refused (docs/script.md, Limits).
#[derive(Clone, Copy, Debug, PartialEq, Eq)]
pub enum EditStop {
    /// The file to be taken away isn't there.
    NoFile,
    /// The name is new, and there are 65,536 files, the builtin text not counted. `have` is how many there are.
    TooManyFiles { have: u64 },
    /// The files would have more than 64 MiB. `have` is how many bytes they have.
    TooMuchText { have: u64 },
    /// Memory ran out. The state isn't used again.
    NoMemory,
}

impl From<NoMemory> for EditStop {
    ghost from_gives = { λ _ stop. stop ≡ NoMemoryStop };

    fn from(_fault: NoMemory) -> EditStop {
        EditStop::NoMemory
    }
}
