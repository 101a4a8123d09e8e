// What function parameters took from the types of arguments.
ghost use Rattle.std.specs.Prelude.{◌≡◌, [], IfOk, OnOk, map};
ghost use Rattle.hack_infer.specs.Matching.{lists, nothing_taken, taking, types_at};

use crate::sights::MOST_STEPS;
use hack_types::{HackType, NoMemory, limited};
use sqlite_items::Items;
use std::alloc::Global;

/// A type that a function parameter took, with the parameter's position.
#[derive(Drop)]
pub(crate) struct Took {
    pub(crate) position: u32,
    pub(crate) ty: HackType,
}

/// What function parameters took so far, and how often an alias may still be expanded.
#[derive(Drop)]
pub(crate) struct Taken {
    pub(crate) found: Items<Took>,
    pub(crate) steps: u32,
}

impl Taken {
    /// Nothing is taken yet.
    pub(crate) fn new(alloc: Global) -> Taken
        ensures { result ≡ nothing_taken }
    {
        Taken {
            found: Items::new(alloc),
            steps: MOST_STEPS,
        }
    }

    /// The parameter of this position takes a type, and `_` for one that is too large.
    pub(crate) fn take(
        &mut self,
        alloc: Global,
        position: u32,
        ty: &HackType,
    ) -> Result<(), NoMemory>
        ensures { OnOk result (self.new ≡ taking position ty.now self.old) }
    {
        let ty = limited(ty.copy(alloc)?);
        self.found.push(Took { position, ty })?;
        Ok(())
    }
}

/// What each of so many parameters took.
pub(crate) fn lists(
    alloc: Global,
    found: &[Took],
    count: u32,
) -> Result<Vec<Vec<HackType>>, NoMemory>
    ensures { IfOk result (λ all. map (λ types. types.items) all.items ≡ lists found.now count) }
{
    let mut all = Vec::new(alloc);
    for position in 0..count {
        all.push(types_at(alloc, found, position)?)?;
    }
    Ok(all)
}

// The types that the parameter of this position took, in order.
fn types_at(alloc: Global, found: &[Took], position: u32) -> Result<Vec<HackType>, NoMemory>
    ensures { IfOk result (λ types. types.items ≡ types_at found.now position) }
{
    let mut types = Vec::new(alloc);
    for took in found {
        if took.position == position {
            types.push(took.ty.copy(alloc)?)?;
        }
    }
    Ok(types)
}
