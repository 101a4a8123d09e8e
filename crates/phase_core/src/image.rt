// Images, and whether edges cover them.
ghost use Rattle.std.specs.Prelude.{◌≡◌, IfOk, OnOk, length};
ghost use Rattle.std.specs.FinMap as finite;
ghost use Rattle.phase_core.specs.Says.{Tells};
ghost use Rattle.phase_core.specs.World.{seen_at};
ghost use Rattle.phase_core.specs.Images.{IsImage};
ghost use Rattle.phase_core.specs.Edges.{IsCovered};
ghost use Rattle.phase_core.specs.Inside.{AreIn, Imaged};

use crate::closure::reach_from;
use crate::{Copied, CoreImage, CoreSeen, Decl, EdgeSet, SymbolMap, SymbolSet};
use hack_types::{NoMemory, SymbolId};
use std::alloc::Global;

/// The image of a symbol.
pub(crate) fn image_of(
    alloc: Global,
    world: &SymbolMap<Decl>,
    symbol: SymbolId,
) -> Result<CoreImage, NoMemory>
    ensures { IfOk result (IsImage world.now symbol) }
{
    let closure = reach_from(alloc, world, symbol)?;
    sights(alloc, world, &closure.symbols)
}

// What is seen of each of these symbols.
fn sights(
    alloc: Global,
    world: &SymbolMap<Decl>,
    symbols: &[SymbolId],
) -> Result<CoreImage, NoMemory>
    ensures { IfOk result (Imaged world.now symbols.now (length symbols.now)) }
{
    let mut image = SymbolMap::new(alloc);
    for symbol in symbols {
        add_sight(alloc, world, symbol, &mut image)?;
    }
    Ok(image)
}

// Adds what is seen of a symbol.
fn add_sight(
    alloc: Global,
    world: &SymbolMap<Decl>,
    symbol: &SymbolId,
    image: &mut CoreImage,
) -> Result<(), NoMemory>
    ensures { OnOk result (image.new ≡
        finite.insert image.old symbol.now (seen_at world.now symbol.now)) }
{
    let sight = seen_of(alloc, world, *symbol)?;
    image.insert(*symbol, sight)
}

// What is seen of a symbol.
fn seen_of(
    alloc: Global,
    world: &SymbolMap<Decl>,
    symbol: SymbolId,
) -> Result<Option<CoreSeen>, NoMemory>
    ensures { IfOk result (λ sight. sight ≡ seen_at world.now symbol) }
{
    match world.get(symbol) {
        Some(decl) => Ok(Some(CoreSeen {
            version: decl.version,
            parents: decl.parents.copied(alloc)?,
            mentions: decl.mentions.copied(alloc)?,
        })),
        None => Ok(None),
    }
}

/// Whether each symbol of the closure is reached over fold edges.
pub(crate) fn is_covered(
    alloc: Global,
    world: &SymbolMap<Decl>,
    edges: &EdgeSet,
    symbol: &SymbolId,
) -> Result<bool, NoMemory>
    ensures { IfOk result (Tells (IsCovered world.now edges.now symbol.now)) }
{
    let closure = reach_from(alloc, world, *symbol)?;
    let folds = reach_from(alloc, edges, *symbol)?;
    Ok(has_all(&folds.set, &closure.symbols))
}

// Whether all of the symbols are in the set.
fn has_all(set: &SymbolSet, symbols: &[SymbolId]) -> bool
    ensures { Tells (AreIn set.now symbols.now) result }
{
    for symbol in symbols {
        if !set.contains(*symbol) {
            return false;
        }
    }
    true
}
