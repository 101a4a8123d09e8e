// What a written name stands for.
ghost use Rattle.std.specs.Prelude.{◌≡◌, ℕ, IfOk, OnOk, map};
ghost use Rattle.std.specs.Ordering.{nat_cmp};
ghost use Rattle.std.specs.BTreeMap.{get};
ghost use Rattle.hack_shallow.specs.Scope.{first_at, names_of};
ghost use Rattle.hack_shallow.specs.Positions.{PutsFirst};

use hack_tree::TypeParameter;
use hack_types::{NameId, NoMemory};
use std::alloc::Global;
use std::collections::BTreeMap;
use std::marker::Model;

/// The names of the type parameters of a class, an alias or a function, in order, with the first position of each
/// (docs/language.md, Types and their texts).
#[derive(Drop)]
pub struct Parameters {
    names: Vec<NameId>,
    first: BTreeMap<NameId, u32>,
}

impl Model for Parameters {
    ghost use Rattle.std.specs.Prelude.{◌≡◌, ℕ, List};
    ghost use Rattle.std.specs.Ordering.{nat_cmp};
    ghost use Rattle.std.specs.BTreeMap.{get};
    ghost use Rattle.hack_shallow.specs.Scope.{first_at};

    ghost Value = { List ℕ };

    ghost view = { λ parameters. parameters.names.items };

    ghost invariant = { λ parameters. (name : ℕ) → get nat_cmp parameters.first name ≡ first_at name parameters.names.items };
}

impl Parameters {
    /// The names of these. A list of 2^32 of them is answered as want of memory.
    pub(crate) fn of(alloc: Global, list: &[TypeParameter]) -> Result<Self, NoMemory>
        ensures { IfOk result (λ parameters. parameters ≡ names_of list.now) }
    {
        Parameters::named(alloc, names_of(alloc, list)?)
    }

    /// These names. A list of 2^32 of them is answered as want of memory.
    pub fn named(alloc: Global, names: Vec<NameId>) -> Result<Self, NoMemory>
        ensures { IfOk result (λ parameters. parameters ≡ names.items) }
    {
        let first = first_positions(alloc, names.as_slice())?;
        Ok(Parameters { names, first })
    }

    /// Where this name stands first, from 0.
    pub fn position(&self, name: NameId) -> Option<u32>
        ensures { result ≡ first_at name self.now }
    {
        self.first.get(&name).copied()
    }
}

fn names_of(alloc: Global, list: &[TypeParameter]) -> Result<Vec<NameId>, NoMemory>
    ensures { IfOk result (λ names. names.items ≡ names_of list.now) }
{
    let mut names = Vec::with_capacity(alloc, list.len())?;
    for parameter in list {
        names.push(parameter.name.name)?;
    }
    Ok(names)
}

fn first_positions(alloc: Global, names: &[NameId]) -> Result<BTreeMap<NameId, u32>, NoMemory>
    ensures { IfOk result (λ first. (name : ℕ) → get nat_cmp first name ≡ first_at name names.now) }
{
    let mut first = BTreeMap::new(alloc);
    let mut index: u32 = 0;
    for name in names {
        put_first(&mut first, *name, index)?;
        let Some(next) = index.checked_add(1) else {
            return Err(NoMemory);
        };
        index = next;
    }
    Ok(first)
}

// Puts this position of a name, unless the name has one.
fn put_first(first: &mut BTreeMap<NameId, u32>, name: NameId, index: u32) -> Result<(), NoMemory>
    ensures { OnOk result (PutsFirst first.old name index first.new) }
{
    if !first.contains_key(&name) {
        first.insert(name, index)?;
    }
    Ok(())
}
