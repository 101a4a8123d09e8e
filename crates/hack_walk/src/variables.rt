// Environments: the variables at a point of a body, with their types.
ghost use Rattle.std.specs.Prelude.{◌≡◌, [], IfOk, OnOk, map, option_copied};
ghost use Rattle.hack_types.specs.Rising.{NamesRise};
ghost use Rattle.hack_rules.specs.Variables.{joined, joined_entry, type_in, with_variable};
ghost use Rattle.hack_walk.specs.inside.Calls.{with_joined};

use crate::unions::union_of_two;
use hack_types::{HackType, NameId, NoMemory, limited};
use std::alloc::Global;
use std::collections::BTreeMap;
use std::marker::Model;

/// The variables at a point of a body, with their types (docs/language.md, Typing expressions). Contracts see the list of them, each
/// once, in the order of their ids.
#[derive(Drop)]
pub struct Variables {
    pub(crate) types: BTreeMap<NameId, HackType>,
}

impl Model for Variables {
    ghost use Rattle.hack_rules.specs.Variables as environments;
    ghost use Rattle.hack_walk.specs.inside.Codes.{variables_code};

    ghost Value = { environments.Variables };

    ghost coded = { variables_code };

    ghost view = { λ variables. variables.types.entries };
}

impl Variables {
    /// No variables. It takes no memory.
    pub fn new(alloc: Global) -> Variables
        ensures { result ≡ [] }
    {
        Variables {
            types: BTreeMap::new(alloc),
        }
    }

    /// Each variable stands once, and they stand in the order of their ids.
    pub fn in_order(&self)
        ensures { NamesRise (map (λ entry. entry.0) self.now) }
    {
        let _count = self.types.len();
    }

    /// The type of a variable, where it is there.
    pub fn type_in(&self, name: NameId) -> Option<&HackType>
        ensures { option_copied result ≡ type_in self.now name }
    {
        self.types.get(&name)
    }

    /// The variable has this type from here on, and `_` where the type has more than 256 nodes.
    #[tactic(auto, unfolding(hack_rules::specs::Variables::with_variable))]
    pub fn put(&mut self, name: NameId, ty: HackType) -> Result<(), NoMemory>
        ensures { OnOk result (self.new ≡ with_variable self.old name ty) }
    {
        let before = self.types.insert(name, limited(ty))?;
        drop(before);
        Ok(())
    }

    /// The same variables once more.
    pub fn copy(&self, alloc: Global) -> Result<Variables, NoMemory>
        ensures { IfOk result (λ copied. copied ≡ self.now) }
    {
        let types = copy_types(alloc, &self.types)?;
        Ok(Variables { types })
    }
}

fn copy_types(
    alloc: Global,
    types: &BTreeMap<NameId, HackType>,
) -> Result<BTreeMap<NameId, HackType>, NoMemory>
    ensures { IfOk result (λ copies. copies.entries ≡ types.now.entries) }
{
    let mut copies = BTreeMap::new(alloc);
    for (name, ty) in types.iter() {
        let copied = ty.copy(alloc)?;
        drop(copies.insert(*name, copied)?);
    }
    Ok(copies)
}

/// Joining keeps the variables that both sides have, each with the union of its two types (docs/language.md, Typing statements).
pub fn joined(alloc: Global, left: Variables, right: Variables) -> Result<Variables, NoMemory>
    ensures { IfOk result (λ answer. answer ≡ joined left right) }
{
    let Variables { types: left } = left;
    let Variables { types: right } = right;
    let types = joined_types(alloc, left, right)?;
    Ok(Variables { types })
}

fn joined_types(
    alloc: Global,
    left: BTreeMap<NameId, HackType>,
    mut right: BTreeMap<NameId, HackType>,
) -> Result<BTreeMap<NameId, HackType>, NoMemory>
    ensures { IfOk result (λ both. both.entries ≡ joined left.entries right.entries) }
{
    let mut both = BTreeMap::new(alloc);
    for (name, ty) in left {
        let other = right.remove(&name);
        put_joined(alloc, &mut both, name, ty, other)?;
    }
    Ok(both)
}

// A variable that the other side has with this type, if it has it, goes behind those of both sides.
fn put_joined(
    alloc: Global,
    both: &mut BTreeMap<NameId, HackType>,
    name: NameId,
    ty: HackType,
    other: Option<HackType>,
) -> Result<(), NoMemory>
    ensures { OnOk result
        (both.new.entries ≡ with_joined both.old.entries (joined_entry (name, ty) other)) }
{
    match other {
        Some(other) => {
            let union = union_of_two(alloc, ty, other)?;
            drop(both.insert(name, union)?);
            Ok(())
        }
        None => Ok(()),
    }
}
