// The ancestors of a class, gathered one after the other.
ghost use Rattle.std.specs.Prelude.{◌≡◌, ◌∷◌, [], OnOk, map};
ghost use Rattle.std.specs.List.{fold};
ghost use Rattle.hack_fold.specs.inside.Gathered.{AreNamed};
ghost use Rattle.hack_fold.specs.Paths.{ancestor_in};
ghost use Rattle.hack_fold.specs.Walked.{with_ancestor};

use crate::put::put_types;
use hack_decls::{Ancestor, copy_types};
use hack_types::{HackType, NameId, NoMemory};
use sqlite_items::Items;
use std::alloc::Global;
use std::collections::BTreeSet;

/// The ancestors of a class so far, each name once.
#[derive(Drop)]
pub(crate) struct Ancestors {
    // the ancestors, in order
    list: Vec<Ancestor>,
    // their names
    names: BTreeSet<NameId>,
}

impl Ancestors {
    /// None. It takes no memory.
    pub(crate) fn new(alloc: Global) -> Self
        ensures empty { result.list.items ≡ [] }
        ensures named { AreNamed result }
    {
        Ancestors {
            list: Vec::new(alloc),
            names: BTreeSet::new(alloc),
        }
    }

    /// The ancestors, in order.
    pub(crate) fn into_items(self) -> Items<Ancestor>
        ensures { result ≡ self.list.items }
    {
        Items::from_vec(self.list)
    }

    /// A parent, and what stands above it with the arguments put in that the child gives it; what is there by name is passed over.
    pub(crate) fn add(
        &mut self,
        alloc: Global,
        parent: NameId,
        arguments: &Items<HackType>,
        above: &Items<Ancestor>,
    ) -> Result<(), NoMemory>
        requires { AreNamed self.old }
        ensures added { OnOk result (self.new.list.items ≡ fold with_ancestor self.old.list.items
            (record { name = parent; arguments = arguments.now }
            ∷ map (ancestor_in arguments.now) above.now)) }
        ensures named { OnOk result (AreNamed self.new) }
    {
        self.add_parent(alloc, parent, arguments)?;
        for ancestor in above.as_slice() {
            self.add_above(alloc, ancestor, arguments.as_slice())?;
        }
        Ok(())
    }

    fn add_parent(
        &mut self,
        alloc: Global,
        name: NameId,
        arguments: &Items<HackType>,
    ) -> Result<(), NoMemory>
        requires { AreNamed self.old }
        ensures added { OnOk result (self.new.list.items ≡ with_ancestor self.old.list.items
            (record { name = name; arguments = arguments.now })) }
        ensures named { OnOk result (AreNamed self.new) }
    {
        if !self.names.insert(name)? {
            return Ok(());
        }
        let arguments = copy_types(alloc, arguments)?;
        self.list.push(Ancestor { name, arguments })?;
        Ok(())
    }

    fn add_above(
        &mut self,
        alloc: Global,
        ancestor: &Ancestor,
        given: &[HackType],
    ) -> Result<(), NoMemory>
        requires { AreNamed self.old }
        ensures added { OnOk result (self.new.list.items
            ≡ with_ancestor self.old.list.items (ancestor_in given.now ancestor.now)) }
        ensures named { OnOk result (AreNamed self.new) }
    {
        if !self.names.insert(ancestor.name)? {
            return Ok(());
        }
        let arguments = put_types(alloc, &ancestor.arguments, given)?;
        self.list.push(Ancestor {
            name: ancestor.name,
            arguments,
        })?;
        Ok(())
    }
}
