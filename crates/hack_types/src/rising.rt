// Members and names in the order of their ids, each once.
ghost use Rattle.std.specs.Prelude.{◌≡◌};
ghost use Rattle.hack_types.specs.MembersRise.{MembersRise};
ghost use Rattle.hack_types.specs.Rising.{NamesRise};

use crate::{Member, NameId};
use std::marker::Model;

/// The members of a class, each name once of each kind. Contracts see the list of them, which rises by kind (constants, properties,
/// methods), then by the id of the name.
#[derive(Drop)]
pub struct Members {
    items: Vec<Member>,
}

impl Model for Members {
    ghost use Rattle.std.specs.Prelude.{List};
    ghost use Rattle.hack_types.specs.MembersRise.{MembersRise};
    ghost use Rattle.hack_types.specs.contracts.shallow.Member as member;
    ghost use Rattle.hack_types.specs.declared.shallow.Member.{Member};
    ghost use Rattle.std.specs.Coded.{coded_list};

    ghost Value = { List Member };

    ghost coded = { coded_list member.the_row.coded };

    ghost view = { λ members. members.items.items };

    ghost invariant = { λ members. MembersRise members.items.items };
}

impl Members {
    /// These members.
    pub fn from_vec(items: Vec<Member>) -> Self
        requires { MembersRise items.items }
        ensures { result ≡ items.items }
    {
        Members { items }
    }

    /// The members, as they lie in memory.
    pub fn as_slice(&self) -> &[Member]
        ensures items { result.now ≡ self.now }
        ensures rise { MembersRise self.now }
    {
        self.items.as_slice()
    }
}

/// Names, each once. Contracts see the list of their ids, which rises.
#[derive(Drop)]
pub struct NameSet {
    items: Vec<NameId>,
}

impl Model for NameSet {
    ghost use Rattle.std.specs.Prelude.{ℕ, List};
    ghost use Rattle.hack_types.specs.Rising.{NamesRise};

    ghost Value = { List ℕ };

    ghost view = { λ names. names.items.items };

    ghost invariant = { λ names. NamesRise names.items.items };
}

impl NameSet {
    /// These names.
    pub fn from_vec(items: Vec<NameId>) -> Self
        requires { NamesRise items.items }
        ensures { result ≡ items.items }
    {
        NameSet { items }
    }

    /// The names, as they lie in memory.
    pub fn as_slice(&self) -> &[NameId]
        ensures names { result.now ≡ self.now }
        ensures rise { NamesRise self.now }
    {
        self.items.as_slice()
    }
}
