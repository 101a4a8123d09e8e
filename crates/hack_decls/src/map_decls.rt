// Declarations in a plain map.
ghost use Rattle.std.specs.Prelude.{◌≡◌, None, false, OnOk, OnErr};
ghost use Rattle.hack_decls.specs.Looks.{Looks};
ghost use Rattle.hack_decls.specs.PlainMap.{Declares, map_state};
ghost use Rattle.hack_types.specs.declared.ids.SymbolId.{SymbolId};

use crate::copies::copy_folded;
use crate::picks::{pick_ancestor, pick_heading, pick_member};
use crate::{AncestorAnswer, DeclStop, Decls, Folded, HeadingAnswer, MemberAnswer, MemberTag};
use hack_types::{NameId, NoMemory, SymbolId};
use std::alloc::Global;
use std::collections::{BTreeMap, BTreeSet};

/// Folded declarations in a plain map, which are put in one by one. It keeps each symbol that is asked for once.
#[derive(Drop)]
pub struct MapDecls {
    entries: BTreeMap<SymbolId, Folded>,
    noted: BTreeSet<SymbolId>,
}

impl MapDecls {
    /// No declaration, and nothing asked for. It takes no memory.
    pub fn new(alloc: Global) -> Self
        ensures declared { (s : SymbolId) → (map_state result).map s ≡ None }
        ensures noted { (s : SymbolId) → (map_state result).noted s ≡ false }
    {
        MapDecls {
            entries: BTreeMap::new(alloc),
            noted: BTreeSet::new(alloc),
        }
    }

    /// Puts a declaration in the place of what is declared under the symbol. After an error the declarations are as before.
    pub fn put(&mut self, s: SymbolId, folded: Folded) -> Result<(), NoMemory>
        ensures declares { OnOk result
            (Declares (map_state self.old).map s folded (map_state self.new).map) }
        ensures refused { OnErr result ((map_state self.new).map ≡ (map_state self.old).map) }
        ensures noted { (map_state self.new).noted ≡ (map_state self.old).noted }
    {
        let before = self.entries.insert(s, folded)?;
        drop(before);
        Ok(())
    }

    fn note(&mut self, s: SymbolId) -> Result<(), DeclStop>
        ensures { Looks (map_state self.old) s result (map_state self.new)
            (λ entry answer. Unit {0}) }
    {
        match self.noted.insert(s) {
            Ok(_) => Ok(()),
            Err(_) => Err(DeclStop::NoMemory),
        }
    }
}

impl Decls for MapDecls {
    ghost use Rattle.hack_decls.specs.PlainMap.{map_state};

    ghost Base = { Unit {0} };

    ghost Held = { Unit {0} };

    ghost state = { map_state };

    fn folded(&mut self, alloc: Global, s: SymbolId) -> Result<Option<Folded>, DeclStop> {
        self.note(s)?;
        match self.entries.get(&s) {
            Some(folded) => Ok(Some(copy_folded(alloc, folded)?)),
            None => Ok(None),
        }
    }

    fn member(
        &mut self,
        alloc: Global,
        s: SymbolId,
        tag: MemberTag,
        name: NameId,
    ) -> Result<MemberAnswer, DeclStop> {
        self.note(s)?;
        match self.entries.get(&s) {
            Some(folded) => Ok(pick_member(alloc, folded, tag, name)?),
            None => Ok(MemberAnswer::Absent),
        }
    }

    fn ancestor(
        &mut self,
        alloc: Global,
        s: SymbolId,
        name: NameId,
    ) -> Result<AncestorAnswer, DeclStop> {
        self.note(s)?;
        match self.entries.get(&s) {
            Some(folded) => Ok(pick_ancestor(alloc, folded, name)?),
            None => Ok(AncestorAnswer::Absent),
        }
    }

    fn heading(&mut self, alloc: Global, s: SymbolId) -> Result<HeadingAnswer, DeclStop> {
        self.note(s)?;
        match self.entries.get(&s) {
            Some(folded) => Ok(pick_heading(alloc, folded)?),
            None => Ok(HeadingAnswer::Absent),
        }
    }
}
