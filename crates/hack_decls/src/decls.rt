// How declarations are looked up.

use crate::picks::{ancestor_of, heading_of, member_of};
use crate::{AncestorAnswer, DeclStop, Folded, HeadingAnswer, MemberAnswer, MemberTag};
use hack_types::{NameId, SymbolId};
use std::alloc::Global;

/// Folded declarations by their symbols. Each lookup notes its symbol, so that it is known afterwards what an answer was made of.
///
/// An error says that memory ran out, or that the note can't be kept; the declarations are as before then.
pub trait Decls {
    ghost use Rattle.std.specs.Prelude.{◌≡◌};
    ghost use Rattle.hack_decls.specs.DeclState.{DeclState};
    ghost use Rattle.hack_decls.specs.Looks.{Looks};
    ghost use Rattle.hack_decls.specs.Picks.{ancestor_answer, heading_answer, member_answer};

    ghost Base: { Type 0 };

    ghost Held: { Type 0 };

    ghost state: { Self → DeclState Base Held };

    /// The whole declaration, where there is one.
    fn folded(&mut self, alloc: Global, s: SymbolId) -> Result<Option<Folded>, DeclStop>
        ensures { Looks (state self.old) s result (state self.new)
            (λ entry answer. answer ≡ entry) };

    /// One member of a class, by its kind and name.
    fn member(
        &mut self,
        alloc: Global,
        s: SymbolId,
        tag: MemberTag,
        name: NameId,
    ) -> Result<MemberAnswer, DeclStop>
        ensures { Looks (state self.old) s result (state self.new)
            (λ entry answer. answer ≡ member_answer tag name entry) }
    {
        let found = self.folded(alloc, s)?;
        let answer = member_of(alloc, &found, tag, name);
        drop(found);
        Ok(answer?)
    }

    /// The arguments that a class gives one of its ancestors, by the ancestor's name.
    fn ancestor(
        &mut self,
        alloc: Global,
        s: SymbolId,
        name: NameId,
    ) -> Result<AncestorAnswer, DeclStop>
        ensures { Looks (state self.old) s result (state self.new)
            (λ entry answer. answer ≡ ancestor_answer name entry) }
    {
        let found = self.folded(alloc, s)?;
        let answer = ancestor_of(alloc, &found, name);
        drop(found);
        Ok(answer?)
    }

    /// The declaration without its members and ancestors.
    fn heading(&mut self, alloc: Global, s: SymbolId) -> Result<HeadingAnswer, DeclStop>
        ensures { Looks (state self.old) s result (state self.new)
            (λ entry answer. answer ≡ heading_answer entry) }
    {
        let found = self.folded(alloc, s)?;
        let answer = heading_of(alloc, &found);
        drop(found);
        Ok(answer?)
    }
}
