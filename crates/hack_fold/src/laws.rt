// What follows from the definitions of lines and folded declarations.
ghost use Rattle.std.specs.Prelude.{◌≡◌, ◌≤◌, ◌+◌, [], Option, Some, All, length, map, nat_eq};
ghost use Rattle.std.specs.List.{IsDistinct};
ghost use Rattle.hack_types.specs.MembersRise.{MembersRise};
ghost use Rattle.hack_types.specs.declared.ids.SymbolId.{SymbolId};
ghost use Rattle.hack_types.specs.declared.shallow.ClassSig.{ClassSig};
ghost use Rattle.hack_types.specs.declared.shallow.Shallow.TheVariants as shallow;
ghost use Rattle.hack_decls.specs.declared.folded.ClassFolded.{ClassFolded};
ghost use Rattle.hack_decls.specs.declared.folded.Folded.{Folded};
ghost use Rattle.hack_decls.specs.declared.folded.Folded.TheVariants as folded;
ghost use Rattle.hack_fold.specs.FromAbove.{IsDeclaredAbove};
ghost use Rattle.hack_fold.specs.Line.{line, most_names};
ghost use Rattle.hack_fold.specs.Parents.{Shallows};
ghost use Rattle.hack_fold.specs.Walked.{IsFolded, IsOfKind};

/// A line has at most one name more than one that isn't cyclic may have.
pub fn line_is_short()
    ensures { (shallows : Shallows) (s : SymbolId) → length (line shallows s) ≤ most_names + 1 }
{}

/// A symbol has one folded declaration, or none.
pub fn one_folded()
    ensures { (shallows : Shallows) (s : SymbolId) (a b : Option Folded)
        → IsFolded shallows s a → IsFolded shallows s b → a ≡ b }
{}

/// A folded class names each of its ancestors once.
pub fn ancestors_once()
    ensures { (shallows : Shallows) (s : SymbolId) (class : ClassFolded)
        → IsFolded shallows s (Some (folded.ClassLike class))
        → IsDistinct nat_eq (map (λ ancestor. ancestor.name) class.ancestors) }
{}

/// Each member of a folded class has the kind and the name of one that is declared at the end of one of the class's paths.
pub fn members_declared()
    ensures { (shallows : Shallows) (s : SymbolId) (class : ClassFolded)
        → IsFolded shallows s (Some (folded.ClassLike class))
        → All (IsDeclaredAbove shallows s.name) class.members }
{}

/// A class without `use`, `extends` and `implements` has its own members.
pub fn own_alone()
    ensures { (shallows : Shallows) (s : SymbolId) (sig : ClassSig) (class : ClassFolded)
        → shallows s ≡ Some (shallow.ClassLike sig) → IsOfKind s (shallow.ClassLike sig)
        → MembersRise sig.members → sig.uses ≡ [] → sig.extends ≡ [] → sig.implements ≡ []
        → IsFolded shallows s (Some (folded.ClassLike class)) → class.members ≡ sig.members }
{}
