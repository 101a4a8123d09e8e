// Folded declarations from those of the parents.
ghost use Rattle.std.specs.Prelude.{◌≡◌, IfOk, OnOk, true};
ghost use Rattle.hack_types.specs.MembersRise.{MembersRise};
ghost use Rattle.hack_decls.specs.Looks.{Keeps};
ghost use Rattle.hack_fold.specs.inside.FromParents.{from_parents};
ghost use Rattle.hack_fold.specs.Walked.{FoldsTo};

use crate::inherit::{Inherited, inherit};
use hack_decls::{
    ClassFolded, DeclStop, Decls, Folded, copy_alias, copy_enum, copy_signature, copy_type_params,
};
use hack_types::{ClassSig, Members, NameId, Shallow, SymbolId};
use std::alloc::Global;

/// What a declaration is with all that it inherits, from its signature, whether it is cyclic, and the folded declarations of its
/// parents (docs/language.md, Folding). A cyclic class asks for none.
pub fn fold<D: Decls>(
    alloc: Global,
    s: SymbolId,
    shallow: &Shallow,
    cyclic: bool,
    decls: &mut D,
) -> Result<Folded, DeclStop>
    ensures folds { IfOk result (FoldsTo (D.state decls.old).map s shallow.now cyclic) }
    ensures keeps { Keeps (D.state decls.old) result (D.state decls.new) }
    ensures asks_nothing { cyclic ≡ true → D.state decls.new ≡ D.state decls.old }
{
    match shallow {
        Shallow::ClassLike(sig) => {
            Ok(Folded::ClassLike(fold_class(alloc, s.name, sig, cyclic, decls)?))
        }
        Shallow::Enum(sig) => Ok(Folded::Enum(copy_enum(alloc, sig)?)),
        Shallow::Alias(sig) => Ok(Folded::Alias(copy_alias(alloc, sig)?)),
        Shallow::Function(sig) => Ok(Folded::Function(copy_signature(alloc, sig)?)),
        Shallow::Constant(ty) => Ok(Folded::Constant(ty.copy(alloc)?)),
    }
}

fn fold_class<D: Decls>(
    alloc: Global,
    name: NameId,
    sig: &ClassSig,
    cyclic: bool,
    decls: &mut D,
) -> Result<ClassFolded, DeclStop>
    ensures folds { IfOk result (λ class.
        class ≡ from_parents (D.state decls.old).map name cyclic sig.now) }
    ensures own_rise { OnOk result (MembersRise sig.now.members) }
    ensures keeps { Keeps (D.state decls.old) result (D.state decls.new) }
    ensures asks_nothing { cyclic ≡ true → D.state decls.new ≡ D.state decls.old }
{
    let type_params = copy_type_params(alloc, &sig.type_params)?;
    let Inherited {
        ancestors,
        members,
        partial,
    } = inherit(alloc, name, sig, cyclic, decls)?;
    Ok(ClassFolded {
        sort: sig.sort,
        is_abstract: sig.is_abstract,
        is_final: sig.is_final,
        cyclic,
        partial,
        type_params,
        ancestors: ancestors.into_items(),
        members: Members::from_vec(members),
    })
}
