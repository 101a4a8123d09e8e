// Copies of declarations. Each says that memory ran out where there is none.
ghost use Rattle.std.specs.Prelude.{◌≡◌, IfOk};
ghost use Rattle.hack_decls.specs.Picks.{heading_of};

use crate::{Ancestor, ClassFolded, ClassHeading, Folded};
use hack_types::{
    AliasSig, EnumSig, HackType, Member, MemberKind, Members, NameSet, NoMemory, Param, Signature,
    TypeParam,
};
use sqlite_items::Items;
use std::alloc::Global;

/// The same declaration once more.
pub fn copy_folded(alloc: Global, folded: &Folded) -> Result<Folded, NoMemory>
    ensures { IfOk result (λ copied. copied ≡ folded.now) }
{
    Ok(match folded {
        Folded::ClassLike(class) => Folded::ClassLike(copy_class(alloc, class)?),
        Folded::Enum(sig) => Folded::Enum(copy_enum(alloc, sig)?),
        Folded::Alias(sig) => Folded::Alias(copy_alias(alloc, sig)?),
        Folded::Function(sig) => Folded::Function(copy_signature(alloc, sig)?),
        Folded::Constant(ty) => Folded::Constant(ty.copy(alloc)?),
    })
}

fn copy_class(alloc: Global, class: &ClassFolded) -> Result<ClassFolded, NoMemory>
    ensures { IfOk result (λ copied. copied ≡ class.now) }
{
    let type_params = copy_type_params(alloc, &class.type_params)?;
    let ancestors = copy_items(alloc, &class.ancestors)?;
    let members = copy_members(alloc, class.members.as_slice())?;
    Ok(ClassFolded {
        sort: class.sort,
        is_abstract: class.is_abstract,
        is_final: class.is_final,
        cyclic: class.cyclic,
        partial: class.partial,
        type_params,
        ancestors,
        members: Members::from_vec(members),
    })
}

/// What the class is without its members and ancestors.
pub fn copy_class_heading(alloc: Global, class: &ClassFolded) -> Result<ClassHeading, NoMemory>
    ensures { IfOk result (λ heading. heading ≡ heading_of class.now) }
{
    let type_params = copy_type_params(alloc, &class.type_params)?;
    Ok(ClassHeading {
        sort: class.sort,
        is_abstract: class.is_abstract,
        is_final: class.is_final,
        cyclic: class.cyclic,
        partial: class.partial,
        type_params,
    })
}

/// The same enum once more.
pub fn copy_enum(alloc: Global, sig: &EnumSig) -> Result<EnumSig, NoMemory>
    ensures { IfOk result (λ copied. copied ≡ sig.now) }
{
    let base = sig.base.copy(alloc)?;
    let cases = copy_names(alloc, &sig.cases)?;
    Ok(EnumSig {
        base,
        bounded: sig.bounded,
        cases,
    })
}

fn copy_names(alloc: Global, names: &NameSet) -> Result<NameSet, NoMemory>
    ensures { IfOk result (λ copied. copied ≡ names.now) }
{
    Ok(NameSet::from_vec(Vec::from_slice(alloc, names.as_slice())?))
}

/// The same alias once more.
pub fn copy_alias(alloc: Global, sig: &AliasSig) -> Result<AliasSig, NoMemory>
    ensures { IfOk result (λ copied. copied ≡ sig.now) }
{
    let type_params = copy_type_params(alloc, &sig.type_params)?;
    let body = sig.body.copy(alloc)?;
    Ok(AliasSig { type_params, body })
}

/// The same signature once more.
pub fn copy_signature(alloc: Global, sig: &Signature) -> Result<Signature, NoMemory>
    ensures { IfOk result (λ copied. copied ≡ sig.now) }
{
    let type_params = copy_type_params(alloc, &sig.type_params)?;
    let params = copy_items(alloc, &sig.params)?;
    let result_type = sig.result.copy(alloc)?;
    Ok(Signature {
        type_params,
        params,
        result: result_type,
    })
}

/// The same type parameters once more.
pub fn copy_type_params(
    alloc: Global,
    type_params: &Items<TypeParam>,
) -> Result<Items<TypeParam>, NoMemory>
    ensures { IfOk result (λ copied. copied ≡ type_params.now) }
{
    copy_items(alloc, type_params)
}

/// The same types once more.
pub fn copy_types(alloc: Global, types: &Items<HackType>) -> Result<Items<HackType>, NoMemory>
    ensures { IfOk result (λ copied. copied ≡ types.now) }
{
    copy_items(alloc, types)
}

/// The same members once more.
pub fn copy_members(alloc: Global, members: &[Member]) -> Result<Vec<Member>, NoMemory>
    ensures { IfOk result (λ copied. copied.items ≡ members.now) }
{
    copy_all(alloc, members)
}

/// The same member once more.
pub fn copy_member(alloc: Global, member: &Member) -> Result<Member, NoMemory>
    ensures { IfOk result (λ copied. copied ≡ member.now) }
{
    let kind = copy_kind(alloc, &member.kind)?;
    Ok(Member {
        kind,
        name: member.name,
        origin: member.origin,
        visibility: member.visibility,
        is_static: member.is_static,
        is_abstract: member.is_abstract,
        is_final: member.is_final,
    })
}

fn copy_kind(alloc: Global, kind: &MemberKind) -> Result<MemberKind, NoMemory>
    ensures { IfOk result (λ copied. copied ≡ kind.now) }
{
    Ok(match kind {
        MemberKind::Constant(ty) => MemberKind::Constant(ty.copy(alloc)?),
        MemberKind::Property(ty) => MemberKind::Property(ty.copy(alloc)?),
        MemberKind::Method(sig) => MemberKind::Method(copy_signature(alloc, sig)?),
    })
}

fn copy_items<T: Duplicate>(alloc: Global, items: &Items<T>) -> Result<Items<T>, NoMemory>
    ensures { IfOk result (λ copied. copied ≡ items.now) }
{
    Ok(Items::from_vec(copy_all(alloc, items.as_slice())?))
}

fn copy_all<T: Duplicate>(alloc: Global, items: &[T]) -> Result<Vec<T>, NoMemory>
    ensures { IfOk result (λ copied. copied.items ≡ items.now) }
{
    let mut copied = Vec::with_capacity(alloc, items.len())?;
    for item in items {
        copied.push(item.duplicate(alloc)?)?;
    }
    Ok(copied)
}

// What lists of it are copied by.
trait Duplicate: Drop {
    ghost use Rattle.std.specs.Prelude.{◌≡◌, IfOk};

    fn duplicate(&self, alloc: Global) -> Result<Self, NoMemory>
        ensures { IfOk result (λ copied. copied ≡ self.now) };
}

impl Duplicate for HackType {
    fn duplicate(&self, alloc: Global) -> Result<HackType, NoMemory> {
        self.copy(alloc)
    }
}

impl Duplicate for Param {
    fn duplicate(&self, alloc: Global) -> Result<Param, NoMemory> {
        let ty = self.ty.copy(alloc)?;
        Ok(Param {
            ty,
            optional: self.optional,
        })
    }
}

impl Duplicate for TypeParam {
    fn duplicate(&self, alloc: Global) -> Result<TypeParam, NoMemory> {
        let upper = copy_types(alloc, &self.upper)?;
        let lower = copy_types(alloc, &self.lower)?;
        Ok(TypeParam {
            name: self.name,
            variance: self.variance,
            upper,
            lower,
        })
    }
}

impl Duplicate for Ancestor {
    fn duplicate(&self, alloc: Global) -> Result<Ancestor, NoMemory> {
        let arguments = copy_types(alloc, &self.arguments)?;
        Ok(Ancestor {
            name: self.name,
            arguments,
        })
    }
}

impl Duplicate for Member {
    fn duplicate(&self, alloc: Global) -> Result<Member, NoMemory> {
        copy_member(alloc, self)
    }
}
