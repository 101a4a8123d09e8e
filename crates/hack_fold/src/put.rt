// Members and types of a parent, with the arguments put in that the child gives it.
ghost use Rattle.std.specs.Prelude.{◌≡◌, IfOk, map};
ghost use Rattle.hack_fold.specs.Paths.{kind_with, member_with, put_in, signature_with};

use hack_types::{
    HackType, Member, MemberKind, NameId, NoMemory, Param, Signature, SubstStop, TypeParam,
    substitute,
};
use sqlite_items::Items;
use std::alloc::Global;

/// The type with the arguments put in, and `_` where it would be too large.
#[tactic(auto, using(crate::proofs::PutLemmas::put_any))]
pub(crate) fn put_type(
    alloc: Global,
    ty: &HackType,
    arguments: &[HackType],
) -> Result<HackType, NoMemory>
    ensures { IfOk result (λ put. put ≡ put_in arguments.now ty.now) }
{
    match substitute(alloc, ty, arguments) {
        Ok(put) => Ok(put),
        Err(SubstStop::TooBig) => Ok(HackType::Any),
        Err(SubstStop::NoMemory) => Err(NoMemory),
    }
}

/// These types with the arguments put in.
pub(crate) fn put_types(
    alloc: Global,
    types: &Items<HackType>,
    arguments: &[HackType],
) -> Result<Items<HackType>, NoMemory>
    ensures { IfOk result (λ put. put ≡ map (put_in arguments.now) types.now) }
{
    put_all(alloc, types, arguments)
}

/// The member with the arguments put in, from this class.
pub(crate) fn put_member(
    alloc: Global,
    member: &Member,
    arguments: &[HackType],
    origin: NameId,
) -> Result<Member, NoMemory>
    ensures { IfOk result (λ put. put ≡ member_with (put_in arguments.now) origin member.now) }
{
    let kind = put_kind(alloc, &member.kind, arguments)?;
    Ok(Member {
        kind,
        name: member.name,
        origin,
        visibility: member.visibility,
        is_static: member.is_static,
        is_abstract: member.is_abstract,
        is_final: member.is_final,
    })
}

fn put_kind(
    alloc: Global,
    kind: &MemberKind,
    arguments: &[HackType],
) -> Result<MemberKind, NoMemory>
    ensures { IfOk result (λ put. put ≡ kind_with (put_in arguments.now) kind.now) }
{
    Ok(match kind {
        MemberKind::Constant(ty) => MemberKind::Constant(put_type(alloc, ty, arguments)?),
        MemberKind::Property(ty) => MemberKind::Property(put_type(alloc, ty, arguments)?),
        MemberKind::Method(sig) => MemberKind::Method(put_signature(alloc, sig, arguments)?),
    })
}

fn put_signature(
    alloc: Global,
    sig: &Signature,
    arguments: &[HackType],
) -> Result<Signature, NoMemory>
    ensures { IfOk result (λ put. put ≡ signature_with (put_in arguments.now) sig.now) }
{
    let type_params = put_all(alloc, &sig.type_params, arguments)?;
    let params = put_all(alloc, &sig.params, arguments)?;
    let result_type = put_type(alloc, &sig.result, arguments)?;
    Ok(Signature {
        type_params,
        params,
        result: result_type,
    })
}

fn put_all<T: Put>(
    alloc: Global,
    items: &Items<T>,
    arguments: &[HackType],
) -> Result<Items<T>, NoMemory>
    ensures { IfOk result (λ put. put ≡ map (T.with_put arguments.now) items.now) }
{
    let mut put = Vec::with_capacity(alloc, items.len())?;
    for item in items.as_slice() {
        put.push(item.put(alloc, arguments)?)?;
    }
    Ok(Items::from_vec(put))
}

// What lists of it have arguments put in by.
trait Put: Drop {
    ghost use Rattle.std.specs.Prelude.{◌≡◌, IfOk, List};
    ghost use Rattle.hack_types.specs.declared.hack_type.HackType.{HackType};

    ghost with_put: { List HackType → Self → Self };

    fn put(&self, alloc: Global, arguments: &[HackType]) -> Result<Self, NoMemory>
        ensures { IfOk result (λ put. put ≡ with_put arguments.now self.now) };
}

impl Put for HackType {
    ghost use Rattle.hack_fold.specs.Paths.{put_in};

    ghost with_put = { put_in };

    fn put(&self, alloc: Global, arguments: &[HackType]) -> Result<HackType, NoMemory> {
        put_type(alloc, self, arguments)
    }
}

impl Put for TypeParam {
    ghost use Rattle.hack_fold.specs.Paths.{put_in, type_param_with};

    ghost with_put = { λ arguments. type_param_with (put_in arguments) };

    fn put(&self, alloc: Global, arguments: &[HackType]) -> Result<TypeParam, NoMemory> {
        let upper = put_types(alloc, &self.upper, arguments)?;
        let lower = put_types(alloc, &self.lower, arguments)?;
        Ok(TypeParam {
            name: self.name,
            variance: self.variance,
            upper,
            lower,
        })
    }
}

impl Put for Param {
    ghost use Rattle.hack_fold.specs.Paths.{param_with, put_in};

    ghost with_put = { λ arguments. param_with (put_in arguments) };

    fn put(&self, alloc: Global, arguments: &[HackType]) -> Result<Param, NoMemory> {
        let ty = put_type(alloc, &self.ty, arguments)?;
        Ok(Param {
            ty,
            optional: self.optional,
        })
    }
}
