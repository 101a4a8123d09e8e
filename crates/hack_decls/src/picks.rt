// What the narrow lookups pick from a folded declaration.
ghost use Rattle.std.specs.Prelude.{◌≡◌, ◌==◌, Some, IfOk, option_copied};
ghost use Rattle.std.specs.List.{find};
ghost use Rattle.std.specs.Ordering.{nat_cmp, ordering_then};
ghost use Rattle.hack_decls.specs.Picks.{ancestor_answer, heading_answer, is_member, member_answer, tag_rank};
ghost use Rattle.hack_types.specs.MembersRise.{kind_rank};

use crate::copies::{copy_alias, copy_enum, copy_signature, copy_types};
use crate::{
    Ancestor, AncestorAnswer, ClassFolded, Folded, HeadingAnswer, MemberAnswer, MemberTag,
    copy_class_heading, copy_member,
};
use hack_types::{Member, MemberKind, NameId, NoMemory};
use std::alloc::Global;
use std::cmp::Ordering;

/// The member of this kind and name of what is declared.
pub(crate) fn member_of(
    alloc: Global,
    found: &Option<Folded>,
    tag: MemberTag,
    name: NameId,
) -> Result<MemberAnswer, NoMemory>
    ensures { IfOk result (λ answer. answer ≡ member_answer tag name found.now) }
{
    match found {
        Some(folded) => pick_member(alloc, folded, tag, name),
        None => Ok(MemberAnswer::Absent),
    }
}

/// The member of this kind and name.
pub(crate) fn pick_member(
    alloc: Global,
    folded: &Folded,
    tag: MemberTag,
    name: NameId,
) -> Result<MemberAnswer, NoMemory>
    ensures { IfOk result (λ answer. answer ≡ member_answer tag name (Some folded.now)) }
{
    match folded {
        Folded::ClassLike(class) => Ok(match find_member(class, tag, name) {
            Some(member) => MemberAnswer::At(copy_member(alloc, member)?),
            None => MemberAnswer::Missing {
                partial: class.partial,
            },
        }),
        _ => Ok(MemberAnswer::NotClass),
    }
}

fn find_member(class: &ClassFolded, tag: MemberTag, name: NameId) -> Option<&Member>
    ensures { option_copied result ≡ find (is_member tag name) class.now.members }
{
    let members = class.members.as_slice();
    match members.binary_search_by(|member| place_from(member, tag, name)) {
        Ok(index) => Some(&members[index]),
        Err(_) => None,
    }
}

// where the member stands, seen from the place of this kind and name
fn place_from(member: &Member, tag: MemberTag, name: NameId) -> Ordering
    ensures { result
        ≡ ordering_then (nat_cmp (kind_rank member.now.kind) (tag_rank tag))
        (nat_cmp member.now.name name) }
{
    rank(tag_of(member))
        .cmp(&rank(tag))
        .then(member.name.cmp(&name))
}

fn rank(tag: MemberTag) -> u8
    ensures { result ≡ tag_rank tag }
{
    match tag {
        MemberTag::Constant => 0,
        MemberTag::Property => 1,
        MemberTag::Method => 2,
    }
}

fn tag_of(member: &Member) -> MemberTag
    ensures { tag_rank result ≡ kind_rank member.now.kind }
{
    match &member.kind {
        MemberKind::Constant(_) => MemberTag::Constant,
        MemberKind::Property(_) => MemberTag::Property,
        MemberKind::Method(_) => MemberTag::Method,
    }
}

/// The arguments of the ancestor of this name of what is declared.
pub(crate) fn ancestor_of(
    alloc: Global,
    found: &Option<Folded>,
    name: NameId,
) -> Result<AncestorAnswer, NoMemory>
    ensures { IfOk result (λ answer. answer ≡ ancestor_answer name found.now) }
{
    match found {
        Some(folded) => pick_ancestor(alloc, folded, name),
        None => Ok(AncestorAnswer::Absent),
    }
}

/// The arguments of the ancestor of this name.
pub(crate) fn pick_ancestor(
    alloc: Global,
    folded: &Folded,
    name: NameId,
) -> Result<AncestorAnswer, NoMemory>
    ensures { IfOk result (λ answer. answer ≡ ancestor_answer name (Some folded.now)) }
{
    match folded {
        Folded::ClassLike(class) => Ok(match find_ancestor(class, name) {
            Some(ancestor) => AncestorAnswer::At(copy_types(alloc, &ancestor.arguments)?),
            None => AncestorAnswer::Missing {
                partial: class.partial,
            },
        }),
        _ => Ok(AncestorAnswer::NotClass),
    }
}

fn find_ancestor(class: &ClassFolded, name: NameId) -> Option<&Ancestor>
    ensures { option_copied result ≡ find (λ ancestor. ancestor.name == name) class.now.ancestors }
{
    for ancestor in class.ancestors.as_slice() {
        if ancestor.name == name {
            return Some(ancestor);
        }
    }
    None
}

/// What is declared, without its members and ancestors.
pub(crate) fn heading_of(alloc: Global, found: &Option<Folded>) -> Result<HeadingAnswer, NoMemory>
    ensures { IfOk result (λ answer. answer ≡ heading_answer found.now) }
{
    match found {
        Some(folded) => pick_heading(alloc, folded),
        None => Ok(HeadingAnswer::Absent),
    }
}

/// The declaration without its members and ancestors.
pub(crate) fn pick_heading(alloc: Global, folded: &Folded) -> Result<HeadingAnswer, NoMemory>
    ensures { IfOk result (λ answer. answer ≡ heading_answer (Some folded.now)) }
{
    Ok(match folded {
        Folded::ClassLike(class) => HeadingAnswer::ClassLike(copy_class_heading(alloc, class)?),
        Folded::Enum(sig) => HeadingAnswer::Enum(copy_enum(alloc, sig)?),
        Folded::Alias(sig) => HeadingAnswer::Alias(copy_alias(alloc, sig)?),
        Folded::Function(sig) => HeadingAnswer::Function(copy_signature(alloc, sig)?),
        Folded::Constant(ty) => HeadingAnswer::Constant(ty.copy(alloc)?),
    })
}
