// Lists of members that rise by kind and name, merged.
ghost use Rattle.std.specs.Prelude.{◌≡◌, ◌+◌, ◌<◌, IfOk, OnSome, reverse, vec_len};
ghost use Rattle.std.specs.List.{fold};
ghost use Rattle.std.specs.declared.cmp.Ordering.TheVariants.{Equal};
ghost use Rattle.hack_types.specs.MembersRise.{kind_rank, member_order, MembersRise};
ghost use Rattle.hack_fold.specs.inside.Merging.{Takes, both_of, last_of, next_order};
ghost use Rattle.hack_fold.specs.Walked.{better, with_member};

use hack_types::{Member, MemberKind, NoMemory};
use std::alloc::Global;
use std::cmp::Ordering;

/// The members of both lists; of two of one kind and name that of the first list, but a concrete one before an abstract one. Each
/// list is gone through once.
pub(crate) fn merged(
    alloc: Global,
    first: Vec<Member>,
    second: Vec<Member>,
) -> Result<Vec<Member>, NoMemory>
    requires first_rises { MembersRise first.items }
    requires second_rises { MembersRise second.items }
    ensures members { IfOk result (λ both. both.items ≡ fold with_member first.items second.items) }
{
    let mut first = first;
    let mut second = second;
    first.reverse();
    second.reverse();
    let mut both = Vec::new(alloc);
    while let Some(member) = take_next(&mut first, &mut second) {
        both.push(member)?;
    }
    Ok(both)
}

// Takes what comes next of both lists; of each what comes first stands last.
fn take_next(first: &mut Vec<Member>, second: &mut Vec<Member>) -> Option<Member>
    requires first_rises { MembersRise (reverse first.old.items) }
    requires second_rises { MembersRise (reverse second.old.items) }
    ensures takes { Takes (both_of first.old.items second.old.items) result
        (both_of first.new.items second.new.items) }
    ensures first_rises { MembersRise (reverse first.new.items) }
    ensures second_rises { MembersRise (reverse second.new.items) }
    ensures shorter { OnSome result
        (vec_len first.new + vec_len second.new < vec_len first.old + vec_len second.old) }
{
    match order_of_next(first.as_slice(), second.as_slice()) {
        Ordering::Less => second.pop(),
        Ordering::Greater => first.pop(),
        Ordering::Equal => take_both(first, second),
    }
}

// Takes what comes next of both lists, where it has one place in both.
fn take_both(first: &mut Vec<Member>, second: &mut Vec<Member>) -> Option<Member>
    requires tied { next_order (last_of first.old.items) (last_of second.old.items) ≡ Equal }
    requires first_rises { MembersRise (reverse first.old.items) }
    requires second_rises { MembersRise (reverse second.old.items) }
    ensures takes { Takes (both_of first.old.items second.old.items) result
        (both_of first.new.items second.new.items) }
    ensures first_rises { MembersRise (reverse first.new.items) }
    ensures second_rises { MembersRise (reverse second.new.items) }
    ensures shorter { OnSome result
        (vec_len first.new + vec_len second.new < vec_len first.old + vec_len second.old) }
{
    let own = first.pop()?;
    let Some(other) = second.pop() else {
        drop(own);
        return None;
    };
    Some(better_of(own, other))
}

// How the next of the second list stands to the next of the first.
fn order_of_next(first: &[Member], second: &[Member]) -> Ordering
    ensures { result ≡ next_order (last_of first.now) (last_of second.now) }
{
    match (first.last(), second.last()) {
        (Some(own), Some(other)) => order_of(other, own),
        (Some(_), None) => Ordering::Greater,
        (None, _) => Ordering::Less,
    }
}

// By kind, then by name.
fn order_of(a: &Member, b: &Member) -> Ordering
    ensures { result ≡ member_order a.now b.now }
{
    rank(&a.kind).cmp(&rank(&b.kind)).then(a.name.cmp(&b.name))
}

// The place of a kind: constants, then properties, then methods.
fn rank(kind: &MemberKind) -> u8
    ensures { result ≡ kind_rank kind.now }
{
    match kind {
        MemberKind::Constant(_) => 0,
        MemberKind::Property(_) => 1,
        MemberKind::Method(_) => 2,
    }
}

// Of two of one kind and name the first, but a concrete one before an abstract one.
fn better_of(first: Member, second: Member) -> Member
    ensures { result ≡ better first second }
{
    if first.is_abstract && !second.is_abstract {
        drop(first);
        second
    } else {
        drop(second);
        first
    }
}
