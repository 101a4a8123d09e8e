// What a class has from its parents, one parent after the other.
ghost use Rattle.std.specs.Prelude.{◌≡◌, IfOk, OnOk, Some, map, option_and_then, option_copied, option_map, [], true};
ghost use Rattle.hack_types.specs.MembersRise.{MembersRise};
ghost use Rattle.hack_types.specs.declared.hack_type.HackType.{out-HackType};
ghost use Rattle.hack_decls.specs.Looks.{Keeps};
ghost use Rattle.hack_decls.specs.declared.folded.Ancestor.{Ancestor};
ghost use Rattle.hack_fold.specs.inside.FromParents.{known, known_class, known_fits, member_in, origin_in};
ghost use Rattle.hack_fold.specs.inside.Gathered.{IsSound, so_far};
ghost use Rattle.hack_fold.specs.inside.OneByOne.{fitting, inherited, with_parent, with_parents};
ghost use Rattle.hack_fold.specs.Parents.{extends_sort, named_by, parents, placed, same_sort};

use crate::ancestors::Ancestors;
use crate::merge::merged;
use crate::put::put_member;
use hack_decls::{ClassFolded, DeclStop, Decls, Folded, copy_members};
use hack_types::{ClassSig, HackType, Kind, Member, NameId, NoMemory, Sort, SymbolId};
use sqlite_items::Items;
use std::alloc::Global;

/// What a class has so far.
#[derive(Drop)]
pub(crate) struct Inherited {
    /// Its ancestors.
    pub(crate) ancestors: Ancestors,
    /// Its members, rising by kind and name.
    pub(crate) members: Vec<Member>,
    /// Whether a parent isn't good, or is partial itself.
    pub(crate) partial: bool,
}

/// What a class has of its own and from its parents; a cyclic class asks for none of them.
pub(crate) fn inherit<D: Decls>(
    alloc: Global,
    name: NameId,
    sig: &ClassSig,
    cyclic: bool,
    decls: &mut D,
) -> Result<Inherited, DeclStop>
    ensures inherits { IfOk result (λ all.
        so_far all ≡ inherited (D.state decls.old).map name cyclic sig.now) }
    ensures sound { IfOk result IsSound }
    ensures keeps { Keeps (D.state decls.old) result (D.state decls.new) }
    ensures asks_nothing { cyclic ≡ true → D.state decls.new ≡ D.state decls.old }
    ensures own_rise { MembersRise sig.now.members }
{
    let mut all = Inherited::new(alloc, cyclic, sig.members.as_slice())?;
    if cyclic {
        return Ok(all);
    }
    all.take_parents(alloc, name, sig, decls)?;
    Ok(all)
}

impl Inherited {
    // Its own members.
    fn new(alloc: Global, partial: bool, own: &[Member]) -> Result<Self, NoMemory>
        requires { MembersRise own.now }
        ensures own { IfOk result (λ all.
            so_far all ≡ record { ancestors = []; members = own.now; partial = partial }) }
        ensures sound { IfOk result IsSound }
    {
        let ancestors = Ancestors::new(alloc);
        let members = copy_members(alloc, own)?;
        Ok(Inherited {
            ancestors,
            members,
            partial,
        })
    }

    // What its parents give.
    fn take_parents<D: Decls>(
        &mut self,
        alloc: Global,
        child: NameId,
        sig: &ClassSig,
        decls: &mut D,
    ) -> Result<(), DeclStop>
        requires { IsSound self.old }
        ensures takes { OnOk result (so_far self.new ≡ with_parents (D.state decls.old).map child
            (so_far self.old) (parents sig.now)) }
        ensures sound { OnOk result (IsSound self.new) }
        ensures keeps { Keeps (D.state decls.old) result (D.state decls.new) }
    {
        self.take_all(alloc, child, Sort::Trait, &sig.uses, decls)?;
        self.take_all(alloc, child, extends_sort(sig.sort), &sig.extends, decls)?;
        self.take_all(alloc, child, Sort::Interface, &sig.implements, decls)
    }

    // What these parents give, which must be of this sort.
    fn take_all<D: Decls>(
        &mut self,
        alloc: Global,
        child: NameId,
        wanted: Sort,
        parents: &Items<HackType>,
        decls: &mut D,
    ) -> Result<(), DeclStop>
        requires { IsSound self.old }
        ensures takes { OnOk result (so_far self.new ≡ with_parents (D.state decls.old).map child
            (so_far self.old) (placed wanted parents.now)) }
        ensures sound { OnOk result (IsSound self.new) }
        ensures keeps { Keeps (D.state decls.old) result (D.state decls.new) }
    {
        for parent in parents.as_slice() {
            self.take(alloc, child, wanted, parent, decls)?;
        }
        Ok(())
    }

    fn take<D: Decls>(
        &mut self,
        alloc: Global,
        child: NameId,
        wanted: Sort,
        parent: &HackType,
        decls: &mut D,
    ) -> Result<(), DeclStop>
        requires { IsSound self.old }
        ensures takes { OnOk result (so_far self.new ≡ with_parent child (so_far self.old)
            (known (D.state decls.old).map (record { wanted = wanted; type = parent.now }))) }
        ensures sound { OnOk result (IsSound self.new) }
        ensures keeps { Keeps (D.state decls.old) result (D.state decls.new) }
    {
        let Some((name, arguments)) = named(parent) else {
            self.partial = true;
            return Ok(());
        };
        let symbol = SymbolId {
            kind: Kind::Class,
            name,
        };
        let found = decls.folded(alloc, symbol)?;
        Ok(self.take_found(alloc, child, wanted, name, arguments, found)?)
    }

    // What is declared under a parent's name gives, if that parent is good; it isn't needed any more then.
    fn take_found(
        &mut self,
        alloc: Global,
        child: NameId,
        wanted: Sort,
        name: NameId,
        arguments: &Items<HackType>,
        found: Option<Folded>,
    ) -> Result<(), NoMemory>
        requires { IsSound self.old }
        ensures takes { OnOk result (so_far self.new ≡ with_parent child (so_far self.old)
            (option_and_then (known_fits wanted (record { name = name; arguments = arguments.now }))
            (known_class found))) }
        ensures sound { OnOk result (IsSound self.new) }
    {
        let taken = self.take_if_good(alloc, child, wanted, name, arguments, &found);
        drop(found);
        taken
    }

    fn take_if_good(
        &mut self,
        alloc: Global,
        child: NameId,
        wanted: Sort,
        name: NameId,
        arguments: &Items<HackType>,
        found: &Option<Folded>,
    ) -> Result<(), NoMemory>
        requires { IsSound self.old }
        ensures takes { OnOk result (so_far self.new ≡ with_parent child (so_far self.old)
            (option_and_then (known_fits wanted (record { name = name; arguments = arguments.now }))
            (known_class found.now))) }
        ensures sound { OnOk result (IsSound self.new) }
    {
        match fitting(found, wanted, arguments.len()) {
            Some(class) => self.take_class(alloc, child, name, arguments, class),
            None => {
                self.partial = true;
                Ok(())
            }
        }
    }

    // What a good parent gives.
    fn take_class(
        &mut self,
        alloc: Global,
        child: NameId,
        name: NameId,
        arguments: &Items<HackType>,
        class: &ClassFolded,
    ) -> Result<(), NoMemory>
        requires { IsSound self.old }
        ensures takes { OnOk result (so_far self.new ≡ with_parent child (so_far self.old)
            (Some (record {
              written = record { name = name; arguments = arguments.now };
              class = class.now;
            }))) }
        ensures sound { OnOk result (IsSound self.new) }
    {
        self.ancestors
            .add(alloc, name, arguments, &class.ancestors)?;
        let inherited = members_of(alloc, child, arguments.as_slice(), class)?;
        let own = std::mem::replace(&mut self.members, Vec::new(alloc));
        self.members = merged(alloc, own, inherited)?;
        self.partial = self.partial || class.partial;
        Ok(())
    }
}

// The members of a parent as the child has them.
fn members_of(
    alloc: Global,
    child: NameId,
    arguments: &[HackType],
    class: &ClassFolded,
) -> Result<Vec<Member>, NoMemory>
    ensures members { IfOk result (λ members. members.items
        ≡ map (member_in child arguments.now class.now.sort) class.now.members) }
    ensures rise { IfOk result (λ members. MembersRise members.items) }
{
    let own = class.members.as_slice();
    let mut members = Vec::with_capacity(alloc, own.len())?;
    for member in own {
        let origin = origin_in(child, class.sort, member.origin);
        members.push(put_member(alloc, member, arguments, origin)?)?;
    }
    Ok(members)
}

// Where a member of a parent comes from, as the child has it.
fn origin_in(child: NameId, sort: Sort, declared: NameId) -> NameId
    ensures { result ≡ origin_in child sort declared }
{
    match sort {
        Sort::Trait => child,
        _ => declared,
    }
}

// The name and the arguments of a parent; a type parameter and `_` have none.
fn named(parent: &HackType) -> Option<(NameId, &Items<HackType>)>
    ensures { option_map (λ written. record { name = written.0; arguments = written.1.now }) result
        ≡ named_by (out-HackType parent.now) }
{
    match parent {
        HackType::Class(name, arguments) => Some((*name, arguments)),
        _ => None,
    }
}

// The class that is declared there, if it is of this sort and has so many type parameters.
fn fitting(found: &Option<Folded>, wanted: Sort, count: usize) -> Option<&ClassFolded>
    ensures { option_copied result ≡ fitting wanted count (known_class found.now) }
{
    let class = class_of(found)?;
    if same_sort(class.sort, wanted) && count == class.type_params.len() {
        Some(class)
    } else {
        None
    }
}

fn class_of(found: &Option<Folded>) -> Option<&ClassFolded>
    ensures { option_copied result ≡ known_class found.now }
{
    match found {
        Some(Folded::ClassLike(class)) => Some(class),
        _ => None,
    }
}

fn same_sort(a: Sort, b: Sort) -> bool
    ensures { result ≡ same_sort a b }
{
    a == b
}

// What must stand behind `extends`.
fn extends_sort(sort: Sort) -> Sort
    ensures { result ≡ extends_sort sort }
{
    match sort {
        Sort::Class => Sort::Class,
        _ => Sort::Interface,
    }
}
