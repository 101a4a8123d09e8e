// The members of a class, an interface or a trait.
ghost use Rattle.std.specs.Prelude.{◌≡◌, ◌++◌, ◌∷◌, [], map, not, is_some, IfOk, OnOk};
ghost use Rattle.std.specs.List.{list_any};
ghost use Rattle.std.specs.Option.{option_copied};
ghost use Rattle.hack_shallow.specs.Members as spec;
ghost use Rattle.hack_shallow.specs.MemberTables as tables;
ghost use Rattle.hack_shallow.specs.MemberTables.{Puts, AreNone, owner_of};
ghost use Rattle.hack_shallow.specs.Scopes.{scope_of};

use crate::resolve::Scope;
use crate::scope::Parameters;
use crate::signature::signature;
use hack_tree::{Callable, Member as MemberTree, Modifier, Parameter, Visibility as Written};
use hack_types::{HackType, Member, MemberKind, Members, NameId, NoMemory, Visibility};
use std::alloc::Global;
use std::collections::BTreeMap;

// The number of the name `__construct` (docs/language.md, Names).
const CONSTRUCT: u32 = 6;

/// The class that has the members.
#[derive(Clone, Copy)]
pub(crate) struct Owner<'s> {
    /// Its name.
    pub name: NameId,
    /// Its type parameters.
    pub parameters: &'s Parameters,
    /// An empty list of them.
    pub none: &'s Parameters,
}

// Constants, then properties, then methods.
#[derive(Clone, Copy, PartialEq, Eq, PartialOrd, Ord)]
enum MemberSort {
    Constant,
    Property,
    Method,
}

// What a member of a class is found by.
#[derive(Clone, Copy, PartialEq, Eq, PartialOrd, Ord)]
struct MemberKey {
    sort: MemberSort,
    name: NameId,
}

type Table = BTreeMap<MemberKey, Member>;

/// What these trees declare, each kind and name once.
pub(crate) fn own_members(
    alloc: Global,
    owner: &Owner<'_>,
    trees: &[MemberTree],
) -> Result<Members, NoMemory>
    requires { AreNone owner.now }
    ensures { IfOk result (λ members. members ≡ spec.own_members (owner_of owner.now) trees.now) }
{
    let mut table = BTreeMap::new(alloc);
    for tree in trees {
        declare(alloc, owner, tree, &mut table)?;
    }
    let mut members = Vec::with_capacity(alloc, table.len())?;
    for (_, member) in table {
        members.push(member)?;
    }
    Ok(Members::from_vec(members))
}

// Puts what a tree declares.
fn declare(
    alloc: Global,
    owner: &Owner<'_>,
    tree: &MemberTree,
    table: &mut Table,
) -> Result<(), NoMemory>
    requires { AreNone owner.now }
    ensures { OnOk result (Puts table.old (spec.declared (owner_of owner.now) tree.now) table.new) }
{
    match tree {
        MemberTree::Use { .. } => Ok(()),
        MemberTree::Constant {
            modifiers,
            written,
            name,
            value,
            ..
        } => {
            let ty = owner.scope().type_of(alloc, written)?;
            let kind = MemberKind::Constant(ty);
            put(
                table,
                owner.member(kind, name.name, modifiers.as_slice(), value.is_none()),
            )
        }
        MemberTree::Method {
            modifiers,
            callable,
            body,
            ..
        } => {
            let function = Parameters::of(alloc, callable.type_parameters.as_slice())?;
            let scope = owner.method_scope(&function);
            let name = callable.name.name;
            let signature = signature(alloc, &scope, missing_result(name), callable)?;
            let kind = MemberKind::Method(signature);
            put(
                table,
                owner.member(kind, name, modifiers.as_slice(), body.is_none()),
            )?;
            promote(alloc, owner, &scope, callable, table)?;
            Ok(())
        }
        MemberTree::Property {
            modifiers,
            written,
            name,
            ..
        } => {
            let ty = owner.scope().type_of(alloc, written)?;
            let kind = MemberKind::Property(ty);
            put(
                table,
                owner.member(kind, name.name, modifiers.as_slice(), false),
            )
        }
    }
}

// Puts the properties that the parameters of a constructor are.
fn promote(
    alloc: Global,
    owner: &Owner<'_>,
    scope: &Scope<'_, '_>,
    callable: &Callable,
    table: &mut Table,
) -> Result<(), NoMemory>
    requires { scope_of scope.now ≡ spec.method_scope (owner_of owner.now) callable.now }
    ensures { OnOk result (Puts table.old (spec.promoted (owner_of owner.now) callable.now) table.new) }
{
    if callable.name.name.number() != CONSTRUCT {
        return Ok(());
    }
    for parameter in callable.parameters.as_slice() {
        if let Some(visibility) = parameter.visibility {
            let ty = scope.type_of(alloc, &parameter.written)?;
            put(
                table,
                Member {
                    kind: MemberKind::Property(ty),
                    name: parameter.name.name,
                    origin: owner.name,
                    visibility: visibility_of(visibility),
                    is_static: false,
                    is_abstract: false,
                    is_final: false,
                },
            )?;
        }
    }
    Ok(())
}

impl<'s> Owner<'s> {
    // The scope of a method with these type parameters.
    fn method_scope<'f>(&self, function: &'f Parameters) -> Scope<'s, 'f>
        ensures class { result.class ≡ self.now.parameters }
        ensures function { result.function ≡ function.entry }
    {
        Scope {
            class: self.parameters,
            function,
        }
    }

    // The scope outside a method.
    fn scope(&self) -> Scope<'s, 's>
        requires { AreNone self.now }
        ensures { scope_of result ≡ spec.class_scope (owner_of self.now) }
    {
        Scope {
            class: self.parameters,
            function: self.none,
        }
    }

    // A member that is declared with these words before it.
    fn member(
        &self,
        kind: MemberKind,
        name: NameId,
        modifiers: &[Modifier],
        is_abstract: bool,
    ) -> Member
        ensures { result ≡ spec.member_with (owner_of self.now) kind name modifiers.now is_abstract }
    {
        Member {
            kind,
            name,
            origin: self.name,
            visibility: visibility_among(modifiers),
            is_static: has_static(modifiers),
            is_abstract,
            is_final: has_final(modifiers),
        }
    }
}

// Puts a member under its kind and name, unless one stands there that counts before it.
fn put(table: &mut Table, member: Member) -> Result<(), NoMemory>
    ensures { OnOk result (Puts table.old (member ∷ []) table.new) }
{
    let key = key_of(&member);
    if counts_before(table.get(&key), &member) {
        return Ok(());
    }
    table.insert(key, member)?;
    Ok(())
}

fn counts_before(earlier: Option<&Member>, later: &Member) -> bool
    ensures { result ≡ spec.counts_before (option_copied earlier.entry) later.now }
{
    match earlier {
        Some(earlier) => !earlier.is_abstract || later.is_abstract,
        None => false,
    }
}

fn key_of(member: &Member) -> MemberKey
    ensures { result ≡ tables.key_of member.now }
{
    let sort = match &member.kind {
        MemberKind::Constant(_) => MemberSort::Constant,
        MemberKind::Property(_) => MemberSort::Property,
        MemberKind::Method(_) => MemberSort::Method,
    };
    MemberKey {
        sort,
        name: member.name,
    }
}

fn has_static(modifiers: &[Modifier]) -> bool
    ensures { result ≡ list_any spec.is_static modifiers.now }
{
    modifiers.iter().any(|m| is_static(*m))
}

fn has_final(modifiers: &[Modifier]) -> bool
    ensures { result ≡ list_any spec.is_final modifiers.now }
{
    modifiers.iter().any(|m| is_final(*m))
}

fn is_static(modifier: Modifier) -> bool
    ensures { result ≡ spec.is_static modifier }
{
    matches!(modifier, Modifier::Static)
}

fn is_final(modifier: Modifier) -> bool
    ensures { result ≡ spec.is_final modifier }
{
    matches!(modifier, Modifier::Final)
}

// The first visibility that is written, else public.
fn visibility_among(modifiers: &[Modifier]) -> Visibility
    ensures { result ≡ spec.visibility_among modifiers.now }
{
    for modifier in modifiers {
        if let Modifier::Visibility(written) = *modifier {
            return visibility_of(written);
        }
    }
    Visibility::Public
}

fn visibility_of(written: Written) -> Visibility
    ensures { result ≡ spec.visibility_of written }
{
    match written {
        Written::Public => Visibility::Public,
        Written::Protected => Visibility::Protected,
        Written::Private => Visibility::Private,
    }
}

// The result of a method that states none.
fn missing_result(name: NameId) -> HackType
    ensures { result ≡ spec.missing_result name }
{
    if name.number() == CONSTRUCT {
        HackType::Void
    } else {
        HackType::Any
    }
}
