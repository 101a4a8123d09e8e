// What loops leave of environments.
ghost use Rattle.std.specs.Prelude.{◌≡◌, IfOk, OnOk, if◌then◌else◌, option_copied};
ghost use Rattle.hack_types.specs.SameType.{same_type};
ghost use Rattle.hack_types.specs.declared.hack_type.HackType.TheVariants.{Mixed};
ghost use Rattle.hack_rules.specs.Variables.{is_among, mixed_in, taken_by, taking, type_in, widened};
ghost use Rattle.hack_walk.specs.inside.Calls.{widened_type};

use crate::Variables;
use hack_types::{HackType, NameId, NoMemory};
use std::alloc::Global;
use std::collections::{BTreeMap, BTreeSet};

/// These variables are `mixed`, where they are there (docs/language.md, Typing statements).
pub fn mixed_in(
    alloc: Global,
    names: &BTreeSet<NameId>,
    variables: Variables,
) -> Result<Variables, NoMemory>
    ensures { IfOk result (λ answer. answer ≡ mixed_in names.now.keys variables) }
{
    let Variables { types } = variables;
    let types = mixed_types(alloc, names, types)?;
    Ok(Variables { types })
}

fn mixed_types(
    alloc: Global,
    names: &BTreeSet<NameId>,
    types: BTreeMap<NameId, HackType>,
) -> Result<BTreeMap<NameId, HackType>, NoMemory>
    ensures { IfOk result (λ left. left.entries ≡ mixed_in names.now.keys types.entries) }
{
    let mut left = BTreeMap::new(alloc);
    for (name, ty) in types {
        let kept = mixed_unless(!is_among(names, name), ty);
        drop(left.insert(name, kept)?);
    }
    Ok(left)
}

fn is_among(names: &BTreeSet<NameId>, name: NameId) -> bool
    ensures { result ≡ is_among names.now.keys name }
{
    names.contains(&name)
}

fn mixed_unless(holds: bool, ty: HackType) -> HackType
    ensures { result ≡ (if holds then ty else Mixed) }
{
    if holds { ty } else { HackType::Mixed }
}

/// A variable whose type isn't what it was before is `mixed` (docs/language.md, Typing statements, Loops).
pub fn widened(
    alloc: Global,
    before: &Variables,
    variables: Variables,
) -> Result<Variables, NoMemory>
    ensures { IfOk result (λ answer. answer ≡ widened before.now variables) }
{
    let Variables { types } = variables;
    let types = widened_types(alloc, before, types)?;
    Ok(Variables { types })
}

fn widened_types(
    alloc: Global,
    before: &Variables,
    types: BTreeMap<NameId, HackType>,
) -> Result<BTreeMap<NameId, HackType>, NoMemory>
    ensures { IfOk result (λ left. left.entries ≡ widened before.now types.entries) }
{
    let mut left = BTreeMap::new(alloc);
    for (name, ty) in types {
        let kept = widened_type(before.type_in(name), ty);
        drop(left.insert(name, kept)?);
    }
    Ok(left)
}

// The type of a variable, which had this type before, if it was there.
fn widened_type(before: Option<&HackType>, ty: HackType) -> HackType
    ensures { result ≡ widened_type (option_copied before.entry) ty }
{
    match before {
        Some(before) => mixed_unless(same(before, &ty), ty),
        None => ty,
    }
}

fn same(before: &HackType, ty: &HackType) -> bool
    ensures { result ≡ same_type before.now ty.now }
{
    before.same(ty)
}

/// The variables with these names take the types that they have in the other environment, where they are there
/// (docs/language.md, Typing statements).
pub fn taking(
    alloc: Global,
    names: &[NameId],
    from: &Variables,
    variables: &mut Variables,
) -> Result<(), NoMemory>
    ensures { OnOk result (variables.new ≡ taking names.now from.now variables.old) }
{
    for name in names {
        take_variable(alloc, variables, *name, from)?;
    }
    Ok(())
}

fn take_variable(
    alloc: Global,
    variables: &mut Variables,
    name: NameId,
    from: &Variables,
) -> Result<(), NoMemory>
    ensures { OnOk result
        (variables.new ≡ taken_by variables.old name (type_in from.now name)) }
{
    match from.type_in(name) {
        Some(ty) => variables.put(name, ty.copy(alloc)?),
        None => Ok(()),
    }
}
