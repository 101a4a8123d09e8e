// Which signature a declaration has.
ghost use Rattle.std.specs.Prelude.{◌≡◌, ◌↔◌, IsTrue, [], map, IfOk};
ghost use Rattle.std.specs.List.{list_any, flat_map};
ghost use Rattle.hack_types.specs.declared.hack_type.HackType.TheVariants.{Any};
ghost use Rattle.hack_types.specs.declared.shallow.Shallow.TheVariants.{Function};
ghost use Rattle.hack_shallow.specs.Resolved as resolved;
ghost use Rattle.hack_shallow.specs.Scopes.{scope_of};
ghost use Rattle.hack_shallow.specs.Shallow as spec;
ghost use Rattle.hack_shallow.specs.Signatures.{signature as signature_spec};

use crate::members::{Owner, own_members};
use crate::resolve::Scope;
use crate::scope::Parameters;
use crate::signature::{signature, type_params};
use hack_tree::{
    Callable, ClassModifier, ClassType, EnumCase, Member, TypeParameter, Unit, UnitTree,
    WrittenType,
};
use hack_types::{AliasSig, ClassSig, EnumSig, HackType, NameId, NameSet, NoMemory, Shallow, Sort};
use sqlite_items::Items;
use std::alloc::Global;
use std::collections::BTreeSet;

/// The signature of a declaration by itself, without its bodies, values and places; an error says that memory ran out
/// (docs/language.md, Signatures).
pub fn shallow_of(alloc: Global, unit: &Unit) -> Result<Shallow, NoMemory>
    ensures { IfOk result (λ shallow. spec.IsShallow unit.now.tree shallow) }
{
    match &unit.tree {
        UnitTree::Function { callable, .. } => function(alloc, callable),
        UnitTree::Class {
            modifiers,
            name,
            type_parameters,
            extends,
            implements,
            members,
            ..
        } => {
            let class = ClassTree {
                sort: Sort::Class,
                modifiers: modifiers.as_slice(),
                name: name.name,
                parameters: type_parameters.as_slice(),
                extends: extends.as_slice(),
                implements: implements.as_slice(),
                members: members.as_slice(),
            };
            class_like(alloc, &class)
        }
        UnitTree::Interface {
            name,
            type_parameters,
            extends,
            members,
            ..
        } => {
            let class = ClassTree {
                sort: Sort::Interface,
                modifiers: &[],
                name: name.name,
                parameters: type_parameters.as_slice(),
                extends: extends.as_slice(),
                implements: &[],
                members: members.as_slice(),
            };
            class_like(alloc, &class)
        }
        UnitTree::Trait {
            name,
            type_parameters,
            implements,
            members,
            ..
        } => {
            let class = ClassTree {
                sort: Sort::Trait,
                modifiers: &[],
                name: name.name,
                parameters: type_parameters.as_slice(),
                extends: &[],
                implements: implements.as_slice(),
                members: members.as_slice(),
            };
            class_like(alloc, &class)
        }
        UnitTree::Enum {
            base,
            bound,
            cases,
            ..
        } => enumeration(alloc, base, bound, cases.as_slice()),
        UnitTree::Alias {
            type_parameters,
            aliased,
            ..
        } => alias(alloc, type_parameters.as_slice(), aliased),
        UnitTree::Constant { written, .. } => {
            let none = Parameters::of(alloc, &[])?;
            let scope = Scope {
                class: &none,
                function: &none,
            };
            Ok(Shallow::Constant(scope.type_of(alloc, written)?))
        }
    }
}

fn function(alloc: Global, callable: &Callable) -> Result<Shallow, NoMemory>
    ensures { IfOk result (λ shallow. shallow ≡ Function (signature_spec (spec.function_scope callable.now) Any callable.now)) }
{
    let none = Parameters::of(alloc, &[])?;
    let function = Parameters::of(alloc, callable.type_parameters.as_slice())?;
    let scope = Scope {
        class: &none,
        function: &function,
    };
    let signature = signature(alloc, &scope, HackType::Any, callable)?;
    Ok(Shallow::Function(signature))
}

// What a class, an interface and a trait have in common.
#[derive(Clone, Copy)]
struct ClassTree<'t> {
    sort: Sort,
    modifiers: &'t [ClassModifier],
    name: NameId,
    parameters: &'t [TypeParameter],
    extends: &'t [ClassType],
    implements: &'t [ClassType],
    members: &'t [Member],
}

fn class_like(alloc: Global, class: &ClassTree<'_>) -> Result<Shallow, NoMemory>
    ensures { IfOk result (λ shallow. shallow ≡ spec.class_like class.now.sort class.now.modifiers.now class.now.name class.now.parameters.now
        class.now.extends.now class.now.implements.now class.now.members.now) }
{
    let none = Parameters::of(alloc, &[])?;
    let parameters = Parameters::of(alloc, class.parameters)?;
    let scope = Scope {
        class: &parameters,
        function: &none,
    };
    let owner = Owner {
        name: class.name,
        parameters: &parameters,
        none: &none,
    };
    Ok(Shallow::ClassLike(ClassSig {
        sort: class.sort,
        is_abstract: has_abstract(class.modifiers),
        is_final: has_final(class.modifiers),
        type_params: type_params(alloc, &scope, class.parameters)?,
        uses: uses(alloc, &scope, class.members)?,
        extends: parents(alloc, &scope, class.extends)?,
        implements: parents(alloc, &scope, class.implements)?,
        members: own_members(alloc, &owner, class.members)?,
    }))
}

fn has_abstract(modifiers: &[ClassModifier]) -> bool
    ensures { result ≡ list_any spec.is_abstract modifiers.now }
{
    modifiers.iter().any(|m| is_abstract(*m))
}

fn has_final(modifiers: &[ClassModifier]) -> bool
    ensures { result ≡ list_any spec.is_final modifiers.now }
{
    modifiers.iter().any(|m| is_final(*m))
}

fn is_abstract(modifier: ClassModifier) -> bool
    ensures { result ≡ spec.is_abstract modifier }
{
    matches!(modifier, ClassModifier::Abstract)
}

fn is_final(modifier: ClassModifier) -> bool
    ensures { result ≡ spec.is_final modifier }
{
    matches!(modifier, ClassModifier::Final)
}

fn parents(
    alloc: Global,
    scope: &Scope<'_, '_>,
    classes: &[ClassType],
) -> Result<Items<HackType>, NoMemory>
    ensures { IfOk result (λ types. types ≡ map (resolved.parent_of (scope_of scope.now)) classes.now) }
{
    let mut types = Items::new(alloc);
    for class in classes {
        types.push(scope.parent_of(alloc, class)?)?;
    }
    Ok(types)
}

// The traits that members name.
fn uses(
    alloc: Global,
    scope: &Scope<'_, '_>,
    members: &[Member],
) -> Result<Items<HackType>, NoMemory>
    ensures { IfOk result (λ types. types ≡ map (resolved.parent_of (scope_of scope.now)) (flat_map spec.used members.now)) }
{
    let mut types = Items::new(alloc);
    for member in members {
        if let Member::Use { traits, .. } = member {
            types.append(parents(alloc, scope, traits.as_slice())?)?;
        }
    }
    Ok(types)
}

fn enumeration(
    alloc: Global,
    base: &WrittenType,
    bound: &Option<WrittenType>,
    cases: &[EnumCase],
) -> Result<Shallow, NoMemory>
    ensures { IfOk result (λ shallow. spec.IsShallowEnum base.now bound.now cases.now shallow) }
{
    let none = Parameters::of(alloc, &[])?;
    let scope = Scope {
        class: &none,
        function: &none,
    };
    let base = scope.type_of(alloc, base)?;
    let bounded = is_bounded(alloc, &scope, &base, bound)?;
    let cases = case_names(alloc, cases)?;
    Ok(Shallow::Enum(EnumSig {
        base,
        bounded,
        cases,
    }))
}

// Whether a bound is written and is the base.
fn is_bounded(
    alloc: Global,
    scope: &Scope<'_, '_>,
    base: &HackType,
    bound: &Option<WrittenType>,
) -> Result<bool, NoMemory>
    requires { scope_of scope.now ≡ spec.no_scope }
    ensures { IfOk result (λ bounded. IsTrue bounded ↔ spec.IsBounded base.now bound.now) }
{
    match bound {
        Some(bound) => {
            let ty = scope.type_of(alloc, bound)?;
            Ok(ty.same(base))
        }
        None => Ok(false),
    }
}

fn case_names(alloc: Global, cases: &[EnumCase]) -> Result<NameSet, NoMemory>
    ensures { IfOk result (λ names. names ≡ spec.case_names [] cases.now) }
{
    let mut by_id = BTreeSet::new(alloc);
    for case in cases {
        by_id.insert(case.name.name)?;
    }
    let names = by_id.into_iter().collect(alloc)?;
    Ok(NameSet::from_vec(names))
}

fn alias(
    alloc: Global,
    parameters: &[TypeParameter],
    aliased: &WrittenType,
) -> Result<Shallow, NoMemory>
    ensures { IfOk result (λ shallow. shallow ≡ spec.alias parameters.now aliased.now) }
{
    let none = Parameters::of(alloc, &[])?;
    let class = Parameters::of(alloc, parameters)?;
    let scope = Scope {
        class: &class,
        function: &none,
    };
    let type_params = type_params(alloc, &scope, parameters)?;
    let body = scope.type_of(alloc, aliased)?;
    Ok(Shallow::Alias(AliasSig { type_params, body }))
}
