// The signatures of functions and methods.
ghost use Rattle.std.specs.Prelude.{◌≡◌, map, IfOk};
ghost use Rattle.std.specs.List.{flat_map};
ghost use Rattle.hack_shallow.specs.Signatures as spec;
ghost use Rattle.hack_shallow.specs.Resolved.{type_of};
ghost use Rattle.hack_shallow.specs.Scopes.{scope_of};

use crate::resolve::Scope;
use hack_tree::{Bound, BoundKind, Callable, Parameter, TypeParameter, Variance as Sign};
use hack_types::{HackType, NoMemory, Param, Signature, TypeParam, Variance};
use sqlite_items::Items;
use std::alloc::Global;

/// The signature of a function or method. Where it states no result, `missing` stands for it.
pub(crate) fn signature(
    alloc: Global,
    scope: &Scope<'_, '_>,
    missing: HackType,
    callable: &Callable,
) -> Result<Signature, NoMemory>
    ensures { IfOk result (λ sig. sig ≡ spec.signature (scope_of scope.now) missing callable.now) }
{
    let type_params = type_params(alloc, scope, callable.type_parameters.as_slice())?;
    let params = params(alloc, scope, callable.parameters.as_slice())?;
    let result = match &callable.result {
        Some(written) => scope.type_of(alloc, written)?,
        None => missing,
    };
    Ok(Signature {
        type_params,
        params,
        result,
    })
}

/// A list of type parameters, in order.
pub(crate) fn type_params(
    alloc: Global,
    scope: &Scope<'_, '_>,
    parameters: &[TypeParameter],
) -> Result<Items<TypeParam>, NoMemory>
    ensures { IfOk result (λ found. found ≡ spec.type_params (scope_of scope.now) parameters.now) }
{
    let mut found = Items::new(alloc);
    for parameter in parameters {
        found.push(type_param(alloc, scope, parameter)?)?;
    }
    Ok(found)
}

fn type_param(
    alloc: Global,
    scope: &Scope<'_, '_>,
    parameter: &TypeParameter,
) -> Result<TypeParam, NoMemory>
    ensures { IfOk result (λ found. found ≡ spec.type_param (scope_of scope.now) parameter.now) }
{
    let mut upper = Items::new(alloc);
    let mut lower = Items::new(alloc);
    for bound in parameter.bounds.as_slice() {
        let ty = scope.type_of(alloc, &bound.written)?;
        match bound.kind {
            BoundKind::As => upper.push(ty)?,
            BoundKind::Super => lower.push(ty)?,
        }
    }
    Ok(TypeParam {
        name: parameter.name.name,
        variance: variance_of(parameter.variance),
        upper,
        lower,
    })
}

fn variance_of(sign: Option<Sign>) -> Variance
    ensures { result ≡ spec.variance_of sign }
{
    match sign {
        None => Variance::Invariant,
        Some(Sign::Covariant) => Variance::Covariant,
        Some(Sign::Contravariant) => Variance::Contravariant,
    }
}

fn params(
    alloc: Global,
    scope: &Scope<'_, '_>,
    parameters: &[Parameter],
) -> Result<Items<Param>, NoMemory>
    ensures { IfOk result (λ found. found ≡ map (spec.param (scope_of scope.now)) parameters.now) }
{
    let mut found = Items::new(alloc);
    for parameter in parameters {
        found.push(Param {
            ty: scope.type_of(alloc, &parameter.written)?,
            optional: parameter.default.is_some(),
        })?;
    }
    Ok(found)
}
