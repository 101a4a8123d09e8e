// The names of the type parameters around a written type.
ghost use Rattle.std.specs.Prelude.{◌≡◌, IfOk, map};
ghost use Rattle.hack_shallow.specs.Scopes.{scope_of};
ghost use Rattle.hack_sub.specs.Scopes.{class_params_by};
ghost use Rattle.hack_written.specs.inside.Rows.{class_parameter_of, parameter_of};

use hack_shallow::{Parameters, Scope as Names};
use hack_sub::Scope;
use hack_types::{HackType, NameId, NoMemory, TypeParam};
use std::alloc::Global;

/// Those of the scope's class.
pub(crate) fn class_names(alloc: Global, scope: &Scope) -> Result<Parameters, NoMemory>
    ensures { IfOk result (λ names. names
        ≡ map (λ param. param.name) (class_params_by scope.now.class)) }
{
    match &scope.class {
        Some((_, params)) => names_of(alloc, params.as_slice()),
        None => names_of(alloc, &[]),
    }
}

/// Those of a list of parameters.
pub(crate) fn names_of(alloc: Global, params: &[TypeParam]) -> Result<Parameters, NoMemory>
    ensures { IfOk result (λ names. names ≡ map (λ param. param.name) params.now) }
{
    let mut names = Vec::with_capacity(alloc, params.len())?;
    for param in params {
        names.push(param.name)?;
    }
    Parameters::named(alloc, names)
}

/// The type parameter that a name is.
pub(crate) fn parameter(names: &Names<'_, '_>, name: NameId) -> Option<HackType>
    ensures { result ≡ parameter_of (scope_of names.now) name }
{
    match names.function.position(name) {
        Some(index) => Some(HackType::FunParam(index, name)),
        None => class_parameter(names, name),
    }
}

fn class_parameter(names: &Names<'_, '_>, name: NameId) -> Option<HackType>
    ensures { result ≡ class_parameter_of (scope_of names.now) name }
{
    match names.class.position(name) {
        Some(index) => Some(HackType::ClassParam(index, name)),
        None => None,
    }
}
