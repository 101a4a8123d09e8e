// Where a type is looked at.
ghost use Rattle.std.specs.Prelude.{◌≡◌, IfOk, option_copied, slice_get};
ghost use Rattle.hack_types.specs.declared.hack_type.HackType.TheVariants as type;
ghost use Rattle.hack_sub.specs.Scopes.{class_params_by, class_type, own_params, param_of};

use hack_types::{HackType, NameId, NoMemory, TypeParam};
use sqlite_items::Items;
use std::alloc::Global;

/// The class and the function that types and expressions stand in (docs/language.md, Subtyping).
#[derive(Drop)]
pub struct Scope {
    /// The class, the interface or the trait, with its type parameters.
    pub class: Option<(NameId, Items<TypeParam>)>,
    /// Whether there is no `$this`.
    pub in_static: bool,
    /// The type parameters of the function or method.
    pub fun_params: Items<TypeParam>,
    /// What the function or method has to return.
    pub result: HackType,
}

/// The type parameter that a type is, by its position in the scope's lists (docs/language.md, Subtyping); none for any other type.
pub fn param_of<'a>(scope: &'a Scope, ty: &HackType) -> Option<&'a TypeParam>
    ensures { option_copied result ≡ param_of scope.now ty.now }
{
    match ty {
        HackType::ClassParam(position, _) => param_at(class_params(scope), *position),
        HackType::FunParam(position, _) => param_at(scope.fun_params.as_slice(), *position),
        _ => None,
    }
}

// The parameter at a position.
fn param_at(params: &[TypeParam], position: u32) -> Option<&TypeParam>
    ensures { option_copied result ≡ slice_get params.now position }
{
    params.get(position as usize)
}

fn class_params(scope: &Scope) -> &[TypeParam]
    ensures { result.now ≡ class_params_by scope.now.class }
{
    match &scope.class {
        Some((_, params)) => params.as_slice(),
        None => &[],
    }
}

/// The scope's class with its own parameters, where there is a class (docs/language.md, Subtyping). An error says that memory ran out,
/// or that there are 2^32 parameters.
pub fn class_type(alloc: Global, scope: &Scope) -> Result<Option<HackType>, NoMemory>
    ensures { IfOk result (λ class. class ≡ class_type scope.now) }
{
    match &scope.class {
        Some((name, params)) => Ok(Some(HackType::Class(*name, own_params(alloc, params)?))),
        None => Ok(None),
    }
}

// These parameters as types.
fn own_params(alloc: Global, params: &Items<TypeParam>) -> Result<Items<HackType>, NoMemory>
    ensures { IfOk result (λ own. own ≡ own_params 0 params.now) }
{
    let mut own = Vec::with_capacity(alloc, params.len())?;
    for index in 0..params.len() {
        own.push(own_param(index, params.as_slice()[index].name)?)?;
    }
    Ok(Items::from_vec(own))
}

// The parameter at this position as a type.
fn own_param(index: usize, name: NameId) -> Result<HackType, NoMemory>
    ensures { IfOk result (λ own. own ≡ type.ClassParam index name) }
{
    let position = u32::try_from(index).map_err(|_| NoMemory)?;
    Ok(HackType::ClassParam(position, name))
}
