// Operands and operators.

use crate::below::fold_units;
use hack_decls::{DeclStop, MapDecls};
use hack_operators::{
    Operation, Sign, assigning, operate, operate_alone, operation_of, sign_before,
};
use hack_shallow::shallow_of;
use hack_show::{Out, show_type};
use hack_sub::Scope;
use hack_tree::{Expr, Operand, Parameter, Stmt, Unit, UnitTree};
use hack_types::{HackType, NameId, Names, NoMemory, Param, Place, Shallow, Signature, union_of};
use hack_walk::{Setting, State, Variables};
use std::alloc::Global;

// An operator with its operands.
enum Operated<'a> {
    Two(Operation, &'a Expr, &'a Expr),
    One(Sign, &'a Expr),
}

// Adds the type that a variable has, if it is there, and the one that it takes.
fn copy_both(
    alloc: Global,
    types: &mut Vec<HackType>,
    before: Option<&HackType>,
    taken: &HackType,
) -> Result<(), NoMemory> {
    if let Some(before) = before {
        types.push(before.copy(alloc)?)?;
    }
    types.push(taken.copy(alloc)?)?;
    Ok(())
}

// A variable takes a type, and the union of both where it has one.
fn take(
    alloc: Global,
    variables: &mut Variables,
    name: NameId,
    taken: &HackType,
) -> Result<(), NoMemory> {
    let mut types = Vec::new(alloc);
    let done = copy_both(alloc, &mut types, variables.type_in(name), taken);
    let union = union_of(alloc, types.as_slice());
    drop(types);
    done?;
    variables.put(name, union?)
}

/// The variables of these parameters, which take these types.
pub(crate) fn taken(
    alloc: Global,
    variables: &mut Variables,
    parameters: &[Parameter],
    params: &[Param],
) -> Result<(), NoMemory> {
    for (parameter, param) in parameters.iter().zip(params) {
        take(alloc, variables, parameter.name.name, &param.ty)?;
    }
    Ok(())
}

// The type of a variable that was taken, and `_` of anything else.
fn type_of<'a>(variables: &'a Variables, operand: &Expr, other: &'a HackType) -> &'a HackType {
    match operand {
        Expr::Variable { name, .. } => variables.type_in(*name).unwrap_or(other),
        _ => other,
    }
}

// The operator that an expression is, where it has a table.
fn operator_type(expr: &Expr) -> Option<Operated<'_>> {
    match expr {
        Expr::Chain { first, others, .. } => chained(first.get(), others.as_slice()),
        Expr::Power { operands, .. } => power(operands.as_slice()),
        Expr::Assign {
            target,
            operator,
            value,
            ..
        } => Some(Operated::Two(assigning(*operator)?, target.get(), value.get())),
        Expr::Prefix {
            operator,
            operand,
            ..
        } => Some(Operated::One(sign_before(*operator)?, operand.get())),
        _ => None,
    }
}

fn chained<'a>(first: &'a Expr, others: &'a [Operand]) -> Option<Operated<'a>> {
    let [Operand { operator, operand }] = others else {
        return None;
    };
    Some(Operated::Two(operation_of(*operator)?, first, operand))
}

fn power(operands: &[Expr]) -> Option<Operated<'_>> {
    match operands {
        [left, right] => Some(Operated::Two(Operation::Power, left, right)),
        _ => None,
    }
}

// What the operator of an expression gives, where it has a table.
fn given(
    alloc: Global,
    setting: &Setting<'_>,
    decls: &mut MapDecls,
    variables: &Variables,
    state: &mut State,
    expr: &Expr,
) -> Option<Result<HackType, DeclStop>> {
    let at = Place { line: 0, column: 0 };
    let expr = operator_type(expr)?;
    let other = HackType::Any;
    let given = match expr {
        Operated::Two(operation, left, right) => {
            let left = type_of(variables, left, &other);
            let right = type_of(variables, right, &other);
            operate(alloc, setting, decls, state, at, operation, left, right)
        }
        Operated::One(sign, operand) => {
            let operand = type_of(variables, operand, &other);
            operate_alone(alloc, setting, decls, state, at, sign, operand)
        }
    };
    drop(other);
    Some(given)
}

// Shows that, and the diagnostics.
fn show_given(
    alloc: Global,
    out: &mut Out<'_>,
    setting: &Setting<'_>,
    decls: &mut MapDecls,
    variables: &Variables,
    expr: &Expr,
) {
    let mut state = State::new(alloc, Variables::new(alloc));
    let given = given(alloc, setting, decls, variables, &mut state, expr);
    match &given {
        Some(Ok(ty)) => show_type(out, ty),
        Some(Err(_)) => out.word("no memory"),
        None => out.word("no table"),
    }
    drop(given);
    let (left, found) = state.into_parts();
    drop(left);
    for diag in &found {
        out.number(diag.code as u64);
        out.push(b" ");
        out.push(diag.text.as_slice());
    }
    drop(found);
}

fn of_function(
    alloc: Global,
    out: &mut Out<'_>,
    names: &Names,
    decls: &mut MapDecls,
    parameters: &[Parameter],
    signature: Signature,
    expr: &Expr,
) -> Result<(), NoMemory> {
    let mut variables = Variables::new(alloc);
    let params = signature.params.as_slice();
    let bound = taken(alloc, &mut variables, parameters, params);
    let scope = Scope {
        class: None,
        in_static: true,
        fun_params: signature.type_params,
        result: signature.result,
    };
    let setting = Setting {
        names,
        scope: &scope,
    };
    show_given(alloc, out, &setting, decls, &variables, expr);
    drop(scope);
    drop(variables);
    bound
}

/// The expression that a body of one statement returns.
pub(crate) fn returned(body: &[Stmt]) -> Option<&Expr> {
    match body {
        [
            Stmt::Return {
                value: Some(expr),
                ..
            },
        ] => Some(expr),
        _ => None,
    }
}

fn of_unit(
    alloc: Global,
    out: &mut Out<'_>,
    names: &Names,
    decls: &mut MapDecls,
    unit: &Unit,
) -> Result<(), NoMemory> {
    let UnitTree::Function { callable, body, .. } = &unit.tree else {
        return Ok(());
    };
    let Some(expr) = returned(body.as_slice()) else {
        return Ok(());
    };
    let parameters = callable.parameters.as_slice();
    match shallow_of(alloc, unit)? {
        Shallow::Function(signature) => {
            of_function(alloc, out, names, decls, parameters, signature, expr)
        }
        _ => Ok(()),
    }
}

/// Shows what the operator that the last function returns gives for its parameters, over all declarations, and the diagnostics. A
/// name that several parameters have takes the union of their types, and one that none has is `_`.
pub(crate) fn show_last(
    alloc: Global,
    out: &mut Out<'_>,
    names: &Names,
    units: &[Unit],
) -> Result<(), NoMemory> {
    let Some(unit) = units.last() else {
        return Ok(());
    };
    let mut decls = MapDecls::new(alloc);
    let done = match fold_units(alloc, units, &mut decls) {
        Ok(()) => of_unit(alloc, out, names, &mut decls, unit),
        Err(stop) => Err(stop),
    };
    drop(decls);
    done
}
