// What is assigned in a statement.
ghost use Rattle.std.specs.Prelude.{◌≡◌, ◌++◌, ◌∷◌, [], OnOk, map};
ghost use Rattle.std.specs.List.{flat_map};
ghost use Rattle.hack_rules.specs.Statements.{assigned_in_block, assigned_in_catches, doing_of, key_names};
ghost use Rattle.hack_assigned.specs.StmtParts.{catch_of};
ghost use Rattle.hack_assigned.specs.inside.Parts.{in_any, in_case, in_catch, in_statement};

use crate::expressions::{assigned_in_each, assigned_in_expression};
use hack_tree::{Case, Catch, DeclaredName, Expr, Stmt};
use hack_types::{NameId, NoMemory};

/// Adds the variables that are assigned in these statements (docs/language.md, Typing statements, Try). `NoMemory` says that memory ran out;
/// what was added before may stay.
pub fn assigned_in_block(statements: &[Stmt], names: &mut Vec<NameId>) -> Result<(), NoMemory>
    ensures { OnOk result (names.new.items
        ≡ names.old.items ++ assigned_in_block (map doing_of statements.now)) }
{
    in_statements(statements, names)
}

/// Adds the variables that are assigned in these catches, those of what is caught among them (docs/language.md, Typing statements, Try).
/// `NoMemory` says that memory ran out; what was added before may stay.
pub fn assigned_in_catches(catches: &[Catch], names: &mut Vec<NameId>) -> Result<(), NoMemory>
    ensures { OnOk result (names.new.items
        ≡ names.old.items ++ assigned_in_catches (map catch_of catches.now)) }
{
    in_catches(catches, names)
}

#[cycle(assigned)]
fn in_statement(s: &Stmt, names: &mut Vec<NameId>) -> Result<(), NoMemory>
    ensures { OnOk result (names.new.items ≡ names.old.items ++ in_statement s.now) }
{
    match s {
        Stmt::Block { body, .. } => in_statements(body.as_slice(), names),
        Stmt::Empty { .. } => Ok(()),
        Stmt::If {
            condition,
            then,
            otherwise,
            ..
        } => match otherwise {
            Some(otherwise) => {
                assigned_in_expression(condition, names)?;
                in_statement(then.get(), names)?;
                in_statement(otherwise.get(), names)
            }
            None => {
                assigned_in_expression(condition, names)?;
                in_statement(then.get(), names)
            }
        },
        Stmt::While {
            condition,
            body,
            ..
        } => {
            assigned_in_expression(condition, names)?;
            in_statement(body.get(), names)
        }
        Stmt::DoWhile {
            body,
            condition,
            ..
        } => {
            in_statement(body.get(), names)?;
            assigned_in_expression(condition, names)
        }
        Stmt::For {
            start,
            condition,
            step,
            body,
            ..
        } => {
            assigned_in_each(start.as_slice(), names)?;
            in_any(condition, names)?;
            assigned_in_each(step.as_slice(), names)?;
            in_statement(body.get(), names)
        }
        Stmt::Foreach {
            subject,
            key,
            value,
            body,
            ..
        } => {
            assigned_in_expression(subject, names)?;
            add_key(key, names)?;
            add(value.name, names)?;
            in_statement(body.get(), names)
        }
        Stmt::Switch { subject, cases, .. } => {
            assigned_in_expression(subject, names)?;
            in_cases(cases.as_slice(), names)
        }
        Stmt::Return { value, .. } => in_any(value, names),
        Stmt::Throw { value, .. } => assigned_in_expression(value, names),
        Stmt::Break { .. } => Ok(()),
        Stmt::Continue { .. } => Ok(()),
        Stmt::Echo { values, .. } => assigned_in_each(values.as_slice(), names),
        Stmt::Expression { expression, .. } => assigned_in_expression(expression, names),
        Stmt::Try {
            body,
            catches,
            last,
            ..
        } => match last {
            Some(last) => {
                in_statements(body.as_slice(), names)?;
                in_catches(catches.as_slice(), names)?;
                in_statements(last.as_slice(), names)
            }
            None => {
                in_statements(body.as_slice(), names)?;
                in_catches(catches.as_slice(), names)
            }
        },
    }
}

#[cycle(assigned)]
fn in_statements(statements: &[Stmt], names: &mut Vec<NameId>) -> Result<(), NoMemory>
    ensures { OnOk result (names.new.items
        ≡ names.old.items ++ flat_map in_statement statements.now) }
{
    for statement in statements {
        in_statement(statement, names)?;
    }
    Ok(())
}

#[cycle(assigned)]
fn in_cases(cases: &[Case], names: &mut Vec<NameId>) -> Result<(), NoMemory>
    ensures { OnOk result (names.new.items ≡ names.old.items ++ flat_map in_case cases.now) }
{
    for case in cases {
        in_any(&case.value, names)?;
        in_statements(case.body.as_slice(), names)?;
    }
    Ok(())
}

#[cycle(assigned)]
fn in_catches(catches: &[Catch], names: &mut Vec<NameId>) -> Result<(), NoMemory>
    ensures { OnOk result (names.new.items ≡ names.old.items ++ flat_map in_catch catches.now) }
{
    for catch in catches {
        add(catch.variable.name, names)?;
        in_statements(catch.body.as_slice(), names)?;
    }
    Ok(())
}

// In an expression that may be missing.
fn in_any(e: &Option<Expr>, names: &mut Vec<NameId>) -> Result<(), NoMemory>
    ensures { OnOk result (names.new.items ≡ names.old.items ++ in_any e.now) }
{
    match e {
        Some(e) => assigned_in_expression(e, names),
        None => Ok(()),
    }
}

// The variable of a key, where there is one.
fn add_key(key: &Option<DeclaredName>, names: &mut Vec<NameId>) -> Result<(), NoMemory>
    ensures { OnOk result (names.new.items ≡ names.old.items ++ key_names key.now) }
{
    match key {
        Some(key) => add(key.name, names),
        None => Ok(()),
    }
}

fn add(name: NameId, names: &mut Vec<NameId>) -> Result<(), NoMemory>
    ensures { OnOk result (names.new.items ≡ names.old.items ++ name ∷ []) }
{
    Ok(names.push(name)?)
}
