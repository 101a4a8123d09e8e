// What is assigned in an expression.
ghost use Rattle.std.specs.Prelude.{◌≡◌, ◌++◌, OnOk, option_to_list};
ghost use Rattle.std.specs.List.{flat_map};
ghost use Rattle.hack_rules.specs.Expressions.{meaning_of};
ghost use Rattle.hack_assigned.specs.inside.Parts.{in_each, in_entry, in_field, in_member, in_operand, is_step};
ghost use Rattle.hack_assigned.specs.inside.Suffixes.{added, added_behind};

use crate::roots::{root_of, root_with};
use hack_tree::{Entry, Expr, FieldValue, Operand, PrefixOperator, ScopedMember, Suffix};
use hack_types::{NameId, NoMemory};

/// Adds the variables that are assigned in an expression (docs/language.md, Typing statements). `NoMemory` says that memory ran out; what was
/// added before may stay.
#[cycle(assigned)]
pub fn assigned_in_expression(e: &Expr, names: &mut Vec<NameId>) -> Result<(), NoMemory>
    ensures { OnOk result (names.new.items ≡ names.old.items ++ (meaning_of e.now).assigned) }
{
    match e {
        Expr::Assign { target, value, .. } => {
            assigned_in_expression(target.get(), names)?;
            assigned_in_expression(value.get(), names)?;
            add_root(&root_of(target.get()), names)
        }
        Expr::Conditional {
            condition,
            middle,
            other,
            ..
        } => match middle {
            Some(middle) => {
                assigned_in_expression(condition.get(), names)?;
                assigned_in_expression(middle.get(), names)?;
                assigned_in_expression(other.get(), names)
            }
            None => {
                assigned_in_expression(condition.get(), names)?;
                assigned_in_expression(other.get(), names)
            }
        },
        Expr::Chain { first, others, .. } => {
            assigned_in_expression(first.get(), names)?;
            in_operands(others.as_slice(), names)
        }
        Expr::Prefix {
            operator,
            operand,
            ..
        } => {
            assigned_in_expression(operand.get(), names)?;
            if !is_step(*operator) {
                return Ok(());
            }
            add_root(&root_of(operand.get()), names)
        }
        Expr::Cast { operand, .. } => assigned_in_expression(operand.get(), names),
        Expr::Power { operands, .. } => assigned_in_each(operands.as_slice(), names),
        Expr::Test { operand, .. } => assigned_in_expression(operand.get(), names),
        Expr::Postfix {
            operand,
            suffixes,
            ..
        } => {
            assigned_in_expression(operand.get(), names)?;
            in_suffixes(suffixes.as_slice(), root_of(operand.get()), names)
        }
        Expr::Bracketed { inner, .. } => assigned_in_expression(inner.get(), names),
        Expr::Literal { .. } => Ok(()),
        Expr::Variable { .. } => Ok(()),
        Expr::This { .. } => Ok(()),
        Expr::Constant { .. } => Ok(()),
        Expr::Call { arguments, .. } => assigned_in_each(arguments.as_slice(), names),
        Expr::Scoped { member, .. } => in_member(member, names),
        Expr::New { arguments, .. } => assigned_in_each(arguments.as_slice(), names),
        Expr::Container { elements, .. } => assigned_in_each(elements.as_slice(), names),
        Expr::Dict { entries, .. } => in_entries(entries.as_slice(), names),
        Expr::Shape { fields, .. } => in_fields(fields.as_slice(), names),
    }
}

/// The same of each of these, in their order.
#[cycle(assigned)]
pub(crate) fn assigned_in_each(parts: &[Expr], names: &mut Vec<NameId>) -> Result<(), NoMemory>
    ensures { OnOk result (names.new.items
        ≡ names.old.items ++ in_each parts.now) }
{
    for part in parts {
        assigned_in_expression(part, names)?;
    }
    Ok(())
}

#[cycle(assigned)]
fn in_operands(operands: &[Operand], names: &mut Vec<NameId>) -> Result<(), NoMemory>
    ensures { OnOk result (names.new.items ≡ names.old.items ++ flat_map in_operand operands.now) }
{
    for operand in operands {
        assigned_in_expression(&operand.operand, names)?;
    }
    Ok(())
}

#[cycle(assigned)]
fn in_entries(entries: &[Entry], names: &mut Vec<NameId>) -> Result<(), NoMemory>
    ensures { OnOk result (names.new.items ≡ names.old.items ++ flat_map in_entry entries.now) }
{
    for entry in entries {
        assigned_in_expression(&entry.key, names)?;
        assigned_in_expression(&entry.value, names)?;
    }
    Ok(())
}

#[cycle(assigned)]
fn in_fields(fields: &[FieldValue], names: &mut Vec<NameId>) -> Result<(), NoMemory>
    ensures { OnOk result (names.new.items ≡ names.old.items ++ flat_map in_field fields.now) }
{
    for field in fields {
        assigned_in_expression(&field.value, names)?;
    }
    Ok(())
}

// The arguments of a method behind `::`.
#[cycle(assigned)]
fn in_member(member: &ScopedMember, names: &mut Vec<NameId>) -> Result<(), NoMemory>
    ensures { OnOk result (names.new.items ≡ names.old.items ++ in_member member.now) }
{
    match member {
        ScopedMember::Property { .. } => Ok(()),
        ScopedMember::Word { arguments, .. } => match arguments {
            Some(arguments) => assigned_in_each(arguments.as_slice(), names),
            None => Ok(()),
        },
    }
}

// What stands behind an operand that has this root as a target.
#[cycle(assigned)]
fn in_suffixes(
    suffixes: &[Suffix],
    root: Option<NameId>,
    names: &mut Vec<NameId>,
) -> Result<(), NoMemory>
    ensures { OnOk result (names.new.items
        ≡ added_behind names.old.items (option_to_list root) suffixes.now) }
{
    let mut behind = root;
    for suffix in suffixes {
        in_suffix(suffix, &behind, names)?;
        behind = root_with(&behind, suffix);
    }
    Ok(())
}

#[cycle(assigned)]
fn in_suffix(
    suffix: &Suffix,
    root: &Option<NameId>,
    names: &mut Vec<NameId>,
) -> Result<(), NoMemory>
    ensures { OnOk result (names.new.items
        ≡ names.old.items ++ added (option_to_list root.now) suffix.now) }
{
    match suffix {
        Suffix::Index { index } => match index {
            Some(index) => assigned_in_expression(index.get(), names),
            None => Ok(()),
        },
        Suffix::Member { arguments, .. } => match arguments {
            Some(arguments) => assigned_in_each(arguments.as_slice(), names),
            None => Ok(()),
        },
        Suffix::Increment => add_root(root, names),
        Suffix::Decrement => add_root(root, names),
    }
}

fn add_root(root: &Option<NameId>, names: &mut Vec<NameId>) -> Result<(), NoMemory>
    ensures { OnOk result (names.new.items ≡ names.old.items ++ option_to_list root.now) }
{
    match root {
        Some(name) => Ok(names.push(*name)?),
        None => Ok(()),
    }
}

// `++` or `--`
fn is_step(operator: PrefixOperator) -> bool
    ensures { result ≡ is_step operator }
{
    matches!(
        operator,
        PrefixOperator::Increment | PrefixOperator::Decrement
    )
}
