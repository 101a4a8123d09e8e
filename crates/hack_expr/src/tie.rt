// What is called for each form of expression.
ghost use Rattle.hack_decls.specs.Names.{TypeIn};
ghost use Rattle.hack_parts.specs.ExprIn.{ExprIn};
ghost use Rattle.hack_parts.specs.Parts.{walk_by};
ghost use Rattle.hack_rules.specs.Expressions.{meaning_of};
ghost use Rattle.hack_targets.specs.AimIn.{AimIn};
ghost use Rattle.hack_uses.specs.Aims.{aim_by};
ghost use Rattle.hack_walk.specs.Checks.{BranchesIn, Walks, setting_of};

use crate::prefixes::prefixed;
use crate::rows::{literal, plain, this, variable};
use crate::targets::{no_target, property_target, variable_target};
use hack_chains::{chain, chain_branches, conditional, not_branches, power, short};
use hack_decls::{DeclStop, Decls};
use hack_parts::Reading;
use hack_targets::Target;
use hack_tree::{Expr, PrefixOperator, ScopedMember};
use hack_types::HackType;
use hack_uses::{assigned, call, new_instance, postfix, postfix_value, scoped};
use hack_values::{
    cast, constant, container, dict, shape, test_branches, tested, variable_branches,
};
use hack_walk::{Branches, Setting, State};
use std::alloc::Global;

/// The type of an expression, as a value or in the left of `??` (docs/language.md, Typing expressions). `EdgesFull` says that a lookup's
/// note was refused, and `NoMemory` that memory ran out; what was noted before stays noted.
#[cycle(value)]
pub(crate) fn value<D: Decls>(
    alloc: Global,
    setting: &Setting<'_>,
    decls: &mut D,
    state: &mut State,
    e: &Expr,
    reading: Reading,
) -> Result<HackType, DeclStop>
    ensures { Walks (walk_by reading (meaning_of e.now)) (setting_of setting.now)
        (D.state decls.old) state.old result (D.state decls.new) state.new
        (λ symbols. ExprIn setting.now.scope.now symbols e.now) TypeIn }
{
    match e {
        Expr::Conditional {
            condition,
            middle,
            other,
            ..
        } => match middle {
            Some(middle) => conditional(
                &value::<D>,
                &branches_of::<D>,
                alloc,
                setting,
                decls,
                state,
                condition.get(),
                middle.get(),
                other.get(),
            ),
            None => short(
                &value::<D>,
                alloc,
                setting,
                decls,
                state,
                condition.get(),
                other.get(),
            ),
        },
        Expr::Chain { first, others, .. } => chain(
            &value::<D>,
            &branches_of::<D>,
            alloc,
            setting,
            decls,
            state,
            first.get(),
            others.as_slice(),
            reading,
        ),
        Expr::Prefix {
            at,
            operator,
            operand,
        } => prefixed(
            &value::<D>,
            &target_of::<D>,
            alloc,
            setting,
            decls,
            state,
            *at,
            *operator,
            operand.get(),
        ),
        Expr::Cast { to, operand, .. } => {
            cast(
                &value::<D>,
                alloc,
                setting,
                decls,
                state,
                *to,
                operand.get(),
            )
        }
        Expr::Power { operands, .. } => {
            power(
                &value::<D>,
                alloc,
                setting,
                decls,
                state,
                operands.as_slice(),
            )
        }
        Expr::Test { operand, tests, .. } => tested(
            &value::<D>,
            alloc,
            setting,
            decls,
            state,
            operand.get(),
            tests.as_slice(),
        ),
        Expr::Bracketed { inner, .. } => value(alloc, setting, decls, state, inner.get(), reading),
        Expr::Literal { literal: l, .. } => literal(setting, decls, state, *l),
        Expr::Variable { at, name } => variable(alloc, setting, decls, state, *at, *name),
        Expr::This { at } => this(alloc, setting, decls, state, *at),
        Expr::Constant { at, name } => constant(alloc, setting, decls, state, *at, *name),
        Expr::Container {
            container: kind,
            elements,
            ..
        } => container(
            &value::<D>,
            alloc,
            setting,
            decls,
            state,
            *kind,
            elements.as_slice(),
        ),
        Expr::Dict { entries, .. } => {
            dict(
                &value::<D>,
                alloc,
                setting,
                decls,
                state,
                entries.as_slice(),
            )
        }
        Expr::Shape { fields, .. } => {
            shape(&value::<D>, alloc, setting, decls, state, fields.as_slice())
        }
        Expr::Assign {
            at,
            target,
            operator,
            value: e,
        } => assigned(
            &value::<D>,
            &target_of::<D>,
            alloc,
            setting,
            decls,
            state,
            *at,
            *operator,
            target.get(),
            e.get(),
        ),
        Expr::Postfix {
            operand,
            suffixes,
            ..
        } => postfix_value(
            &value::<D>,
            &target_of::<D>,
            alloc,
            setting,
            decls,
            state,
            operand.get(),
            suffixes.as_slice(),
            reading,
        ),
        Expr::Call {
            at,
            name,
            arguments,
        } => call(
            &value::<D>,
            alloc,
            setting,
            decls,
            state,
            *at,
            *name,
            arguments.as_slice(),
        ),
        Expr::Scoped { at, class, member } => {
            scoped(
                &value::<D>,
                alloc,
                setting,
                decls,
                state,
                *at,
                class,
                member,
            )
        }
        Expr::New {
            at,
            class_at,
            class,
            type_arguments,
            arguments,
        } => new_instance(
            &value::<D>,
            alloc,
            setting,
            decls,
            state,
            *at,
            *class_at,
            class,
            type_arguments.as_slice(),
            arguments.as_slice(),
        ),
    }
}

/// The variables where an expression holds as a condition, and where it doesn't (docs/language.md, Typing expressions, Refinement).
/// `EdgesFull` says that a lookup's note was refused, and `NoMemory` that memory ran out; what was noted before stays noted.
#[cycle(value)]
pub fn branches_of<D: Decls>(
    alloc: Global,
    setting: &Setting<'_>,
    decls: &mut D,
    state: &mut State,
    e: &Expr,
) -> Result<Branches, DeclStop>
    ensures { Walks (meaning_of e.now).branches (setting_of setting.now)
        (D.state decls.old) state.old result (D.state decls.new) state.new
        (λ symbols. ExprIn setting.now.scope.now symbols e.now) BranchesIn }
{
    match e {
        Expr::Chain { first, others, .. } => chain_branches(
            &value::<D>,
            &branches_of::<D>,
            alloc,
            setting,
            decls,
            state,
            first.get(),
            others.as_slice(),
        ),
        Expr::Prefix {
            operator,
            operand,
            ..
        } => match operator {
            PrefixOperator::Not => {
                not_branches(
                    &branches_of::<D>,
                    alloc,
                    setting,
                    decls,
                    state,
                    operand.get(),
                )
            }
            PrefixOperator::Minus => plain(&value::<D>, alloc, setting, decls, state, e),
            PrefixOperator::Plus => plain(&value::<D>, alloc, setting, decls, state, e),
            PrefixOperator::BitNot => plain(&value::<D>, alloc, setting, decls, state, e),
            PrefixOperator::Increment => plain(&value::<D>, alloc, setting, decls, state, e),
            PrefixOperator::Decrement => plain(&value::<D>, alloc, setting, decls, state, e),
        },
        Expr::Test { operand, tests, .. } => test_branches(
            &value::<D>,
            alloc,
            setting,
            decls,
            state,
            operand.get(),
            tests.as_slice(),
        ),
        Expr::Bracketed { inner, .. } => branches_of(alloc, setting, decls, state, inner.get()),
        Expr::Variable { at, name } => variable_branches(alloc, setting, decls, state, *at, *name),
        Expr::Conditional { .. } => plain(&value::<D>, alloc, setting, decls, state, e),
        Expr::Cast { .. } => plain(&value::<D>, alloc, setting, decls, state, e),
        Expr::Power { .. } => plain(&value::<D>, alloc, setting, decls, state, e),
        Expr::Literal { .. } => plain(&value::<D>, alloc, setting, decls, state, e),
        Expr::This { .. } => plain(&value::<D>, alloc, setting, decls, state, e),
        Expr::Constant { .. } => plain(&value::<D>, alloc, setting, decls, state, e),
        Expr::Container { .. } => plain(&value::<D>, alloc, setting, decls, state, e),
        Expr::Dict { .. } => plain(&value::<D>, alloc, setting, decls, state, e),
        Expr::Shape { .. } => plain(&value::<D>, alloc, setting, decls, state, e),
        Expr::Assign { .. } => plain(&value::<D>, alloc, setting, decls, state, e),
        Expr::Postfix {
            operand,
            suffixes,
            ..
        } => {
            if suffixes.len() > 0 {
                return plain(&value::<D>, alloc, setting, decls, state, e);
            }
            branches_of(alloc, setting, decls, state, operand.get())
        }
        Expr::Call { .. } => plain(&value::<D>, alloc, setting, decls, state, e),
        Expr::Scoped { .. } => plain(&value::<D>, alloc, setting, decls, state, e),
        Expr::New { .. } => plain(&value::<D>, alloc, setting, decls, state, e),
    }
}

/// The parts of an expression as the target of an assignment, or of `??=` (docs/language.md, Typing expressions, Assignment): a variable, a
/// property, or an element of another target; anything else is typed in this reading, and can't be assigned to. `EdgesFull` says that a
/// lookup's note was refused, and `NoMemory` that memory ran out; what was noted before stays noted.
#[cycle(value)]
pub fn target_of<D: Decls>(
    alloc: Global,
    setting: &Setting<'_>,
    decls: &mut D,
    state: &mut State,
    e: &Expr,
    reading: Reading,
) -> Result<Target, DeclStop>
    ensures { Walks (aim_by reading (meaning_of e.now)) (setting_of setting.now)
        (D.state decls.old) state.old result (D.state decls.new) state.new
        (λ symbols. ExprIn setting.now.scope.now symbols e.now) AimIn }
{
    match e {
        Expr::Variable { at, name } => variable_target(alloc, setting, decls, state, *at, *name),
        Expr::Postfix {
            operand,
            suffixes,
            ..
        } => postfix(
            &value::<D>,
            &target_of::<D>,
            alloc,
            setting,
            decls,
            state,
            operand.get(),
            suffixes.as_slice(),
            reading,
        ),
        Expr::Scoped { at, class, member } => match member {
            ScopedMember::Property { name } => {
                property_target(alloc, setting, decls, state, *at, class, *name)
            }
            ScopedMember::Word { .. } => no_target(
                &value::<D>,
                alloc,
                setting,
                decls,
                state,
                e,
                reading,
            ),
        },
        Expr::Chain { first, others, .. } => {
            if others.len() > 0 {
                return no_target(&value::<D>, alloc, setting, decls, state, e, reading);
            }
            target_of(alloc, setting, decls, state, first.get(), reading)
        }
        Expr::Bracketed { .. } => no_target(&value::<D>, alloc, setting, decls, state, e, reading),
        Expr::Assign { .. } => no_target(&value::<D>, alloc, setting, decls, state, e, reading),
        Expr::Conditional { .. } => no_target(
            &value::<D>,
            alloc,
            setting,
            decls,
            state,
            e,
            reading,
        ),
        Expr::Prefix { .. } => no_target(&value::<D>, alloc, setting, decls, state, e, reading),
        Expr::Cast { .. } => no_target(&value::<D>, alloc, setting, decls, state, e, reading),
        Expr::Power { .. } => no_target(&value::<D>, alloc, setting, decls, state, e, reading),
        Expr::Test { .. } => no_target(&value::<D>, alloc, setting, decls, state, e, reading),
        Expr::Literal { .. } => no_target(&value::<D>, alloc, setting, decls, state, e, reading),
        Expr::This { .. } => no_target(&value::<D>, alloc, setting, decls, state, e, reading),
        Expr::Constant { .. } => no_target(&value::<D>, alloc, setting, decls, state, e, reading),
        Expr::Call { .. } => no_target(&value::<D>, alloc, setting, decls, state, e, reading),
        Expr::New { .. } => no_target(&value::<D>, alloc, setting, decls, state, e, reading),
        Expr::Container { .. } => no_target(&value::<D>, alloc, setting, decls, state, e, reading),
        Expr::Dict { .. } => no_target(&value::<D>, alloc, setting, decls, state, e, reading),
        Expr::Shape { .. } => no_target(&value::<D>, alloc, setting, decls, state, e, reading),
    }
}
