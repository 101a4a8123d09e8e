// Expressions.

use crate::written::{all_written, written};
use crate::{Out, words};
use hack_tree::{
    ClassReference, Entry, Expr, FieldValue, Literal, Operand, ScopedMember, Suffix, TypeTest,
};
use hack_types::Place;
use sqlite_items::Boxed;

/// Adds an expression.
#[cycle(expressions)]
pub(crate) fn expression(out: &mut Out<'_>, shown: &Expr) {
    match shown {
        Expr::Assign { .. }
        | Expr::Conditional { .. }
        | Expr::Chain { .. }
        | Expr::Prefix { .. }
        | Expr::Cast { .. }
        | Expr::Power { .. } => operation(out, shown),
        Expr::Literal { at, literal } => literal_of(out, *at, *literal),
        Expr::Variable { .. } | Expr::This { .. } | Expr::Constant { .. } => simple(out, shown),
        _ => operand(out, shown),
    }
}

// An expression with an operator.
#[cycle(expressions)]
fn operation(out: &mut Out<'_>, shown: &Expr) {
    match shown {
        Expr::Assign {
            at,
            target,
            operator,
            value,
        } => {
            out.open_at(words::assign(*operator), *at);
            expression(out, target.get());
            expression(out, value.get());
        }
        Expr::Conditional {
            at,
            condition,
            middle,
            other,
        } => {
            out.open_at("conditional", *at);
            expression(out, condition.get());
            boxed_if_any(out, middle);
            expression(out, other.get());
        }
        Expr::Chain { at, first, others } => {
            out.open_at("chain", *at);
            expression(out, first.get());
            operands(out, others.as_slice());
        }
        Expr::Prefix {
            at,
            operator,
            operand,
        } => {
            out.open_at("prefix", *at);
            out.word(words::prefix(*operator));
            expression(out, operand.get());
        }
        Expr::Cast { at, to, operand } => {
            out.open_at("cast", *at);
            out.word(words::cast(*to));
            expression(out, operand.get());
        }
        Expr::Power { at, operands } => {
            out.open_at("power", *at);
            expressions(out, operands.as_slice());
        }
        _ => out.open("?"),
    }
    out.close();
}

// An expression that is one word.
fn simple(out: &mut Out<'_>, shown: &Expr) {
    match shown {
        Expr::Variable { at, name } => {
            out.open_at("variable", *at);
            out.name(*name);
        }
        Expr::This { at } => out.open_at("this", *at),
        Expr::Constant { at, name } => {
            out.open_at("constant", *at);
            out.name(*name);
        }
        _ => out.open("?"),
    }
    out.close();
}

fn literal_of(out: &mut Out<'_>, at: Place, literal: Literal) {
    out.open_at("literal", at);
    out.word(words::literal(literal));
    match &literal {
        Literal::KeyText(name) => out.name(*name),
        _ => {}
    }
    out.close();
}

// Any other expression.
#[cycle(expressions)]
fn operand(out: &mut Out<'_>, shown: &Expr) {
    match shown {
        Expr::Test { at, operand, tests } => {
            out.open_at("test", *at);
            expression(out, operand.get());
            type_tests(out, tests.as_slice());
        }
        Expr::Postfix {
            at,
            operand,
            suffixes,
        } => {
            out.open_at("postfix", *at);
            expression(out, operand.get());
            all_suffixes(out, suffixes.as_slice());
        }
        Expr::Bracketed { at, inner } => {
            out.open_at("brackets", *at);
            expression(out, inner.get());
        }
        Expr::Call {
            at,
            name,
            arguments,
        } => {
            out.open_at("call", *at);
            out.name(*name);
            expressions(out, arguments.as_slice());
        }
        Expr::Scoped { at, class, member } => {
            out.open_at("scoped", *at);
            class_reference(out, *class);
            scoped_member(out, member);
        }
        _ => made(out, shown),
    }
    out.close();
}

// Begins an expression that makes a value.
#[cycle(expressions)]
fn made(out: &mut Out<'_>, shown: &Expr) {
    match shown {
        Expr::New {
            at,
            class_at,
            class,
            type_arguments,
            arguments,
        } => {
            out.open_at("new", *at);
            class_reference(out, *class);
            out.place(*class_at);
            out.open("types");
            all_written(out, type_arguments.as_slice());
            out.close();
            expressions(out, arguments.as_slice());
        }
        Expr::Container {
            at,
            container,
            elements,
        } => {
            out.open_at(words::container(*container), *at);
            expressions(out, elements.as_slice());
        }
        Expr::Dict { at, entries } => {
            out.open_at("dict", *at);
            all_entries(out, entries.as_slice());
        }
        Expr::Shape { at, fields } => {
            out.open_at("shape", *at);
            field_values(out, fields.as_slice());
        }
        _ => out.open("?"),
    }
}

/// Adds expressions.
#[cycle(expressions)]
pub(crate) fn expressions(out: &mut Out<'_>, all: &[Expr]) {
    for one in all {
        expression(out, one);
    }
}

/// Adds an expression that may be missing.
pub(crate) fn expression_if_any(out: &mut Out<'_>, shown: &Option<Expr>) {
    match shown {
        Some(shown) => expression(out, shown),
        None => out.word("-"),
    }
}

#[cycle(expressions)]
fn boxed_if_any(out: &mut Out<'_>, shown: &Option<Boxed<Expr>>) {
    match shown {
        Some(shown) => expression(out, shown.get()),
        None => out.word("-"),
    }
}

#[cycle(expressions)]
fn operands(out: &mut Out<'_>, all: &[Operand]) {
    for one in all {
        out.word(words::binary(one.operator));
        expression(out, &one.operand);
    }
}

fn type_tests(out: &mut Out<'_>, all: &[TypeTest]) {
    for one in all {
        out.word(words::test(one.operator));
        written(out, &one.tested);
    }
}

#[cycle(expressions)]
fn all_suffixes(out: &mut Out<'_>, all: &[Suffix]) {
    for one in all {
        suffix(out, one);
    }
}

#[cycle(expressions)]
fn suffix(out: &mut Out<'_>, shown: &Suffix) {
    match shown {
        Suffix::Index { index } => {
            out.open("index");
            boxed_if_any(out, index);
            out.close();
        }
        Suffix::Member {
            null_safe,
            name,
            arguments,
        } => {
            out.open(if *null_safe { "?->" } else { "->" });
            out.name(*name);
            if let Some(arguments) = arguments {
                bracketed(out, arguments.as_slice());
            }
            out.close();
        }
        Suffix::Increment => out.word("++"),
        Suffix::Decrement => out.word("--"),
    }
}

// Arguments where brackets stand.
#[cycle(expressions)]
fn bracketed(out: &mut Out<'_>, arguments: &[Expr]) {
    out.open("of");
    expressions(out, arguments);
    out.close();
}

fn class_reference(out: &mut Out<'_>, class: ClassReference) {
    match &class {
        ClassReference::Named(name) => out.name(*name),
        _ => out.word(words::class_reference(class)),
    }
}

#[cycle(expressions)]
fn scoped_member(out: &mut Out<'_>, member: &ScopedMember) {
    match member {
        ScopedMember::Property { name } => {
            out.word("$");
            out.name(*name);
        }
        ScopedMember::Word { name, arguments } => {
            out.name(*name);
            if let Some(arguments) = arguments {
                bracketed(out, arguments.as_slice());
            }
        }
    }
}

#[cycle(expressions)]
fn all_entries(out: &mut Out<'_>, all: &[Entry]) {
    for one in all {
        out.open("entry");
        expression(out, &one.key);
        expression(out, &one.value);
        out.close();
    }
}

#[cycle(expressions)]
fn field_values(out: &mut Out<'_>, all: &[FieldValue]) {
    for one in all {
        out.open_at("field", one.key_at);
        out.name(one.key);
        expression(out, &one.value);
        out.close();
    }
}
