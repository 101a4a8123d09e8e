// Statements.

use crate::Out;
use crate::expression::{expression, expression_if_any, expressions};
use crate::written::class_type;
use hack_tree::{Case, Catch, DeclaredName, Stmt};
use sqlite_items::Items;

/// Adds a statement.
#[cycle(statements)]
pub(crate) fn statement(out: &mut Out<'_>, shown: &Stmt) {
    match shown {
        Stmt::Empty { .. }
        | Stmt::Break { .. }
        | Stmt::Continue { .. }
        | Stmt::Return { .. }
        | Stmt::Throw { .. }
        | Stmt::Echo { .. }
        | Stmt::Expression { .. } => simple(out, shown),
        Stmt::While { .. } | Stmt::DoWhile { .. } | Stmt::For { .. } | Stmt::Foreach { .. } => {
            turns(out, shown);
        }
        _ => parted(out, shown),
    }
    out.close();
}

// Begins a statement without statements inside.
fn simple(out: &mut Out<'_>, shown: &Stmt) {
    match shown {
        Stmt::Empty { at } => out.open_at("empty", *at),
        Stmt::Break { at } => out.open_at("break", *at),
        Stmt::Continue { at } => out.open_at("continue", *at),
        Stmt::Return { at, value } => {
            out.open_at("return", *at);
            expression_if_any(out, value);
        }
        Stmt::Throw { at, value } => {
            out.open_at("throw", *at);
            expression(out, value);
        }
        Stmt::Echo { at, values } => {
            out.open_at("echo", *at);
            expressions(out, values.as_slice());
        }
        Stmt::Expression {
            at,
            expression: shown,
        } => {
            out.open_at("expression", *at);
            expression(out, shown);
        }
        _ => out.open("?"),
    }
}

// Begins a loop.
#[cycle(statements)]
fn turns(out: &mut Out<'_>, shown: &Stmt) {
    match shown {
        Stmt::While {
            at,
            condition,
            body,
        } => {
            out.open_at("while", *at);
            expression(out, condition);
            statement(out, body.get());
        }
        Stmt::DoWhile {
            at,
            body,
            condition,
        } => {
            out.open_at("do", *at);
            statement(out, body.get());
            expression(out, condition);
        }
        Stmt::For {
            at,
            start,
            condition,
            step,
            body,
        } => {
            out.open_at("for", *at);
            out.open("start");
            expressions(out, start.as_slice());
            out.close();
            expression_if_any(out, condition);
            out.open("step");
            expressions(out, step.as_slice());
            out.close();
            statement(out, body.get());
        }
        Stmt::Foreach {
            at,
            subject,
            key,
            value,
            body,
        } => {
            out.open_at("foreach", *at);
            expression(out, subject);
            match key {
                Some(key) => declared(out, *key),
                None => out.word("-"),
            }
            declared(out, *value);
            statement(out, body.get());
        }
        _ => out.open("?"),
    }
}

// Begins any other statement.
#[cycle(statements)]
fn parted(out: &mut Out<'_>, shown: &Stmt) {
    match shown {
        Stmt::Block { at, body } => {
            out.open_at("block", *at);
            statements(out, body.as_slice());
        }
        Stmt::If {
            at,
            condition,
            then,
            otherwise,
        } => {
            out.open_at("if", *at);
            expression(out, condition);
            statement(out, then.get());
            match otherwise {
                Some(otherwise) => statement(out, otherwise.get()),
                None => out.word("-"),
            }
        }
        Stmt::Switch { at, subject, cases } => {
            out.open_at("switch", *at);
            expression(out, subject);
            all_cases(out, cases.as_slice());
        }
        Stmt::Try {
            at,
            body,
            catches,
            last,
        } => {
            out.open_at("try", *at);
            part(out, "body", body);
            all_catches(out, catches.as_slice());
            if let Some(last) = last {
                part(out, "finally", last);
            }
        }
        _ => out.open("?"),
    }
}

/// Adds statements.
#[cycle(statements)]
pub(crate) fn statements(out: &mut Out<'_>, all: &[Stmt]) {
    for one in all {
        statement(out, one);
    }
}

/// Adds statements behind a word.
#[cycle(statements)]
pub(crate) fn part(out: &mut Out<'_>, word: &str, all: &Items<Stmt>) {
    out.open(word);
    statements(out, all.as_slice());
    out.close();
}

#[cycle(statements)]
fn all_cases(out: &mut Out<'_>, all: &[Case]) {
    for one in all {
        out.open_at("case", one.at);
        expression_if_any(out, &one.value);
        statements(out, one.body.as_slice());
        out.close();
    }
}

#[cycle(statements)]
fn all_catches(out: &mut Out<'_>, all: &[Catch]) {
    for one in all {
        out.open("catch");
        class_type(out, &one.class);
        declared(out, one.variable);
        statements(out, one.body.as_slice());
        out.close();
    }
}

/// Adds a name where it is declared.
pub(crate) fn declared(out: &mut Out<'_>, name: DeclaredName) {
    out.name(name.name);
    out.place(name.at);
}
