// Statements.

use crate::{ClassType, DeclaredName, Expr};
use hack_types::Place;
use sqlite_items::{Boxed, Items};

/// A statement, one variant for each row of docs/language.md, Statements. `at` is the place of its first token, relative to
/// the first token of the declaration (docs/script.md, Places).
#[cycle(statements)]
#[derive(Drop)]
pub enum Stmt {
    /// Statements in braces.
    Block {
        /// The place of the brace.
        at: Place,
        /// The statements.
        body: Items<Stmt>,
    },
    /// A `;` alone.
    Empty {
        /// Its place.
        at: Place,
    },
    /// `if (condition) then else otherwise`
    If {
        /// The place of `if`.
        at: Place,
        /// What is tested.
        condition: Expr,
        /// What is done where it holds.
        then: Boxed<Stmt>,
        /// What is done else, where `else` stands.
        otherwise: Option<Boxed<Stmt>>,
    },
    /// `while (condition) body`
    While {
        /// The place of `while`.
        at: Place,
        /// What is tested before each turn.
        condition: Expr,
        /// What a turn does.
        body: Boxed<Stmt>,
    },
    /// `do body while (condition);`
    DoWhile {
        /// The place of `do`.
        at: Place,
        /// What a turn does.
        body: Boxed<Stmt>,
        /// What is tested behind each turn.
        condition: Expr,
    },
    /// `for (start; condition; step) body`
    For {
        /// The place of `for`.
        at: Place,
        /// What is done before the first turn.
        start: Items<Expr>,
        /// What is tested before each turn, where something is.
        condition: Option<Expr>,
        /// What is done behind each turn.
        step: Items<Expr>,
        /// What a turn does.
        body: Boxed<Stmt>,
    },
    /// `foreach (subject as key => value) body`
    Foreach {
        /// The place of `foreach`.
        at: Place,
        /// What is walked through.
        subject: Expr,
        /// The variable before the `=>`, where one stands.
        key: Option<DeclaredName>,
        /// The variable of the values.
        value: DeclaredName,
        /// What a turn does.
        body: Boxed<Stmt>,
    },
    /// `switch (subject) { cases }`
    Switch {
        /// The place of `switch`.
        at: Place,
        /// What is compared.
        subject: Expr,
        /// The cases, as they are written.
        cases: Items<Case>,
    },
    /// `return value;`
    Return {
        /// The place of `return`.
        at: Place,
        /// What is returned, where something is.
        value: Option<Expr>,
    },
    /// `throw value;`
    Throw {
        /// The place of `throw`.
        at: Place,
        /// What is thrown.
        value: Expr,
    },
    /// `break;`
    Break {
        /// The place of `break`.
        at: Place,
    },
    /// `continue;`
    Continue {
        /// The place of `continue`.
        at: Place,
    },
    /// `echo values;`
    Echo {
        /// The place of `echo`.
        at: Place,
        /// What is printed, at least one.
        values: Items<Expr>,
    },
    /// An expression and a `;`.
    Expression {
        /// The place of the expression.
        at: Place,
        /// The expression.
        expression: Expr,
    },
    /// `try { body } catches finally { last }`
    Try {
        /// The place of `try`.
        at: Place,
        /// What is tried.
        body: Items<Stmt>,
        /// What catches, as it is written.
        catches: Items<Catch>,
        /// What stands behind `finally`, where that stands.
        last: Option<Items<Stmt>>,
    },
}

/// A case of a `switch`.
#[cycle(statements)]
#[derive(Drop)]
pub struct Case {
    /// The place of `case` or `default`.
    pub at: Place,
    /// What the subject is compared with: nothing for `default`.
    pub value: Option<Expr>,
    /// The statements behind the `:`.
    pub body: Items<Stmt>,
}

/// A `catch` of a `try`.
#[cycle(statements)]
#[derive(Drop)]
pub struct Catch {
    /// The type that is caught.
    pub class: ClassType,
    /// The variable of what is caught.
    pub variable: DeclaredName,
    /// What is done with it.
    pub body: Items<Stmt>,
}
