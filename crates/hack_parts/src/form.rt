// What rows ask of the form of a part.
ghost use Rattle.std.specs.Prelude.{◌≡◌, None};
ghost use Rattle.hack_rules.specs.Expressions.{meaning_of};
ghost use Rattle.hack_rules.specs.Values.{is_null_literal, key_literal};
ghost use Rattle.hack_parts.specs.Forms.{IsForm};

use hack_tree::{Expr, Literal};
use hack_types::{NameId, Place};

/// What comparisons, tests and indices ask of the form of a part.
#[derive(Clone, Copy)]
pub struct Form {
    /// The variable that it is, through brackets.
    pub subject: Option<NameId>,
    /// Whether it is `null`, through brackets.
    pub is_null: bool,
    /// The key string that it is.
    pub key: Option<NameId>,
}

// Neither a variable nor `null` nor a key string.
const OTHER: Form = Form {
    subject: None,
    is_null: false,
    key: None,
};

/// The place of an expression's first token (docs/script.md, Places).
#[cycle(place_of)]
pub fn place_of(e: &Expr) -> Place
    ensures { result ≡ (meaning_of e.now).at }
{
    match e {
        Expr::Assign { at, .. } => *at,
        Expr::Conditional { at, .. } => *at,
        Expr::Chain { first, .. } => place_of(first.get()),
        Expr::Prefix { at, .. } => *at,
        Expr::Cast { at, .. } => *at,
        Expr::Power { at, .. } => *at,
        Expr::Test { at, .. } => *at,
        Expr::Postfix { operand, .. } => place_of(operand.get()),
        Expr::Bracketed { at, .. } => *at,
        Expr::Literal { at, .. } => *at,
        Expr::Variable { at, .. } => *at,
        Expr::This { at } => *at,
        Expr::Constant { at, .. } => *at,
        Expr::Call { at, .. } => *at,
        Expr::Scoped { at, .. } => *at,
        Expr::New { at, .. } => *at,
        Expr::Container { at, .. } => *at,
        Expr::Dict { at, .. } => *at,
        Expr::Shape { at, .. } => *at,
    }
}

/// Whether an expression is a variable or `null`, through brackets, or a key string (docs/language.md, Typing expressions, Refinement and
/// Index).
#[cycle(form_of)]
pub fn form_of(e: &Expr) -> Form
    ensures { IsForm result (meaning_of e.now) }
{
    match e {
        Expr::Bracketed { inner, .. } => Form {
            key: None,
            ..form_of(inner.get())
        },
        Expr::Variable { name, .. } => Form {
            subject: Some(*name),
            is_null: false,
            key: None,
        },
        Expr::Literal { literal, .. } => of_literal(*literal),
        Expr::Chain { first, others, .. } => {
            if others.len() > 0 {
                return OTHER;
            }
            form_of(first.get())
        }
        Expr::Postfix {
            operand,
            suffixes,
            ..
        } => {
            if suffixes.len() > 0 {
                return OTHER;
            }
            form_of(operand.get())
        }
        Expr::Assign { .. } => OTHER,
        Expr::Conditional { .. } => OTHER,
        Expr::Prefix { .. } => OTHER,
        Expr::Cast { .. } => OTHER,
        Expr::Power { .. } => OTHER,
        Expr::Test { .. } => OTHER,
        Expr::This { .. } => OTHER,
        Expr::Constant { .. } => OTHER,
        Expr::Call { .. } => OTHER,
        Expr::Scoped { .. } => OTHER,
        Expr::New { .. } => OTHER,
        Expr::Container { .. } => OTHER,
        Expr::Dict { .. } => OTHER,
        Expr::Shape { .. } => OTHER,
    }
}

// Of literals `null` and key strings are something.
fn of_literal(literal: Literal) -> Form
    ensures subject { result.subject ≡ None }
    ensures is_null { result.is_null ≡ is_null_literal literal }
    ensures key { result.key ≡ key_literal literal }
{
    Form {
        subject: None,
        is_null: matches!(literal, Literal::Null),
        key: key_of(literal),
    }
}

// The key string that a literal is.
fn key_of(literal: Literal) -> Option<NameId>
    ensures { result ≡ key_literal literal }
{
    match literal {
        Literal::KeyText(key) => Some(key),
        _ => None,
    }
}
