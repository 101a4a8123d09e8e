// The variable that a target changes.
ghost use Rattle.std.specs.Prelude.{◌≡◌, option_to_list};
ghost use Rattle.hack_rules.specs.Expressions.{meaning_of};
ghost use Rattle.hack_assigned.specs.inside.Suffixes.{kept, kept_behind};

use hack_tree::{Expr, Suffix};
use hack_types::NameId;

/// The variable that is assigned where an expression is a target: itself, or that whose element it is (docs/language.md, Typing expressions,
/// Assignment).
#[cycle(root_of)]
pub(crate) fn root_of(e: &Expr) -> Option<NameId>
    ensures { option_to_list result ≡ (meaning_of e.now).roots }
{
    match e {
        Expr::Variable { name, .. } => Some(*name),
        Expr::Postfix {
            operand,
            suffixes,
            ..
        } => root_behind(root_of(operand.get()), suffixes.as_slice()),
        Expr::Chain { first, others, .. } => {
            if others.len() > 0 {
                return None;
            }
            root_of(first.get())
        }
        Expr::Assign { .. } => None,
        Expr::Conditional { .. } => None,
        Expr::Prefix { .. } => None,
        Expr::Cast { .. } => None,
        Expr::Power { .. } => None,
        Expr::Test { .. } => None,
        Expr::Bracketed { .. } => None,
        Expr::Literal { .. } => None,
        Expr::This { .. } => None,
        Expr::Constant { .. } => None,
        Expr::Call { .. } => None,
        Expr::Scoped { .. } => None,
        Expr::New { .. } => None,
        Expr::Container { .. } => None,
        Expr::Dict { .. } => None,
        Expr::Shape { .. } => None,
    }
}

/// The same with an index or another suffix behind it, where this was it before.
pub(crate) fn root_with(root: &Option<NameId>, suffix: &Suffix) -> Option<NameId>
    ensures { option_to_list result ≡ kept (option_to_list root.now) suffix.now }
{
    match suffix {
        Suffix::Index { .. } => *root,
        Suffix::Member { .. } => None,
        Suffix::Increment => None,
        Suffix::Decrement => None,
    }
}

// The same with all of these behind it.
fn root_behind(root: Option<NameId>, suffixes: &[Suffix]) -> Option<NameId>
    ensures { option_to_list result ≡ kept_behind (option_to_list root) suffixes.now }
{
    let mut behind = root;
    for suffix in suffixes {
        behind = root_with(&behind, suffix);
    }
    behind
}
