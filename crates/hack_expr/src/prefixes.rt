// Operators before their operand.
ghost use Rattle.std.specs.Prelude.{◌≡◌, option_map};
ghost use Rattle.hack_decls.specs.Names.{TypeIn};
ghost use Rattle.hack_expr.specs.inside.Counting.{counting};
ghost use Rattle.hack_operators.specs.Seen.{operation_seen};
ghost use Rattle.hack_parts.specs.ExprIn.{ExprIn};
ghost use Rattle.hack_parts.specs.Parts.{Values};
ghost use Rattle.hack_rules.specs.Chains.{prefix_value};
ghost use Rattle.hack_rules.specs.Expressions.{meaning_of};
ghost use Rattle.hack_uses.specs.Aims.{Targets};
ghost use Rattle.hack_walk.specs.Checks.{Walks, setting_of};

use hack_chains::{not, signed};
use hack_decls::{DeclStop, Decls};
use hack_operators::{Operation, sign_before};
use hack_parts::Reading;
use hack_targets::Target;
use hack_tree::{Expr, PrefixOperator};
use hack_types::{HackType, Place};
use hack_uses::increased;
use hack_walk::{Setting, State};
use std::alloc::Global;

/// An operator and its operand as a value (docs/language.md, Typing expressions, Operators). `EdgesFull` says that a lookup's note was
/// refused, and `NoMemory` that memory ran out; what was noted before stays noted.
pub(crate) fn prefixed<
    D: Decls,
    F: Fn(Global, &Setting<'_>, &mut D, &mut State, &Expr, Reading) -> Result<HackType, DeclStop>,
    T: Fn(Global, &Setting<'_>, &mut D, &mut State, &Expr, Reading) -> Result<Target, DeclStop>,
>(
    value: &F,
    target: &T,
    alloc: Global,
    setting: &Setting<'_>,
    decls: &mut D,
    state: &mut State,
    at: Place,
    operator: PrefixOperator,
    operand: &Expr,
) -> Result<HackType, DeclStop>
    requires value { Values D.state operand.now (F.pre value.now) (F.post value.now) }
    requires target { Targets D.state operand.now (T.pre target.now) (T.post target.now) }
    ensures { Walks (prefix_value at operator (meaning_of operand.now)).walk
        (setting_of setting.now)
        (D.state decls.old) state.old result (D.state decls.new) state.new
        (λ symbols. ExprIn setting.now.scope.now symbols operand.now) TypeIn }
{
    match sign_before(operator) {
        Some(sign) => signed(value, alloc, setting, decls, state, at, sign, operand),
        None => match counting(operator) {
            Some(operation) => increased(
                target, alloc, setting, decls, state, at, operation, operand,
            ),
            None => not(value, alloc, setting, decls, state, operand),
        },
    }
}

// What `++` and `--` do with an int.
fn counting(operator: PrefixOperator) -> Option<Operation>
    ensures { option_map operation_seen result ≡ counting operator }
{
    match operator {
        PrefixOperator::Increment => Some(Operation::Add),
        PrefixOperator::Decrement => Some(Operation::Subtract),
        PrefixOperator::Not
        | PrefixOperator::Minus
        | PrefixOperator::Plus
        | PrefixOperator::BitNot => None,
    }
}
