// `&&` and `||`, once the branches of the left side are known.
ghost use Rattle.std.specs.Prelude.{◌≡◌, IfOk};
ghost use Rattle.hack_decls.specs.Names.{TypeIn};
ghost use Rattle.hack_parts.specs.ExprIn.{ExprIn};
ghost use Rattle.hack_parts.specs.Parts.{Conditions, Values};
ghost use Rattle.hack_rules.specs.Expressions.{meaning_of};
ghost use Rattle.hack_walk.specs.Checks.{BranchesIn, Walks, setting_of};
ghost use Rattle.hack_chains.specs.inside.Chaining.{ends, is_and, logic_branches, logic_row, other_side, typed_side};

use crate::joins::rejoin;
use hack_decls::{DeclStop, Decls};
use hack_parts::Reading;
use hack_tree::{BinaryOperator, Expr};
use hack_types::{HackType, NoMemory};
use hack_walk::{Branches, Setting, State, Variables, joined};
use std::alloc::Global;

/// Whether this is `&&`.
pub fn is_and(operator: BinaryOperator) -> bool
    ensures { result ≡ is_and operator }
{
    matches!(operator, BinaryOperator::And)
}

/// `&&`, or else `||`: the right side is typed where the left leads on to it; behind the whole stands its end, joined with that of the
/// left where it doesn't (docs/language.md, Typing expressions, Refinement). `EdgesFull` says that a lookup's note was refused, and
/// `NoMemory` that memory ran out; what was noted before stays noted.
pub fn logic_value<
    D: Decls,
    F: Fn(Global, &Setting<'_>, &mut D, &mut State, &Expr, Reading) -> Result<HackType, DeclStop>,
>(
    value: &F,
    alloc: Global,
    setting: &Setting<'_>,
    decls: &mut D,
    state: &mut State,
    and: bool,
    first: Branches,
    right: &Expr,
) -> Result<HackType, DeclStop>
    requires right { Values D.state right.now (F.pre value.now) (F.post value.now) }
    ensures { Walks (logic_row and (meaning_of right.now) first) (setting_of setting.now)
        (D.state decls.old) state.old result (D.state decls.new) state.new
        (λ symbols. BranchesIn symbols first
        × ExprIn setting.now.scope.now symbols right.now) TypeIn }
{
    let (typed, apart) = sides(and, first);
    state.replace(typed);
    drop(value(alloc, setting, decls, state, right, Reading::Value)?);
    rejoin(alloc, state, apart)?;
    Ok(HackType::Bool)
}

/// The same as a condition. The errors are as those of `logic_value`.
pub fn logic_branches<
    D: Decls,
    G: Fn(Global, &Setting<'_>, &mut D, &mut State, &Expr) -> Result<Branches, DeclStop>,
>(
    condition: &G,
    alloc: Global,
    setting: &Setting<'_>,
    decls: &mut D,
    state: &mut State,
    and: bool,
    first: Branches,
    right: &Expr,
) -> Result<Branches, DeclStop>
    requires right { Conditions D.state right.now (G.pre condition.now) (G.post condition.now) }
    ensures { Walks (logic_branches and (meaning_of right.now) first) (setting_of setting.now)
        (D.state decls.old) state.old result (D.state decls.new) state.new
        (λ symbols. BranchesIn symbols first
        × ExprIn setting.now.scope.now symbols right.now) BranchesIn }
{
    let (typed, apart) = sides(and, first);
    state.replace(typed);
    let second = condition(alloc, setting, decls, state, right)?;
    Ok(ends(alloc, and, apart, second)?)
}

// Where the left side leads on to the right one, and where it doesn't.
fn sides(and: bool, first: Branches) -> (Variables, Variables)
    ensures typed { result.0 ≡ typed_side and first }
    ensures apart { result.1 ≡ other_side and first }
{
    let (when_true, when_false) = first.into_parts();
    if and {
        return (when_true, when_false);
    }
    (when_false, when_true)
}

// The branches of the whole.
fn ends(alloc: Global, and: bool, apart: Variables, second: Branches) -> Result<Branches, NoMemory>
    ensures { IfOk result (λ answer. answer ≡ ends and apart second) }
{
    let (when_true, when_false) = second.into_parts();
    if and {
        return Ok(Branches::new(when_true, joined(alloc, apart, when_false)?));
    }
    Ok(Branches::new(joined(alloc, apart, when_true)?, when_false))
}
