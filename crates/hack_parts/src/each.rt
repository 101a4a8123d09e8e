// Several parts, one after another.
ghost use Rattle.std.specs.Prelude.{◌≡◌, ◌++◌, ◌∷◌, [], All, OnOk};
ghost use Rattle.hack_decls.specs.Names.{TypeIn};
ghost use Rattle.hack_rules.specs.Walks.{each};
ghost use Rattle.hack_walk.specs.Checks.{Walks, setting_of};
ghost use Rattle.hack_parts.specs.ExprIn.{ExprIn};
ghost use Rattle.hack_parts.specs.Parts.{Values, value_of};

use crate::Reading;
use hack_decls::{DeclStop, Decls};
use hack_tree::Expr;
use hack_types::{HackType, NoMemory};
use hack_walk::{Setting, State};
use sqlite_items::Items;
use std::alloc::Global;

/// The types of these, each as a value, in their order (docs/language.md, Typing expressions). `EdgesFull` says that a lookup's note was
/// refused, and `NoMemory` that memory ran out; what was noted before stays noted.
pub fn types_of_each<
    D: Decls,
    F: Fn(Global, &Setting<'_>, &mut D, &mut State, &Expr, Reading) -> Result<HackType, DeclStop>,
>(
    value: &F,
    alloc: Global,
    setting: &Setting<'_>,
    decls: &mut D,
    state: &mut State,
    parts: &[Expr],
) -> Result<Items<HackType>, DeclStop>
    requires parts { All (λ e. Values D.state e (F.pre value.now) (F.post value.now)) parts.now }
    ensures { Walks (each value_of parts.now) (setting_of setting.now)
        (D.state decls.old) state.old result (D.state decls.new) state.new
        (λ symbols. All (ExprIn setting.now.scope.now symbols) parts.now)
        (λ symbols types. All (TypeIn symbols) types) }
{
    let mut types = Items::new(alloc);
    for part in parts {
        let ty = value(alloc, setting, decls, state, part, Reading::Value)?;
        push(&mut types, ty)?;
    }
    Ok(types)
}

fn push(types: &mut Items<HackType>, ty: HackType) -> Result<(), NoMemory>
    ensures { OnOk result (types.new ≡ types.old ++ ty ∷ []) }
{
    Ok(types.push(ty)?)
}
