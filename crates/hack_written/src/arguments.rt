// Arguments against the parameters that they stand for.
ghost use Rattle.std.specs.Prelude.{◌≡◌, ◌==◌, All, IfOk, OnOk, length, map};
ghost use Rattle.std.specs.List.{list_all};
ghost use Rattle.hack_types.specs.Substituted.{limited};
ghost use Rattle.hack_decls.specs.Asks.{Nothing};
ghost use Rattle.hack_decls.specs.Names.{TypeIn};
ghost use Rattle.hack_sub.specs.IsBelow.{is_small};
ghost use Rattle.hack_diag.specs.Messages.{other_arguments};
ghost use Rattle.hack_rules.specs.WrittenTypes.{expect_arguments};
ghost use Rattle.hack_written.specs.Reported.{reported};
ghost use Rattle.hack_walk.specs.Checks.{Walks, setting_of};
ghost use Rattle.hack_written.specs.Within.{ParamsIn, arguments_of};
ghost use Rattle.hack_written.specs.inside.Rows as row;
ghost use Rattle.hack_written.specs.inside.Rows.{names_in, setting_in};

use crate::around::Around;
use crate::bounds::expect_within;
use crate::parts::{is_small, place_of};
use crate::reports::report_count;
use hack_decls::{DeclStop, Decls};
use hack_infer::Filling;
use hack_tree::{ClassType, WrittenType};
use hack_types::{HackType, NoMemory, TypeParam, limited};
use hack_walk::{Setting, State};
use sqlite_items::Items;
use std::alloc::Global;

/// 3002 for another number of arguments; else each is within its bounds, where these are tried.
pub(crate) fn count_arguments<D: Decls>(
    around: &Around<'_>,
    decls: &mut D,
    state: &mut State,
    class: &ClassType,
    params: &[TypeParam],
    types: &[HackType],
) -> Result<(), DeclStop>
    requires { types.now ≡ row.types_in (names_in around.now) class.now.arguments }
    ensures { Walks
        (row.count_arguments (names_in around.now) around.now.bounds class.now params.now)
        (setting_in around.now) (D.state decls.old) state.old result (D.state decls.new) state.new
        (λ symbols. All (TypeIn symbols) types.now × ParamsIn symbols params.now) Nothing }
{
    if !is_right_number(class, params) {
        report_number(around, state, class, params)?;
        return Ok(());
    }
    let bounds = around.bounds;
    if !bounds {
        return Ok(());
    }
    expect_limited(
        around,
        decls,
        state,
        params,
        class.arguments.as_slice(),
        types,
    )
}

fn is_right_number(class: &ClassType, params: &[TypeParam]) -> bool
    ensures { result ≡ (length params.now == length class.now.arguments) }
{
    params.len() == class.arguments.len()
}

fn report_number(
    around: &Around<'_>,
    state: &mut State,
    class: &ClassType,
    params: &[TypeParam],
) -> Result<(), NoMemory>
    ensures { OnOk result (state.new ≡ reported (setting_in around.now) class.now.at
        (other_arguments class.now.name (length params.now) (length class.now.arguments))
        state.old) }
{
    let wanted = params.len();
    let found = class.arguments.len();
    report_count(
        around.alloc,
        around.setting,
        state,
        class.at,
        class.name,
        wanted,
        found,
    )
}

// An argument of more than 256 nodes counts as `_`.
fn expect_limited<D: Decls>(
    around: &Around<'_>,
    decls: &mut D,
    state: &mut State,
    params: &[TypeParam],
    written: &[WrittenType],
    types: &[HackType],
) -> Result<(), DeclStop>
    requires { length written.now ≡ length types.now }
    ensures { Walks (expect_arguments params.now (arguments_of written.now (map limited types.now)))
        (setting_in around.now) (D.state decls.old) state.old result (D.state decls.new) state.new
        (λ symbols. All (TypeIn symbols) types.now × ParamsIn symbols params.now) Nothing }
{
    if are_small(types) {
        return expect_arguments(
            around.alloc,
            around.setting,
            decls,
            state,
            params,
            written,
            types,
        );
    }
    let small = limited_copies(around.alloc, types)?;
    let done = expect_arguments(
        around.alloc,
        around.setting,
        decls,
        state,
        params,
        written,
        small.as_slice(),
    );
    drop(small);
    done
}

fn are_small(types: &[HackType]) -> bool
    ensures { result ≡ list_all is_small types.now }
{
    types.iter().all(|ty| is_small(ty))
}

fn limited_copies(alloc: Global, types: &[HackType]) -> Result<Items<HackType>, NoMemory>
    ensures { IfOk result (λ small. small ≡ map limited types.now) }
{
    let mut small = Items::new(alloc);
    for ty in types {
        small.push(limited(ty.copy(alloc)?))?;
    }
    Ok(small)
}

/// The arguments of a declaration, each against its parameter, as far as both lists go: 3212 at an argument that isn't within its
/// bounds, into which the arguments are put. These are written so, and have these types (docs/language.md, Written types). `EdgesFull`
/// says that a lookup's note was refused, and `NoMemory` that memory ran out; what was noted before stays noted.
pub fn expect_arguments<D: Decls>(
    alloc: Global,
    setting: &Setting<'_>,
    decls: &mut D,
    state: &mut State,
    params: &[TypeParam],
    written: &[WrittenType],
    types: &[HackType],
) -> Result<(), DeclStop>
    requires { length written.now ≡ length types.now }
    ensures { Walks (expect_arguments params.now (arguments_of written.now types.now))
        (setting_of setting.now) (D.state decls.old) state.old result (D.state decls.new) state.new
        (λ symbols. All (TypeIn symbols) types.now × ParamsIn symbols params.now) Nothing }
{
    let filling = Filling {
        class: Some(types),
        function: None,
        this: None,
    };
    let count = params.len().min(types.len());
    for index in 0..count {
        expect_within(
            alloc,
            setting,
            decls,
            state,
            &filling,
            place_of(&written[index]),
            &params[index],
            &types[index],
        )?;
    }
    Ok(())
}
