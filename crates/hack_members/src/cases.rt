// Cases of enums.
ghost use Rattle.std.specs.Prelude.{◌≡◌, ◌==◌, IfOk, IsTrue};
ghost use Rattle.std.specs.List.{list_any};
ghost use Rattle.hack_decls.specs.Asks.{Asks, Nothing};
ghost use Rattle.hack_decls.specs.Names.{TypeIn, class_symbol};
ghost use Rattle.hack_rules.specs.Members.{is_constant};
ghost use Rattle.hack_walk.specs.Checks.{Steps, Walks, setting_of};
ghost use Rattle.hack_members.specs.Wanting.{tag_of, wanted_of};
ghost use Rattle.hack_members.specs.inside.Rows as row;

use crate::missing::missing;
use crate::visible::class_symbol;
use crate::{Sought, Wanted};
use hack_decls::{DeclStop, Decls, HeadingAnswer};
use hack_types::{HackType, NameId, NoMemory, Place};
use hack_walk::{Setting, State};
use std::alloc::Global;

/// What a member is of a head whose name is that of no class: the head itself where it is an enum with such a case, and else missing
/// (docs/language.md, Typing expressions, Members). `EdgesFull` says that a lookup's note was refused, and `NoMemory` that memory ran
/// out; what was noted before stays noted.
pub(crate) fn case_of<D: Decls>(
    alloc: Global,
    setting: &Setting<'_>,
    decls: &mut D,
    state: &mut State,
    at: Place,
    wanted: &Wanted<'_>,
    name: NameId,
    head: &HackType,
) -> Result<HackType, DeclStop>
    ensures { Walks (row.case_of at (wanted_of at wanted.now) name head.now) (setting_of setting.now)
        (D.state decls.old) state.old result (D.state decls.new) state.new
        (λ symbols. IsTrue (symbols (class_symbol name)) × TypeIn symbols head.now) TypeIn }
{
    let is_case = is_case(alloc, decls, wanted, name)?;
    Ok(case_or(alloc, setting, state, at, wanted, head, is_case)?)
}

// Whether it is a case of the enum of this name.
fn is_case<D: Decls>(
    alloc: Global,
    decls: &mut D,
    wanted: &Wanted<'_>,
    name: NameId,
) -> Result<bool, DeclStop>
    ensures { Asks (D.state decls.old) result (D.state decls.new)
        (λ map answer. answer
        ≡ row.is_case (tag_of wanted.now.sought) wanted.now.name (map (class_symbol name)))
        (λ symbols. IsTrue (symbols (class_symbol name))) Nothing }
{
    let heading = decls.heading(alloc, class_symbol(name))?;
    Ok(is_case_in(&heading, wanted))
}

fn is_case_in(heading: &HeadingAnswer, wanted: &Wanted<'_>) -> bool
    ensures { result
        ≡ row.is_case_in (tag_of wanted.now.sought) wanted.now.name heading.now }
{
    match heading {
        HeadingAnswer::Enum(sig) => {
            is_constant(&wanted.sought) && has_case(sig.cases.as_slice(), wanted.name)
        }
        _ => false,
    }
}

fn is_constant(sought: &Sought<'_>) -> bool
    ensures { result ≡ is_constant (tag_of sought.now) }
{
    matches!(sought, Sought::Constant { .. })
}

fn has_case(cases: &[NameId], name: NameId) -> bool
    ensures { result ≡ list_any (λ case. case == name) cases.now }
{
    cases.iter().any(|case| *case == name)
}

// The head, or what is missing of it.
fn case_or(
    alloc: Global,
    setting: &Setting<'_>,
    state: &mut State,
    at: Place,
    wanted: &Wanted<'_>,
    head: &HackType,
    is_case: bool,
) -> Result<HackType, NoMemory>
    ensures { Steps (row.case_or at (wanted_of at wanted.now) head.now is_case)
        (setting_of setting.now) state.old result state.new
        (λ symbols. TypeIn symbols head.now) TypeIn }
{
    if is_case {
        return Ok(head.copy(alloc)?);
    }
    missing(alloc, setting, state, at, wanted, head)
}
