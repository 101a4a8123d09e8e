// Calls of functions by their names.
ghost use Rattle.std.specs.Prelude.{◌≡◌, IsTrue, option_copied};
ghost use Rattle.hack_types.specs.declared.ids.Kind.TheVariants.{Func};
ghost use Rattle.hack_decls.specs.Names.{TypeIn};
ghost use Rattle.hack_walk.specs.Checks.{Walks, setting_of};
ghost use Rattle.hack_calls.specs.Named.{GivenIn, SignatureIn, function_called};
ghost use Rattle.hack_calls.specs.inside.Rows as row;

use crate::Argument;
use crate::calls::call_with;
use crate::reports::refuse_function;
use hack_decls::{DeclStop, Decls, HeadingAnswer};
use hack_infer::Filling;
use hack_types::{HackType, Kind, NameId, Place, Signature, SymbolId};
use hack_walk::{Setting, State};
use std::alloc::Global;

/// `f(..)` with typed arguments: the function of this name is called; where there is none it is 4002 and `_`
/// (docs/language.md, Typing expressions, Calls). `EdgesFull` says that a lookup's note was refused, and `NoMemory` that memory ran out;
/// what was noted before stays noted.
pub fn call_function<D: Decls>(
    alloc: Global,
    setting: &Setting<'_>,
    decls: &mut D,
    state: &mut State,
    at: Place,
    name: NameId,
    given: &[Argument],
) -> Result<HackType, DeclStop>
    ensures { Walks (function_called at name given.now) (setting_of setting.now)
        (D.state decls.old) state.old result (D.state decls.new) state.new
        (λ symbols. IsTrue (symbols (record { kind = Func; name = name }))
        × GivenIn symbols given.now) TypeIn }
{
    let symbol = SymbolId {
        kind: Kind::Func,
        name,
    };
    let heading = decls.heading(alloc, symbol)?;
    let ty = function_in(alloc, setting, decls, state, at, name, given, &heading);
    drop(heading);
    ty
}

// The declaration has this heading.
fn function_in<D: Decls>(
    alloc: Global,
    setting: &Setting<'_>,
    decls: &mut D,
    state: &mut State,
    at: Place,
    name: NameId,
    given: &[Argument],
    heading: &HeadingAnswer,
) -> Result<HackType, DeclStop>
    ensures { Walks (row.function_in at name given.now heading.now) (setting_of setting.now)
        (D.state decls.old) state.old result (D.state decls.new) state.new
        (λ symbols. row.HeadingIn symbols heading.now × GivenIn symbols given.now) TypeIn }
{
    match signature_in(heading) {
        Some(signature) => call_alone(alloc, setting, decls, state, at, signature, given),
        None => Ok(refuse_function(alloc, setting, state, at, name)?),
    }
}

fn signature_in(heading: &HeadingAnswer) -> Option<&Signature>
    ensures { option_copied result ≡ row.signature_in heading.now }
{
    match heading {
        HeadingAnswer::Function(signature) => Some(signature),
        _ => None,
    }
}

// A function has no class and no `this`.
fn call_alone<D: Decls>(
    alloc: Global,
    setting: &Setting<'_>,
    decls: &mut D,
    state: &mut State,
    at: Place,
    signature: &Signature,
    given: &[Argument],
) -> Result<HackType, DeclStop>
    ensures { Walks (row.call_alone at signature.now given.now) (setting_of setting.now)
        (D.state decls.old) state.old result (D.state decls.new) state.new
        (λ symbols. SignatureIn symbols signature.now × GivenIn symbols given.now) TypeIn }
{
    let around = Filling {
        class: None,
        function: None,
        this: None,
    };
    call_with(alloc, setting, decls, state, at, signature, &around, given)
}
