// Literals, and constants by their names.
ghost use Rattle.std.specs.Prelude.{◌≡◌, IfSome, IsTrue};
ghost use Rattle.hack_decls.specs.Asks.{Asks};
ghost use Rattle.hack_decls.specs.Names.{TypeIn};
ghost use Rattle.hack_diag.specs.Messages.{unbound_constant};
ghost use Rattle.hack_rules.specs.Values.{constant_row, literal_type};
ghost use Rattle.hack_rules.specs.Walks.{refuse};
ghost use Rattle.hack_types.specs.declared.ids.Kind.TheVariants.{Const};
ghost use Rattle.hack_walk.specs.Checks.{Steps, Walks, setting_of};
ghost use Rattle.hack_values.specs.inside.Rows.{constant_by, constant_in, declared_or};

use hack_decls::{DeclStop, Decls, HeadingAnswer};
use hack_diag::unbound_constant;
use hack_tree::Literal;
use hack_types::{HackType, Kind, NameId, NoMemory, Place, SymbolId};
use hack_walk::{Setting, State};
use std::alloc::Global;

/// The primitive that a literal is of (docs/language.md, Typing expressions).
pub fn literal_type(literal: Literal) -> HackType
    ensures { result ≡ literal_type literal }
{
    match literal {
        Literal::Int => HackType::Int,
        Literal::Float => HackType::Float,
        Literal::Text | Literal::KeyText(_) => HackType::Str,
        Literal::True | Literal::False => HackType::Bool,
        Literal::Null => HackType::Null,
    }
}

/// The type of the constant of this name; where there is none 4003 at this place, and `_` (docs/language.md, Typing expressions).
/// `EdgesFull` says that a lookup's note was refused, and `NoMemory` that memory ran out; what was noted before stays noted.
pub fn constant<D: Decls>(
    alloc: Global,
    setting: &Setting<'_>,
    decls: &mut D,
    state: &mut State,
    at: Place,
    name: NameId,
) -> Result<HackType, DeclStop>
    ensures { Walks (constant_row at name) (setting_of setting.now)
        (D.state decls.old) state.old result (D.state decls.new) state.new
        (λ symbols. IsTrue (symbols (record { kind = Const; name = name }))) TypeIn }
{
    let found = declared(alloc, decls, name)?;
    Ok(declared_or(alloc, setting, state, at, name, found)?)
}

// The type of the constant that is declared under this name.
fn declared<D: Decls>(
    alloc: Global,
    decls: &mut D,
    name: NameId,
) -> Result<Option<HackType>, DeclStop>
    ensures { Asks (D.state decls.old) result (D.state decls.new)
        (λ map answer. answer ≡ constant_by (map (record { kind = Const; name = name })))
        (λ symbols. IsTrue (symbols (record { kind = Const; name = name })))
        (λ symbols answer. IfSome answer (TypeIn symbols)) }
{
    let symbol = SymbolId {
        kind: Kind::Const,
        name,
    };
    let heading = decls.heading(alloc, symbol)?;
    Ok(constant_in(heading))
}

fn constant_in(heading: HeadingAnswer) -> Option<HackType>
    ensures { result ≡ constant_in heading }
{
    match heading {
        HeadingAnswer::Constant(ty) => Some(ty),
        _ => None,
    }
}

// Its type, where there is one.
fn declared_or(
    alloc: Global,
    setting: &Setting<'_>,
    state: &mut State,
    at: Place,
    name: NameId,
    found: Option<HackType>,
) -> Result<HackType, NoMemory>
    ensures { Steps (declared_or at name found) (setting_of setting.now) state.old result state.new
        (λ symbols. IfSome found (TypeIn symbols)) TypeIn }
{
    match found {
        Some(ty) => Ok(ty),
        None => refuse_constant(alloc, setting, state, at, name),
    }
}

// 4003: there is no constant of this name.
fn refuse_constant(
    alloc: Global,
    setting: &Setting<'_>,
    state: &mut State,
    at: Place,
    name: NameId,
) -> Result<HackType, NoMemory>
    ensures { Steps (refuse at (unbound_constant name)) (setting_of setting.now)
        state.old result state.new (λ symbols. Unit {0}) TypeIn }
{
    let diag = unbound_constant(alloc, setting.names, at, name)?;
    state.report(diag)?;
    Ok(HackType::Any)
}
