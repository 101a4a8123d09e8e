// What stands behind `::`.
ghost use Rattle.std.specs.Prelude.{◌≡◌, All, IfSome, map};
ghost use Rattle.hack_calls.specs.Named.{GivenIn};
ghost use Rattle.hack_decls.specs.Names.{TypeIn};
ghost use Rattle.hack_members.specs.Wanting.{SoughtIn, static_of, wanted_of};
ghost use Rattle.hack_parts.specs.ExprIn.{ExprIn, MemberIn, ReferenceIn};
ghost use Rattle.hack_parts.specs.Forms as forms;
ghost use Rattle.hack_parts.specs.Parts.{Values};
ghost use Rattle.hack_rules.specs.Expressions.{meaning_of};
ghost use Rattle.hack_rules.specs.Members.{member_of};
ghost use Rattle.hack_rules.specs.Uses as uses;
ghost use Rattle.hack_rules.specs.Uses.{class_constant, constant_walk, static_call, static_property, static_use, through};
ghost use Rattle.hack_uses.specs.SubParts.{AllInMember};
ghost use Rattle.hack_walk.specs.Checks.{Walks, setting_of};

use crate::arguments::arguments_of;
use hack_calls::{referred, shown_name};
use hack_decls::{DeclStop, Decls};
use hack_members::{Sought, StaticUse, Wanted, member_of};
use hack_parts::Reading;
use hack_sub::Scope;
use hack_tree::{ClassReference, Expr, ScopedMember};
use hack_types::{HackType, NameId, Place};
use hack_walk::{Setting, State};
use std::alloc::Global;

/// A class and what stands behind `::`, as a value (docs/language.md, Typing expressions, Members). `EdgesFull` says that a lookup's
/// note was refused, and `NoMemory` that memory ran out; what was noted before stays noted.
pub fn scoped<
    D: Decls,
    F: Fn(Global, &Setting<'_>, &mut D, &mut State, &Expr, Reading) -> Result<HackType, DeclStop>,
>(
    value: &F,
    alloc: Global,
    setting: &Setting<'_>,
    decls: &mut D,
    state: &mut State,
    at: Place,
    class: &ClassReference,
    member: &ScopedMember,
) -> Result<HackType, DeclStop>
    requires { AllInMember (λ e. Values D.state e (F.pre value.now) (F.post value.now)) member.now }
    ensures { Walks (forms.member_of member.now at class.now).walk (setting_of setting.now)
        (D.state decls.old) state.old result (D.state decls.new) state.new
        (λ symbols. ReferenceIn symbols class.now
        × MemberIn setting.now.scope.now symbols member.now) TypeIn }
{
    match member {
        ScopedMember::Property { name } => {
            static_property(alloc, setting, decls, state, at, class, *name)
        }
        ScopedMember::Word { name, arguments } => match arguments {
            Some(arguments) => static_call(
                value,
                alloc,
                setting,
                decls,
                state,
                at,
                class,
                *name,
                arguments.as_slice(),
            ),
            None => class_constant(alloc, setting, decls, state, at, class, *name),
        },
    }
}

/// `C::$p` (docs/language.md, Typing expressions, Members). The errors are as those of `scoped`.
pub fn static_property<D: Decls>(
    alloc: Global,
    setting: &Setting<'_>,
    decls: &mut D,
    state: &mut State,
    at: Place,
    class: &ClassReference,
    name: NameId,
) -> Result<HackType, DeclStop>
    ensures { Walks (static_property at class.now name) (setting_of setting.now)
        (D.state decls.old) state.old result (D.state decls.new) state.new
        (λ symbols. ReferenceIn symbols class.now) TypeIn }
{
    let ty = referred(alloc, setting, decls, state, at, class)?;
    let wanted = Wanted {
        name,
        static_use: StaticUse::StaticAlone,
        null_safe: false,
        sought: Sought::Property,
    };
    through(alloc, setting, decls, state, at, &wanted, &ty)
}

// `C::K`
fn class_constant<D: Decls>(
    alloc: Global,
    setting: &Setting<'_>,
    decls: &mut D,
    state: &mut State,
    at: Place,
    class: &ClassReference,
    name: NameId,
) -> Result<HackType, DeclStop>
    ensures { Walks (class_constant at class.now name) (setting_of setting.now)
        (D.state decls.old) state.old result (D.state decls.new) state.new
        (λ symbols. ReferenceIn symbols class.now) TypeIn }
{
    let ty = referred(alloc, setting, decls, state, at, class)?;
    constant_through(alloc, setting, decls, state, at, class, name, &ty)
}

// A constant of a type, and `_` where there is none.
fn constant_through<D: Decls>(
    alloc: Global,
    setting: &Setting<'_>,
    decls: &mut D,
    state: &mut State,
    at: Place,
    class: &ClassReference,
    name: NameId,
    ty: &Option<HackType>,
) -> Result<HackType, DeclStop>
    ensures { Walks (through (constant_walk at class.now name) ty.now) (setting_of setting.now)
        (D.state decls.old) state.old result (D.state decls.new) state.new
        (λ symbols. IfSome ty.now (TypeIn symbols)) TypeIn }
{
    match ty {
        Some(ty) => constant_of(alloc, setting, decls, state, at, class, name, ty),
        None => Ok(HackType::Any),
    }
}

fn constant_of<D: Decls>(
    alloc: Global,
    setting: &Setting<'_>,
    decls: &mut D,
    state: &mut State,
    at: Place,
    class: &ClassReference,
    name: NameId,
    ty: &HackType,
) -> Result<HackType, DeclStop>
    ensures { Walks (constant_walk at class.now name ty.now) (setting_of setting.now)
        (D.state decls.old) state.old result (D.state decls.new) state.new
        (λ symbols. TypeIn symbols ty.now) TypeIn }
{
    let shown = shown_name(class, ty, setting.scope);
    let wanted = Wanted {
        name,
        static_use: StaticUse::AnyUse,
        null_safe: false,
        sought: Sought::Constant { shown },
    };
    member_of(alloc, setting, decls, state, at, &wanted, ty)
}

// `C::m(..)`
fn static_call<
    D: Decls,
    F: Fn(Global, &Setting<'_>, &mut D, &mut State, &Expr, Reading) -> Result<HackType, DeclStop>,
>(
    value: &F,
    alloc: Global,
    setting: &Setting<'_>,
    decls: &mut D,
    state: &mut State,
    at: Place,
    class: &ClassReference,
    name: NameId,
    arguments: &[Expr],
) -> Result<HackType, DeclStop>
    requires { All (λ e. Values D.state e (F.pre value.now) (F.post value.now)) arguments.now }
    ensures { Walks (static_call at class.now name (map meaning_of arguments.now))
        (setting_of setting.now) (D.state decls.old) state.old result (D.state decls.new) state.new
        (λ symbols. ReferenceIn symbols class.now
        × All (ExprIn setting.now.scope.now symbols) arguments.now) TypeIn }
{
    let ty = referred(alloc, setting, decls, state, at, class)?;
    let given = arguments_of(value, alloc, setting, decls, state, arguments)?;
    let wanted = Wanted {
        name,
        static_use: static_use(class, setting.scope),
        null_safe: false,
        sought: Sought::Method {
            given: given.as_slice(),
        },
    };
    through(alloc, setting, decls, state, at, &wanted, &ty)
}

// A method needn't be static behind `parent::` in one that isn't static.
fn static_use(class: &ClassReference, scope: &Scope) -> StaticUse
    ensures { static_of result ≡ static_use class.now scope.now }
{
    match class {
        ClassReference::Parent => {
            if scope.in_static {
                StaticUse::StaticAlone
            } else {
                StaticUse::AnyUse
            }
        }
        ClassReference::Named(_) => StaticUse::StaticAlone,
        ClassReference::Self_ => StaticUse::StaticAlone,
        ClassReference::Static => StaticUse::StaticAlone,
    }
}

// A member of a type, and `_` where there is none.
fn through<D: Decls>(
    alloc: Global,
    setting: &Setting<'_>,
    decls: &mut D,
    state: &mut State,
    at: Place,
    wanted: &Wanted<'_>,
    ty: &Option<HackType>,
) -> Result<HackType, DeclStop>
    ensures { Walks (through (member_of at (wanted_of at wanted.now)) ty.now) (setting_of setting.now)
        (D.state decls.old) state.old result (D.state decls.new) state.new
        (λ symbols. IfSome ty.now (TypeIn symbols) × SoughtIn symbols wanted.now) TypeIn }
{
    match ty {
        Some(ty) => member_of(alloc, setting, decls, state, at, wanted, ty),
        None => Ok(HackType::Any),
    }
}
