// Heads: what a type is once aliases and parameters are looked through.
ghost use Rattle.std.specs.Prelude.{◌≡◌, IfOk, option_copied, unwrap_or};
ghost use Rattle.hack_types.specs.declared.hack_type.HackType.TheVariants.{Any};
ghost use Rattle.hack_decls.specs.Asks.{Asks};
ghost use Rattle.hack_decls.specs.Names.{TypeIn};
ghost use Rattle.hack_infer.specs.declared.sight.Sight.TheVariants as sight;
ghost use Rattle.hack_rules.specs.Heads.{first_bound, first_or_mixed, head_of, head_within, is_class_of};
ghost use Rattle.hack_sub.specs.Named.{Around};
ghost use Rattle.hack_sub.specs.Scopes.{class_type};
ghost use Rattle.hack_calls.specs.Named.{or_self};
ghost use Rattle.hack_calls.specs.inside.Rows as row;
ghost use Rattle.hack_calls.specs.inside.Rows.{StageIn};

use hack_decls::{DeclStop, Decls};
use hack_infer::{MOST_STEPS, Sight, sight_of};
use hack_sub::{Scope, class_type, name_of, param_of};
use hack_types::{HackType, NameId, NoMemory, TypeParam};
use std::alloc::Global;

/// What a type is once aliases and parameters are looked through, in at most sixteen steps: an alias stands for its type, a parameter for
/// its first bound, and `this` for the scope's class; none where the type is its own head (docs/language.md, Typing expressions, Heads).
/// `EdgesFull` says that a lookup's note was refused, and `NoMemory` that memory ran out; what was noted before stays noted.
pub fn head_of<D: Decls>(
    alloc: Global,
    decls: &mut D,
    scope: &Scope,
    ty: &HackType,
) -> Result<Option<HackType>, DeclStop>
    ensures { Asks (D.state decls.old) result (D.state decls.new)
        (λ map answer. or_self ty.now answer ≡ head_of map scope.now ty.now)
        (λ symbols. Around symbols scope.now × TypeIn symbols ty.now)
        (λ symbols answer. TypeIn symbols (or_self ty.now answer)) }
{
    let stage = stage_of(alloc, decls, scope, ty)?;
    match stage {
        Stage::Next(next) => {
            let head = head_within(alloc, decls, scope, MOST_STEPS - 1, next)?;
            Ok(Some(head))
        }
        Stage::Settled(head) => Ok(Some(head)),
        Stage::Own => Ok(None),
    }
}

/// The head of a type, where it isn't the type itself.
pub fn or_self<'a>(head: &'a Option<HackType>, ty: &'a HackType) -> &'a HackType
    ensures { result.now ≡ or_self ty.now head.now }
{
    match head {
        Some(head) => head,
        None => ty,
    }
}

// What one step makes of a type.
#[derive(Drop)]
enum Stage {
    // The type that it goes on with.
    Next(HackType),
    // Another type, and no further step.
    Settled(HackType),
    // The type itself.
    Own,
}

// The head, in at most so many further steps; one more gives `_`.
#[cycle(head_within)]
fn head_within<D: Decls>(
    alloc: Global,
    decls: &mut D,
    scope: &Scope,
    steps: u32,
    ty: HackType,
) -> Result<HackType, DeclStop>
    ensures { Asks (D.state decls.old) result (D.state decls.new)
        (λ map answer. answer ≡ head_within steps map scope.now ty)
        (λ symbols. Around symbols scope.now × TypeIn symbols ty) TypeIn }
{
    let stage = stage_of(alloc, decls, scope, &ty)?;
    match stage {
        Stage::Next(next) => {
            if steps == 0 {
                return Ok(HackType::Any);
            }
            head_within(alloc, decls, scope, steps - 1, next)
        }
        Stage::Settled(head) => Ok(head),
        Stage::Own => Ok(ty),
    }
}

fn stage_of<D: Decls>(
    alloc: Global,
    decls: &mut D,
    scope: &Scope,
    ty: &HackType,
) -> Result<Stage, DeclStop>
    ensures { Asks (D.state decls.old) result (D.state decls.new)
        (λ map answer. answer ≡ row.stage_of map scope.now ty.now)
        (λ symbols. Around symbols scope.now × TypeIn symbols ty.now) StageIn }
{
    match name_of(ty) {
        Some(name) => named_stage(alloc, decls, scope, ty, name),
        None => Ok(plain_stage(alloc, scope, ty)?),
    }
}

// An alias stands for its type, and a bad type is `_` unless it is of the scope's class.
fn named_stage<D: Decls>(
    alloc: Global,
    decls: &mut D,
    scope: &Scope,
    ty: &HackType,
    name: NameId,
) -> Result<Stage, DeclStop>
    ensures { Asks (D.state decls.old) result (D.state decls.new)
        (λ map answer. answer ≡ row.named_stage map scope.now ty.now name)
        (λ symbols. TypeIn symbols ty.now) StageIn }
{
    let sight = sight_of(alloc, decls, ty)?;
    Ok(sight_stage(sight, is_class_of(scope, name)))
}

fn sight_stage(sight: Sight, own: bool) -> Stage
    ensures { result ≡ row.sight_stage own sight }
{
    match sight {
        Sight::Alias(next) => Stage::Next(next),
        Sight::Bad => bad_stage(own),
        Sight::Other => Stage::Own,
    }
}

fn bad_stage(own: bool) -> Stage
    ensures { result ≡ row.sight_stage own sight.Bad }
{
    if own {
        Stage::Own
    } else {
        Stage::Settled(HackType::Any)
    }
}

fn is_class_of(scope: &Scope, name: NameId) -> bool
    ensures { result ≡ is_class_of scope.now name }
{
    match &scope.class {
        Some((class, _)) => *class == name,
        None => false,
    }
}

// Without a name: a parameter goes on with its first bound, and `this` is the scope's class.
fn plain_stage(alloc: Global, scope: &Scope, ty: &HackType) -> Result<Stage, NoMemory>
    ensures { IfOk result (λ stage. stage ≡ row.plain_stage scope.now ty.now) }
{
    match ty {
        HackType::ClassParam(_, _) | HackType::FunParam(_, _) => {
            Ok(Stage::Next(first_bound(alloc, param_of(scope, ty))?))
        }
        HackType::This => Ok(Stage::Settled(class_or_any(alloc, scope)?)),
        _ => Ok(Stage::Own),
    }
}

// The first bound behind `as`, and `mixed` where there is none.
fn first_bound(alloc: Global, param: Option<&TypeParam>) -> Result<HackType, NoMemory>
    ensures { IfOk result (λ bound. bound ≡ first_bound (option_copied param.entry)) }
{
    match param {
        Some(param) => first_or_mixed(alloc, param.upper.as_slice()),
        None => Ok(HackType::Mixed),
    }
}

fn first_or_mixed(alloc: Global, bounds: &[HackType]) -> Result<HackType, NoMemory>
    ensures { IfOk result (λ bound. bound ≡ first_or_mixed bounds.now) }
{
    match bounds.first() {
        Some(bound) => bound.copy(alloc),
        None => Ok(HackType::Mixed),
    }
}

fn class_or_any(alloc: Global, scope: &Scope) -> Result<HackType, NoMemory>
    ensures { IfOk result (λ class. class ≡ unwrap_or (class_type scope.now) Any) }
{
    match class_type(alloc, scope)? {
        Some(class) => Ok(class),
        None => Ok(HackType::Any),
    }
}
