// How a statement ends.
ghost use Rattle.std.specs.Prelude.{◌≡◌, [], IfOk};
ghost use Rattle.hack_flow.specs.Settled.{ends_of, exits_of, is_reached, normal_of, variables_of};
ghost use Rattle.hack_rules.specs.Ends.{either_end, with_leaves};

use hack_types::NoMemory;
use hack_walk::{Variables, either};
use std::alloc::Global;

/// How a statement ends: whether a path goes on behind it, with the variables that then stand in the state, and the variables with which it is
/// left (docs/language.md, Typing statements).
#[derive(Drop)]
pub struct Exits {
    /// Whether a path goes on behind it.
    pub reached: bool,
    /// The variables at its breaks, where it has any.
    pub breaks: Option<Variables>,
    /// The variables at its continues, where it has any.
    pub continues: Option<Variables>,
}

/// The ends of one of two, each with the variables of its normal end (docs/language.md, Typing statements). An error says that memory ran out.
pub fn either_end(
    alloc: Global,
    left: Exits,
    left_here: Variables,
    right: Exits,
    right_here: Variables,
) -> Result<(Exits, Variables), NoMemory>
    ensures exits { IfOk result (λ both. both.0
        ≡ exits_of (either_end (ends_of left left_here) (ends_of right right_here))) }
    ensures here { IfOk result (λ both. both.1
        ≡ variables_of (either_end (ends_of left left_here) (ends_of right right_here)).normal) }
{
    let left_normal = normal_end(left.reached, left_here);
    let right_normal = normal_end(right.reached, right_here);
    let normal = either(alloc, left_normal, right_normal)?;
    let reached = is_reached(&normal);
    let exits = with_leaves(
        alloc,
        left,
        Exits {
            reached,
            breaks: right.breaks,
            continues: right.continues,
        },
    )?;
    Ok((exits, variables_or_none(alloc, normal)))
}

/// The ends so far with the breaks and the continues of a further statement among them; whether a path goes on is the further one's
/// (docs/language.md, Typing statements). An error says that memory ran out.
pub fn with_leaves(alloc: Global, so_far: Exits, exits: Exits) -> Result<Exits, NoMemory>
    ensures { IfOk result (λ answer. answer
        ≡ exits_of (with_leaves (ends_of so_far []) (ends_of exits []) (ends_of exits []).normal)) }
{
    let breaks = either(alloc, so_far.breaks, exits.breaks)?;
    let continues = either(alloc, so_far.continues, exits.continues)?;
    Ok(Exits {
        reached: exits.reached,
        breaks,
        continues,
    })
}

// The normal end, where a path goes on.
pub(crate) fn normal_end(reached: bool, here: Variables) -> Option<Variables>
    ensures { result ≡ normal_of reached here }
{
    if reached { Some(here) } else { None }
}

fn is_reached(normal: &Option<Variables>) -> bool
    ensures { result ≡ is_reached normal.now }
{
    match normal {
        Some(_) => true,
        None => false,
    }
}

// The variables of a normal end, and none where there is no such end.
fn variables_or_none(alloc: Global, normal: Option<Variables>) -> Variables
    ensures { result ≡ variables_of normal }
{
    match normal {
        Some(here) => here,
        None => Variables::new(alloc),
    }
}
