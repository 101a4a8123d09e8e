//! How statements end, blocks of them, and loops (docs/language.md, Typing statements).
#![tactic(auto)]

mod blocks;
mod exits;
mod for_turns;
mod foreach_turns;
mod foreach_types;
mod inside;
mod loops;
mod passes;
mod turns;

pub use blocks::{block, here};
pub use exits::{Exits, either_end, with_leaves};
pub use inside::Inside;
pub use loops::{do_loop, for_loop, foreach_loop, while_loop};
