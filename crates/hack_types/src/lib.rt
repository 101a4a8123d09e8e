//! What every layer of the checker speaks of: names and symbols, places and diagnostics.
#![tactic(auto)]

mod diag;
mod fields;
mod hack_type;
mod ids;
mod names;
mod no_memory;
mod place;
mod rising;
mod shallow;
mod signature;
mod type_copy;
mod type_nodes;
mod type_option;
mod type_same;
mod type_substitute;
mod type_texts;
mod type_union;

pub use diag::{Diag, FileDiag};
pub use fields::{Field, Fields};
pub use hack_type::HackType;
pub use ids::{Kind, NameId, SymbolId};
pub use names::Names;
pub use no_memory::NoMemory;
pub use place::Place;
pub use rising::{Members, NameSet};
pub use shallow::{AliasSig, ClassSig, EnumSig, Member, MemberKind, Shallow, Sort, Visibility};
pub use signature::{Param, Signature, TypeParam, Variance};
pub use type_option::{into_option, option_of};
pub use type_substitute::{MOST_NODES, SubstStop, limited, substitute};
pub use type_texts::{name_text, type_text};
pub use type_union::union_of;
