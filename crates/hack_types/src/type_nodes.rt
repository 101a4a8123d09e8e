// How large a type is.
ghost use Rattle.std.specs.Prelude.{◌≡◌, ◌+◌, ◌<◌, ◌≤◌, ◌↔◌, IsTrue, IfSome, IfNone, sum, sum_by};
ghost use Rattle.hack_types.specs.TypeNodes.{nodes};

use crate::{Fields, HackType};
use sqlite_items::Items;

impl HackType {
    /// Whether the type has at most `limit` nodes. It visits no more than that many (docs/language.md, Types and their texts).
    pub fn is_within(&self, limit: u32) -> bool
        ensures { IsTrue result ↔ (nodes self.now ≤ limit) }
    {
        self.take_nodes(limit).is_some()
    }

    /// What is left of a number of nodes once those of the type are taken from it, where it has as many. It visits no more than that
    /// many (docs/language.md, Types and their texts).
    #[cycle(nodes)]
    #[tactic(auto, using(crate::specs::NodeLaws::nodes_of_shape, crate::specs::NodeLaws::nodes_of_class, crate::specs::NodeLaws::nodes_of_union))]
    pub fn take_nodes(&self, left: u32) -> Option<u32>
        ensures some { IfSome result (λ rest. rest + nodes self.now ≡ left) }
        ensures none { IfNone result (left < nodes self.now) }
    {
        let left = left.checked_sub(1)?;
        match self {
            HackType::Option(inside) => inside.get().take_nodes(left),
            HackType::Vector(item) | HackType::Keyset(item) => item.get().take_nodes(left),
            HackType::Dict(key, value) => value.get().take_nodes(key.get().take_nodes(left)?),
            HackType::Shape { fields, .. } => take_fields(fields, left),
            HackType::Class(_, types) | HackType::Union(types) => take_all(types, left),
            _ => Some(left),
        }
    }
}

#[cycle(nodes)]
#[tactic(auto, using(crate::specs::NodeLaws::more_of_all))]
fn take_all(types: &Items<HackType>, left: u32) -> Option<u32>
    ensures some { IfSome result (λ rest. rest + sum_by nodes types.now ≡ left) }
    ensures none { IfNone result (left < sum_by nodes types.now) }
{
    let mut rest = left;
    for ty in types.as_slice() {
        rest = ty.take_nodes(rest)?;
    }
    Some(rest)
}

#[cycle(nodes)]
#[tactic(auto, using(crate::specs::NodeLaws::more_of_fields))]
fn take_fields(fields: &Fields<HackType>, left: u32) -> Option<u32>
    ensures some { IfSome result (λ rest. rest + sum_by (λ field. nodes field.ty) fields.now ≡ left) }
    ensures none { IfNone result (left < sum_by (λ field. nodes field.ty) fields.now) }
{
    let mut rest = left;
    for field in fields.as_slice() {
        rest = field.ty.take_nodes(rest)?;
    }
    Some(rest)
}
