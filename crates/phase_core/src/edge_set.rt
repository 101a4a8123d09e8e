// Sets of edges.
ghost use Rattle.std.specs.Prelude.{◌≡◌, IsTrue, IfOk, OnOk, OnErr};
ghost use Rattle.std.specs.FinSet as set;
ghost use Rattle.std.specs.BTreeSet as sorted;
ghost use Rattle.phase_core.specs.EdgeOrder.{edge_order};
ghost use Rattle.phase_core.specs.Inside.{folds_behind};
ghost use Rattle.phase_core.specs.Says.{ListsAll};
ghost use Rattle.phase_core.specs.Edges.{HasFold};

use crate::{Copied, CoreEdge};
use hack_types::{Kind, NameId, NoMemory, SymbolId};
use std::alloc::{AllocError, Global};
use std::collections::BTreeSet;
use std::marker::Model;

/// A `BTreeSet` of edges that contracts see as the finite set.
#[derive(Drop)]
pub struct EdgeSet {
    edges: BTreeSet<CoreEdge>,
}

impl Model for EdgeSet {
    ghost use Rattle.std.specs.FinSet as set;
    ghost use Rattle.phase_core.specs.EdgeOrder.{edge_order};
    ghost use Rattle.phase_core.specs.contracts.edge.CoreEdge as edge;

    ghost Value = { set.FinSet edge_order };

    ghost coded = { set.code edge.the_row.coded };

    ghost view = { λ s. set.from_list s.edges.keys };
}

impl EdgeSet {
    /// The set of no edge. It takes no memory.
    pub fn new(alloc: Global) -> Self
        ensures { result ≡ set.empty }
    {
        EdgeSet {
            edges: BTreeSet::new(alloc),
        }
    }

    /// Whether this edge is in it.
    pub fn contains(&self, edge: CoreEdge) -> bool
        ensures { result ≡ set.contains self.now edge }
    {
        self.edges.contains(&edge)
    }

    /// Puts an edge; after an error the set is as before.
    pub fn insert(&mut self, edge: CoreEdge) -> Result<(), NoMemory>
        ensures ok { OnOk result (self.new ≡ set.insert self.old edge) }
        ensures err { OnErr result (self.new ≡ self.old) }
    {
        self.edges.insert(edge)?;
        Ok(())
    }

    /// Its edges in their order, each once.
    pub fn edges(&self, alloc: Global) -> Result<Vec<CoreEdge>, NoMemory>
        ensures { IfOk result (λ l. ListsAll (λ e. IsTrue (set.contains self.now e)) l.items) }
    {
        Ok(keys_of(&self.edges, alloc)?)
    }

    /// Where the fold edges from this symbol lead.
    pub fn folds_from(&self, alloc: Global, from: SymbolId) -> Result<Vec<SymbolId>, NoMemory>
        ensures { IfOk result (λ list. ListsAll (HasFold self.now from) list.items) }
    {
        Ok(folds_among(&self.edges, from, alloc)?)
    }
}

// The keys, in their order.
fn keys_of(set: &BTreeSet<CoreEdge>, alloc: Global) -> Result<Vec<CoreEdge>, AllocError>
    ensures { IfOk result (λ keys. keys.items ≡ set.now.keys) }
{
    set.iter().copied().collect(alloc)
}

// Where the fold edges from this symbol lead: they stand together, behind the first edge that could
// be one.
fn folds_among(
    set: &BTreeSet<CoreEdge>,
    from: SymbolId,
    alloc: Global,
) -> Result<Vec<SymbolId>, AllocError>
    ensures list { IfOk result (λ list. list.items ≡ folds_behind from set.now.keys) }
    ensures ordered { sorted.IsOrdered edge_order set.now }
{
    let to = SymbolId {
        kind: Kind::Class,
        name: NameId::new(0),
    };
    let first = CoreEdge {
        fold: true,
        from,
        to,
    };
    set.range(first..)
        .take_while(|edge| edge.fold && edge.from == from)
        .map(|edge| edge.to)
        .collect(alloc)
}

impl Copied for EdgeSet {
    fn copied(&self, _alloc: Global) -> Result<Self, NoMemory> {
        Ok(EdgeSet {
            edges: self.edges.clone()?,
        })
    }
}
