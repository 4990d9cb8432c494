//! Orders and cycles of a graph that is given by its edges. Invariant: ranks fall along each edge, or the points of a cycle are named. Used by `hp_cause`, `hp_circuit`, `hp_complete`; its specs by `law_drawing`, `law_decided`.
#![tactic(auto)]

mod edges;
mod link;
mod search;
mod sorted;

ghost use Rattle.std.specs.Prelude.{IfOk};
ghost use Rattle.hp_graph.specs.Graphs.{AreWithin, IsSorted};

pub use edges::{above, rank_of, sort_edges};
use search::search;
pub use sorted::Sorted;
use std::alloc::{AllocError, Global};

/// Ranks of the vertices of a graph, which are numbered from 0, or a cycle of it. The time is linear in vertices and edges.
pub fn sort(alloc: Global, count: usize, edges: &[(usize, usize)]) -> Result<Sorted, AllocError>
    requires { AreWithin count edges.now }
    ensures { IfOk result (λ sorted. IsSorted count edges.now sorted) }
{
    search(alloc, count, edges)
}
