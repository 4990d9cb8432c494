//! Graphs that are given by their edges alone.
ghost use Rattle.std.specs.Prelude.{◌≡◌, ◌<◌, ◌≤◌, get_or, IfOk};
ghost use Rattle.hp_graph.specs.Graphs.{AreWithin, IsSortedBy};

use crate::search::search;
use crate::sorted::Sorted;
use std::alloc::{AllocError, Global};

/// A number above this one that is no less than the other.
pub fn above(count: usize, number: usize) -> Result<usize, AllocError>
    ensures more { IfOk result (λ bound. count ≤ bound) }
    ensures above { IfOk result (λ bound. number < bound) }
{
    if number < count {
        return Ok(count);
    }
    match number.checked_add(1) {
        None => Err(AllocError),
        Some(bound) => Ok(bound),
    }
}

/// A number above the ends of the edge that is no less than this one.
fn cover(count: usize, edge: (usize, usize)) -> Result<usize, AllocError>
    ensures more { IfOk result (λ bound. count ≤ bound) }
    ensures from { IfOk result (λ bound. edge.0 < bound) }
    ensures to { IfOk result (λ bound. edge.1 < bound) }
{
    let (from, to) = edge;
    let bound = above(count, from)?;
    above(bound, to)
}

/// How many vertices there are, at least for these edges.
#[tactic(auto, using(crate::proofs::Rules::covered))]
fn count_of(edges: &[(usize, usize)]) -> Result<usize, AllocError>
    ensures { IfOk result (λ count. AreWithin count edges.now) }
{
    let mut count = 0;
    for i in 0..edges.len() {
        count = cover(count, edges[i])?;
    }
    Ok(count)
}

/// Ranks of the vertices of the graph of these edges, or a cycle of it.
#[tactic(auto, using(crate::proofs::Rules::sorted))]
pub fn sort_edges(alloc: Global, edges: &[(usize, usize)]) -> Result<Sorted, AllocError>
    ensures { IfOk result (IsSortedBy edges.now) }
{
    let count = count_of(edges)?;
    let sorted = search(alloc, count, edges)?;
    Ok(sorted)
}

/// The rank of a vertex, 0 of one that has none.
#[tactic(auto, using(crate::proofs::Rules::sorted))]
pub fn rank_of(ranks: &[usize], vertex: usize) -> usize
    ensures { result ≡ get_or ranks.now vertex 0 }
{
    if vertex < ranks.len() {
        return ranks[vertex];
    }
    0
}
