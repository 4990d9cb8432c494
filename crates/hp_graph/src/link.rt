//! The edges that leave each vertex, as lists through the edges.
ghost use Rattle.std.specs.Prelude.{◌≡◌, ◌<◌, ℕ, length, replicate, IfOk, OnOk};
ghost use Rattle.hp_graph.specs.Searching.{AreLast, AreLinked, from_of};

use std::alloc::{AllocError, Global};

/// So many zeros.
pub fn zeros(alloc: Global, count: usize) -> Result<Vec<usize>, AllocError>
    ensures { IfOk result (λ zeros. zeros.items ≡ replicate count 0) }
{
    let mut zeros = Vec::new(alloc);
    for _ in 0..count {
        zeros.push(0)?;
    }
    Ok(zeros)
}

/// For each edge the number of the last one before it that leaves the same vertex, and in `last` for each vertex the number of the last
/// one that leaves it. Edges are numbered from 1, and 0 is none.
pub fn link(
    alloc: Global,
    edges: &[(usize, usize)],
    last: &mut [usize],
) -> Result<Vec<usize>, AllocError>
    requires ends { (k : ℕ) → k < length edges.now → from_of edges.now k < length last.old }
    requires none { last.old ≡ replicate (length last.old) 0 }
    ensures many { length last.new ≡ length last.old }
    ensures last { OnOk result (AreLast edges.now (length edges.now) last.new) }
    ensures links { IfOk result (λ links. AreLinked edges.now (length edges.now) links.items) }
    ensures one_each { IfOk result (λ links. length links.items ≡ length edges.now) }
{
    let mut links = Vec::new(alloc);
    for i in 0..edges.len() {
        let (from, _) = edges[i];
        links.push(last[from])?;
        last[from] = i + 1;
    }
    Ok(links)
}
