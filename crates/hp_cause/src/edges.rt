//! The graph of a node, taken from what is gathered.
ghost use Rattle.std.specs.Prelude.{◌≡◌, [], ◌∷◌, get_or, map, OnOk, IfOk};
ghost use Rattle.hp_cause.specs.Edges.{read_edge, dependence_edge, vertex_of};
ghost use Rattle.hp_cause.specs.Facts.{reads_in, dependences_in, vertices_in};
ghost use Rattle.hp_cause.specs.Told.{fact_seen, facts_seen, with_more};

use crate::fact::Fact;
use hp_graph::rank_of;
use std::alloc::{AllocError, Global};

#[tactic(auto, using(crate::proofs::Rules::targeted))]
fn add_read(fact: &Fact, edges: &mut Vec<(usize, usize)>) -> Result<(), AllocError>
    ensures { OnOk result (edges.new.items ≡ with_more edges.old.items (read_edge (fact_seen fact.now))) }
{
    match fact {
        Fact::Stands {
            kind: _,
            name: _,
            span: _,
            vertex: _,
        } => Ok(()),
        Fact::Reads(from, to) => {
            edges.push((*from, *to))?;
            Ok(())
        }
        Fact::Depends(_, _) => Ok(()),
    }
}

#[tactic(auto, using(crate::proofs::Rules::targeted))]
fn add_dependence(fact: &Fact, edges: &mut Vec<(usize, usize)>) -> Result<(), AllocError>
    ensures { OnOk result (edges.new.items ≡ with_more edges.old.items (dependence_edge (fact_seen fact.now))) }
{
    match fact {
        Fact::Stands {
            kind: _,
            name: _,
            span: _,
            vertex: _,
        } => Ok(()),
        Fact::Reads(from, to) | Fact::Depends(from, to) => {
            edges.push((*from, *to))?;
            Ok(())
        }
    }
}

/// The edges of reads.
#[tactic(auto, using(crate::proofs::Rules::targeted))]
pub fn reads(alloc: Global, facts: &[Fact]) -> Result<Vec<(usize, usize)>, AllocError>
    ensures { IfOk result (λ edges. edges.items ≡ reads_in (facts_seen facts.now)) }
{
    let mut edges = Vec::new(alloc);
    for i in 0..facts.len() {
        let fact = &facts[i];
        add_read(fact, &mut edges)?;
    }
    Ok(edges)
}

/// The edges of all dependences.
#[tactic(auto, using(crate::proofs::Rules::targeted))]
pub fn dependences(alloc: Global, facts: &[Fact]) -> Result<Vec<(usize, usize)>, AllocError>
    ensures { IfOk result (λ edges. edges.items ≡ dependences_in (facts_seen facts.now)) }
{
    let mut edges = Vec::new(alloc);
    for i in 0..facts.len() {
        let fact = &facts[i];
        add_dependence(fact, &mut edges)?;
    }
    Ok(edges)
}

#[tactic(auto, using(crate::proofs::Rules::targeted))]
fn add_vertex(fact: &Fact, into: &mut Vec<usize>) -> Result<(), AllocError>
    ensures { OnOk result (into.new.items ≡ with_more into.old.items (vertex_of (fact_seen fact.now))) }
{
    match fact {
        Fact::Stands {
            kind: _,
            name: _,
            span: _,
            vertex,
        } => {
            into.push(*vertex)?;
            Ok(())
        }
        Fact::Reads(_, _) => Ok(()),
        Fact::Depends(_, _) => Ok(()),
    }
}

/// The vertices of the points, in order.
#[tactic(auto, using(crate::proofs::Rules::targeted))]
pub fn vertices(alloc: Global, facts: &[Fact]) -> Result<Vec<usize>, AllocError>
    ensures { IfOk result (λ vertices. vertices.items ≡ vertices_in (facts_seen facts.now)) }
{
    let mut vertices = Vec::new(alloc);
    for i in 0..facts.len() {
        let fact = &facts[i];
        add_vertex(fact, &mut vertices)?;
    }
    Ok(vertices)
}

/// The ranks of some vertices.
#[tactic(auto, using(crate::proofs::Rules::targeted))]
pub fn ranks_of(
    alloc: Global,
    vertices: &[usize],
    ranks: &[usize],
) -> Result<Vec<usize>, AllocError>
    ensures { IfOk result (λ found. found.items ≡ map (λ v. get_or ranks.now v 0) vertices.now) }
{
    let mut found = Vec::new(alloc);
    for i in 0..vertices.len() {
        found.push(rank_of(ranks, vertices[i]))?;
    }
    Ok(found)
}
