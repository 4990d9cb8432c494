//! The order of one node.
ghost use Rattle.std.specs.Prelude.{◌≡◌, get_or, map, IfOk};
ghost use Rattle.hp_meaning.specs.Causal.Causality.{IsCausal};
ghost use Rattle.hp_meaning.specs.Causal.RanksOfPoints.{RanksFall};
ghost use Rattle.hp_meaning.specs.Causal.Clocked.{ClocksRight};
ghost use Rattle.hp_meaning.specs.Causal.Points.{NamesDeclared};
ghost use Rattle.hp_graph.specs.Graphs.{IsSortedBy, RanksAlong};
ghost use Rattle.hp_cause.specs.Facts.{reads_in, dependences_in, vertices_in};
ghost use Rattle.hp_cause.specs.Gathering.{of_node};
ghost use Rattle.hp_cause.specs.Ordering.{IsOrder};
ghost use Rattle.hp_cause.specs.Told.{facts_seen};
ghost use Rattle.hp_cause.specs.Walked.{NamesDefinedOnce};

use crate::edges::{dependences, ranks_of, reads, vertices};
use crate::fact::Fact;
use hp_graph::{Sorted, sort_edges};
use hp_tree::Node;
use std::alloc::{AllocError, Global};

/// An order by reads alone.
fn sort_reads(alloc: Global, facts: &[Fact]) -> Result<Sorted, AllocError>
    ensures { IfOk result (λ sorted. IsSortedBy (reads_in (facts_seen facts.now)) sorted) }
{
    let edges = reads(alloc, facts)?;
    sort_edges(alloc, &edges)
}

/// An order by all dependences.
fn sort_dependences(alloc: Global, facts: &[Fact]) -> Result<Sorted, AllocError>
    ensures { IfOk result (λ sorted. IsSortedBy (dependences_in (facts_seen facts.now)) sorted) }
{
    let edges = dependences(alloc, facts)?;
    sort_edges(alloc, &edges)
}

/// The ranks of the points, where their vertices have these.
fn ranks_of_points(alloc: Global, facts: &[Fact], ranks: &[usize]) -> Result<Vec<usize>, AllocError>
    ensures { IfOk result (λ found. found.items ≡ map (λ v. get_or ranks.now v 0) (vertices_in (facts_seen facts.now))) }
{
    let vertices = vertices(alloc, facts)?;
    ranks_of(alloc, &vertices, ranks)
}

/// Ranks of the points of a node, where the ranks of their vertices fall along all dependences.
fn rank_points(
    alloc: Global,
    node: &Node,
    facts: &[Fact],
    ranks: &[usize],
) -> Result<Vec<usize>, AllocError>
    requires gathered { facts_seen facts.now ≡ of_node node.now }
    requires declared { NamesDeclared node.now }
    requires falls { RanksAlong (dependences_in (facts_seen facts.now)) ranks.now }
    ensures { IfOk result (λ found. RanksFall node.now found.items) }
{
    let found = ranks_of_points(alloc, facts, ranks)?;
    Ok(found)
}

/// A rank for each point of a causal node, whose dependences have no cycle.
fn order_acyclic(alloc: Global, node: &Node, facts: &[Fact]) -> Result<Vec<usize>, AllocError>
    requires gathered { facts_seen facts.now ≡ of_node node.now }
    requires declared { NamesDeclared node.now }
    requires once { NamesDefinedOnce node.now }
    requires clocks { ClocksRight node.now }
    requires causal { IsCausal node.now }
    ensures { IfOk result (λ ranks. RanksFall node.now ranks.items) }
{
    match sort_dependences(alloc, facts)? {
        Sorted::Ranks(ranks) => rank_points(alloc, node, facts, &ranks),
        Sorted::Cycle(_) => unreachable!(),
    }
}

/// What the points of a node have: an order, or a cycle of its graph of reads.
#[derive(Drop)]
pub enum Order {
    Ranks(Vec<usize>),
    Cycle(Vec<usize>),
}

/// The order of a causal node.
fn order_causal(alloc: Global, node: &Node, facts: &[Fact]) -> Result<Order, AllocError>
    requires gathered { facts_seen facts.now ≡ of_node node.now }
    requires declared { NamesDeclared node.now }
    requires once { NamesDefinedOnce node.now }
    requires clocks { ClocksRight node.now }
    requires causal { IsCausal node.now }
    ensures { IfOk result (λ order. IsOrder node.now order) }
{
    let ranks = order_acyclic(alloc, node, facts)?;
    Ok(Order::Ranks(ranks))
}

/// A rank for each point of the node, or a cycle of its vertices.
pub fn order_facts(alloc: Global, node: &Node, facts: &[Fact]) -> Result<Order, AllocError>
    requires gathered { facts_seen facts.now ≡ of_node node.now }
    requires declared { NamesDeclared node.now }
    requires once { NamesDefinedOnce node.now }
    requires clocks { ClocksRight node.now }
    ensures { IfOk result (λ order. IsOrder node.now order) }
{
    match sort_reads(alloc, facts)? {
        Sorted::Ranks(_) => order_causal(alloc, node, facts),
        Sorted::Cycle(cycle) => Ok(Order::Cycle(cycle)),
    }
}
