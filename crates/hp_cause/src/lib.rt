//! Causality: which points of a node read each other in a circle, and else an order of all points. Invariant: a cycle begins with the first of its points in the text. Used by `hp_compile`; its specs by `hp_driver`.
#![tactic(auto)]

ghost use Rattle.std.specs.Prelude.{◌≡◌, OnOk, IfOk, IfErr, [], ◌∷◌, ◌++◌};
ghost use Rattle.hp_meaning.specs.Causal.Clocked.{ClocksRight};
ghost use Rattle.hp_meaning.specs.Causal.Causality.{IsCausal};
ghost use Rattle.hp_meaning.specs.Causal.Points.{NamesDeclared};
ghost use Rattle.hp_meaning.specs.Causal.RanksOfPoints.{RanksFall, AllFall};
ghost use Rattle.hp_cause.specs.Answers.{NamesCycle, NamesNode, ItemOrdered, lists};
ghost use Rattle.hp_cause.specs.Facts.{reads_in};
ghost use Rattle.hp_cause.specs.Gathering.{of_node};
ghost use Rattle.hp_cause.specs.Told.{facts_seen};
ghost use Rattle.hp_graph.specs.Graphs.{IsCycle};
ghost use Rattle.hp_cause.specs.Ordering.{AllJudged, AllNodesCausal};
ghost use Rattle.hp_cause.specs.Walked.{NamesDefinedOnce};

mod around;
mod clock;
mod cycle;
mod defined;
mod edges;
mod error;
mod expression;
mod fact;
mod gather;
mod sorting;
mod table;

use cycle::cycle_points;
pub use error::CauseErr;
use fact::Fact;
use gather::gather_node;
use hp_tree::{Item, Node, Program};
use sorting::{Order, order_facts};
use std::alloc::{AllocError, Global};

/// A program whose points are ordered: a list of ranks for each node, and in it one for each point, in the order of points.
#[derive(Debug, Drop)]
pub struct Ordered {
    pub program: Program,
    pub ranks: Vec<Vec<usize>>,
}

/// The error that names a cycle.
fn cycle_error(alloc: Global, node: &Node, facts: &[Fact], cycle: &[usize]) -> CauseErr
    requires gathered { facts_seen facts.now ≡ of_node node.now }
    requires declared { NamesDeclared node.now }
    requires once { NamesDefinedOnce node.now }
    requires cycle { IsCycle (reads_in (of_node node.now)) cycle.now }
    ensures { NamesNode node.now result }
{
    let Ok(points) = cycle_points(alloc, node, facts, cycle) else {
        return CauseErr::OutOfMemory;
    };
    match node.name.copy(alloc) {
        Err(_) => CauseErr::OutOfMemory,
        Ok(node) => CauseErr::Cycle { node, points },
    }
}

/// The ranks of a node's points.
fn order_gathered(alloc: Global, node: &Node, facts: &[Fact]) -> Result<Vec<usize>, CauseErr>
    requires gathered { facts_seen facts.now ≡ of_node node.now }
    requires declared { NamesDeclared node.now }
    requires once { NamesDefinedOnce node.now }
    requires clocks { ClocksRight node.now }
    ensures ordered { IfOk result (λ ranks. RanksFall node.now ranks.items) }
    ensures causal { OnOk result (IsCausal node.now) }
    ensures named { IfErr result (NamesNode node.now) }
{
    match order_facts(alloc, node, facts)? {
        Order::Ranks(ranks) => Ok(ranks),
        Order::Cycle(cycle) => Err(cycle_error(alloc, node, facts, &cycle)),
    }
}

fn order_node(alloc: Global, node: &Node) -> Result<Vec<usize>, CauseErr>
    requires declared { NamesDeclared node.now }
    requires once { NamesDefinedOnce node.now }
    requires clocks { ClocksRight node.now }
    ensures ordered { IfOk result (λ ranks. RanksFall node.now ranks.items) }
    ensures causal { OnOk result (IsCausal node.now) }
    ensures named { IfErr result (NamesNode node.now) }
{
    let notes = gather_node(alloc, node)?;
    order_gathered(alloc, node, &notes.facts)
}

#[tactic(auto, using(crate::proofs::Rules::ordered))]
fn add_ranks(own: Vec<usize>, ranks: &mut Vec<Vec<usize>>) -> Result<(), AllocError>
    ensures { OnOk result (lists ranks.new.items ≡ lists ranks.old.items ++ own.items ∷ []) }
{
    ranks.push(own)?;
    Ok(())
}

#[tactic(auto, using(crate::proofs::Rules::ordered))]
fn order_item(alloc: Global, item: &Item, ranks: &mut Vec<Vec<usize>>) -> Result<(), CauseErr>
    requires { AllJudged (item.now ∷ []) }
    ensures ordered { OnOk result (ItemOrdered item.now (lists ranks.old.items) (lists ranks.new.items)) }
    ensures named { IfErr result (NamesCycle (item.now ∷ [])) }
{
    match item {
        Item::TypeItem(_) => Ok(()),
        Item::NodeItem(node) => {
            let own = order_node(alloc, node)?;
            add_ranks(own, ranks)?;
            Ok(())
        }
    }
}

#[tactic(auto, using(crate::proofs::Rules::ordered))]
fn order_items(alloc: Global, items: &[Item]) -> Result<Vec<Vec<usize>>, CauseErr>
    requires { AllJudged items.now }
    ensures ordered { IfOk result (λ ranks. AllFall items.now (lists ranks.items)) }
    ensures causal { OnOk result (AllNodesCausal items.now) }
    ensures named { IfErr result (NamesCycle items.now) }
{
    let mut ranks = Vec::new(alloc);
    for item in items {
        if let Err(error) = order_item(alloc, item, &mut ranks) {
            return Err(error);
        }
    }
    Ok(ranks)
}

/// The program with ranks for its points, or the points of a cycle in the first node that has one.
pub fn order(alloc: Global, program: Program) -> Result<Ordered, CauseErr>
    requires { AllJudged program }
    ensures program { IfOk result (λ ordered. ordered.program ≡ program) }
    ensures ordered { IfOk result (λ ordered. AllFall program (lists ordered.ranks.items)) }
    ensures causal { OnOk result (AllNodesCausal program) }
    ensures cycle { IfErr result (NamesCycle program) }
    ensures accepted { AllNodesCausal program → IfErr result (λ error. error ≡ CauseErr.OutOfMemory) }
{
    match order_items(alloc, &program.items) {
        Err(error) => Err(error),
        Ok(ranks) => Ok(Ordered { program, ranks }),
    }
}
