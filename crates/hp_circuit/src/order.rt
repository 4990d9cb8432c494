//! The wires in an order in which each comes behind what it reads.
ghost use Rattle.std.specs.Prelude.{◌≡◌, ◌++◌, ◌∷◌, [], length, IfOk, IfErr, OnOk};
ghost use Rattle.hp_graph.specs.Graphs.{AreRanks, AreWithin};
ghost use Rattle.hp_circuit.specs.Forms.{IsCircuit};
ghost use Rattle.hp_circuit.specs.Levels.{AreSorted};
ghost use Rattle.hp_circuit.specs.Ordering.{AreByRank, IsUnranked};
ghost use Rattle.hp_circuit.specs.Reading.{operand_edges, edges_of};

use crate::circuit::{Circuit, Wire};
use crate::error::CircuitErr;
use hp_graph::{Sorted, sort};
use std::alloc::{AllocError, Global};

/// Adds an edge from a wire to one that it reads.
fn add(edges: &mut Vec<(usize, usize)>, reader: usize, read: usize) -> Result<(), AllocError>
    ensures { OnOk result (edges.new.items ≡ edges.old.items ++ (reader, read) ∷ []) }
{
    edges.push((reader, read))?;
    Ok(())
}

/// Adds an edge from a wire to each wire that gives it its value.
fn add_operands(
    reader: usize,
    wire: Wire,
    edges: &mut Vec<(usize, usize)>,
) -> Result<(), AllocError>
    ensures { OnOk result (edges.new.items ≡ edges.old.items ++ operand_edges reader wire) }
{
    match wire {
        Wire::Slot(_) | Wire::Constant(_) => Ok(()),
        Wire::Copy(a) | Wire::Not(a) | Wire::Is(a, _) => add(edges, reader, a),
        Wire::And(a, b) | Wire::Or(a, b) | Wire::Xor(a, b) | Wire::Equal(a, b) => {
            add(edges, reader, a)?;
            add(edges, reader, b)
        }
        Wire::If(test, a, b) => {
            add(edges, reader, test)?;
            add(edges, reader, a)?;
            add(edges, reader, b)
        }
    }
}

/// What wires read: a wire, and one that it reads.
pub fn edges_of(alloc: Global, circuit: &Circuit) -> Result<Vec<(usize, usize)>, AllocError>
    requires { IsCircuit circuit.now }
    ensures is { IfOk result (λ edges. edges.items ≡ edges_of circuit.now.wires.items circuit.now.reads.items) }
    ensures within { IfOk result (λ edges. AreWithin (length circuit.now.wires.items) edges.items) }
{
    let mut edges = Vec::new(alloc);
    for i in 0..circuit.wires.len() {
        add_operands(i, circuit.wires[i], &mut edges)?;
    }
    let reads = circuit.reads.as_slice();
    if edges.extend_from_slice(reads).is_err() {
        return Err(AllocError);
    }
    Ok(edges)
}

/// A rank for each of so many wires, above those of the wires that it reads.
pub fn ranks_of(
    alloc: Global,
    count: usize,
    edges: &[(usize, usize)],
) -> Result<Vec<usize>, CircuitErr>
    requires { AreWithin count edges.now }
    ensures ranks { IfOk result (λ ranks. AreRanks count edges.now ranks.items) }
    ensures refused { IfErr result (IsUnranked edges.now) }
{
    match sort(alloc, count, edges)? {
        Sorted::Ranks(ranks) => Ok(ranks),
        Sorted::Cycle(_) => Err(CircuitErr::NoCircuit),
    }
}

/// The wires by their ranks, and at one rank by their numbers.
pub fn order_of(alloc: Global, ranks: &[usize]) -> Result<Vec<(usize, usize)>, AllocError>
    ensures by_rank { IfOk result (λ order. AreByRank ranks.now order.items) }
    ensures sorted { IfOk result (λ order. AreSorted ranks.now order.items) }
{
    let mut order = Vec::new(alloc);
    for i in 0..ranks.len() {
        order.push((ranks[i], i))?;
    }
    order.sort_unstable();
    Ok(order)
}
