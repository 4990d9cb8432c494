//! The levels of wires. A wire stands one level above the highest that it reads.
ghost use Rattle.std.specs.Prelude.{◌≡◌, ◌<◌, ℕ, List, length, replicate, All, IfOk, OnOk};
ghost use Rattle.hp_graph.specs.Graphs.{AreRanks, AreWithin};
ghost use Rattle.hp_circuit.specs.Levels.{AreLevels, AreLifted, lifted};
ghost use Rattle.hp_circuit.specs.Ordering.{AreFalling};

use crate::steered::sorted_edges;
use std::alloc::{AllocError, Global};

/// Lifts a wire above one that it reads. There is no memory for so many wires that a level has no number.
fn lift(levels: &mut [usize], reader: usize, read: usize) -> Result<(), AllocError>
    requires reader { reader < length levels.old }
    requires read { read < length levels.old }
    ensures { OnOk result (levels.new ≡ lifted levels.old reader read) }
{
    let above = levels[read].checked_add(1).ok_or(AllocError)?;
    if levels[reader] < above {
        levels[reader] = above;
    }
    Ok(())
}

/// Lifts each wire above those that it reads, where edges come by the ranks of the wires that read.
fn lift_all(edges: &[(usize, usize, usize)], levels: &mut [usize]) -> Result<(), AllocError>
    requires edges { All (λ e. (e.1 < length levels.old) × (e.2 < length levels.old)) edges.now }
    requires none { levels.old ≡ replicate (length levels.old) 0 }
    ensures many { length levels.new ≡ length levels.old }
    ensures lifted { OnOk result ((ranks : List ℕ) → AreFalling ranks edges.now → AreLifted edges.now (length edges.now) levels.new) }
{
    for i in 0..edges.len() {
        let (_, reader, read) = edges[i];
        lift(levels, reader, read)?;
    }
    Ok(())
}

/// The level of each wire, where ranks fall along edges.
pub fn levels_of(
    alloc: Global,
    edges: &[(usize, usize)],
    ranks: &[usize],
) -> Result<Vec<usize>, AllocError>
    requires edges { AreWithin (length ranks.now) edges.now }
    requires ranks { AreRanks (length ranks.now) edges.now ranks.now }
    ensures many { IfOk result (λ levels. length levels.items ≡ length ranks.now) }
    ensures are { IfOk result (λ levels. AreLevels edges.now levels.items) }
{
    let mut levels = vec![in alloc; 0usize; ranks.len()]?;
    let sorted = sorted_edges(alloc, edges, ranks)?;
    lift_all(&sorted, &mut levels)?;
    Ok(levels)
}
