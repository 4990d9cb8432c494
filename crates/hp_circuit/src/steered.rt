//! Which wires read a controllable variable by some chain.
ghost use Rattle.std.specs.Prelude.{◌≡◌, ◌<◌, ℕ, List, length, All, Contains, IfOk};
ghost use Rattle.hp_graph.specs.Graphs.{AreRanks, AreWithin};
ghost use Rattle.hp_circuit.specs.Ordering.{AreEdgesByRank, AreFalling};
ghost use Rattle.hp_circuit.specs.Reading.{IsControl, IsMarked, IsSteered, AreSteered};
ghost use Rattle.hp_circuit.specs.declared.circuit.Slot.{Slot};

use crate::circuit::{Role, Slot};
use std::alloc::{AllocError, Global};

/// The edges by the ranks of the wires that read.
pub fn sorted_edges(
    alloc: Global,
    edges: &[(usize, usize)],
    ranks: &[usize],
) -> Result<Vec<(usize, usize, usize)>, AllocError>
    requires { AreWithin (length ranks.now) edges.now }
    ensures { IfOk result (λ sorted. AreEdgesByRank edges.now ranks.now sorted.items) }
{
    let mut sorted = Vec::new(alloc);
    for i in 0..edges.len() {
        let (reader, read) = edges[i];
        sorted.push((ranks[reader], reader, read))?;
    }
    sorted.sort_unstable();
    Ok(sorted)
}

/// Marks the wires of controllable variables.
fn mark_controls(slots: &[Slot], steered: &mut [bool])
    requires wires { All (λ s. s.wire < length steered.old) slots.now }
    requires none { (w : ℕ) → IsMarked steered.old w → ⊥ }
    ensures sound { (w : ℕ) → IsMarked steered.new w → IsControl slots.now w }
    ensures whole { (w : ℕ) → IsControl slots.now w → IsMarked steered.new w }
{
    for i in 0..slots.len() {
        let slot = slots[i];
        if let Role::Control = slot.role {
            steered[slot.wire] = true;
        }
    }
}

/// Marks each wire that reads a marked one, where edges come by the ranks of the wires that read.
fn mark_readers(edges: &[(usize, usize, usize)], steered: &mut [bool])
    requires { All (λ e. (e.1 < length steered.old) × (e.2 < length steered.old)) edges.now }
    ensures kept { (w : ℕ) → IsMarked steered.old w → IsMarked steered.new w }
    ensures sound { (slots : List Slot) (all : List (ℕ × ℕ)) → All (λ e. Contains all (e.1, e.2)) edges.now
        → ((w : ℕ) → IsMarked steered.old w → IsSteered slots all w) → (w : ℕ) → IsMarked steered.new w → IsSteered slots all w }
    ensures closed { (ranks : List ℕ) → AreFalling ranks edges.now → All (λ e. IsMarked steered.new e.2 → IsMarked steered.new e.1) edges.now }
{
    for i in 0..edges.len() {
        let (_, reader, read) = edges[i];
        if steered[read] {
            steered[reader] = true;
        }
    }
}

/// Marks the wires of controllable variables, and those that read one by some chain, where edges come by the ranks of the wires that read.
fn mark_steered(slots: &[Slot], edges: &[(usize, usize, usize)], steered: &mut [bool])
    requires wires { All (λ s. s.wire < length steered.old) slots.now }
    requires edges { All (λ e. (e.1 < length steered.old) × (e.2 < length steered.old)) edges.now }
    requires none { (w : ℕ) → IsMarked steered.old w → ⊥ }
    ensures whole { (w : ℕ) → IsControl slots.now w → IsMarked steered.new w }
    ensures sound { (all : List (ℕ × ℕ)) → All (λ e. Contains all (e.1, e.2)) edges.now → (w : ℕ) → IsMarked steered.new w → IsSteered slots.now all w }
    ensures closed { (ranks : List ℕ) → AreFalling ranks edges.now → All (λ e. IsMarked steered.new e.2 → IsMarked steered.new e.1) edges.now }
{
    mark_controls(slots, steered);
    mark_readers(edges, steered);
}

/// For each wire whether it is that of a controllable variable, or reads one by some chain.
pub fn steered_wires(
    alloc: Global,
    slots: &[Slot],
    edges: &[(usize, usize)],
    ranks: &[usize],
) -> Result<Vec<bool>, AllocError>
    requires slots { All (λ s. s.wire < length ranks.now) slots.now }
    requires edges { AreWithin (length ranks.now) edges.now }
    requires ranks { AreRanks (length ranks.now) edges.now ranks.now }
    ensures many { IfOk result (λ steered. length steered.items ≡ length ranks.now) }
    ensures are { IfOk result (λ steered. AreSteered slots.now edges.now steered.items) }
{
    let mut steered = vec![in alloc; false; ranks.len()]?;
    let sorted = sorted_edges(alloc, edges, ranks)?;
    mark_steered(slots, &sorted, &mut steered);
    Ok(steered)
}
