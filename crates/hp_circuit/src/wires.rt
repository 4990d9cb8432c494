//! The gates of wires.
ghost use Rattle.std.specs.Prelude.{◌≡◌, ◌<◌, ◌≤◌, ◌+◌, ℕ, length, map, replicate, slice_index_or, IfOk, None, Some};
ghost use Rattle.hp_boolx.specs.Machine.{AreFit};
ghost use Rattle.hp_circuit.specs.Forms.{shape_at, wire_at, WireFits, AreWires};
ghost use Rattle.hp_circuit.specs.Numbers.{to_bits, compared};
ghost use Rattle.hp_circuit.specs.Adding.{at, word, HasFirst, Adds, AddsRow};
ghost use Rattle.hp_circuit.specs.Making.{start_at, or_zero, moved, AtReads, IsMade, compared_width, wire_bits, named_by, AreThere, ArePlaced, Stands, Makes};
ghost use Rattle.hp_circuit.specs.Ordering.{AreInOrder};
ghost use Rattle.hp_circuit.specs.Wiring.{wire_made, with_all, with_compared, with_wire};

use crate::bits::{bits, shape_width};
use crate::circuit::{Circuit, Shape, Wire};
use crate::gates::{and, not, or, xor};
use crate::words::{choice, compared, constant, same, variables};
use hp_boolx::Gate;
use std::alloc::{AllocError, Global};

/// The first gate of a wire; 0 where it has none.
fn start_of(starts: &[Option<usize>], wire: usize) -> usize
    requires { wire < length starts.now }
    ensures { result ≡ or_zero (start_at starts.now wire) }
{
    match starts[wire] {
        Some(start) => start,
        None => 0,
    }
}

/// The wire with gates in place of the wires that it reads.
fn placed(starts: &[Option<usize>], wire: Wire) -> Wire
    requires { AtReads (λ a. a < length starts.now) wire }
    ensures { result ≡ moved (λ a. or_zero (start_at starts.now a)) wire }
{
    match wire {
        Wire::Slot(slot) => Wire::Slot(slot),
        Wire::Constant(number) => Wire::Constant(number),
        Wire::Copy(a) => Wire::Copy(start_of(starts, a)),
        Wire::Not(a) => Wire::Not(start_of(starts, a)),
        Wire::And(a, b) => Wire::And(start_of(starts, a), start_of(starts, b)),
        Wire::Or(a, b) => Wire::Or(start_of(starts, a), start_of(starts, b)),
        Wire::Xor(a, b) => Wire::Xor(start_of(starts, a), start_of(starts, b)),
        Wire::Equal(a, b) => Wire::Equal(start_of(starts, a), start_of(starts, b)),
        Wire::Is(a, number) => Wire::Is(start_of(starts, a), number),
        Wire::If(test, a, b) => Wire::If(
            start_of(starts, test),
            start_of(starts, a),
            start_of(starts, b),
        ),
    }
}

/// How wide the numbers are that a wire compares; 0 where it compares none.
fn compared_width(shapes: &[Shape], wire: Wire) -> usize
    requires { AtReads (λ a. a < length shapes.now) wire }
    ensures is { result ≡ compared_width shapes.now wire }
    ensures within { result ≤ 64 }
{
    match wire {
        Wire::Equal(a, _) | Wire::Is(a, _) => shape_width(shapes[a]),
        _ => 0,
    }
}

/// Whether a number of so many bits is a given one.
fn is_number(
    alloc: Global,
    gates: &mut Vec<Gate>,
    a: usize,
    width: usize,
    number: usize,
) -> Result<usize, AllocError>
    requires first { HasFirst gates.old.items }
    requires a { a + width ≤ length gates.old.items }
    requires within { width ≤ 64 }
    ensures adds { IfOk result (λ r. Adds 0 gates.old.items gates.new.items r (λ v. compared (at gates.old.items v 0) (at gates.old.items v 1) (word gates.old.items v a width) (to_bits width number))) }
    ensures made { IfOk result (λ r. (gates.new.items, r) ≡ with_compared gates.old.items a (to_bits width number) 0 1) }
{
    let bits = bits(alloc, width, number)?;
    compared(gates, a, &bits, 0, 1)
}

/// Makes the gates of a wire that reads gates: its width, and that of the numbers that it compares. The answer is the first of them.
fn make_placed(
    alloc: Global,
    places: &[u16],
    wire: Wire,
    width: usize,
    many: usize,
    gates: &mut Vec<Gate>,
) -> Result<usize, AllocError>
    requires first { HasFirst gates.old.items }
    requires within { width ≤ 64 }
    requires there { AreThere places.now (length gates.old.items) width many wire }
    ensures adds { IfOk result (λ r. AddsRow (named_by places.now width wire) gates.old.items gates.new.items r width (λ v. wire_bits places.now gates.old.items v width many wire)) }
    ensures made { IfOk result (λ r. (gates.new.items, r) ≡ with_wire places.now gates.old.items width many wire) }
{
    match wire {
        Wire::Slot(slot) => variables(gates, places[slot], width),
        Wire::Constant(number) => constant(alloc, gates, width, number),
        Wire::Copy(a) => Ok(a),
        Wire::Not(a) => not(gates, a),
        Wire::And(a, b) => and(gates, a, b),
        Wire::Or(a, b) => or(gates, a, b),
        Wire::Xor(a, b) => xor(gates, a, b),
        Wire::Equal(a, b) => same(gates, a, b, many),
        Wire::Is(a, number) => is_number(alloc, gates, a, many, number),
        Wire::If(test, a, b) => choice(gates, test, a, b, width),
    }
}

/// Makes the gates of a wire, where those of the wires that it reads are made. The answer is the first of them.
fn make(
    alloc: Global,
    circuit: &Circuit,
    places: &[u16],
    starts: &[Option<usize>],
    index: usize,
    gates: &mut Vec<Gate>,
) -> Result<usize, AllocError>
    requires shapes { length circuit.now.shapes.items ≡ length circuit.now.wires.items }
    requires wires { AreWires circuit.now.slots.items circuit.now.wires.items circuit.now.shapes.items }
    requires placed { ArePlaced circuit.now.slots.items circuit.now.wires.items circuit.now.shapes.items places.now }
    requires stands { Stands circuit.now.slots.items circuit.now.wires.items circuit.now.shapes.items places.now gates.old.items starts.now }
    requires index { index < length circuit.now.wires.items }
    requires reads { AtReads (IsMade starts.now) (wire_at circuit.now.wires.items index) }
    ensures makes { IfOk result (λ r. Makes circuit.now.slots.items circuit.now.wires.items circuit.now.shapes.items places.now starts.now gates.old.items gates.new.items index r) }
    ensures made { IfOk result (λ r. (gates.new.items, r) ≡ wire_made circuit.now.wires.items circuit.now.shapes.items places.now (record { gates = gates.old.items; starts = starts.now }) index) }
{
    let wire = circuit.wires[index];
    let placed = placed(starts, wire);
    let many = compared_width(&circuit.shapes, wire);
    let width = shape_width(circuit.shapes[index]);
    let start = make_placed(alloc, places, placed, width, many, gates)?;
    Ok(start)
}

/// Makes the gates of all wires, in this order. The answer is the first gate of each.
pub fn make_all(
    alloc: Global,
    circuit: &Circuit,
    places: &[u16],
    order: &[(usize, usize)],
    gates: &mut Vec<Gate>,
) -> Result<Vec<Option<usize>>, AllocError>
    requires shapes { length circuit.now.shapes.items ≡ length circuit.now.wires.items }
    requires wires { AreWires circuit.now.slots.items circuit.now.wires.items circuit.now.shapes.items }
    requires placed { ArePlaced circuit.now.slots.items circuit.now.wires.items circuit.now.shapes.items places.now }
    requires first { HasFirst gates.old.items }
    requires fit { (all : ℕ) → AreFit all 0 gates.old.items }
    requires order { AreInOrder circuit.now.wires.items order.now }
    ensures stands { IfOk result (λ starts. Stands circuit.now.slots.items circuit.now.wires.items circuit.now.shapes.items places.now gates.new.items starts.items) }
    ensures made { IfOk result (λ starts. (w : ℕ) → w < length circuit.now.wires.items → IsMade starts.items w) }
    ensures wired { IfOk result (λ starts. record { gates = gates.new.items; starts = starts.items } ≡ with_all circuit.now.wires.items circuit.now.shapes.items places.now (record { gates = gates.old.items; starts = replicate (length circuit.now.wires.items) None }) order.now) }
{
    let mut starts = vec![in alloc; None; circuit.wires.len()]?;
    for i in 0..order.len() {
        let (_, wire) = order[i];
        let start = make(alloc, circuit, places, &starts, wire, gates)?;
        starts[wire] = Some(start);
    }
    Ok(starts)
}

/// The first gate of each wire, where all have gates.
pub fn all_starts(alloc: Global, starts: &[Option<usize>]) -> Result<Vec<usize>, AllocError>
    requires { (w : ℕ) → w < length starts.now → IsMade starts.now w }
    ensures many { IfOk result (λ all. length all.items ≡ length starts.now) }
    ensures each { IfOk result (λ all. (w : ℕ) → w < length starts.now → start_at starts.now w ≡ Some (slice_index_or all.items w 0)) }
    ensures are { IfOk result (λ all. all.items ≡ map or_zero starts.now) }
{
    let mut all = vec![in alloc; 0usize; starts.len()]?;
    for i in 0..starts.len() {
        all[i] = start_of(starts, i);
    }
    Ok(all)
}
