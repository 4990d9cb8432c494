//! Whether a circuit is one: its numbers name wires and slots, and shapes fit.
ghost use Rattle.std.specs.Prelude.{◌≡◌, ◌<◌, ◌↔◌, ℕ, length, IsTrue, All};
ghost use Rattle.hp_circuit.specs.Forms.{shape_at, wire_at, slot_at, IsShape, IsValue, Carries, WireFits, AreWires, IsOfSlot, RoleFits, SlotFits, IsCircuit};

use crate::circuit::{Circuit, Role, Shape, Slot, Wire};

/// Whether a shape has values.
fn is_shape(shape: Shape) -> bool
    ensures { IsTrue result ↔ IsShape shape }
{
    match shape {
        Shape::Cons { count } => 1 <= count,
        Shape::Truth | Shape::Mark => true,
    }
}

/// Whether the number is a value of the shape.
fn is_value(shape: Shape, number: usize) -> bool
    ensures { IsTrue result ↔ IsValue shape number }
{
    match shape {
        Shape::Truth => number < 2,
        Shape::Cons { count } => number < count,
        Shape::Mark => number == 0,
    }
}

/// Whether there is such a wire, and it carries this shape.
fn carries(shapes: &[Shape], wire: usize, shape: Shape) -> bool
    ensures { IsTrue result ↔ Carries shapes.now wire shape }
{
    wire < shapes.len() && shapes[wire] == shape
}

/// Whether a wire of this shape fits what it reads.
fn wire_fits(slots: &[Slot], shapes: &[Shape], wire: Wire, shape: Shape) -> bool
    ensures { IsTrue result ↔ WireFits slots.now shapes.now shape wire }
{
    match wire {
        Wire::Slot(slot) => slot < slots.len() && slots[slot].shape == shape,
        Wire::Constant(number) => is_value(shape, number),
        Wire::Copy(a) => carries(shapes, a, shape),
        Wire::Not(a) => shape == Shape::Truth && carries(shapes, a, Shape::Truth),
        Wire::And(a, b) | Wire::Or(a, b) | Wire::Xor(a, b) => {
            shape == Shape::Truth
                && carries(shapes, a, Shape::Truth)
                && carries(shapes, b, Shape::Truth)
        }
        Wire::Equal(a, b) => {
            shape == Shape::Truth && a < shapes.len() && carries(shapes, b, shapes[a])
        }
        Wire::Is(a, number) => {
            shape == Shape::Truth && a < shapes.len() && is_value(shapes[a], number)
        }
        Wire::If(test, a, b) => {
            carries(shapes, test, Shape::Truth)
                && carries(shapes, a, shape)
                && carries(shapes, b, shape)
        }
    }
}

/// Whether each wire fits what it reads.
fn wires_fit(slots: &[Slot], wires: &[Wire], shapes: &[Shape]) -> bool
    requires { length shapes.now ≡ length wires.now }
    ensures { IsTrue result ↔ AreWires slots.now wires.now shapes.now }
{
    for i in 0..shapes.len() {
        if !is_shape(shapes[i]) || !wire_fits(slots, shapes, wires[i], shapes[i]) {
            return false;
        }
    }
    true
}

/// Whether the wire is that of the slot of this number.
fn is_of_slot(wires: &[Wire], wire: usize, slot: usize) -> bool
    ensures { IsTrue result ↔ ((wire < length wires.now) × IsOfSlot slot (wire_at wires.now wire)) }
{
    if wire < wires.len() {
        match wires[wire] {
            Wire::Slot(number) => number == slot,
            _ => false,
        }
    } else {
        false
    }
}

/// Whether a register's first value is one, and its next wire has its shape.
fn role_fits(shapes: &[Shape], slot: Slot) -> bool
    ensures { IsTrue result ↔ RoleFits shapes.now slot.shape slot.role }
{
    match slot.role {
        Role::Register { first, next } => {
            is_value(slot.shape, first) && carries(shapes, next, slot.shape)
        }
        Role::Input | Role::Control | Role::Free { .. } => true,
    }
}

/// Whether each slot has its wire, of its shape.
fn slots_fit(slots: &[Slot], wires: &[Wire], shapes: &[Shape]) -> bool
    ensures { IsTrue result ↔ ((i : ℕ) → i < length slots.now → SlotFits wires.now shapes.now i (slot_at slots.now i)) }
{
    for i in 0..slots.len() {
        let slot = slots[i];
        if !is_of_slot(wires, slot.wire, i)
            || !carries(shapes, slot.wire, slot.shape)
            || !role_fits(shapes, slot)
        {
            return false;
        }
    }
    true
}

/// Whether all reads are of wires.
fn reads_fit(reads: &[(usize, usize)], count: usize) -> bool
    ensures { IsTrue result ↔ All (λ r. (r.0 < count) × (r.1 < count)) reads.now }
{
    reads
        .iter()
        .all(|(reader, read)| *reader < count && *read < count)
}

/// Whether it is a circuit.
pub fn is_circuit(circuit: &Circuit) -> bool
    ensures { IsTrue result ↔ IsCircuit circuit.now }
{
    circuit.shapes.len() == circuit.wires.len()
        && wires_fit(&circuit.slots, &circuit.wires, &circuit.shapes)
        && slots_fit(&circuit.slots, &circuit.wires, &circuit.shapes)
        && reads_fit(&circuit.reads, circuit.wires.len())
        && carries(&circuit.shapes, circuit.assume, Shape::Truth)
        && carries(&circuit.shapes, circuit.hyp, Shape::Truth)
        && carries(&circuit.shapes, circuit.duty, Shape::Truth)
}
