//! The gate that says that codes are values.
ghost use Rattle.std.specs.Prelude.{◌≡◌, ◌≤◌, ◌<◌, ◌+◌, ℕ, nat_lt, length, IfOk};
ghost use Rattle.hp_circuit.specs.Numbers.{number, width};
ghost use Rattle.hp_circuit.specs.Shapes.{shape_width};
ghost use Rattle.hp_circuit.specs.Forms.{shape_at, slot_at};
ghost use Rattle.hp_circuit.specs.Adding.{word, HasFirst, Adds};
ghost use Rattle.hp_circuit.specs.Making.{place_at};
ghost use Rattle.hp_circuit.specs.Machines.{role_valid, all_valid};
ghost use Rattle.hp_circuit.specs.Wiring.{with_below, with_valid, with_valid_role};

use crate::bits::{bits, is_full, shape_width};
use crate::circuit::{Role, Shape, Slot};
use crate::gates::and;
use crate::words::compared;
use hp_boolx::Gate;
use std::alloc::{AllocError, Global};

/// Makes a gate that says that a code is below a count.
fn below(
    alloc: Global,
    count: usize,
    start: usize,
    gates: &mut Vec<Gate>,
) -> Result<usize, AllocError>
    requires first { HasFirst gates.old.items }
    requires there { start + width count ≤ length gates.old.items }
    ensures adds { IfOk result (λ r. Adds 0 gates.old.items gates.new.items r (λ v. nat_lt (number (word gates.old.items v start (width count))) count)) }
    ensures made { IfOk result (λ r. (gates.new.items, r) ≡ with_below gates.old.items count start) }
{
    if is_full(count) {
        return Ok(1);
    }
    let bits = bits(alloc, shape_width(Shape::Cons { count }), count)?;
    compared(gates, start, &bits, 1, 0)
}

/// Makes a gate that says that a slot's code is a value.
fn valid_slot(
    alloc: Global,
    slot: Slot,
    start: usize,
    gates: &mut Vec<Gate>,
) -> Result<usize, AllocError>
    requires first { HasFirst gates.old.items }
    requires there { start + shape_width slot.shape ≤ length gates.old.items }
    ensures adds { IfOk result (λ r. Adds 0 gates.old.items gates.new.items r (λ v. role_valid slot.role slot.shape (number (word gates.old.items v start (shape_width slot.shape))))) }
    ensures made { IfOk result (λ r. (gates.new.items, r) ≡ with_valid_role gates.old.items slot.role slot.shape start) }
{
    match slot.role {
        Role::Register { .. } => Ok(1),
        Role::Input | Role::Control | Role::Free { .. } => match slot.shape {
            Shape::Cons { count } => below(alloc, count, start, gates),
            Shape::Truth | Shape::Mark => Ok(1),
        },
    }
}

/// Makes a gate that says that the codes of all slots but registers are values.
pub fn valid_slots(
    alloc: Global,
    slots: &[Slot],
    shapes: &[Shape],
    starts: &[usize],
    gates: &mut Vec<Gate>,
) -> Result<usize, AllocError>
    requires first { HasFirst gates.old.items }
    requires carried { (i : ℕ) → i < length slots.now → ((slot_at slots.now i).wire < length starts.now) × (shape_at shapes.now (slot_at slots.now i).wire ≡ (slot_at slots.now i).shape) }
    requires there { (w : ℕ) → w < length starts.now → place_at starts.now w + shape_width (shape_at shapes.now w) ≤ length gates.old.items }
    ensures adds { IfOk result (λ r. Adds 0 gates.old.items gates.new.items r (λ v. all_valid (λ w. number (word gates.old.items v (place_at starts.now w) (shape_width (shape_at shapes.now w)))) slots.now)) }
    ensures made { IfOk result (λ r. (gates.new.items, r) ≡ with_valid starts.now (gates.old.items, 1) slots.now) }
{
    let _shapes = shapes;
    let mut valid = 1;
    for i in 0..slots.len() {
        let slot = slots[i];
        let one = valid_slot(alloc, slot, starts[slot.wire], gates)?;
        valid = and(gates, valid, one)?;
    }
    Ok(valid)
}
