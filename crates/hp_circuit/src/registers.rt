//! What slots give the machine besides gates: widths and preferences of controllable variables, first values and next gates of registers.
ghost use Rattle.std.specs.Prelude.{◌≡◌, ◌≤◌, ◌<◌, ◌+◌, ◌++◌, ℕ, length, replicate, IfOk, OnOk};
ghost use Rattle.hp_circuit.specs.Shapes.{shape_width};
ghost use Rattle.hp_circuit.specs.Forms.{shape_at, slot_at, RoleFits};
ghost use Rattle.hp_circuit.specs.Making.{place_at};
ghost use Rattle.hp_circuit.specs.Machines.{joined, slot_widths, slot_prefer, slot_init, is_truth};
ghost use Rattle.hp_circuit.specs.Placing.{counted, slot_gates};

use crate::bits::{bits, shape_width};
use crate::circuit::{Role, Shape, Slot};
use std::alloc::{AllocError, Global};

/// Adds the width of a controllable variable.
fn add_width(slot: Slot, widths: &mut Vec<u16>) -> Result<(), AllocError>
    ensures { OnOk result (widths.new.items ≡ widths.old.items ++ slot_widths slot) }
{
    if let Role::Control = slot.role {
        widths.push(shape_width(slot.shape) as u16)?;
    }
    Ok(())
}

/// How many control bits each controllable variable has.
pub fn widths_of(alloc: Global, slots: &[Slot]) -> Result<Vec<u16>, AllocError>
    ensures { IfOk result (λ widths. widths.items ≡ joined slot_widths slots.now) }
{
    let mut widths = Vec::new(alloc);
    for i in 0..slots.len() {
        add_width(slots[i], &mut widths)?;
    }
    Ok(widths)
}

/// Whether a shape is that of truth values.
fn is_truth(shape: Shape) -> bool
    ensures { result ≡ is_truth shape }
{
    match shape {
        Shape::Truth => true,
        Shape::Cons { .. } | Shape::Mark => false,
    }
}

/// Adds so many times a Boolean.
fn add_same(count: usize, value: bool, into: &mut Vec<bool>) -> Result<(), AllocError>
    ensures { OnOk result (into.new.items ≡ into.old.items ++ replicate count value) }
{
    for _i in 0..count {
        into.push(value)?;
    }
    Ok(())
}

/// Adds what is preferred of the bits of a controllable variable.
fn add_prefer(slot: Slot, prefer: &mut Vec<bool>) -> Result<(), AllocError>
    ensures { OnOk result (prefer.new.items ≡ prefer.old.items ++ slot_prefer slot) }
{
    if let Role::Control = slot.role {
        add_same(shape_width(slot.shape), is_truth(slot.shape), prefer)?;
    }
    Ok(())
}

/// What is preferred of each control bit: true of a truth value, false of a constructor.
pub fn prefer_of(alloc: Global, slots: &[Slot]) -> Result<Vec<bool>, AllocError>
    ensures { IfOk result (λ prefer. prefer.items ≡ joined slot_prefer slots.now) }
{
    let mut prefer = Vec::new(alloc);
    for i in 0..slots.len() {
        add_prefer(slots[i], &mut prefer)?;
    }
    Ok(prefer)
}

/// Adds the bits that a register holds at first.
fn add_init(alloc: Global, slot: Slot, init: &mut Vec<bool>) -> Result<(), AllocError>
    ensures { OnOk result (init.new.items ≡ init.old.items ++ slot_init slot) }
{
    if let Role::Register { first, .. } = slot.role {
        let bits = bits(alloc, shape_width(slot.shape), first)?;
        init.extend_from_slice(&bits)?;
    }
    Ok(())
}

/// The bits that the registers hold at first.
pub fn init_of(alloc: Global, slots: &[Slot]) -> Result<Vec<bool>, AllocError>
    ensures { IfOk result (λ init. init.items ≡ joined slot_init slots.now) }
{
    let mut init = Vec::new(alloc);
    for i in 0..slots.len() {
        add_init(alloc, slots[i], &mut init)?;
    }
    Ok(init)
}

/// Adds numbers one behind the other.
fn add_counted(start: usize, count: usize, into: &mut Vec<usize>) -> Result<(), AllocError>
    requires { start + count ≤ usize.MAX }
    ensures { OnOk result (into.new.items ≡ into.old.items ++ counted start count) }
{
    for i in 0..count {
        into.push(start + i)?;
    }
    Ok(())
}

/// Adds the gates of what a register holds next.
fn add_next(
    slot: Slot,
    shapes: &[Shape],
    starts: &[usize],
    count: usize,
    gates: &mut Vec<usize>,
) -> Result<(), AllocError>
    requires fits { RoleFits shapes.now slot.shape slot.role }
    requires many { length starts.now ≡ length shapes.now }
    requires there { (w : ℕ) → w < length starts.now → place_at starts.now w + shape_width (shape_at shapes.now w) ≤ count }
    ensures { OnOk result (gates.new.items ≡ gates.old.items ++ slot_gates starts.now slot) }
{
    let _shapes = shapes;
    let _count = count;
    if let Role::Register { next, .. } = slot.role {
        add_counted(starts[next], shape_width(slot.shape), gates)?;
    }
    Ok(())
}

/// The gates of what the registers hold next, where each wire's gates are among so many.
pub fn next_of(
    alloc: Global,
    slots: &[Slot],
    shapes: &[Shape],
    starts: &[usize],
    count: usize,
) -> Result<Vec<usize>, AllocError>
    requires fits { (i : ℕ) → i < length slots.now → RoleFits shapes.now (slot_at slots.now i).shape (slot_at slots.now i).role }
    requires many { length starts.now ≡ length shapes.now }
    requires there { (w : ℕ) → w < length starts.now → place_at starts.now w + shape_width (shape_at shapes.now w) ≤ count }
    ensures { IfOk result (λ next. next.items ≡ joined (slot_gates starts.now) slots.now) }
{
    let mut gates = Vec::new(alloc);
    for i in 0..slots.len() {
        add_next(slots[i], shapes, starts, count, &mut gates)?;
    }
    Ok(gates)
}
