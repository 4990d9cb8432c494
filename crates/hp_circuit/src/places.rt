//! The variables of slots.
ghost use Rattle.std.specs.Prelude.{◌≡◌, ◌≤◌, ◌<◌, ◌+◌, ℕ, length, All, IfOk, IfErr};
ghost use Rattle.hp_base.specs.Limits.{most};
ghost use Rattle.hp_circuit.specs.declared.kind.Kind.{Kind};
ghost use Rattle.hp_circuit.specs.declared.kind.Kind.TheVariants.{Registers, Early, Control, Late};
ghost use Rattle.hp_circuit.specs.Machines.{IsFirstPassed};
ghost use Rattle.hp_circuit.specs.Making.{place_at};
ghost use Rattle.hp_circuit.specs.Kinds.{what_of, kind_of, own, bits_of, place_of};
ghost use Rattle.hp_circuit.specs.Placing.{of_kind, AreCounts, IsOverBy};

use crate::bits::shape_width;
use crate::circuit::Slot;
use crate::kind::{Kind, most_of, own, role_kind, what_of};
use hp_base::Limit;
use hp_boolx::Counts;
use std::alloc::{AllocError, Global};

/// The kind of a slot.
pub fn kind_of(slot: Slot, steered: &[bool]) -> Kind
    requires { slot.wire < length steered.now }
    ensures { result ≡ kind_of steered.now slot }
{
    role_kind(slot.role, steered[slot.wire])
}

/// How many bits the slots of a kind have together, if these are not too many.
fn bits_of(slots: &[Slot], steered: &[bool], kind: Kind) -> Result<u16, Limit>
    requires { All (λ s. s.wire < length steered.now) slots.now }
    ensures is { IfOk result (λ n. n ≡ bits_of steered.now kind slots.now) }
    ensures within { IfOk result (λ n. n ≤ most (what_of kind)) }
    ensures over { IfErr result (IsOverBy steered.now slots.now kind) }
{
    let most = most_of(kind);
    let mut count = 0;
    for i in 0..slots.len() {
        let slot = slots[i];
        count += own(kind, kind_of(slot, steered), shape_width(slot.shape)) as u64;
        if count > most {
            return Err(Limit {
                what: what_of(kind),
                found: most + 1,
            });
        }
    }
    Ok(count as u16)
}

/// How many variables of each kind there are, or the first limit that is passed.
pub fn counts_of(slots: &[Slot], steered: &[bool]) -> Result<Counts, Limit>
    requires { All (λ s. s.wire < length steered.now) slots.now }
    ensures are { IfOk result (AreCounts slots.now steered.now) }
    ensures over { IfErr result (IsFirstPassed (λ kind. bits_of steered.now kind slots.now)) }
{
    let registers = bits_of(slots, steered, Kind::Registers)?;
    let early = bits_of(slots, steered, Kind::Early)?;
    let control = bits_of(slots, steered, Kind::Control)?;
    let late = bits_of(slots, steered, Kind::Late)?;
    Ok(Counts {
        registers,
        early,
        control,
        late,
    })
}

/// Gives so many variables of a kind, of which the first is the next of the kind.
fn give(next: &mut Counts, kind: Kind, width: u16) -> u16
    requires { of_kind kind next.old + width ≤ 65535 }
    ensures first { result ≡ of_kind kind next.old }
    ensures moved { (k : Kind) → of_kind k next.new ≡ of_kind k next.old + own k kind width }
{
    match kind {
        Kind::Registers => {
            let first = next.registers;
            next.registers += width;
            first
        }
        Kind::Early => {
            let first = next.early;
            next.early += width;
            first
        }
        Kind::Control => {
            let first = next.control;
            next.control += width;
            first
        }
        Kind::Late => {
            let first = next.late;
            next.late += width;
            first
        }
    }
}

/// The first variable of each slot: registers, early values, controllable variables and late values in this order.
pub fn places_of(
    alloc: Global,
    slots: &[Slot],
    steered: &[bool],
    counts: Counts,
) -> Result<Vec<u16>, AllocError>
    requires wires { All (λ s. s.wire < length steered.now) slots.now }
    requires counts { AreCounts slots.now steered.now counts }
    ensures many { IfOk result (λ places. length places.items ≡ length slots.now) }
    ensures each { IfOk result (λ places. (i : ℕ) → i < length slots.now → place_at places.items i ≡ place_of steered.now slots.now i) }
{
    let mut places = Vec::new(alloc);
    let early = counts.registers;
    let control = early + counts.early;
    let late = control + counts.control;
    let mut next = Counts {
        registers: 0,
        early,
        control,
        late,
    };
    for i in 0..slots.len() {
        let slot = slots[i];
        let width = shape_width(slot.shape) as u16;
        places.push(give(&mut next, kind_of(slot, steered), width))?;
    }
    Ok(places)
}
