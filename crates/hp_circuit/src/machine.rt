//! The Boolean machine of a circuit.
ghost use Rattle.std.specs.Prelude.{◌≡◌, ◌<◌, ℕ, length, map, IfOk, IfErr};
ghost use Rattle.hp_circuit.specs.Building.{HasGates, IsBuilt};
ghost use Rattle.hp_circuit.specs.Forms.{IsCircuit};
ghost use Rattle.hp_circuit.specs.Making.{place_at};
ghost use Rattle.hp_circuit.specs.Kinds.{place_of};
ghost use Rattle.hp_circuit.specs.Levels.{IsByLevel};
ghost use Rattle.hp_circuit.specs.Ordering.{AreInOrder};
ghost use Rattle.hp_circuit.specs.Placing.{AreCounts, AreWired};
ghost use Rattle.hp_circuit.specs.Machines.{AssumesControl, HasCircle, HasNoMachine, IsMachineOf};
ghost use Rattle.hp_circuit.specs.Reading.{AreSteered, edges_of};
ghost use Rattle.hp_circuit.specs.Finishing.{AreParts, IsFinished};
ghost use Rattle.hp_circuit.specs.Giving.{gate_of, IsAbstractionOf};
ghost use Rattle.hp_circuit.specs.Telling.{IsWiredMachine};

use crate::abstraction::Abstraction;
use crate::circuit::{Circuit, Shape};
use crate::error::CircuitErr;
use crate::form::is_circuit;
use crate::gates::first_gates;
use crate::given::given_of;
use crate::levels::levels_of;
use crate::order::{edges_of, order_of, ranks_of};
use crate::places::{counts_of, places_of};
use crate::registers::{init_of, next_of, prefer_of, widths_of};
use crate::steered::steered_wires;
use crate::validity::valid_slots;
use crate::wires::{all_starts, make_all};
use hp_base::Name;
use hp_boolx::{BoolMachine, Counts, Gate, Parts};
use std::alloc::{AllocError, Global};

/// The machine of a circuit with these gates.
fn finished(
    alloc: Global,
    name: &Name,
    circuit: &Circuit,
    counts: Counts,
    gates: Vec<Gate>,
    next: Vec<usize>,
    valid: usize,
    hyp: usize,
    duty: usize,
) -> Result<BoolMachine, AllocError>
    requires { AreParts circuit.now.slots.items counts gates.items next.items valid hyp duty }
    ensures { IfOk result (IsFinished name.now circuit.now counts gates.items next.items valid hyp duty) }
{
    let name = name.copy(alloc)?;
    let widths = widths_of(alloc, &circuit.slots)?;
    let prefer = prefer_of(alloc, &circuit.slots)?;
    let init = init_of(alloc, &circuit.slots)?;
    let parts = Parts {
        name,
        counts,
        widths,
        prefer,
        gates,
        init,
        next,
        valid,
        hyp,
        duty,
    };
    match BoolMachine::of(parts) {
        Some(machine) => Ok(machine),
        None => unreachable!(),
    }
}

/// The machine of a circuit whose wires have these first gates.
fn with_gates(
    alloc: Global,
    name: &Name,
    circuit: &Circuit,
    places: &[u16],
    steered: &[bool],
    starts: &[usize],
    counts: Counts,
    mut gates: Vec<Gate>,
) -> Result<BoolMachine, AllocError>
    requires circuit { IsCircuit circuit.now }
    requires wired { AreWired circuit.now places.now starts.now gates.items }
    requires placed { (i : ℕ) → i < length circuit.now.slots.items → place_at places.now i ≡ place_of steered.now circuit.now.slots.items i }
    requires counts { AreCounts circuit.now.slots.items steered.now counts }
    requires are_steered { AreSteered circuit.now.slots.items (edges_of circuit.now.wires.items circuit.now.reads.items) steered.now }
    requires assume { AssumesControl circuit.now → ⊥ }
    requires acyclic { HasCircle circuit.now → ⊥ }
    ensures machine { IfOk result (IsWiredMachine name.now circuit.now steered.now starts.now) }
    ensures has { IfOk result (HasGates circuit.now gates.items starts.now) }
{
    let _places = places;
    let _steered = steered;
    let valid = valid_slots(alloc, &circuit.slots, &circuit.shapes, starts, &mut gates)?;
    let next = next_of(alloc, &circuit.slots, &circuit.shapes, starts, gates.len())?;
    let hyp = starts[circuit.hyp];
    let duty = starts[circuit.duty];
    finished(alloc, name, circuit, counts, gates, next, valid, hyp, duty)
}

/// The machine of a circuit, where it is said which wires read a controllable variable, and the first gates of wires.
fn with_starts(
    alloc: Global,
    name: &Name,
    circuit: &Circuit,
    order: &[(usize, usize)],
    steered: &[bool],
    counts: Counts,
) -> Result<(BoolMachine, Vec<usize>), AllocError>
    requires circuit { IsCircuit circuit.now }
    requires steered { length steered.now ≡ length circuit.now.wires.items }
    requires order { AreInOrder circuit.now.wires.items order.now }
    requires by_level { IsByLevel (edges_of circuit.now.wires.items circuit.now.reads.items) (length circuit.now.wires.items) order.now }
    requires counts { AreCounts circuit.now.slots.items steered.now counts }
    requires are_steered { AreSteered circuit.now.slots.items (edges_of circuit.now.wires.items circuit.now.reads.items) steered.now }
    requires assume { AssumesControl circuit.now → ⊥ }
    requires acyclic { HasCircle circuit.now → ⊥ }
    ensures machine { IfOk result (λ made. IsWiredMachine name.now circuit.now steered.now made.1.items made.0) }
    ensures many { IfOk result (λ made. length made.1.items ≡ length circuit.now.wires.items) }
    ensures built { IfOk result (λ made. IsBuilt circuit.now made.1.items made.0) }
{
    let places = places_of(alloc, &circuit.slots, steered, counts)?;
    let mut gates = first_gates(alloc)?;
    let made = make_all(alloc, circuit, &places, order, &mut gates)?;
    let starts = all_starts(alloc, &made)?;
    let machine = with_gates(
        alloc, name, circuit, &places, steered, &starts, counts, gates,
    )?;
    Ok((machine, starts))
}

/// The gate that has the truth value of a wire; the gate that is false where there is no such wire, or it carries no truth value.
fn gate_of(shapes: &[Shape], starts: &[usize], wire: usize) -> usize
    requires { length starts.now ≡ length shapes.now }
    ensures { result ≡ gate_of shapes.now starts.now wire }
{
    if wire >= shapes.len() {
        return 0;
    }
    match shapes[wire] {
        Shape::Truth => starts[wire],
        Shape::Cons { .. } | Shape::Mark => 0,
    }
}

/// The gates that have the truth values of wires.
fn gates_of(
    alloc: Global,
    shapes: &[Shape],
    starts: &[usize],
    wires: &[usize],
) -> Result<Vec<usize>, AllocError>
    requires { length starts.now ≡ length shapes.now }
    ensures { IfOk result (λ gates. gates.items ≡ map (gate_of shapes.now starts.now) wires.now) }
{
    let mut gates = Vec::new(alloc);
    for i in 0..wires.len() {
        gates.push(gate_of(shapes, starts, wires[i]))?;
    }
    Ok(gates)
}

/// The machine of a circuit with what is given to it, where it is said which wires read a controllable variable.
fn built(
    alloc: Global,
    name: &Name,
    circuit: &Circuit,
    wires: &[usize],
    order: &[(usize, usize)],
    steered: &[bool],
    counts: Counts,
) -> Result<Abstraction, AllocError>
    requires circuit { IsCircuit circuit.now }
    requires steered { length steered.now ≡ length circuit.now.wires.items }
    requires order { AreInOrder circuit.now.wires.items order.now }
    requires by_level { IsByLevel (edges_of circuit.now.wires.items circuit.now.reads.items) (length circuit.now.wires.items) order.now }
    requires counts { AreCounts circuit.now.slots.items steered.now counts }
    requires are_steered { AreSteered circuit.now.slots.items (edges_of circuit.now.wires.items circuit.now.reads.items) steered.now }
    requires assume { AssumesControl circuit.now → ⊥ }
    requires acyclic { HasCircle circuit.now → ⊥ }
    ensures { IfOk result (IsAbstractionOf name.now circuit.now wires.now) }
{
    let given = given_of(alloc, &circuit.slots, steered)?;
    let (machine, starts) = with_starts(alloc, name, circuit, order, steered, counts)?;
    let gates = gates_of(alloc, &circuit.shapes, &starts, wires)?;
    Ok(Abstraction {
        machine,
        given,
        gates,
    })
}

/// The Boolean machine of a circuit, with this name, what is given to it, and for each of these wires the gate that has its truth value.
pub fn abstraction_of(
    alloc: Global,
    name: &Name,
    circuit: &Circuit,
    wires: &[usize],
) -> Result<Abstraction, CircuitErr>
    ensures abstraction { IfOk result (IsAbstractionOf name.now circuit.now wires.now) }
    ensures refused { IfErr result (HasNoMachine circuit.now) }
{
    if !is_circuit(circuit) {
        return Err(CircuitErr::NoCircuit);
    }
    let edges = edges_of(alloc, circuit)?;
    let ranks = ranks_of(alloc, circuit.wires.len(), &edges)?;
    let steered = steered_wires(alloc, &circuit.slots, &edges, &ranks)?;
    if steered[circuit.assume] {
        return Err(CircuitErr::Steered);
    }
    let counts = match counts_of(&circuit.slots, &steered) {
        Ok(counts) => counts,
        Err(limit) => return Err(CircuitErr::Limit(limit)),
    };
    let levels = levels_of(alloc, &edges, &ranks)?;
    let order = order_of(alloc, &levels)?;
    let abstraction = built(alloc, name, circuit, wires, &order, &steered, counts)?;
    Ok(abstraction)
}

/// The Boolean machine of a circuit, with this name.
pub fn machine_of(alloc: Global, name: &Name, circuit: &Circuit) -> Result<BoolMachine, CircuitErr>
    ensures machine { IfOk result (IsMachineOf name.now circuit.now) }
    ensures refused { IfErr result (HasNoMachine circuit.now) }
{
    let abstraction = abstraction_of(alloc, name, circuit, &[])?;
    Ok(abstraction.machine)
}
