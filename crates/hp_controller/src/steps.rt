//! The clocked equations by which a node keeps the registers of its machine and asks its controller.
ghost use Rattle.std.specs.Prelude.{◌≡◌, ◌+◌, ◌^◌, ◌<◌, ◌++◌, ◌∷◌, [], length, map, IfOk, OnOk};
ghost use Rattle.hp_flat.specs.declared.equation.Atom.TheVariants.{Variable as Read};
ghost use Rattle.hp_controller.specs.Steps as made;
ghost use Rattle.hp_controller.specs.Steps.{placing_seen};

use crate::gates::{add_gates, gate_at};
use crate::node::numbers_from;
use hp_base::{Name, Value};
use hp_boolx::{BoolMachine, Gate};
use hp_flat::{Atom, FlatEqn, FlatRight};
use smallvec::SmallVec;
use std::alloc::{AllocError, Global};

/// The variables at which a node has those of its machine. Of registers, control bits and gates it is the first one.
#[derive(Clone, Copy)]
pub struct Placing<'p> {
    pub registers: usize,
    pub early: &'p [usize],
    pub control: usize,
    pub late: &'p [usize],
    pub gates: usize,
}

/// The equation of a register.
fn register_eqn(
    alloc: Global,
    target: usize,
    first: bool,
    next: Atom,
) -> Result<FlatEqn, AllocError>
    ensures { IfOk result (λ eqn. eqn ≡ made.register_eqn target first next) }
{
    let mut targets = Vec::new(alloc);
    targets.push(target)?;
    Ok(FlatEqn {
        targets,
        clock: SmallVec::new(alloc),
        right: FlatRight::Register {
            first: Value::B(first),
            next,
        },
        restart: Vec::new(alloc),
        at: 0,
    })
}

/// Adds the equations of registers from a variable on, where the gates are so many from another on.
#[tactic(auto, using(crate::proofs::Rules::stepped))]
fn add_registers(
    alloc: Global,
    first: usize,
    gates: usize,
    count: usize,
    init: &[bool],
    next: &[usize],
    eqns: &mut Vec<FlatEqn>,
) -> Result<(), AllocError>
    requires registers { first + length init.now < 2 ^ 64 }
    requires gates { gates + count < 2 ^ 64 }
    ensures { OnOk result (eqns.new.items ≡ eqns.old.items ++ made.register_eqns first gates count init.now next.now) }
{
    for i in 0..init.len().min(next.len()) {
        let value = init[i];
        let gate = next[i];
        let eqn = register_eqn(alloc, first + i, value, gate_at(gates, count, gate))?;
        eqns.push(eqn)?;
    }
    Ok(())
}

/// What reads some variables.
#[tactic(auto, using(crate::proofs::Rules::read))]
fn reads(alloc: Global, variables: &[usize]) -> Result<Vec<Atom>, AllocError>
    ensures { IfOk result (λ args. args.items ≡ map (λ x. Read x) variables.now) }
{
    let mut args = Vec::with_capacity(alloc, variables.len())?;
    for variable in variables {
        args.push(Atom::Variable(*variable))?;
    }
    Ok(args)
}

/// The equation by which the controller of this name is asked over some variables, and gives so many from one on.
fn asking_eqn(
    alloc: Global,
    name: &Name,
    args: &[usize],
    first: usize,
    count: usize,
) -> Result<FlatEqn, AllocError>
    requires { first + count < 2 ^ 64 }
    ensures { IfOk result (λ eqn. eqn ≡ made.asking_eqn name.now args.now first count) }
{
    Ok(FlatEqn {
        targets: numbers_from(alloc, first, count)?,
        clock: SmallVec::new(alloc),
        right: FlatRight::Call {
            node: name.copy(alloc)?,
            args: reads(alloc, args)?,
        },
        restart: Vec::new(alloc),
        at: 0,
    })
}

/// Adds the registers of a machine, the question to its controller, and its gates.
pub fn add_steps(
    alloc: Global,
    m: &BoolMachine,
    p: Placing<'_>,
    name: &Name,
    eqns: &mut Vec<FlatEqn>,
) -> Result<(), AllocError>
    requires registers { p.registers + m.now.registers < 2 ^ 64 }
    requires control { p.control + m.now.control < 2 ^ 64 }
    requires gates { p.gates + length m.now.gates < 2 ^ 64 }
    ensures { OnOk result (eqns.new.items ≡ eqns.old.items ++ made.step_eqns m.now (placing_seen p.entry) name.now) }
{
    let counts = m.counts;
    let control = usize::from(counts.control);
    let gates: &[Gate] = &m.gates;
    let mut places = numbers_from(alloc, p.registers, usize::from(counts.registers))?;
    places.extend_from_slice(p.early)?;
    let asking = asking_eqn(alloc, name, &places, p.control, control)?;
    let controls = numbers_from(alloc, p.control, control)?;
    places.extend_from_slice(&controls)?;
    places.extend_from_slice(p.late)?;
    add_registers(
        alloc,
        p.registers,
        p.gates,
        gates.len(),
        &m.init,
        &m.next,
        eqns,
    )?;
    eqns.push(asking)?;
    add_gates(alloc, &places, p.gates, gates, eqns)?;
    Ok(())
}
