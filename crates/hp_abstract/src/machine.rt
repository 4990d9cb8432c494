//! The machine of a contract.
ghost use Rattle.std.specs.Prelude.{◌≡◌, IfOk, IfErr, List};
ghost use Rattle.hp_abstract.specs.Abstractions.{IsAbstractionOf};
ghost use Rattle.hp_abstract.specs.Enforced.{enforced};
ghost use Rattle.hp_abstract.specs.Machines.{IsMachineOf, IsRefused, LacksMachine};
ghost use Rattle.hp_drawing.specs.DrawnNodes.{drawn_node};
ghost use Rattle.hp_drawing.specs.Seen.{IsOf};
ghost use Rattle.hp_drawing.specs.Told.{told_of};
ghost use Rattle.hp_circuit.specs.declared.error.CircuitErr.TheVariants as circuit;
ghost use Rattle.hp_tree.specs.declared.program.Item as tree;

use crate::abstracted::Abstraction;
use crate::circuit::circuit_of;
use crate::error::AbsErr;
use crate::table::Tables;
use hp_boolx::BoolMachine;
use hp_circuit::{Circuit, CircuitErr, abstraction_of};
use hp_tree::{Node, Program};
use std::alloc::{AllocError, Global};

/// The circuit of a node of the program, and the wire of what the node enforces.
fn drawn(alloc: Global, program: &Program, node: &Node) -> Result<(Circuit, usize), AllocError>
    ensures circuit { IfOk result (λ drawing. IsOf drawing.0 (drawn_node (told_of program.now) node.now)) }
    ensures enforce { IfOk result (λ drawing. drawing.1 ≡ enforced (told_of program.now) node.now) }
{
    let tables = Tables::new(alloc, program)?;
    circuit_of(&tables, node)
}

/// Why there is no machine of the node.
fn refused(node: &Node, err: CircuitErr) -> AbsErr
    ensures { (program : List tree.Item) → LacksMachine program node.now err → IsRefused program node.now result }
{
    match err {
        CircuitErr::Limit(limit) => AbsErr::Limit(limit),
        CircuitErr::NoCircuit => AbsErr::NotBuilt,
        CircuitErr::OutOfMemory => AbsErr::OutOfMemory,
        CircuitErr::Steered => steered(node),
    }
}

/// The assumption of the node reads a controllable variable.
fn steered(node: &Node) -> AbsErr
    ensures { (program : List tree.Item) → LacksMachine program node.now circuit.Steered → IsRefused program node.now result }
{
    match &node.contract {
        None => AbsErr::NotBuilt,
        Some(contract) => match &contract.assume {
            None => AbsErr::NotBuilt,
            Some(assume) => AbsErr::Assume { span: assume.span },
        },
    }
}

/// The Boolean machine of a node of a program that is judged, arranged and ordered, with what is given to it and the gates of what the node assumes and enforces.
pub fn abstraction(alloc: Global, program: &Program, node: &Node) -> Result<Abstraction, AbsErr>
    ensures abstraction { IfOk result (IsAbstractionOf program.now node.now) }
    ensures refused { IfErr result (IsRefused program.now node.now) }
{
    let (circuit, enforce) = drawn(alloc, program, node)?;
    let wires = [circuit.assume, enforce];
    match abstraction_of(alloc, &node.name, &circuit, &wires) {
        Ok(made) => Ok(Abstraction {
            assume: made.gates[0],
            enforce: made.gates[1],
            machine: made.machine,
            given: made.given,
        }),
        Err(err) => Err(refused(node, err)),
    }
}

/// The Boolean machine of a node of a program that is judged, arranged and ordered.
pub fn abstract_node(alloc: Global, program: &Program, node: &Node) -> Result<BoolMachine, AbsErr>
    ensures machine { IfOk result (IsMachineOf program.now node.now) }
    ensures refused { IfErr result (IsRefused program.now node.now) }
{
    let made = abstraction(alloc, program, node)?;
    Ok(made.machine)
}
