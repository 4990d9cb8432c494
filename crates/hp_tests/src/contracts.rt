//! The Boolean machine of a contract.
use crate::program_of;
use hp_abstract::abstract_node;
use hp_boolx::{BoolMachine, eval};
use hp_tree::{Item, Program};
use std::alloc::Global;
use std::process::Abort;
use std::test::Fail;

/// A delay that begins true, and is to be true always.
const DELAY: &[u8] =
    b"node h(x : bool) returns (y : bool)\ncontract enforce y\nlet y = true fby x tel\n";

/// All values of the two registers and the input.
const VALUATIONS: [[bool; 3]; 8] = [
    [false, false, false],
    [false, false, true],
    [false, true, false],
    [false, true, true],
    [true, false, false],
    [true, false, true],
    [true, true, false],
    [true, true, true],
];

/// The machine of the first node.
fn machine_of(alloc: Global, program: &Program) -> Result<BoolMachine, Fail> {
    for item in &program.items {
        if let Item::NodeItem(node) = item {
            let Ok(machine) = abstract_node(alloc, program, node) else {
                return Err(Fail::from("no machine"));
            };
            return Ok(machine);
        }
    }
    Err(Fail::from("no node"))
}

/// The values that gates have where the variables have these.
fn values_of(
    rt: &impl Abort,
    alloc: Global,
    machine: &BoolMachine,
    vars: &[bool],
) -> Result<Vec<bool>, Fail> {
    let mut values = vec![in alloc; false; machine.gates.len()]?;
    assert_eq!(rt; vars.len(), usize::from(machine.vars()));
    eval(machine, vars, &mut values);
    Ok(values)
}

/// The first register takes the input next, the second one is true; the duty holds where the first is true, or the second is not, as at the start.
fn holds_of_a_delay(
    rt: &impl Abort,
    alloc: Global,
    machine: &BoolMachine,
    vars: [bool; 3],
) -> Result<(), Fail> {
    let [held, begun, input] = vars;
    let values = values_of(rt, alloc, machine, &vars)?;
    assert_eq!(rt; machine.next.len(), 2);
    assert_eq!(rt; values.get(machine.next[0]).copied(), Some(input));
    assert_eq!(rt; values.get(machine.next[1]).copied(), Some(true));
    assert_eq!(rt; values.get(machine.duty).copied(), Some(held || !begun));
    assert_eq!(rt; values.get(machine.hyp).copied(), Some(true));
    assert_eq!(rt; values.get(machine.valid).copied(), Some(true));
    Ok(())
}

#[test]
fn a_delay_has_two_registers(rt: HostRuntime) -> Result<(), Fail> {
    let program = program_of(rt.alloc(), DELAY)?;
    let machine = machine_of(rt.alloc(), &program)?;
    assert_eq!(rt; machine.counts.registers, 2);
    assert_eq!(rt; machine.counts.early, 1);
    assert_eq!(rt; machine.counts.control, 0);
    assert_eq!(rt; machine.counts.late, 0);
    assert_eq!(rt; machine.init.as_slice(), [false, false].as_slice());
    for vars in VALUATIONS {
        holds_of_a_delay(&rt, rt.alloc(), &machine, vars)?;
    }
    Ok(())
}
