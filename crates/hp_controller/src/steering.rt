//! A node that chooses the values of its last inputs itself.
ghost use Rattle.std.specs.Prelude.{◌≡◌, ◌+◌, ◌-◌, ◌^◌, ◌<◌, ◌≤◌, ◌++◌, length, map, IfOk, OnOk};
ghost use Rattle.std.specs.List.{range_with_len};
ghost use Rattle.hp_flat.specs.declared.node.FlatTy.TheVariants.{Bool};
ghost use Rattle.hp_controller.specs.Controlled as made;
ghost use Rattle.hp_controller.specs.Controllers.{added_variable};
ghost use Rattle.hp_controller.specs.Decoding.{controls_eqns};
ghost use Rattle.hp_controller.specs.Steps.{placing_seen, step_eqns};

use crate::decoding::{Added, Control, add_controls, added_variable};
use crate::steps::{Placing, add_steps};
use hp_base::Name;
use hp_boolx::BoolMachine;
use hp_flat::{FlatNode, FlatTy, Variable};
use std::alloc::{AllocError, Global};

/// Adds so many truth values from a variable on.
#[tactic(auto, using(crate::proofs::Rules::named))]
fn add_bits(
    alloc: Global,
    first: usize,
    count: usize,
    variables: &mut Vec<Variable>,
) -> Result<(), AllocError>
    requires { first + count < 2 ^ 64 }
    ensures { OnOk result (variables.new.items ≡ variables.old.items ++ map (λ x. added_variable x Bool) (range_with_len first count)) }
{
    for i in 0..count {
        let variable = added_variable(alloc, first + i, FlatTy::Bool)?;
        variables.push(variable)?;
    }
    Ok(())
}

/// A variable behind so many. There is no memory for so many that one has no number.
fn behind(first: usize, count: usize) -> Result<usize, AllocError>
    ensures { IfOk result (λ next. next ≡ first + count) }
{
    first.checked_add(count).ok_or(AllocError)
}

/// Where a node of so many variables has those of its machine, and the first variable behind these.
fn placing_of<'p>(
    from: usize,
    m: &BoolMachine,
    early: &'p [usize],
    late: &'p [usize],
) -> Result<(Placing<'p>, usize), AllocError>
    ensures placing { IfOk result (λ r. placing_seen r.0 ≡ made.placing_of from m.now early.now late.now) }
    ensures next { IfOk result (λ r. r.1 ≡ from + made.bits_added m.now) }
{
    let counts = m.counts;
    let control = behind(from, usize::from(counts.registers))?;
    let gates = behind(control, usize::from(counts.control))?;
    let all = &m.gates[..];
    let next = behind(gates, all.len())?;
    let placing = Placing {
        registers: from,
        early,
        control,
        late,
        gates,
    };
    Ok((placing, next))
}

/// Adds the bits of a machine with the equations of its steps, and what makes the control variables, from a target on.
fn add_all(
    alloc: Global,
    m: &BoolMachine,
    controller: &Name,
    placing: Placing<'_>,
    target: usize,
    controls: &[Control],
    added: &mut Added,
) -> Result<(), AllocError>
    requires control { placing.control ≡ placing.registers + m.now.registers }
    requires gates { placing.gates ≡ placing.registers + m.now.registers + m.now.control }
    requires next { added.old.next ≡ placing.registers + made.bits_added m.now }
    ensures variables { OnOk result (added.new.variables.items ≡ (added.old.variables.items ++ made.bit_variables placing.entry.registers m.now) ++ (controls_eqns target placing.entry.control added.old.next controls.now).variables) }
    ensures eqns { OnOk result (added.new.eqns.items ≡ (added.old.eqns.items ++ step_eqns m.now (placing_seen placing.entry) controller.now) ++ (controls_eqns target placing.entry.control added.old.next controls.now).eqns) }
{
    let from = placing.registers;
    let bit = placing.control;
    add_bits(alloc, from, added.next - from, &mut added.variables)?;
    add_steps(alloc, m, placing, controller, &mut added.eqns)?;
    add_controls(alloc, target, bit, controls, added)?;
    Ok(())
}

/// The node without its last inputs, which are control variables: it keeps the registers of the machine, asks the controller of this name over these and the early
/// variables, and makes the values of the control variables of the bits that are answered. Its equations have no places in an order yet.
pub fn controlled(
    alloc: Global,
    node: FlatNode,
    m: &BoolMachine,
    controller: &Name,
    early: &[usize],
    late: &[usize],
    controls: &[Control],
) -> Result<FlatNode, AllocError>
    requires { length controls.now ≤ node.inputs }
    ensures { IfOk result (λ other. other ≡ made.controlled node m.now controller.now early.now late.now controls.now) }
{
    let variables = &node.variables[..];
    let (placing, next) = placing_of(variables.len(), m, early, late)?;
    let target = node.inputs - controls.len();
    let FlatNode {
        name,
        variables,
        inputs: _,
        outputs,
        eqns,
    } = node;
    let mut added = Added {
        variables,
        eqns,
        next,
    };
    add_all(alloc, m, controller, placing, target, controls, &mut added)?;
    Ok(FlatNode {
        name,
        variables: added.variables,
        inputs: target,
        outputs,
        eqns: added.eqns,
    })
}
