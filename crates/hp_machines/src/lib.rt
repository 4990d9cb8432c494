//! The machines of a program: automata are removed, nodes made clocked equations, these put in order and made machines, and neighbouring cases joined. Invariant: callees stand before their callers. Used by `hp_driver`, `hp_controlled`; its specs by the laws.
#![tactic(auto)]

ghost use Rattle.std.specs.Prelude.{IfErr, IfOk};
ghost use Rattle.hp_machines.specs.Machined.{AreMachinesOf};
ghost use Rattle.hp_machines.specs.NotBuilt.{HasNoMachines, SaysNotBuilt};

mod error;
mod laws;
mod node;
mod types;

pub use error::MachineErr;
use hp_automata::lower;
use hp_complete::flatten;
use hp_form::formed;
use hp_obc::Obc;
use hp_tree::Program;
pub use laws::{
    machines_have_what_is_needed, no_needless_copies_are_left, no_neighbours_are_left_to_be_joined,
    programs_have_one_list_of_machines,
};
use node::machines_of;
pub use node::regular_machine_of;
use std::alloc::Global;
pub use types::obc_types;

/// The machines of a program with its clocks written and without inlined calls: one for each of its nodes, in order. Contracts are left out.
pub fn machines(alloc: Global, program: Program) -> Result<Obc, MachineErr>
    ensures machines { IfOk result (AreMachinesOf program) }
    ensures not_built { IfErr result (SaysNotBuilt (HasNoMachines program)) }
{
    let types = obc_types(alloc, &program.items)?;
    let lowered = lower(alloc, program)?;
    let nodes = flatten(alloc, &lowered)?;
    let machines = match machines_of(alloc, nodes, &types) {
        Ok(machines) => machines,
        Err(error) => return Err(error),
    };
    let file = formed(alloc, types, machines)?;
    Ok(file)
}
