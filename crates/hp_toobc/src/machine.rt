ghost use Rattle.std.specs.Prelude.{◌≡◌, ◌++◌, take, IfOk};
ghost use Rattle.hp_obc.specs.Commands.{cmds_of};
ghost use Rattle.hp_toobc.specs.Making.{places, stores, machine_of};

use crate::declare::insts;
use crate::table::Tables;
use hp_flat::{FlatEqn, FlatNode, Scheduled, Variable};
use hp_obc::{Cmds, Machine, ObcType};
use std::alloc::{AllocError, Global};

/// The step of the equations: each in its place, and behind all of them the memories take their next values.
fn step(alloc: Global, tables: &Tables<'_>, eqns: &[FlatEqn]) -> Result<Cmds, AllocError>
    ensures { IfOk result (λ step. step ≡ cmds_of (places tables.now.types.now tables.now.variables.now 0 eqns.now ++ stores tables.now.types.now tables.now.variables.now 0 eqns.now)) }
{
    let mut list = Vec::new(alloc);
    tables.add_places(alloc, eqns, &mut list)?;
    tables.add_stores(alloc, eqns, &mut list)?;
    Ok(Cmds { list })
}

fn first(variables: &[Variable], count: usize) -> &[Variable]
    ensures { result.now ≡ take count variables.now }
{
    &variables[..count.min(variables.len())]
}

/// The machine of a node.
fn machine_of(alloc: Global, node: &FlatNode, types: &[ObcType]) -> Result<Machine, AllocError>
    ensures { IfOk result (λ machine. machine ≡ machine_of types.now node.now) }
{
    let tables = Tables {
        types,
        variables: &node.variables,
    };
    let name = node.name.copy(alloc)?;
    let inputs = tables.all_declared(alloc, first(&node.variables, node.inputs))?;
    let outputs = tables.all_declared_at(alloc, &node.outputs)?;
    let vars = tables.locals(alloc, node)?;
    let mems = tables.mems(alloc, &node.eqns)?;
    let insts = insts(alloc, &node.eqns)?;
    let step = step(alloc, &tables, &node.eqns)?;
    Ok(Machine {
        name,
        inputs,
        outputs,
        vars,
        mems,
        insts,
        step,
    })
}

/// The machine of scheduled equations, over these types of the program. It has a variable for each variable that an equation defines or reads, a
/// memory for each register and an instance for each call.
pub fn to_machine(
    alloc: Global,
    scheduled: &Scheduled,
    types: &[ObcType],
) -> Result<Machine, AllocError>
    ensures { IfOk result (λ machine. machine ≡ machine_of types.now scheduled.now.node) }
{
    machine_of(alloc, &scheduled.node, types)
}
