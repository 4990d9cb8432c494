//! The machines of clocked equations.
ghost use Rattle.std.specs.Prelude.{◌≡◌, ◌++◌, ◌∷◌, [], IfErr, IfOk, OnOk};
ghost use Rattle.std.specs.List.{AllByRecursion, filter};
ghost use Rattle.hp_obc.specs.Machines.{Machine as MachineSeen};
ghost use Rattle.hp_machines.specs.Making.{AreMade, IsArrangedAs, IsMachineOf, defines_some, giving};
ghost use Rattle.hp_machines.specs.NotBuilt.{SaysNotBuilt};
ghost use Rattle.hp_form.specs.Regular.Regular.{EqnsRegular};

use crate::error::MachineErr;
use hp_flat::{FlatEqn, FlatNode};
use hp_form::regular::{is_regular, is_small};
use hp_fuse::fuse;
use hp_normal::normalise;
use hp_obc::{Machine, ObcType};
use hp_schedule::schedule;
use hp_toobc::to_machine;
use std::alloc::{AllocError, Global};

/// The machine of a node, over these types.
fn machine_of(alloc: Global, node: FlatNode, types: &[ObcType]) -> Result<Machine, AllocError>
    ensures { IfOk result (IsArrangedAs types.now node) }
{
    let scheduled = schedule(alloc, node)?;
    let plain = normalise(alloc, scheduled)?;
    let machine = to_machine(alloc, &plain, types)?;
    match fuse(alloc, machine) {
        Ok(machine) => Ok(machine),
        Err(_) => Err(AllocError),
    }
}

/// Whether an equation defines a variable: a call of a node without outputs does not.
fn defines_some(eqn: &FlatEqn) -> bool
    ensures { result ≡ defines_some eqn.now }
{
    !eqn.targets.is_empty()
}

fn giving_eqns(mut eqns: Vec<FlatEqn>) -> Vec<FlatEqn>
    ensures { result.items ≡ filter defines_some eqns.items }
{
    eqns.retain(|eqn| defines_some(eqn));
    eqns
}

/// The node with its equations that define something.
fn giving(node: FlatNode) -> FlatNode
    ensures { result ≡ giving node }
{
    let FlatNode {
        name,
        variables,
        inputs,
        outputs,
        eqns,
    } = node;
    let eqns = giving_eqns(eqns);
    FlatNode {
        name,
        variables,
        inputs,
        outputs,
        eqns,
    }
}

/// The machine of a node, whose equations are to be regular. For more equations or variables than names tell apart there is no memory.
pub fn regular_machine_of(
    alloc: Global,
    node: FlatNode,
    types: &[ObcType],
) -> Result<Machine, MachineErr>
    ensures machine { IfOk result (IsMachineOf types.now node) }
    ensures irregular { IfErr result (SaysNotBuilt (EqnsRegular types.now node → ⊥)) }
{
    if !is_small(&node) {
        return Err(MachineErr::OutOfMemory);
    }
    if !is_regular(&node, types) {
        return Err(MachineErr::NotBuilt);
    }
    let machine = machine_of(alloc, giving(node), types)?;
    Ok(machine)
}

fn add_machine(
    alloc: Global,
    node: FlatNode,
    types: &[ObcType],
    machines: &mut Vec<Machine>,
) -> Result<(), MachineErr>
    ensures added { OnOk result ((m : MachineSeen) × (machines.new.items ≡ machines.old.items ++ m ∷ []) × IsMachineOf types.now node m) }
    ensures irregular { IfErr result (SaysNotBuilt (EqnsRegular types.now node → ⊥)) }
{
    let machine = regular_machine_of(alloc, node, types)?;
    match machines.push(machine) {
        Ok(()) => Ok(()),
        Err(_) => Err(MachineErr::OutOfMemory),
    }
}

/// The machines of nodes, in order.
#[tactic(auto, using(crate::proofs::Rules::made))]
pub fn machines_of(
    alloc: Global,
    nodes: Vec<FlatNode>,
    types: &[ObcType],
) -> Result<Vec<Machine>, MachineErr>
    ensures made { IfOk result (λ machines. AreMade types.now nodes.items machines.items) }
    ensures irregular { IfErr result (SaysNotBuilt (AllByRecursion (EqnsRegular types.now) nodes.items → ⊥)) }
{
    let mut machines = Vec::new(alloc);
    for node in nodes {
        add_machine(alloc, node, types, &mut machines)?;
    }
    Ok(machines)
}
