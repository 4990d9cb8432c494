//! The machines of a program without controllable variables, and those of its contracts between them.
ghost use Rattle.std.specs.Prelude.{◌≡◌, ◌++◌, ◌∷◌, [], List, IfOk, IsTrue, OnOk};
ghost use Rattle.std.specs.Vec.Iter.{into_iter_items};
ghost use Rattle.hp_machines.specs.Machined.{heading_of_machine, heading_of_node};
ghost use Rattle.hp_machines.specs.Making.{AreMade};
ghost use Rattle.hp_obc.specs.Machines.{Machine as MachineSeen, Obc as ObcSeen};
ghost use Rattle.hp_tree.specs.declared.program.Item.{Item as ItemSeen};
ghost use Rattle.hp_controlled.specs.Joining.{AreMadeMachines, AreOfNode, AreOfNodes, AreWithContracts, ChoosesNothing, Tells};

use crate::error::ControlledErr;
use crate::heading::{are_truths, are_vars};
use crate::machines::chosen_machines;
use hp_automata::lowered;
use hp_base::Name;
use hp_complete::flatten;
use hp_flat::FlatNode;
use hp_form::formed;
use hp_machines::{obc_types, regular_machine_of};
use hp_obc::{Machine, Obc, ObcType};
use hp_tree::{Item, Node, Program, controls_of};
use std::alloc::{AllocError, Global};
use std::vec::IntoIter;

/// Whether a name is another one with an ending.
fn is_named(name: &Name, front: &Name, end: &[u8]) -> bool
    ensures { IsTrue result → (name.now ≡ front.now ++ end.now) }
{
    let bytes = name.bytes();
    let count = front.bytes().len();
    if bytes.len() < count {
        return false;
    }
    if &bytes[..count] != front.bytes() {
        return false;
    }
    &bytes[count..] == end
}

/// Whether a machine is called as the node, takes its inputs and gives its outputs, and the node has no controllable variables.
fn is_own(machine: &Machine, node: &Node) -> bool
    ensures { IsTrue result → (heading_of_machine machine.now ≡ heading_of_node node.now) }
{
    if !controls_of(&node.contract).is_empty() {
        return false;
    }
    if !machine.name.same(&node.name) {
        return false;
    }
    if !are_vars(&machine.inputs, &node.inputs) {
        return false;
    }
    are_vars(&machine.outputs, &node.outputs)
}

/// Whether a machine is the controller of the node, and gives nothing.
fn chooses_nothing(machine: &Machine, node: &Node) -> bool
    ensures { IsTrue result → ChoosesNothing node.now machine.now }
{
    if !is_named(&machine.name, &node.name, b"$ctl") {
        return false;
    }
    machine.outputs.is_empty()
}

/// Whether a machine tells what the contract of the node assumes and enforces, behind the outputs of the node.
fn tells(machine: &Machine, node: &Node) -> bool
    ensures { IsTrue result → Tells node.now machine.now }
{
    let count = node.outputs.len();
    if machine.outputs.len() < count {
        return false;
    }
    if !is_named(&machine.name, &node.name, b"$contract") {
        return false;
    }
    if !are_vars(&machine.inputs, &node.inputs) {
        return false;
    }
    if !are_vars(&machine.outputs[..count], &node.outputs) {
        return false;
    }
    are_truths(&machine.outputs[count..])
}

/// The machine that stands next, if it is the controller of the node and gives nothing.
fn next_controller(node: &Node, chosen: &mut IntoIter<Machine>) -> Result<Machine, ControlledErr>
    ensures { IfOk result (λ m. ChoosesNothing node.now m) }
{
    match chosen.next() {
        None => Err(ControlledErr::NotBuilt),
        Some(machine) => {
            if !chooses_nothing(&machine, node) {
                return Err(ControlledErr::NotBuilt);
            }
            Ok(machine)
        }
    }
}

/// The machine that stands next, if it tells what the contract of the node assumes and enforces.
fn next_telling(node: &Node, chosen: &mut IntoIter<Machine>) -> Result<Machine, ControlledErr>
    ensures { IfOk result (λ m. Tells node.now m) }
{
    match chosen.next() {
        None => Err(ControlledErr::NotBuilt),
        Some(machine) => {
            if !tells(&machine, node) {
                return Err(ControlledErr::NotBuilt);
            }
            Ok(machine)
        }
    }
}

fn put(machine: Machine, all: &mut Vec<Machine>) -> Result<(), AllocError>
    ensures { OnOk result (all.new.items ≡ all.old.items ++ machine ∷ []) }
{
    all.push(machine)?;
    Ok(())
}

/// Puts the own machine of a node that has a contract between the others of it, in place of the one that stands there.
fn put_between(
    node: &Node,
    own: Machine,
    chosen: &mut IntoIter<Machine>,
    all: &mut Vec<Machine>,
) -> Result<(), ControlledErr>
    ensures { OnOk result ((controller : MachineSeen) × (telling : MachineSeen) × ChoosesNothing node.now controller × Tells node.now telling × (all.new.items ≡ all.old.items ++ controller ∷ own ∷ telling ∷ [])) }
{
    put(next_controller(node, chosen)?, all)?;
    put(own, all)?;
    let _same = chosen.next();
    put(next_telling(node, chosen)?, all)?;
    Ok(())
}

/// Puts the machines of a node, of which this is its own one.
fn put_node(
    node: &Node,
    own: Machine,
    chosen: &mut IntoIter<Machine>,
    all: &mut Vec<Machine>,
) -> Result<(), ControlledErr>
    ensures { OnOk result ((these : List MachineSeen) × (all.new.items ≡ all.old.items ++ these) × AreOfNode node.now own these) }
{
    match &node.contract {
        None => {
            let _same = chosen.next();
            put(own, all)?;
            Ok(())
        }
        Some(_) => put_between(node, own, chosen, all),
    }
}

/// Puts the machines of a node, of which the own one stands next.
fn put_next(
    node: &Node,
    own: &mut IntoIter<Machine>,
    chosen: &mut IntoIter<Machine>,
    all: &mut Vec<Machine>,
) -> Result<(), ControlledErr>
    ensures { OnOk result ((m : MachineSeen) × (these : List MachineSeen) × (into_iter_items own.old ≡ m ∷ into_iter_items own.new) × (heading_of_machine m ≡ heading_of_node node.now)
        × (all.new.items ≡ all.old.items ++ these) × AreOfNode node.now m these) }
{
    match own.next() {
        None => Err(ControlledErr::NotBuilt),
        Some(machine) => {
            if !is_own(&machine, node) {
                return Err(ControlledErr::NotBuilt);
            }
            put_node(node, machine, chosen, all)
        }
    }
}

/// Puts the machines of a node, if the item is one.
fn put_item(
    item: &Item,
    own: &mut IntoIter<Machine>,
    chosen: &mut IntoIter<Machine>,
    all: &mut Vec<Machine>,
) -> Result<(), ControlledErr>
    ensures { OnOk result ((these : List MachineSeen) × (all.new.items ≡ all.old.items ++ these)
        × ((items : List ItemSeen) (more : List MachineSeen) → AreOfNodes items (into_iter_items own.new) more → AreOfNodes (item.now ∷ items) (into_iter_items own.old) (these ++ more))) }
{
    match item {
        Item::TypeItem(_) => Ok(()),
        Item::NodeItem(node) => put_next(node, own, chosen, all),
    }
}

/// The own machines of the nodes of some items, and between them those of contracts, as they stand in the others.
fn put_items(
    alloc: Global,
    items: &[Item],
    own: Vec<Machine>,
    chosen: Vec<Machine>,
) -> Result<Vec<Machine>, ControlledErr>
    ensures { IfOk result (λ all. AreOfNodes items.now own.items all.items) }
{
    let mut waiting = own.into_iter();
    let mut others = chosen.into_iter();
    let mut all = Vec::new(alloc);
    for item in items {
        put_item(item, &mut waiting, &mut others, &mut all)?;
    }
    match waiting.next() {
        None => Ok(all),
        Some(_) => Err(ControlledErr::NotBuilt),
    }
}

fn add_made(
    alloc: Global,
    node: FlatNode,
    types: &[ObcType],
    machines: &mut Vec<Machine>,
) -> Result<(), ControlledErr>
    ensures { OnOk result ((m : MachineSeen) × (machines.new.items ≡ machines.old.items ++ m ∷ []) × AreMade types.now (node ∷ []) (m ∷ [])) }
{
    let machine = regular_machine_of(alloc, node, types)?;
    machines.push(machine)?;
    Ok(())
}

/// The machines of clocked equations, in order.
#[tactic(auto, using(crate::proofs::JoiningLaws::made_next, crate::proofs::JoiningLaws::made_all))]
fn all_made(
    alloc: Global,
    nodes: Vec<FlatNode>,
    types: &[ObcType],
) -> Result<Vec<Machine>, ControlledErr>
    ensures { IfOk result (λ machines. AreMade types.now nodes.items machines.items) }
{
    let mut machines = Vec::new(alloc);
    for node in nodes {
        add_made(alloc, node, types, &mut machines)?;
    }
    Ok(machines)
}

/// The machines of the nodes of a program, without those of contracts.
fn own_machines(
    alloc: Global,
    program: &Program,
    types: &[ObcType],
) -> Result<Vec<Machine>, ControlledErr>
    ensures { IfOk result (λ machines. AreMadeMachines program.now types.now machines.items) }
{
    let low = lowered(alloc, program)?;
    let nodes = flatten(alloc, &low)?;
    let machines = all_made(alloc, nodes, types)?;
    Ok(machines)
}

/// The machines of a program, of which these are the types, with those of its contracts.
fn all_machines(
    alloc: Global,
    program: &Program,
    types: &[ObcType],
) -> Result<Vec<Machine>, ControlledErr>
    ensures { IfOk result (λ all. (own : List MachineSeen) × AreMadeMachines program.now types.now own × AreOfNodes program.now own all.items) }
{
    let own = own_machines(alloc, program, types)?;
    let chosen = chosen_machines(alloc, program, types)?;
    let all = put_items(alloc, &program.items, own, chosen)?;
    Ok(all)
}

/// The machines of a program with its clocks written and without inlined calls, whose contracts are kept and which has no controllable variables: for each node, in order,
/// the machine of its clocked equations, as without contracts; and for one that has a contract also that of its controller, before it, which gives nothing, and that of what
/// is assumed and enforced, behind it.
pub fn machines_with_contracts(alloc: Global, program: &Program) -> Result<Obc, ControlledErr>
    ensures { IfOk result (λ o. (own : ObcSeen) × AreWithContracts program.now own o) }
{
    let types = obc_types(alloc, &program.items)?;
    let machines = all_machines(alloc, program, &types)?;
    let file = formed(alloc, types, machines)?;
    Ok(file)
}
