//! The machines of a program.
ghost use Rattle.std.specs.Prelude.{◌≡◌, ◌++◌, ◌∷◌, [], List, map, IfErr, IfOk, MatchResult, OnOk};
ghost use Rattle.std.specs.Vec.Iter.{into_iter_items};
ghost use Rattle.hp_tree.specs.Programs.{Contract as ContractSeen};
ghost use Rattle.hp_tree.specs.declared.program.Item.{Item as ItemSeen};
ghost use Rattle.hp_tree.specs.declared.program.Item.TheVariants.{NodeItem};
ghost use Rattle.hp_flat.specs.Nodes.{FlatNode as FlatSeen};
ghost use Rattle.hp_obc.specs.Machines.{Machine as MachineSeen};
ghost use Rattle.hp_machines.specs.Making.{AreMade};
ghost use Rattle.hp_watch.specs.Observing as observing;
ghost use Rattle.hp_watch.specs.Watching.{observer_seen, observers_seen};
ghost use Rattle.hp_controlled.specs.Choosing.{AreNodesOf};
ghost use Rattle.hp_controlled.specs.Chosen.{AreControlledMachines};
ghost use Rattle.hp_controlled.specs.Lacking.{FitContracts, HasCircularEquations, HasNoChosenMachines, LacksCompiled, LacksObservers, OneLacksMachines, SaysNotBuilt};
ghost use Rattle.hp_controlled.specs.Compiled as made;
ghost use Rattle.hp_controlled.specs.Compiled.{AreCompiled, AreEquationsOf, AreObserved, HaveMachines};

use crate::error::ControlledErr;
use crate::node::{Context, add_machines};
use hp_automata::{lower, lowered};
use hp_base::Name;
use hp_complete::flatten;
use hp_flat::FlatNode;
use hp_form::formed;
use hp_machines::obc_types;
use hp_obc::{Machine, Obc, ObcType};
use hp_tables::declarations::numbers_of;
use hp_tree::{Contract, Item, Node, Program};
use hp_watch::{Observer, Observers, observers};
use std::alloc::{AllocError, Global};
use std::vec::IntoIter;

/// Adds the name of a node that has a contract.
fn add_name<'a>(node: &'a Node, names: &mut Vec<&'a Name>) -> Result<(), AllocError>
    ensures { OnOk result (map (λ x. x.now) names.new.items ≡ map (λ x. x.now) names.old.items ++ made.name_if node.now.name node.now.contract) }
{
    if node.contract.is_some() {
        names.push(&node.name)?;
    }
    Ok(())
}

/// Adds the name of a node that has a contract, if the item is one.
fn add_name_of<'a>(item: &'a Item, names: &mut Vec<&'a Name>) -> Result<(), AllocError>
    ensures { OnOk result (map (λ x. x.now) names.new.items ≡ map (λ x. x.now) names.old.items ++ made.names_with_contracts (item.now ∷ [])) }
{
    match item {
        Item::TypeItem(_) => Ok(()),
        Item::NodeItem(node) => add_name(node, names),
    }
}

/// The names of the nodes that have contracts, in order.
#[tactic(auto, using(crate::proofs::Rules::naming))]
fn contract_names<'a>(alloc: Global, items: &'a [Item]) -> Result<Vec<&'a Name>, AllocError>
    ensures { IfOk result (λ names. map (λ x. x.now) names.items ≡ made.names_with_contracts items.now) }
{
    let mut names = Vec::new(alloc);
    for item in items {
        add_name_of(item, &mut names)?;
    }
    Ok(names)
}

/// Adds the observer of a contract, of which the clocked equations stand next.
fn add_observer(
    alloc: Global,
    contract: &Contract,
    flats: &mut IntoIter<FlatNode>,
    all: &mut Vec<Observer>,
) -> Result<(), ControlledErr>
    ensures observer { OnOk result ((cs : List ContractSeen) → map observer_seen all.new.items ++ made.observed_all cs (into_iter_items flats.new) ≡ map observer_seen all.old.items ++ made.observed_all (contract.now ∷ cs) (into_iter_items flats.old)) }
    ensures fits { OnOk result ((cs : List ContractSeen) → FitContracts (contract.now ∷ cs) (into_iter_items flats.old) → FitContracts cs (into_iter_items flats.new)) }
    ensures unfitting { IfErr result (SaysNotBuilt ((cs : List ContractSeen) → FitContracts (contract.now ∷ cs) (into_iter_items flats.old) → ⊥)) }
{
    let Some(flat) = flats.next() else {
        return Err(ControlledErr::NotBuilt);
    };
    let observer = Observer::new(alloc, contract, flat)?;
    all.push(observer)?;
    Ok(())
}

/// Adds the observer of a node that has a contract.
fn add_observer_of(
    alloc: Global,
    node: &Node,
    flats: &mut IntoIter<FlatNode>,
    all: &mut Vec<Observer>,
) -> Result<(), ControlledErr>
    ensures observer { OnOk result ((cs : List ContractSeen) → map observer_seen all.new.items ++ made.observed_all cs (into_iter_items flats.new) ≡ map observer_seen all.old.items ++ made.observed_all (made.contract_if node.now.contract ++ cs) (into_iter_items flats.old)) }
    ensures fits { OnOk result ((cs : List ContractSeen) → FitContracts (made.contract_if node.now.contract ++ cs) (into_iter_items flats.old) → FitContracts cs (into_iter_items flats.new)) }
    ensures unfitting { IfErr result (SaysNotBuilt ((cs : List ContractSeen) → FitContracts (made.contract_if node.now.contract ++ cs) (into_iter_items flats.old) → ⊥)) }
{
    match &node.contract {
        None => Ok(()),
        Some(contract) => add_observer(alloc, contract, flats, all),
    }
}

/// Adds the observer of a node that has a contract, if the item is one.
fn observe(
    alloc: Global,
    item: &Item,
    flats: &mut IntoIter<FlatNode>,
    all: &mut Vec<Observer>,
) -> Result<(), ControlledErr>
    ensures observer { OnOk result ((items : List ItemSeen) → map observer_seen all.new.items ++ made.observed_all (made.contracts_of items) (into_iter_items flats.new)
        ≡ map observer_seen all.old.items ++ made.observed_all (made.contracts_of (item.now ∷ items)) (into_iter_items flats.old)) }
    ensures fits { OnOk result ((items : List ItemSeen) → FitContracts (made.contracts_of (item.now ∷ items)) (into_iter_items flats.old) → FitContracts (made.contracts_of items) (into_iter_items flats.new)) }
    ensures unfitting { IfErr result (SaysNotBuilt ((items : List ItemSeen) → FitContracts (made.contracts_of (item.now ∷ items)) (into_iter_items flats.old) → ⊥)) }
{
    match item {
        Item::TypeItem(_) => Ok(()),
        Item::NodeItem(node) => add_observer_of(alloc, node, flats, all),
    }
}

/// The observers of contracts, in order, of which these are the clocked equations.
fn observers_of(
    alloc: Global,
    items: &[Item],
    flats: Vec<FlatNode>,
) -> Result<Vec<Observer>, ControlledErr>
    ensures observers { IfOk result (λ all. map observer_seen all.items ≡ made.observed_all (made.contracts_of items.now) flats.items) }
    ensures unfitting { IfErr result (SaysNotBuilt (FitContracts (made.contracts_of items.now) flats.items → ⊥)) }
{
    let mut all = Vec::new(alloc);
    let mut waiting = flats.into_iter();
    for item in items {
        observe(alloc, item, &mut waiting, &mut all)?;
    }
    Ok(all)
}

/// The clocked equations of the observers of a program.
fn flat_observers(alloc: Global, program: &Program) -> Result<Vec<FlatNode>, ControlledErr>
    ensures equations { IfOk result (λ nodes. AreEquationsOf (observing.observers program.now) nodes.items) }
    ensures circular { IfErr result (SaysNotBuilt (HasCircularEquations (observing.observers program.now))) }
{
    let seen = observers(alloc, program)?;
    let low = lower(alloc, seen)?;
    let nodes = flatten(alloc, &low)?;
    Ok(nodes)
}

/// The observers of a program.
fn observed<'a>(alloc: Global, program: &'a Program) -> Result<Observers<'a>, ControlledErr>
    ensures observed { IfOk result (λ o. AreObserved program.now (observers_seen o)) }
    ensures lacking { IfErr result (SaysNotBuilt (LacksObservers program.now)) }
{
    let flats = flat_observers(alloc, program)?;
    let all = observers_of(alloc, &program.items, flats)?;
    let names = contract_names(alloc, &program.items)?;
    Ok(Observers {
        all,
        names: numbers_of(alloc, &names)?,
    })
}

/// Adds the machines of a node, of which the clocked equations stand next.
fn add_next(
    alloc: Global,
    context: Context<'_, '_>,
    node: &Node,
    flats: &mut IntoIter<FlatNode>,
    machines: &mut Vec<Machine>,
) -> Result<(), ControlledErr>
    ensures added { OnOk result ((n : FlatSeen) × (nodes : List FlatSeen) × (ms : List MachineSeen) × (into_iter_items flats.old ≡ n ∷ into_iter_items flats.new) × (machines.new.items ≡ machines.old.items ++ ms)
        × AreNodesOf context.entry.program.now context.entry.types.now (observers_seen context.entry.observers.now) node.now n nodes × AreMade context.entry.types.now nodes ms) }
    ensures lacking { IfErr result (SaysNotBuilt ((items : List ItemSeen) → OneLacksMachines context.entry.program.now context.entry.types.now (observers_seen context.entry.observers.now) (NodeItem node.now ∷ items) (into_iter_items flats.old))) }
{
    match flats.next() {
        None => Err(ControlledErr::NotBuilt),
        Some(flat) => add_machines(alloc, context, node, flat, machines),
    }
}

/// Adds the machines of a node, if the item is one.
fn add_item(
    alloc: Global,
    context: Context<'_, '_>,
    item: &Item,
    flats: &mut IntoIter<FlatNode>,
    machines: &mut Vec<Machine>,
) -> Result<(), ControlledErr>
    ensures added { OnOk result ((these : List MachineSeen) × (machines.new.items ≡ machines.old.items ++ these)
        × ((items : List ItemSeen) (more : List MachineSeen) → HaveMachines context.entry.program.now context.entry.types.now (observers_seen context.entry.observers.now) items (into_iter_items flats.new) more
        → HaveMachines context.entry.program.now context.entry.types.now (observers_seen context.entry.observers.now) (item.now ∷ items) (into_iter_items flats.old) (these ++ more))) }
    ensures behind { OnOk result ((items : List ItemSeen) → OneLacksMachines context.entry.program.now context.entry.types.now (observers_seen context.entry.observers.now) items (into_iter_items flats.new) → OneLacksMachines context.entry.program.now context.entry.types.now (observers_seen context.entry.observers.now) (item.now ∷ items) (into_iter_items flats.old)) }
    ensures lacking { IfErr result (SaysNotBuilt ((items : List ItemSeen) → OneLacksMachines context.entry.program.now context.entry.types.now (observers_seen context.entry.observers.now) (item.now ∷ items) (into_iter_items flats.old))) }
{
    match item {
        Item::TypeItem(_) => Ok(()),
        Item::NodeItem(node) => add_next(alloc, context, node, flats, machines),
    }
}

/// The machines of some items, of which these are the clocked equations, in order.
fn machines_of(
    alloc: Global,
    context: Context<'_, '_>,
    items: &[Item],
    flats: Vec<FlatNode>,
) -> Result<Vec<Machine>, ControlledErr>
    ensures machines { IfOk result (λ machines. HaveMachines context.entry.program.now context.entry.types.now (observers_seen context.entry.observers.now) items.now flats.items machines.items) }
    ensures lacking { IfErr result (SaysNotBuilt (OneLacksMachines context.entry.program.now context.entry.types.now (observers_seen context.entry.observers.now) items.now flats.items)) }
{
    let mut machines = Vec::new(alloc);
    let mut waiting = flats.into_iter();
    for item in items {
        add_item(alloc, context, item, &mut waiting, &mut machines)?;
    }
    Ok(machines)
}

/// The clocked equations of a program.
fn equations_of(alloc: Global, program: &Program) -> Result<Vec<FlatNode>, ControlledErr>
    ensures equations { IfOk result (λ nodes. AreEquationsOf program.now nodes.items) }
    ensures circular { IfErr result (SaysNotBuilt (HasCircularEquations program.now)) }
{
    let low = lowered(alloc, program)?;
    let nodes = flatten(alloc, &low)?;
    Ok(nodes)
}

/// The machines of a program, over its types: their form is not looked at yet.
pub fn chosen_machines(
    alloc: Global,
    program: &Program,
    types: &[ObcType],
) -> Result<Vec<Machine>, ControlledErr>
    ensures compiled { IfOk result (λ machines. AreCompiled program.now types.now machines.items) }
    ensures lacking { IfErr result (SaysNotBuilt (LacksCompiled program.now types.now)) }
{
    let flats = equations_of(alloc, program)?;
    let observers = observed(alloc, program)?;
    let context = Context::new(program, types, &observers);
    let machines = machines_of(alloc, context, &program.items, flats)?;
    Ok(machines)
}

/// The machines of a program, in form.
fn compiled_machines(alloc: Global, program: &Program) -> Result<Obc, ControlledErr>
    ensures machines { IfOk result (AreControlledMachines program.now) }
    ensures not_built { IfErr result (SaysNotBuilt (HasNoChosenMachines program.now)) }
{
    let types = obc_types(alloc, &program.items)?;
    let machines = chosen_machines(alloc, program, &types)?;
    let file = formed(alloc, types, machines)?;
    Ok(file)
}

/// The machines of a program with its clocks written and without inlined calls, whose contracts are kept: for each node, in order, its machine, and for one that has a
/// contract also those of its controller, before it, and of what is assumed and enforced, behind it.
pub fn controlled_machines(alloc: Global, program: &Program) -> Result<Obc, ControlledErr>
    ensures { MatchResult result (AreControlledMachines program.now) (SaysNotBuilt (HasNoChosenMachines program.now)) }
{
    match compiled_machines(alloc, program) {
        Ok(file) => Ok(file),
        Err(error) => Err(error),
    }
}
