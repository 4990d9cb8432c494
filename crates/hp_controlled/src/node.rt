//! The machines of a node that has a contract.
ghost use Rattle.std.specs.Prelude.{◌≡◌, ◌↔◌, ◌⊎◌, ◌+◌, ◌∷◌, [], ◌++◌, ◌<◌, ◌≤◌, List, Some, drop, get_or, length, map, slice_get, IfErr, IfOk, IsTrue, MatchOption, OnOk, is_some};
ghost use Rattle.std.specs.List.{AllByRecursion};
ghost use Rattle.hp_abstract.specs.declared.error.AbsErr.{AbsErr as AbsErrSeen};
ghost use Rattle.hp_abstract.specs.declared.error.AbsErr.TheVariants as abstract;
ghost use Rattle.hp_abstract.specs.Abstractions.{IsAbstractionOf};
ghost use Rattle.hp_abstract.specs.Machines.{IsRefused};
ghost use Rattle.hp_boolx.specs.Machine.{IsMachine};
ghost use Rattle.hp_controller.specs.declared.decoding.Control.{Control as ControlSeen};
ghost use Rattle.hp_controller.specs.Controlling.{IsController};
ghost use Rattle.hp_controller.specs.Decoding.{HasBits};
ghost use Rattle.hp_flat.specs.declared.node.Variable.{Variable as VariableSeen};
ghost use Rattle.hp_flat.specs.Nodes.{FlatNode as FlatSeen};
ghost use Rattle.hp_form.specs.Regular.Regular.{EqnsRegular};
ghost use Rattle.hp_machines.specs.Making.{AreMade};
ghost use Rattle.hp_obc.specs.Machines.{Machine as MachineSeen};
ghost use Rattle.hp_tree.specs.Meaning.{controls_of};
ghost use Rattle.hp_watch.specs.Growing.{IsLarger};
ghost use Rattle.hp_watch.specs.Watching.{Watched as WatchedSeen, observers_seen, watched_seen};
ghost use Rattle.hp_controlled.specs.Choosing as made;
ghost use Rattle.hp_controlled.specs.Choosing.{AreChosenNodes, AreControls, AreNodesOf, AreOfContract, IsChoosing, IsControl, IsInOrder, IsKept, IsOrdered, IsOwn, IsTold, Sees, telling_seen};
ghost use Rattle.hp_controlled.specs.Lacking.{ChoosesNot, HasCircularEqns, IsForced, IsLong, LacksMachines, LacksNodes, SaysNotBuilt};

use crate::error::{ControlledErr, of_abstraction};
use crate::part::{copy_of, part_of};
use hp_abstract::{Abstraction, Given, abstraction};
use hp_base::Name;
use hp_boolx::BoolMachine;
use hp_complete::order_eqns;
use hp_controller::{Control, ControlKind, Enumeration, controlled, controller, has_few_variables};
use hp_flat::{FlatNode, FlatTy, Variable};
use hp_machines::regular_machine_of;
use hp_obc::{Machine, ObcType};
use hp_synth::{End, play};
use hp_tree::{Node, Program, controls_of};
use hp_watch::{Observers, Watched, add_copy, watch};
use std::alloc::{AllocError, Global};

/// The most bytes of a name of a source text, behind which the compiler may write.
const MAX_SOURCE_NAME: usize = 255;

/// What is known when the machines of nodes are made.
#[derive(Clone, Copy)]
pub struct Context<'c, 'o> {
    pub program: &'c Program,
    pub types: &'c [ObcType],
    pub observers: &'c Observers<'o>,
}

impl<'c, 'o> Context<'c, 'o> {
    pub fn new(
        program: &'c Program,
        types: &'c [ObcType],
        observers: &'c Observers<'o>,
    ) -> Context<'c, 'o>
        ensures program { result.program.now ≡ program.now }
        ensures types { result.types.now ≡ types.now }
        ensures observers { observers_seen result.observers.now ≡ observers_seen observers.now }
    {
        Context {
            program,
            types,
            observers,
        }
    }
}

/// A name with an ending, which is short.
fn named(alloc: Global, name: &Name, end: &[u8]) -> Result<Name, ControlledErr>
    requires { length end.now ≤ 15 }
    ensures name { IfOk result (λ whole. whole ≡ name.now ++ end.now) }
    ensures long { IfErr result (SaysNotBuilt (IsLong name.now)) }
{
    if name.bytes().len() > MAX_SOURCE_NAME {
        return Err(ControlledErr::NotBuilt);
    }
    let mut bytes = Vec::from_slice(alloc, name.bytes())?;
    bytes.extend_from_slice(end)?;
    let whole = Name::new(alloc, &bytes)?;
    Ok(whole)
}

/// What a constructor of the type with this number is.
fn constructor_kind(number: u16, ty: &ObcType) -> Option<ControlKind>
    ensures { result ≡ made.constructor_kind number (Some ty.now) }
{
    match u8::try_from(ty.cons.len()) {
        Err(_) => None,
        Ok(constructors) => Some(ControlKind::Constructor(Enumeration {
            number,
            constructors,
        })),
    }
}

/// What a controllable variable is, by its type among the clocked equations.
fn control_kind(types: &[ObcType], ty: FlatTy) -> Option<ControlKind>
    ensures { result ≡ made.control_kind types.now ty }
{
    match ty {
        FlatTy::Bool => Some(ControlKind::Truth),
        FlatTy::Int => None,
        FlatTy::Enum(number) => match types.get(usize::from(number)) {
            None => None,
            Some(ty) => constructor_kind(number, ty),
        },
    }
}

/// Whether a controllable variable may have so many bits: a truth value has one.
fn has_bits(kind: ControlKind, width: u16) -> bool
    ensures { IsTrue result ↔ HasBits kind width }
{
    match kind {
        ControlKind::Truth => width == 1,
        ControlKind::Constructor(_) => true,
    }
}

/// A controllable variable, with so many bits.
fn control(types: &[ObcType], variable: &Variable, width: u16) -> Option<Control>
    ensures { MatchOption result ((c : ControlSeen) → IsControl types.now variable.now width c → ⊥) (IsControl types.now variable.now width) }
{
    match control_kind(types, variable.ty) {
        None => None,
        Some(kind) => {
            if !has_bits(kind, width) {
                return None;
            }
            Some(Control { kind, width })
        }
    }
}

/// Adds the controllable variable with this number, if there is one.
fn add_control(
    types: &[ObcType],
    variables: &[Variable],
    widths: &[u16],
    number: usize,
    controls: &mut Vec<Control>,
) -> Result<(), ControlledErr>
    requires { number < length widths.now }
    ensures added { OnOk result ((v : VariableSeen) × (c : ControlSeen) × (slice_get variables.now number ≡ Some v) × IsControl types.now v (get_or widths.now number 0) c × (controls.new.items ≡ controls.old.items ++ c ∷ [])) }
    ensures none { IfErr result (SaysNotBuilt ((v : VariableSeen) (c : ControlSeen) → slice_get variables.now number ≡ Some v → IsControl types.now v (get_or widths.now number 0) c → ⊥)) }
{
    let Some(variable) = variables.get(number) else {
        return Err(ControlledErr::NotBuilt);
    };
    let Some(control) = control(types, variable, widths[number]) else {
        return Err(ControlledErr::NotBuilt);
    };
    controls.push(control)?;
    Ok(())
}

/// The controllable variables, which are the first of these, with the number of bits of each.
fn controls(
    alloc: Global,
    types: &[ObcType],
    variables: &[Variable],
    widths: &[u16],
) -> Result<Vec<Control>, ControlledErr>
    ensures controls { IfOk result (λ controls. AreControls types.now variables.now widths.now controls.items) }
    ensures none { IfErr result (SaysNotBuilt ((controls : List ControlSeen) → AreControls types.now variables.now widths.now controls → ⊥)) }
{
    let mut controls = Vec::new(alloc);
    for i in 0..widths.len() {
        add_control(types, variables, widths, i, &mut controls)?;
    }
    Ok(controls)
}

/// The controller of a machine in which nothing is forced.
fn controller_of(alloc: Global, m: &BoolMachine) -> Result<FlatNode, ControlledErr>
    ensures controller { IfOk result (IsController m.now) }
    ensures machine { IsMachine m.now }
    ensures lost { IfErr result (SaysNotBuilt (IsForced m.now ⊎ IsLong m.now.name)) }
{
    if m.name.bytes().len() > MAX_SOURCE_NAME {
        return Err(ControlledErr::NotBuilt);
    }
    let mut played = play(alloc, m)?;
    match played.end {
        End::Lost => Err(ControlledErr::NotBuilt),
        End::Won { .. } => Ok(controller(alloc, &mut played, m)?),
    }
}

/// Which of what is given is early.
#[tactic(auto, using(crate::proofs::Rules::mapped))]
fn early_of(alloc: Global, given: &[Given]) -> Result<Vec<bool>, AllocError>
    ensures { IfOk result (λ is_early. is_early.items ≡ map (λ g. g.is_early) given.now) }
{
    let mut is_early = Vec::with_capacity(alloc, given.len())?;
    for i in 0..given.len() {
        is_early.push(given[i].is_early)?;
    }
    Ok(is_early)
}

/// A node that chooses the values of its controllable variables, and the variables of what is assumed and enforced.
#[derive(Drop)]
pub struct Chosen {
    node: FlatNode,
    assume: usize,
    enforce: usize,
}

/// Whether the inputs of the clocked equations are those of the node, with its controllable variables behind them, of each of which the machine has bits.
fn has_inputs(node: &Node, inputs: usize, widths: usize) -> bool
    ensures { IsTrue result ↔ (inputs ≡ length node.now.inputs + length (controls_of node.now.contract)) × (widths ≡ length (controls_of node.now.contract)) }
{
    let own = node.inputs.len();
    let controls = controls_of(&node.contract).len();
    inputs >= own && inputs - own == controls && widths == controls
}

/// The node that is watched, whose bits are those that are given to its machine.
fn watched_of(
    alloc: Global,
    context: Context<'_, '_>,
    node: &Node,
    flat: FlatNode,
    abstraction: &Abstraction,
) -> Result<Watched, ControlledErr>
    ensures sees { IfOk result (λ w. Sees context.entry.types.now (observers_seen context.entry.observers.now) node.now flat abstraction.now (watched_seen w)) }
    ensures larger { IfOk result (λ w. IsLarger flat (watched_seen w)) }
    ensures blind { IfErr result (SaysNotBuilt ((w : WatchedSeen) → Sees context.entry.types.now (observers_seen context.entry.observers.now) node.now flat abstraction.now w → ⊥)) }
{
    let counts = abstraction.machine.counts;
    let is_early = early_of(alloc, &abstraction.given)?;
    let watched = watch(
        alloc,
        context.types,
        node,
        &is_early,
        flat,
        context.observers,
    )?;
    if watched.early.len() != usize::from(counts.early)
        || watched.late.len() != usize::from(counts.late)
    {
        return Err(ControlledErr::NotBuilt);
    }
    Ok(watched)
}

/// A variable behind so many. There is no memory for so many that one has no number.
fn behind(first: usize, count: usize) -> Result<usize, AllocError>
    ensures { IfOk result (λ next. next ≡ first + count) }
{
    first.checked_add(count).ok_or(AllocError)
}

/// The variable of the first gate of a machine in the node that asks its controller: registers and control bits stand before.
fn first_gate(node: &FlatNode, m: &BoolMachine) -> Result<usize, AllocError>
    ensures { IfOk result (λ first. first ≡ length node.now.variables + m.now.registers + m.now.control) }
{
    let control = behind(node.variables.len(), usize::from(m.counts.registers))?;
    behind(control, usize::from(m.counts.control))
}

/// A node whose equations have their places: those that an equation reads stand before it.
fn ordered(alloc: Global, mut node: FlatNode) -> Result<FlatNode, ControlledErr>
    ensures ordered { IfOk result (IsOrdered node) }
    ensures circular { IfErr result (SaysNotBuilt (HasCircularEqns node)) }
{
    let variables = node.variables.len();
    order_eqns(alloc, variables, &mut node.eqns)?;
    Ok(node)
}

/// The node with copies of two of its variables, and an order. Its equations have their places, so that those of each part of it have.
fn told(
    alloc: Global,
    mut node: FlatNode,
    assumed: usize,
    enforced: usize,
) -> Result<Chosen, ControlledErr>
    ensures told { IfOk result (λ c. IsInOrder (made.with_copies assumed enforced node) (telling_seen c)) }
    ensures circular { IfErr result (SaysNotBuilt (HasCircularEqns (made.with_copies assumed enforced node).node)) }
{
    // One gate may be both, and an output stands once.
    let assume = add_copy(alloc, assumed, &mut node)?;
    let enforce = add_copy(alloc, enforced, &mut node)?;
    let node = ordered(alloc, node)?;
    Ok(Chosen {
        node,
        assume,
        enforce,
    })
}

/// The node that asks the controller of its machine, with what is assumed and enforced.
fn asking(
    alloc: Global,
    node: &Node,
    watched: Watched,
    abstraction: &Abstraction,
    controls: &[Control],
) -> Result<Chosen, ControlledErr>
    requires { length controls.now ≤ watched.node.inputs }
    ensures asks { IfOk result (λ c. IsInOrder (made.telling node.now.name (watched_seen watched) abstraction.now controls.now) (telling_seen c)) }
    ensures asks_not { IfErr result (SaysNotBuilt (IsLong node.now.name ⊎ HasCircularEqns (made.telling node.now.name (watched_seen watched) abstraction.now controls.now).node)) }
{
    let m = &abstraction.machine;
    let name = named(alloc, &node.name, b"$ctl")?;
    let gates = first_gate(&watched.node, m)?;
    let assumed = behind(gates, abstraction.assume)?;
    let enforced = behind(gates, abstraction.enforce)?;
    let Watched { node, early, late } = watched;
    let asks = controlled(alloc, node, m, &name, &early, &late, controls)?;
    told(alloc, asks, assumed, enforced)
}

/// The variables behind so many inputs.
fn behind_inputs(variables: &[Variable], inputs: usize) -> &[Variable]
    ensures { result.now ≡ drop inputs variables.now }
{
    if inputs < variables.len() {
        &variables[inputs..]
    } else {
        &[]
    }
}

/// The node that chooses, made of its clocked equations.
fn choosing(
    alloc: Global,
    context: Context<'_, '_>,
    node: &Node,
    flat: FlatNode,
    abstraction: &Abstraction,
) -> Result<Chosen, ControlledErr>
    ensures chooses { IfOk result (λ c. IsChoosing context.entry.types.now (observers_seen context.entry.observers.now) node.now flat abstraction.now (telling_seen c)) }
    ensures chooses_not { IfErr result (SaysNotBuilt (ChoosesNot context.entry.types.now (observers_seen context.entry.observers.now) node.now flat abstraction.now)) }
{
    let widths = &abstraction.machine.widths[..];
    if !has_inputs(node, flat.inputs, widths.len()) {
        return Err(ControlledErr::NotBuilt);
    }
    let variables = behind_inputs(&flat.variables, node.inputs.len());
    let chosen = controls(alloc, context.types, variables, widths)?;
    let watched = watched_of(alloc, context, node, flat, abstraction)?;
    asking(alloc, node, watched, abstraction, &chosen)
}

/// Adds the machine of a node whose equations have their places.
fn add_machine(
    alloc: Global,
    types: &[ObcType],
    node: FlatNode,
    machines: &mut Vec<Machine>,
) -> Result<(), ControlledErr>
    ensures added { OnOk result ((m : MachineSeen) × (machines.new.items ≡ machines.old.items ++ m ∷ []) × AreMade types.now (node ∷ []) (m ∷ [])) }
    ensures irregular { IfErr result (SaysNotBuilt (EqnsRegular types.now node → ⊥)) }
{
    let machine = regular_machine_of(alloc, node, types)?;
    machines.push(machine)?;
    Ok(())
}

/// The clocked equations of a node that has nothing to choose, which are those of its own machine.
fn kept_of(alloc: Global, node: &Node, flat: &FlatNode) -> Result<Option<FlatNode>, AllocError>
    ensures { IfOk result (λ kept. IsKept node.now flat.now kept) }
{
    if !controls_of(&node.contract).is_empty() {
        return Ok(None);
    }
    let copy = copy_of(alloc, flat)?;
    Ok(Some(copy))
}

/// The node of the own machine.
fn own_node(
    alloc: Global,
    node: &Node,
    kept: Option<FlatNode>,
    chosen: &Chosen,
) -> Result<FlatNode, AllocError>
    ensures { IfOk result (λ own. (flat : FlatSeen) → IsKept node.now flat kept → IsOwn node.now flat (telling_seen chosen.now) own) }
{
    match kept {
        Some(own) => Ok(own),
        None => part_of(
            alloc,
            &chosen.node,
            node.name.copy(alloc)?,
            &chosen.node.outputs,
        ),
    }
}

/// The node that also tells what is assumed and enforced.
fn told_node(alloc: Global, node: &Node, chosen: &Chosen) -> Result<FlatNode, ControlledErr>
    ensures told { IfOk result (IsTold node.now (telling_seen chosen.now)) }
    ensures long { IfErr result (SaysNotBuilt (IsLong node.now.name)) }
{
    let name = named(alloc, &node.name, b"$contract")?;
    let mut outputs = Vec::from_slice(alloc, &chosen.node.outputs)?;
    outputs.push(chosen.assume)?;
    outputs.push(chosen.enforce)?;
    let told = part_of(alloc, &chosen.node, name, &outputs)?;
    Ok(told)
}

/// The node itself, which chooses, and the one that also tells what is assumed and enforced.
fn chosen_nodes(
    alloc: Global,
    context: Context<'_, '_>,
    node: &Node,
    flat: FlatNode,
    abstraction: &Abstraction,
) -> Result<(FlatNode, FlatNode), ControlledErr>
    ensures nodes { IfOk result (λ r. AreChosenNodes context.entry.types.now (observers_seen context.entry.observers.now) node.now flat abstraction.now r.0 r.1) }
    ensures chooses_not { IfErr result (SaysNotBuilt (ChoosesNot context.entry.types.now (observers_seen context.entry.observers.now) node.now flat abstraction.now)) }
{
    let kept = kept_of(alloc, node, &flat)?;
    let chosen = choosing(alloc, context, node, flat, abstraction)?;
    let own = own_node(alloc, node, kept, &chosen)?;
    let told = told_node(alloc, node, &chosen)?;
    has_few_variables(&chosen.node);
    Ok((own, told))
}

/// The Boolean machine of the node's contract.
fn abstracted(
    alloc: Global,
    context: Context<'_, '_>,
    node: &Node,
) -> Result<Abstraction, ControlledErr>
    ensures abstracted { IfOk result (IsAbstractionOf context.entry.program.now node.now) }
    ensures refused { IfErr result (SaysNotBuilt ((e : AbsErrSeen) × IsRefused context.entry.program.now node.now e × (e ≡ abstract.OutOfMemory → ⊥))) }
{
    match abstraction(alloc, context.program, node) {
        Ok(abstraction) => Ok(abstraction),
        Err(error) => Err(of_abstraction(&error)),
    }
}

/// The controller of a node with a contract, the node itself, which chooses, and the one that also tells what is assumed and enforced.
#[derive(Drop)]
struct Nodes {
    controller: FlatNode,
    own: FlatNode,
    told: FlatNode,
}

/// These nodes of a node that has a contract.
fn contract_nodes(
    alloc: Global,
    context: Context<'_, '_>,
    node: &Node,
    flat: FlatNode,
) -> Result<Nodes, ControlledErr>
    ensures nodes { IfOk result (λ r. AreOfContract context.entry.program.now context.entry.types.now (observers_seen context.entry.observers.now) node.now flat r.controller r.own r.told) }
    ensures lacking { IfErr result (SaysNotBuilt (LacksNodes context.entry.program.now context.entry.types.now (observers_seen context.entry.observers.now) node.now flat)) }
{
    let abstraction = abstracted(alloc, context, node)?;
    let controller = controller_of(alloc, &abstraction.machine)?;
    let (own, told) = chosen_nodes(alloc, context, node, flat, &abstraction)?;
    Ok(Nodes {
        controller,
        own,
        told,
    })
}

/// Adds the machines of three nodes.
fn add_three(
    alloc: Global,
    types: &[ObcType],
    nodes: Nodes,
    machines: &mut Vec<Machine>,
) -> Result<(), ControlledErr>
    ensures added { OnOk result ((ms : List MachineSeen) × (machines.new.items ≡ machines.old.items ++ ms) × AreMade types.now (nodes.controller ∷ nodes.own ∷ nodes.told ∷ []) ms) }
    ensures irregular { IfErr result (SaysNotBuilt (AllByRecursion (EqnsRegular types.now) (nodes.controller ∷ nodes.own ∷ nodes.told ∷ []) → ⊥)) }
{
    let Nodes {
        controller,
        own,
        told,
    } = nodes;
    add_machine(alloc, types, controller, machines)?;
    add_machine(alloc, types, own, machines)?;
    add_machine(alloc, types, told, machines)
}

/// Adds the machines of a node that has a contract: that of its controller, its own, and the one that also tells what is assumed and enforced.
fn add_contract(
    alloc: Global,
    context: Context<'_, '_>,
    node: &Node,
    flat: FlatNode,
    machines: &mut Vec<Machine>,
) -> Result<(), ControlledErr>
    requires { IsTrue (is_some node.now.contract) }
    ensures added { OnOk result ((nodes : List FlatSeen) × (ms : List MachineSeen) × (machines.new.items ≡ machines.old.items ++ ms)
        × AreNodesOf context.entry.program.now context.entry.types.now (observers_seen context.entry.observers.now) node.now flat nodes × AreMade context.entry.types.now nodes ms) }
    ensures lacking { IfErr result (SaysNotBuilt (LacksMachines context.entry.program.now context.entry.types.now (observers_seen context.entry.observers.now) node.now flat)) }
{
    let nodes = contract_nodes(alloc, context, node, flat)?;
    add_three(alloc, context.types, nodes, machines)
}

/// Adds the machines of a node, of which these are the clocked equations.
pub fn add_machines(
    alloc: Global,
    context: Context<'_, '_>,
    node: &Node,
    flat: FlatNode,
    machines: &mut Vec<Machine>,
) -> Result<(), ControlledErr>
    ensures added { OnOk result ((nodes : List FlatSeen) × (ms : List MachineSeen) × (machines.new.items ≡ machines.old.items ++ ms)
        × AreNodesOf context.entry.program.now context.entry.types.now (observers_seen context.entry.observers.now) node.now flat nodes × AreMade context.entry.types.now nodes ms) }
    ensures lacking { IfErr result (SaysNotBuilt (LacksMachines context.entry.program.now context.entry.types.now (observers_seen context.entry.observers.now) node.now flat)) }
{
    match &node.contract {
        None => add_machine(alloc, context.types, flat, machines),
        Some(_) => add_contract(alloc, context, node, flat, machines),
    }
}
