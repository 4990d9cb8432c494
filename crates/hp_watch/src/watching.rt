//! The early and late variables of a node.
ghost use Rattle.std.specs.Prelude.{◌≡◌, ◌≢◌, ◌++◌, ◌∷◌, [], length, map, IfErr, IfOk, OnOk, MatchOption, MatchResult};
ghost use Rattle.std.specs.List.{flat_map, range_with_len};
ghost use Rattle.hp_flat.specs.EquationView.{right_seen};
ghost use Rattle.hp_watch.specs.Growing.{IsLarger};
ghost use Rattle.hp_watch.specs.Embedding.{embedded, shift_of, site_seen};
ghost use Rattle.hp_watch.specs.Walk.{events_from, in_block, in_contract, walk_contract};
ghost use Rattle.hp_watch.specs.Watching as made;
ghost use Rattle.hp_watch.specs.Watching.{Fits, IsSurveyed, IsWatched, observer_seen, observers_seen, watched_seen};

use crate::adding::type_at;
use crate::embedding::{Shift, Site, embed, moved};
use crate::error::WatchErr;
use crate::lifting::{add_bits, lift};
use crate::walk::{events_of, walk_block, walk_contract};
use hp_base::Value;
use hp_flat::{Atom, FlatEqn, FlatNode, FlatRight, FlatTy};
use hp_obc::ObcType;
use hp_tables::declarations::Table;
use hp_tree::{Contract, Node};
use std::alloc::{AllocError, Global};

/// A free place: its variable, and the equation that defines it, which has its clock. An input has none, and is there always.
#[derive(Clone, Copy, Debug)]
pub struct Free {
    pub variable: usize,
    pub eqn: Option<usize>,
}

/// The clocked equations of a contract, and its free places in order.
#[derive(Drop)]
pub struct Observer {
    node: FlatNode,
    free: Vec<Free>,
}

/// The observers of a program, and by the name of a node the number of its own.
#[derive(Drop)]
pub struct Observers<'a> {
    pub all: Vec<Observer>,
    pub names: Table<'a, usize>,
}

/// A node with more variables and equations: those that have the early and the late bits of its machine, in order.
#[derive(Drop)]
pub struct Watched {
    pub node: FlatNode,
    pub early: Vec<usize>,
    pub late: Vec<usize>,
}

/// Whether a type is that of integers.
fn is_integer(ty: FlatTy) -> bool
    ensures { result ≡ made.is_integer ty }
{
    match ty {
        FlatTy::Int => true,
        FlatTy::Bool | FlatTy::Enum(_) => false,
    }
}

/// Whether an atom is an integer.
fn reads_integer(node: &FlatNode, atom: Atom) -> bool
    ensures { result ≡ made.reads_integer node.now atom }
{
    match atom {
        Atom::Variable(variable) => is_integer(type_at(node, variable)),
        Atom::Value(Value::I(_)) => true,
        Atom::Value(_) => false,
    }
}

/// Whether what is compared are integers.
fn compares_integers(node: &FlatNode, args: &[Atom]) -> bool
    ensures { result ≡ made.compares_integers node.now args.now }
{
    match args {
        [] => false,
        [first, ..] => reads_integer(node, *first),
    }
}

/// Adds a variable that an equation defines, unless it is an integer.
fn add_target(
    node: &FlatNode,
    eqn: usize,
    variable: usize,
    free: &mut Vec<Free>,
) -> Result<(), AllocError>
    ensures { OnOk result (free.new.items ≡ free.old.items ++ made.free_target node.now eqn variable) }
{
    if !is_integer(type_at(node, variable)) {
        free.push(Free {
            variable,
            eqn: Some(eqn),
        })?;
    }
    Ok(())
}

/// Adds those of the variables that an equation defines that are no integers.
#[tactic(auto, using(crate::proofs::Rules::places))]
fn add_targets(
    node: &FlatNode,
    eqn: usize,
    variables: &[usize],
    free: &mut Vec<Free>,
) -> Result<(), AllocError>
    ensures { OnOk result (free.new.items ≡ free.old.items ++ flat_map (made.free_target node.now eqn) variables.now) }
{
    for i in 0..variables.len() {
        add_target(node, eqn, variables[i], free)?;
    }
    Ok(())
}

/// Adds what an equation of a comparison or a call gives that is free: whether integers compare so, and outputs that are no integers.
#[tactic(auto, using(crate::proofs::Rules::places))]
fn add_event(
    node: &FlatNode,
    number: usize,
    eqn: &FlatEqn,
    free: &mut Vec<Free>,
) -> Result<(), AllocError>
    ensures { OnOk result (free.new.items ≡ free.old.items ++ made.free_by node.now number eqn.now.right eqn.now.targets) }
{
    match &eqn.right {
        FlatRight::Op(_, args) => {
            if compares_integers(node, args) {
                add_targets(node, number, &eqn.targets, free)?;
            }
            Ok(())
        }
        FlatRight::Call { .. } => add_targets(node, number, &eqn.targets, free),
        FlatRight::Register { .. } => Ok(()),
    }
}

/// Adds the free places of the equation with this number.
fn add_at(node: &FlatNode, number: usize, free: &mut Vec<Free>) -> Result<(), AllocError>
    ensures { OnOk result (free.new.items ≡ free.old.items ++ made.free_at node.now number) }
{
    let Some(eqn) = node.eqns.get(number) else {
        return Ok(());
    };
    add_event(node, number, eqn, free)?;
    Ok(())
}

/// Adds the free places of equations, in this order.
#[tactic(auto, using(crate::proofs::Rules::places))]
fn add_all(node: &FlatNode, numbers: &[usize], free: &mut Vec<Free>) -> Result<(), AllocError>
    ensures { OnOk result (free.new.items ≡ free.old.items ++ flat_map (made.free_at node.now) numbers.now) }
{
    for i in 0..numbers.len() {
        add_at(node, numbers[i], free)?;
    }
    Ok(())
}

/// Adds an input, unless it is an integer.
fn add_input(node: &FlatNode, variable: usize, free: &mut Vec<Free>) -> Result<(), AllocError>
    ensures { OnOk result (free.new.items ≡ free.old.items ++ made.free_input node.now variable) }
{
    if !is_integer(type_at(node, variable)) {
        free.push(Free {
            variable,
            eqn: None,
        })?;
    }
    Ok(())
}

/// Adds the inputs of a node that are no integers.
#[tactic(auto, using(crate::proofs::Rules::places))]
fn add_inputs(node: &FlatNode, inputs: usize, free: &mut Vec<Free>) -> Result<(), AllocError>
    ensures { OnOk result (free.new.items ≡ free.old.items ++ made.free_inputs node.now inputs) }
{
    for variable in 0..inputs {
        add_input(node, variable, free)?;
    }
    Ok(())
}

/// The number of an equation that is moved, if there is one.
fn moved_number(number: Option<usize>, by: usize) -> Result<Option<usize>, AllocError>
    ensures { IfOk result (λ moved. moved ≡ made.moved_number by number) }
{
    match number {
        None => Ok(None),
        Some(number) => Ok(Some(moved(number, by)?)),
    }
}

/// A free place of an observer where that stands in a node.
fn moved_free(place: Free, shift: Shift) -> Result<Free, AllocError>
    ensures { IfOk result (λ moved. moved ≡ made.moved_free shift place) }
{
    let variable = moved(place.variable, shift.variables)?;
    let eqn = moved_number(place.eqn, shift.eqns)?;
    Ok(Free { variable, eqn })
}

impl Observer {
    /// The observer of a contract, whose clocked equations were made of the node of `observers`.
    pub fn new(alloc: Global, contract: &Contract, node: FlatNode) -> Result<Observer, WatchErr>
        ensures observed { IfOk result (λ observer. observer_seen observer ≡ made.observed contract.now node) }
        ensures fits { MatchResult result (λ _. in_contract contract.now ≡ length (events_from 0 node.eqns)) (λ e. e ≡ WatchErr.Misfit → in_contract contract.now ≢ length (events_from 0 node.eqns)) }
    {
        let walked = contract_walked(alloc, contract, &node)?;
        let mut free = Vec::new(alloc);
        add_all(&node, &walked, &mut free)?;
        Ok(Observer { node, free })
    }

    /// Adds the free places of the observer where it stands in a node.
    #[tactic(auto, using(crate::proofs::Rules::places))]
    fn add_moved(&self, shift: Shift, free: &mut Vec<Free>) -> Result<(), AllocError>
        ensures { OnOk result (free.new.items ≡ free.old.items ++ map (made.moved_free shift) (observer_seen self.now).free) }
    {
        for i in 0..self.free.len() {
            free.push(moved_free(self.free[i], shift)?)?;
        }
        Ok(())
    }
}

/// The comparisons of a contract in the order of places, by the numbers of their equations.
fn contract_walked(
    alloc: Global,
    contract: &Contract,
    node: &FlatNode,
) -> Result<Vec<usize>, WatchErr>
    ensures walked { IfOk result (λ walked. walked.items ≡ (walk_contract contract.now (events_from 0 node.now.eqns)).0) }
    ensures fits { MatchResult result (λ _. in_contract contract.now ≡ length (events_from 0 node.now.eqns)) (λ e. e ≡ WatchErr.Misfit → in_contract contract.now ≢ length (events_from 0 node.now.eqns)) }
{
    let events = events_of(alloc, &node.eqns)?;
    walk_contract(alloc, contract, &events)
}

/// The comparisons and calls of a node's body in the order of places, by the numbers of their equations.
fn body_walked(alloc: Global, node: &Node, flat: &FlatNode) -> Result<Vec<usize>, WatchErr>
    ensures walked { IfOk result (λ walked. walked.items ≡ made.walked node.now flat.now) }
    ensures fits { MatchResult result (λ _. in_block node.now.body ≡ length (events_from 0 flat.now.eqns)) (λ e. e ≡ WatchErr.Misfit → in_block node.now.body ≢ length (events_from 0 flat.now.eqns)) }
{
    let events = events_of(alloc, &flat.eqns)?;
    walk_block(alloc, &node.body, &events)
}

impl<'a> Observers<'a> {
    /// The observer of the node of this name, if that has a contract.
    fn find(&self, name: &[u8]) -> Option<&Observer>
        ensures { MatchOption result (observers_seen self.now name.now ≡ None) (λ o. observers_seen self.now name.now ≡ Some (observer_seen o.now)) }
    {
        match self.names.find(name) {
            None => None,
            Some(number) => self.all.get(number),
        }
    }

    /// The observer of the node that an equation calls, if that has a contract.
    fn called_by(&self, eqn: &FlatEqn) -> Option<&Observer>
        ensures { MatchOption result (made.called_by (observers_seen self.now) eqn.now.right ≡ None) (λ o. made.called_by (observers_seen self.now) eqn.now.right ≡ Some (observer_seen o.now)) }
    {
        match &eqn.right {
            FlatRight::Call { node, .. } => self.find(node.bytes()),
            FlatRight::Op(_, _) => None,
            FlatRight::Register { .. } => None,
        }
    }
}

/// Adds atoms of these variables.
#[tactic(auto, using(crate::proofs::Rules::places))]
fn add_reads(variables: &[usize], into: &mut Vec<Atom>) -> Result<(), AllocError>
    ensures { OnOk result (into.new.items ≡ into.old.items ++ made.reads variables.now) }
{
    for i in 0..variables.len() {
        into.push(Atom::Variable(variables[i]))?;
    }
    Ok(())
}

/// Atoms of the first so many variables.
#[tactic(auto, using(crate::proofs::Rules::places))]
fn first_reads(alloc: Global, count: usize) -> Result<Vec<Atom>, AllocError>
    ensures { IfOk result (λ atoms. atoms.items ≡ made.reads (range_with_len 0 count)) }
{
    let mut atoms = Vec::new(alloc);
    for variable in 0..count {
        atoms.push(Atom::Variable(variable))?;
    }
    Ok(atoms)
}

/// Where the observer of the node's own contract is put, of so many inputs.
fn own_site(alloc: Global, inputs: usize, node: &FlatNode) -> Result<Site, AllocError>
    ensures { IfOk result (λ site. site_seen site ≡ made.own_site inputs node.now) }
{
    let mut atoms = first_reads(alloc, inputs)?;
    add_reads(&node.outputs, &mut atoms)?;
    Ok(Site {
        clock: Vec::new(alloc),
        restart: Vec::new(alloc),
        inputs: atoms,
    })
}

/// The arguments of a call, and of any other equation none.
fn args_of(alloc: Global, right: &FlatRight) -> Result<Vec<Atom>, AllocError>
    ensures { IfOk result (λ args. args.items ≡ made.args_of (right_seen right.now)) }
{
    match right {
        FlatRight::Call { args, .. } => Vec::from_slice(alloc, args),
        FlatRight::Op(_, _) => Ok(Vec::new(alloc)),
        FlatRight::Register { .. } => Ok(Vec::new(alloc)),
    }
}

/// Where the observer of the node that an equation calls is put.
fn site_of(alloc: Global, eqn: &FlatEqn) -> Result<Site, AllocError>
    ensures { IfOk result (λ site. site_seen site ≡ made.site_of eqn.now) }
{
    let mut inputs = args_of(alloc, &eqn.right)?;
    add_reads(&eqn.targets, &mut inputs)?;
    let clock = Vec::from_slice(alloc, &eqn.clock)?;
    let restart = Vec::from_slice(alloc, &eqn.restart)?;
    Ok(Site {
        clock,
        restart,
        inputs,
    })
}

/// Adds an observer at a site, and says where it stands behind where others do.
fn add_observer(
    alloc: Global,
    observer: &Observer,
    site: &Site,
    node: &mut FlatNode,
    shifts: &mut Vec<Option<Shift>>,
) -> Result<(), AllocError>
    ensures node { OnOk result (node.new ≡ embedded (observer_seen observer.now).node (site_seen site.now) node.old) }
    ensures shifts { OnOk result (shifts.new.items ≡ shifts.old.items ++ Some (shift_of (observer_seen observer.now).node (site_seen site.now) node.old) ∷ []) }
{
    let shift = embed(alloc, &observer.node, site, node)?;
    shifts.push(Some(shift))?;
    Ok(())
}

/// Adds the observer of the node that the equation with this number calls, if that has a contract.
fn add_called(
    alloc: Global,
    observers: &Observers<'_>,
    number: usize,
    node: &mut FlatNode,
    shifts: &mut Vec<Option<Shift>>,
) -> Result<(), AllocError>
    ensures { OnOk result (made.placed_as node.new shifts.new.items ≡ made.with_called_at (observers_seen observers.now) number (made.placed_as node.old shifts.old.items)) }
{
    let Some(eqn) = node.eqns.get(number) else {
        shifts.push(None)?;
        return Ok(());
    };
    let Some(observer) = observers.called_by(eqn) else {
        shifts.push(None)?;
        return Ok(());
    };
    let site = site_of(alloc, eqn)?;
    add_observer(alloc, observer, &site, node, shifts)
}

/// Adds the observers of the nodes that the first so many equations call, and gives where they stand, by the numbers of the equations.
#[tactic(auto, using(crate::proofs::Rules::callings))]
fn add_all_called(
    alloc: Global,
    observers: &Observers<'_>,
    eqns: usize,
    node: &mut FlatNode,
) -> Result<Vec<Option<Shift>>, AllocError>
    ensures { IfOk result (λ shifts. made.placed_as node.new shifts.items ≡ made.placed (observers_seen observers.now) eqns node.old) }
{
    let mut shifts = Vec::new(alloc);
    for number in 0..eqns {
        add_called(alloc, observers, number, node, &mut shifts)?;
    }
    Ok(shifts)
}

/// Where the observer stands of the node that the equation with this number calls, if it stands there.
fn shift_at(shifts: &[Option<Shift>], number: usize) -> Option<Shift>
    ensures { result ≡ made.shift_at shifts.now number }
{
    match shifts.get(number) {
        None => None,
        Some(shift) => *shift,
    }
}

/// Adds the free places of the contract of the node that an equation calls, if its observer stands there.
fn add_contract(
    observers: &Observers<'_>,
    eqn: &FlatEqn,
    shift: Option<Shift>,
    free: &mut Vec<Free>,
) -> Result<(), AllocError>
    ensures { OnOk result (free.new.items ≡ free.old.items ++ made.free_moved (made.called_by (observers_seen observers.now) eqn.now.right) shift) }
{
    let Some(observer) = observers.called_by(eqn) else {
        return Ok(());
    };
    let Some(shift) = shift else {
        return Ok(());
    };
    observer.add_moved(shift, free)
}

/// Adds the free places of a comparison or a call; behind the outputs of a call stand those of the contract of the node that is called.
fn add_placed(
    observers: &Observers<'_>,
    node: &FlatNode,
    shifts: &[Option<Shift>],
    number: usize,
    free: &mut Vec<Free>,
) -> Result<(), AllocError>
    ensures { OnOk result (free.new.items ≡ free.old.items ++ made.free_placed (observers_seen observers.now) (made.placed_as node.now shifts.now) number) }
{
    let Some(eqn) = node.eqns.get(number) else {
        return Ok(());
    };
    add_event(node, number, eqn, free)?;
    let shift = shift_at(shifts, number);
    add_contract(observers, eqn, shift, free)?;
    Ok(())
}

/// Adds the free places of comparisons and calls, in this order.
#[tactic(auto, using(crate::proofs::Rules::places))]
fn add_all_placed(
    observers: &Observers<'_>,
    node: &FlatNode,
    shifts: &[Option<Shift>],
    order: &[usize],
    free: &mut Vec<Free>,
) -> Result<(), AllocError>
    ensures { OnOk result (free.new.items ≡ free.old.items ++ flat_map (made.free_placed (observers_seen observers.now) (made.placed_as node.now shifts.now)) order.now) }
{
    for i in 0..order.len() {
        add_placed(observers, node, shifts, order[i], free)?;
    }
    Ok(())
}

/// Adds the observer of the node's own contract, and its free places.
fn add_own(
    alloc: Global,
    own: &Observer,
    inputs: usize,
    node: &mut FlatNode,
    free: &mut Vec<Free>,
) -> Result<(), AllocError>
    ensures node { OnOk result (node.new ≡ embedded (observer_seen own.now).node (made.own_site inputs node.old) node.old) }
    ensures free { OnOk result (free.new.items ≡ free.old.items ++ map (made.moved_free (shift_of (observer_seen own.now).node (made.own_site inputs node.old) node.old)) (observer_seen own.now).free) }
{
    let site = own_site(alloc, inputs, node)?;
    let shift = embed(alloc, &own.node, &site, node)?;
    own.add_moved(shift, free)
}

/// How many inputs a node has, and in what order the comparisons and calls of its body stand, by the numbers of their equations.
#[derive(Clone, Copy)]
struct Order<'b> {
    inputs: usize,
    body: &'b [usize],
}

/// Adds to a node the observer of its contract and those of the nodes that it calls, and gives its free places.
#[tactic(auto, using(crate::proofs::Rules::places))]
fn survey_with(
    alloc: Global,
    observers: &Observers<'_>,
    own: &Observer,
    order: Order<'_>,
    node: &mut FlatNode,
) -> Result<Vec<Free>, AllocError>
    ensures node { OnOk result (node.new ≡ (made.surveyed (observers_seen observers.now) (observer_seen own.now) order.entry.inputs order.entry.body.now node.old).node) }
    ensures free { IfOk result (λ free. free.items ≡ (made.surveyed (observers_seen observers.now) (observer_seen own.now) order.entry.inputs order.entry.body.now node.old).free) }
{
    let eqns = node.eqns.len();
    let mut free = Vec::new(alloc);
    add_inputs(node, order.inputs, &mut free)?;
    add_own(alloc, own, order.inputs, node, &mut free)?;
    let shifts = add_all_called(alloc, observers, eqns, node)?;
    add_all_placed(observers, node, &shifts, order.body, &mut free)?;
    Ok(free)
}

/// Adds to a node the observers, and gives its free places; there has to be one of the node itself.
fn survey(
    alloc: Global,
    observers: &Observers<'_>,
    order: Order<'_>,
    node: &mut FlatNode,
) -> Result<Vec<Free>, WatchErr>
    ensures surveyed { IfOk result (λ free. IsSurveyed (observers_seen observers.now) order.entry.inputs order.entry.body.now node.old node.new free.items) }
    ensures none { IfErr result (λ e. e ≡ WatchErr.Misfit → observers_seen observers.now node.old.name ≡ None) }
{
    let Some(own) = observers.find(node.name.bytes()) else {
        return Err(WatchErr::Misfit);
    };
    let free = survey_with(alloc, observers, own, order, node)?;
    Ok(free)
}

/// The clock of a free place.
fn clock_of(
    alloc: Global,
    node: &FlatNode,
    eqn: Option<usize>,
) -> Result<Vec<(usize, u8)>, AllocError>
    ensures { IfOk result (λ clock. clock.items ≡ made.clock_of node.now eqn) }
{
    let Some(eqn) = eqn else {
        return Ok(Vec::new(alloc));
    };
    match node.eqns.get(eqn) {
        None => Ok(Vec::new(alloc)),
        Some(eqn) => Vec::from_slice(alloc, &eqn.clock),
    }
}

/// Adds what has the bits of a free place on the base clock, and these behind others.
fn spell(
    alloc: Global,
    types: &[ObcType],
    place: Free,
    node: &mut FlatNode,
    bits: &mut Vec<usize>,
) -> Result<(), AllocError>
    ensures bits { OnOk result (bits.new.items ≡ bits.old.items ++ (made.spelled_place types.now place node.old).bits) }
    ensures node { OnOk result (node.new ≡ (made.spelled_place types.now place node.old).node) }
{
    let clock = clock_of(alloc, node, place.eqn)?;
    let value = lift(alloc, types, place.variable, &clock, node)?;
    add_bits(alloc, types, value, node, bits)
}

/// Adds the bits of a free place, which is early or late.
fn add_place(
    alloc: Global,
    types: &[ObcType],
    place: Free,
    is_early: bool,
    watched: &mut Watched,
) -> Result<(), AllocError>
    ensures { OnOk result (watched_seen watched.new ≡ made.with_place types.now place is_early (watched_seen watched.old)) }
{
    if is_early {
        spell(alloc, types, place, &mut watched.node, &mut watched.early)
    } else {
        spell(alloc, types, place, &mut watched.node, &mut watched.late)
    }
}

/// Adds the bits of free places, of which it is said which are early.
#[tactic(auto, using(crate::proofs::Rules::bits_of_places))]
fn add_places(
    alloc: Global,
    types: &[ObcType],
    free: &[Free],
    is_early: &[bool],
    watched: &mut Watched,
) -> Result<(), AllocError>
    requires { length free.now ≡ length is_early.now }
    ensures { OnOk result (watched_seen watched.new ≡ made.with_places types.now free.now is_early.now (watched_seen watched.old)) }
{
    for i in 0..free.len() {
        add_place(alloc, types, free[i], is_early[i], watched)?;
    }
    Ok(())
}

/// A node of which nothing is watched yet.
fn unwatched(alloc: Global, node: FlatNode) -> Watched
    ensures { watched_seen result ≡ made.unwatched node }
{
    Watched {
        node,
        early: Vec::new(alloc),
        late: Vec::new(alloc),
    }
}

/// A node that is watched.
fn watch_all(
    alloc: Global,
    types: &[ObcType],
    node: &Node,
    is_early: &[bool],
    flat: FlatNode,
    observers: &Observers<'_>,
) -> Result<Watched, WatchErr>
    ensures { MatchResult result (λ w. IsWatched types.now (observers_seen observers.now) node.now is_early.now flat (watched_seen w)) (λ e. e ≡ WatchErr.Misfit → ¬ Fits (observers_seen observers.now) node.now is_early.now flat) }
{
    let walked = body_walked(alloc, node, &flat)?;
    let order = Order {
        inputs: node.inputs.len(),
        body: &walked,
    };
    let mut watched = unwatched(alloc, flat);
    let free = survey(alloc, observers, order, &mut watched.node)?;
    if free.len() != is_early.len() {
        return Err(WatchErr::Misfit);
    }
    add_places(alloc, types, &free, is_early, &mut watched)?;
    Ok(watched)
}

/// Adds to the clocked equations of a node the observers of its contract and of those of the nodes that it calls, and what has the bits of its free places. It is said of
/// these, in order, which are early.
pub fn watch(
    alloc: Global,
    types: &[ObcType],
    node: &Node,
    is_early: &[bool],
    flat: FlatNode,
    observers: &Observers<'_>,
) -> Result<Watched, WatchErr>
    ensures watched { MatchResult result (λ w. IsWatched types.now (observers_seen observers.now) node.now is_early.now flat (watched_seen w)) (λ e. e ≡ WatchErr.Misfit → ¬ Fits (observers_seen observers.now) node.now is_early.now flat) }
    ensures larger { IfOk result (λ w. IsLarger flat (watched_seen w)) }
{
    let w = watch_all(alloc, types, node, is_early, flat, observers)?;
    Ok(w)
}
