//! A variable that is read by nothing but a copy, on its own clock: its equation defines the variable of the copy in its place.
ghost use Rattle.std.specs.Prelude.{◌≡◌, ℕ, ◌<◌, true, length, map, IfOk, IfSome};
ghost use Rattle.std.proofs.Math.ListN.{replicate};
ghost use Rattle.hp_normal.specs.Reading.{occurs, targets, uses};
ghost use Rattle.hp_normal.specs.Retargeting.{same_clock, clock_of, is_free, moved, after_move, ends, is_moved, with_targets, retargeted_eqns, retargeted};
ghost use Rattle.hp_normal.specs.Tables.{all_set, definers, ends_at, AreMoveFacts};

use crate::copy::copy_of;
use crate::count::{is_counted, target_counts, use_counts};
use hp_flat::{Atom, FlatEqn, FlatNode};
use std::alloc::{AllocError, Global};

/// Whether two clocks are the same.
#[tactic(auto, using(crate::proofs::Rules::clocks))]
fn same_clock(first: &[(usize, u8)], second: &[(usize, u8)]) -> bool
    ensures { result ≡ same_clock first.now second.now }
{
    if first.len() != second.len() {
        return false;
    }
    for i in 0..first.len() {
        if first[i].0 != second[i].0 || first[i].1 != second[i].1 {
            return false;
        }
    }
    true
}

/// What is known of the variables of a node, by their numbers.
#[derive(Drop)]
struct MoveFacts {
    /// How often each is defined, up to twice.
    targets: Vec<u8>,
    /// How often each is read, up to twice.
    uses: Vec<u8>,
    /// The place of the first equation that defines it.
    definers: Vec<usize>,
}

#[tactic(auto, using(crate::proofs::Rules::sets))]
fn set_all(places: &mut [usize], numbers: &[usize], place: usize)
    ensures { places.new ≡ all_set numbers.now place places.old }
{
    for number in numbers {
        if *number < places.len() {
            places[*number] = place;
        }
    }
}

#[tactic(auto, using(crate::proofs::Rules::sets))]
fn set_definers(places: &mut [usize], eqns: &[FlatEqn])
    ensures { places.new ≡ definers 0 eqns.now places.old }
{
    let mut i = eqns.len();
    while i > 0 {
        i -= 1;
        let eqn = &eqns[i];
        set_all(places, &eqn.targets, i);
    }
}

#[tactic(auto, using(crate::proofs::Rules::tables))]
fn definers(alloc: Global, node: &FlatNode) -> Result<Vec<usize>, AllocError>
    ensures { IfOk result (λ places. places.items ≡ definers 0 node.now.eqns (replicate (length node.now.variables) 0)) }
{
    let mut places = vec![in alloc; 0; node.variables.len()]?;
    set_definers(&mut places, &node.eqns);
    Ok(places)
}

impl MoveFacts {
    fn new(alloc: Global, node: &FlatNode) -> Result<MoveFacts, AllocError>
        ensures { IfOk result (λ facts. AreMoveFacts node.now facts) }
    {
        let targets = target_counts(alloc, node)?;
        let uses = use_counts(alloc, node)?;
        let definers = definers(alloc, node)?;
        Ok(MoveFacts {
            targets,
            uses,
            definers,
        })
    }

    fn is_defined_once(&self, node: &FlatNode, variable: usize) -> bool
        requires facts { AreMoveFacts node.now self.now }
        ensures { result ≡ occurs node.now 1 (targets node.now) variable }
    {
        is_counted(&self.targets, variable, 1)
    }

    fn is_read_once(&self, node: &FlatNode, variable: usize) -> bool
        requires facts { AreMoveFacts node.now self.now }
        ensures { result ≡ occurs node.now 1 (uses node.now) variable }
    {
        is_counted(&self.uses, variable, 1)
    }

    /// Whether the first equation that defines the variable is on the clock.
    fn is_on(&self, node: &FlatNode, variable: usize, clock: &[(usize, u8)]) -> bool
        requires facts { AreMoveFacts node.now self.now }
        requires defined { occurs node.now 1 (targets node.now) variable ≡ true }
        ensures { result ≡ same_clock (clock_of node.now.eqns variable) clock.now }
    {
        let places = self.definers.as_slice();
        prove!(variable < places.len());
        let place = places[variable];
        let eqns = node.eqns.as_slice();
        prove!(place < eqns.len());
        let eqn = &eqns[place];
        same_clock(&eqn.clock, clock)
    }

    /// Whether the variable is no input, has one equation, on the clock, and is read once.
    #[tactic(auto, using(crate::proofs::Rules::tests))]
    fn is_free(&self, node: &FlatNode, clock: &[(usize, u8)], variable: usize) -> bool
        requires facts { AreMoveFacts node.now self.now }
        ensures { result ≡ is_free node.now clock.now variable }
    {
        if variable < node.inputs {
            return false;
        }
        if !self.is_defined_once(node, variable) {
            return false;
        }
        if !self.is_read_once(node, variable) {
            return false;
        }
        self.is_on(node, variable, clock)
    }

    /// The variable that an equation defines, and the one whose equation can define it.
    fn moved(&self, node: &FlatNode, eqn: &FlatEqn) -> Option<(usize, usize)>
        requires facts { AreMoveFacts node.now self.now }
        ensures { result ≡ moved node.now eqn.now }
    {
        match copy_of(eqn) {
            Some((target, Atom::Variable(source))) if self.is_free(node, &eqn.clock, source) => {
                Some((target, source))
            }
            _ => None,
        }
    }
}

/// What the table says of the variable.
fn end(table: &[usize], variable: usize) -> usize
    ensures { result ≡ ends_at table.now variable }
{
    if variable < table.len() {
        table[variable]
    } else {
        variable
    }
}

/// Notes that the first variable is defined in place of the second.
fn note_move(table: &mut [usize], moved: Option<(usize, usize)>)
    requires inside { IfSome moved (λ m. m.1 < length table.old) }
    ensures ends { ends_at table.new ≡ after_move moved (ends_at table.old) }
    ensures len { length table.new ≡ length table.old }
{
    if let Some((target, source)) = moved {
        if source < table.len() {
            table[source] = end(table, target);
        }
    }
}

#[tactic(auto, using(crate::proofs::Rules::ends))]
fn fill_ends(table: &mut [usize], node: &FlatNode, facts: &MoveFacts)
    requires facts { AreMoveFacts node.now facts.now }
    requires count { length table.old ≡ length node.now.variables }
    requires same { ends_at table.old ≡ (λ x. x) }
    ensures ends { ends_at table.new ≡ ends node.now node.now.eqns }
    ensures len { length table.new ≡ length table.old }
{
    let mut i = node.eqns.len();
    while i > 0 {
        i -= 1;
        let eqn = &node.eqns[i];
        note_move(table, facts.moved(node, eqn));
    }
}

/// The numbers below a count.
fn numbers(alloc: Global, count: usize) -> Result<Vec<usize>, AllocError>
    ensures count { IfOk result (λ table. length table.items ≡ count) }
    ensures same { IfOk result (λ table. ends_at table.items ≡ (λ x. x)) }
{
    let mut table = Vec::with_capacity(alloc, count)?;
    for i in 0..count {
        table.push(i)?;
    }
    Ok(table)
}

/// Which variable is defined in place of each.
fn ends(alloc: Global, node: &FlatNode) -> Result<Vec<usize>, AllocError>
    ensures { IfOk result (λ table. ends_at table.items ≡ ends node.now node.now.eqns) }
{
    let facts = MoveFacts::new(alloc, node)?;
    let mut table = numbers(alloc, node.variables.len())?;
    fill_ends(&mut table, node, &facts);
    Ok(table)
}

#[tactic(auto, using(crate::proofs::Rules::written))]
fn rename(numbers: &mut [usize], table: &[usize])
    ensures { numbers.new ≡ map (ends_at table.now) numbers.old }
{
    for number in numbers.iter_mut() {
        *number = end(table, *number);
    }
}

fn retarget_one(eqn: &mut FlatEqn, table: &[usize])
    ensures { eqn.new ≡ with_targets (ends_at table.now) eqn.old }
{
    rename(&mut eqn.targets, table);
}

#[tactic(auto, using(crate::proofs::Rules::written))]
fn retarget_all(eqns: &mut [FlatEqn], table: &[usize])
    ensures { eqns.new ≡ map (with_targets (ends_at table.now)) eqns.old }
{
    for eqn in eqns.iter_mut() {
        retarget_one(eqn, table);
    }
}

/// Whether the equation copies a variable in whose place another one is defined.
fn is_moved(eqn: &FlatEqn, table: &[usize]) -> bool
    ensures { result ≡ is_moved (ends_at table.now) eqn.now }
{
    match copy_of(eqn) {
        Some((_, Atom::Variable(source))) => end(table, source) != source,
        _ => false,
    }
}

fn retargeted(mut eqns: Vec<FlatEqn>, table: &[usize]) -> Vec<FlatEqn>
    ensures { result.items ≡ retargeted_eqns (ends_at table.now) eqns.items }
{
    retarget_all(&mut eqns, table);
    eqns.retain(|eqn| !is_moved(eqn, table));
    eqns
}

/// The node, in which equations define variables in place of copies.
pub fn retarget(alloc: Global, node: FlatNode) -> Result<FlatNode, AllocError>
    ensures { IfOk result (λ made. made ≡ retargeted node) }
{
    let table = ends(alloc, &node)?;
    let FlatNode {
        name,
        variables,
        inputs,
        outputs,
        eqns,
    } = node;
    let eqns = retargeted(eqns, &table);
    Ok(FlatNode {
        name,
        variables,
        inputs,
        outputs,
        eqns,
    })
}
