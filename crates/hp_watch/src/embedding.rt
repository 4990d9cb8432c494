//! An observer among the equations of a node.
ghost use Rattle.std.specs.Prelude.{◌≡◌, ◌+◌, ◌++◌, map, IfOk, OnOk};
ghost use Rattle.hp_flat.specs.EquationView.{right_seen};
ghost use Rattle.hp_watch.specs.Embedding as made;
ghost use Rattle.hp_watch.specs.Embedding.{site_seen};

use crate::adding::{add_eqn, add_variable, operator_eqn};
use hp_flat::{Atom, FlatEqn, FlatNode, FlatRight, Variable};
use hp_obc::ObcOp;
use smallvec::SmallVec;
use std::alloc::{AllocError, Global};

/// Where an observer is put: on a clock, with what it begins anew, and over what.
#[derive(Drop)]
pub struct Site {
    pub clock: Vec<(usize, u8)>,
    pub restart: Vec<usize>,
    pub inputs: Vec<Atom>,
}

/// Where the variables and the equations of an observer stand in the node: their first ones.
#[derive(Clone, Copy, Debug)]
pub struct Shift {
    pub variables: usize,
    pub eqns: usize,
}

/// A number that is moved. There is no memory for so many that one has no number.
pub fn moved(number: usize, by: usize) -> Result<usize, AllocError>
    ensures { IfOk result (λ moved. moved ≡ number + by) }
{
    number.checked_add(by).ok_or(AllocError)
}

fn moved_atom(atom: Atom, by: usize) -> Result<Atom, AllocError>
    ensures { IfOk result (λ moved. moved ≡ made.moved_atom by atom) }
{
    match atom {
        Atom::Variable(variable) => Ok(Atom::Variable(moved(variable, by)?)),
        Atom::Value(value) => Ok(Atom::Value(value)),
    }
}

#[tactic(auto, using(crate::proofs::Rules::moves))]
fn moved_atoms(alloc: Global, atoms: &[Atom], by: usize) -> Result<Vec<Atom>, AllocError>
    ensures { IfOk result (λ moved. moved.items ≡ map (made.moved_atom by) atoms.now) }
{
    let mut others = Vec::with_capacity(alloc, atoms.len())?;
    for atom in atoms {
        others.push(moved_atom(*atom, by)?)?;
    }
    Ok(others)
}

/// Adds moved numbers to some.
#[tactic(auto, using(crate::proofs::Rules::moves))]
fn add_moved(numbers: &[usize], by: usize, into: &mut Vec<usize>) -> Result<(), AllocError>
    ensures { OnOk result (into.new.items ≡ into.old.items ++ made.moved_all by numbers.now) }
{
    for number in numbers {
        into.push(moved(*number, by)?)?;
    }
    Ok(())
}

fn moved_right(alloc: Global, right: &FlatRight, by: usize) -> Result<FlatRight, AllocError>
    ensures { IfOk result (λ moved. right_seen moved ≡ made.moved_right by (right_seen right.now)) }
{
    match right {
        FlatRight::Op(op, args) => Ok(FlatRight::Op(*op, moved_atoms(alloc, args, by)?)),
        FlatRight::Register { first, next } => Ok(FlatRight::Register {
            first: *first,
            next: moved_atom(*next, by)?,
        }),
        FlatRight::Call { node, args } => {
            let args = moved_atoms(alloc, args, by)?;
            Ok(FlatRight::Call {
                node: node.copy(alloc)?,
                args,
            })
        }
    }
}

/// The clock of an equation of the observer, behind that of the site.
#[tactic(auto, using(crate::proofs::Rules::moves))]
fn moved_clock(
    alloc: Global,
    before: &[(usize, u8)],
    clock: &[(usize, u8)],
    by: usize,
) -> Result<SmallVec<(usize, u8), 4>, AllocError>
    ensures { IfOk result (λ moved. moved.items ≡ before.now ++ made.moved_clock by clock.now) }
{
    let mut steps = SmallVec::from_slice(alloc, before)?;
    for i in 0..clock.len() {
        let (variable, constructor) = clock[i];
        steps.push((moved(variable, by)?, constructor))?;
    }
    Ok(steps)
}

/// An equation of the observer, at the site.
fn moved_eqn(alloc: Global, site: &Site, eqn: &FlatEqn, by: usize) -> Result<FlatEqn, AllocError>
    ensures { IfOk result (λ moved. moved ≡ made.moved_eqn (site_seen site.now) by eqn.now) }
{
    let mut targets = Vec::new(alloc);
    add_moved(&eqn.targets, by, &mut targets)?;
    let mut restart = Vec::from_slice(alloc, &site.restart)?;
    add_moved(&eqn.restart, by, &mut restart)?;
    let clock = moved_clock(alloc, &site.clock, &eqn.clock, by)?;
    let right = moved_right(alloc, &eqn.right, by)?;
    Ok(FlatEqn {
        targets,
        clock,
        right,
        restart,
        at: 0,
    })
}

/// Adds variables of the types of these.
#[tactic(auto, using(crate::proofs::Rules::embeddings))]
fn add_variables(
    alloc: Global,
    variables: &[Variable],
    node: &mut FlatNode,
) -> Result<(), AllocError>
    ensures { OnOk result (node.new ≡ made.with_variables variables.now node.old) }
{
    for i in 0..variables.len() {
        add_variable(alloc, variables[i].ty, node)?;
    }
    Ok(())
}

/// Adds the equations by which variables in a row have the values of inputs.
#[tactic(auto, using(crate::proofs::Rules::embeddings))]
fn add_inputs(
    alloc: Global,
    clock: &[(usize, u8)],
    inputs: &[Atom],
    first: usize,
    node: &mut FlatNode,
) -> Result<(), AllocError>
    ensures { OnOk result (node.new ≡ made.with_inputs clock.now first inputs.now node.old) }
{
    let mut target = first;
    for i in 0..inputs.len() {
        let eqn = operator_eqn(alloc, target, clock, ObcOp::Copy, &[inputs[i]])?;
        add_eqn(eqn, node)?;
        target = moved(target, 1)?;
    }
    Ok(())
}

/// Adds the equations of an observer, whose variables stand from a number on.
#[tactic(auto, using(crate::proofs::Rules::embeddings))]
fn add_eqns(
    alloc: Global,
    eqns: &[FlatEqn],
    site: &Site,
    by: usize,
    node: &mut FlatNode,
) -> Result<(), AllocError>
    ensures { OnOk result (node.new ≡ made.with_moved (site_seen site.now) by eqns.now node.old) }
{
    for i in 0..eqns.len() {
        let eqn = moved_eqn(alloc, site, &eqns[i], by)?;
        add_eqn(eqn, node)?;
    }
    Ok(())
}

/// Adds an observer to a node at a site, and says where it stands.
pub fn embed(
    alloc: Global,
    observer: &FlatNode,
    site: &Site,
    node: &mut FlatNode,
) -> Result<Shift, AllocError>
    ensures shift { IfOk result (λ shift. shift ≡ made.shift_of observer.now (site_seen site.now) node.old) }
    ensures node { OnOk result (node.new ≡ made.embedded observer.now (site_seen site.now) node.old) }
{
    let variables = node.variables.len();
    add_variables(alloc, &observer.variables, node)?;
    add_inputs(alloc, &site.clock, &site.inputs, variables, node)?;
    let eqns = node.eqns.len();
    add_eqns(alloc, &observer.eqns, site, variables, node)?;
    Ok(Shift { variables, eqns })
}
