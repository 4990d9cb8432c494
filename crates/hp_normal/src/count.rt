//! How often variables are defined and read.
ghost use Rattle.std.specs.Prelude.{◌≡◌, ◌&&◌, nat_eq, nat_lt, length, get_or, IfOk};
ghost use Rattle.std.specs.List.{flat_map};
ghost use Rattle.std.proofs.Math.ListN.{replicate};
ghost use Rattle.hp_flat.specs.Equations.{FlatEqn};
ghost use Rattle.hp_flat.specs.EquationView.{right_seen};
ghost use Rattle.hp_normal.specs.Reading.{clock_variables, atom_variables, operands, eqn_reads, targets, uses, fixed, sampled};
ghost use Rattle.hp_normal.specs.Needing.{held_reads, is_operator, roots};
ghost use Rattle.hp_normal.specs.Tables.{counted, counted_one};

use hp_flat::{Atom, FlatEqn, FlatNode, FlatRight};
use std::alloc::{AllocError, Global};

/// Counts the variable, up to twice.
#[tactic(auto, using(crate::proofs::Rules::counting))]
fn count_one(counts: &mut [u8], variable: usize)
    ensures { counts.new ≡ counted_one variable counts.old }
{
    if variable < counts.len() {
        counts[variable] = counts[variable].saturating_add(1).min(2);
    }
}

#[tactic(auto, using(crate::proofs::Rules::counting))]
fn count_all(counts: &mut [u8], variables: &[usize])
    ensures { counts.new ≡ counted variables.now counts.old }
{
    for variable in variables {
        count_one(counts, *variable);
    }
}

#[tactic(auto, using(crate::proofs::Rules::counting))]
fn count_clock(counts: &mut [u8], clock: &[(usize, u8)])
    ensures { counts.new ≡ counted (clock_variables clock.now) counts.old }
{
    for (variable, _constructor) in clock {
        count_one(counts, *variable);
    }
}

fn count_atom(counts: &mut [u8], atom: Atom)
    ensures { counts.new ≡ counted (atom_variables atom) counts.old }
{
    if let Atom::Variable(variable) = atom {
        count_one(counts, variable);
    }
}

#[tactic(auto, using(crate::proofs::Rules::counting))]
fn count_atoms(counts: &mut [u8], atoms: &[Atom])
    ensures { counts.new ≡ counted (flat_map atom_variables atoms.now) counts.old }
{
    for atom in atoms {
        count_atom(counts, *atom);
    }
}

fn count_operands(counts: &mut [u8], right: &FlatRight)
    ensures { counts.new ≡ counted (operands (right_seen right.now)) counts.old }
{
    match right {
        FlatRight::Op(_, args) => count_atoms(counts, args),
        FlatRight::Register { first: _, next } => count_atom(counts, *next),
        FlatRight::Call { node: _, args } => count_atoms(counts, args),
    }
}

#[tactic(auto, using(crate::proofs::Rules::joining))]
pub fn count_reads(counts: &mut [u8], eqn: &FlatEqn)
    ensures { counts.new ≡ counted (eqn_reads eqn.now) counts.old }
{
    count_clock(counts, &eqn.clock);
    count_operands(counts, &eqn.right);
    count_all(counts, &eqn.restart);
}

fn count_targets_of(counts: &mut [u8], eqn: &FlatEqn)
    ensures { counts.new ≡ counted eqn.now.targets counts.old }
{
    count_all(counts, &eqn.targets);
}

fn count_restarts_of(counts: &mut [u8], eqn: &FlatEqn)
    ensures { counts.new ≡ counted eqn.now.restart counts.old }
{
    count_all(counts, &eqn.restart);
}

fn count_clock_of(counts: &mut [u8], eqn: &FlatEqn)
    ensures { counts.new ≡ counted (clock_variables eqn.now.clock) counts.old }
{
    count_clock(counts, &eqn.clock);
}

fn count_all_reads(counts: &mut [u8], eqns: &[FlatEqn])
    ensures { counts.new ≡ counted (flat_map eqn_reads eqns.now) counts.old }
{
    for eqn in eqns {
        count_reads(counts, eqn);
    }
}

fn count_all_targets(counts: &mut [u8], eqns: &[FlatEqn])
    ensures { counts.new ≡ counted (flat_map (λ (e : FlatEqn). e.targets) eqns.now) counts.old }
{
    for eqn in eqns {
        count_targets_of(counts, eqn);
    }
}

fn count_all_restarts(counts: &mut [u8], eqns: &[FlatEqn])
    ensures { counts.new ≡ counted (flat_map (λ (e : FlatEqn). e.restart) eqns.now) counts.old }
{
    for eqn in eqns {
        count_restarts_of(counts, eqn);
    }
}

fn count_all_clocks(counts: &mut [u8], eqns: &[FlatEqn])
    ensures { counts.new ≡ counted (flat_map (λ (e : FlatEqn). clock_variables e.clock) eqns.now) counts.old }
{
    for eqn in eqns {
        count_clock_of(counts, eqn);
    }
}

fn count_targets(counts: &mut [u8], node: &FlatNode)
    ensures { counts.new ≡ counted (targets node.now) counts.old }
{
    count_all_targets(counts, &node.eqns);
}

#[tactic(auto, using(crate::proofs::Rules::joining))]
fn count_uses(counts: &mut [u8], node: &FlatNode)
    ensures { counts.new ≡ counted (uses node.now) counts.old }
{
    count_all(counts, &node.outputs);
    count_all_reads(counts, &node.eqns);
}

#[tactic(auto, using(crate::proofs::Rules::joining))]
fn count_fixed(counts: &mut [u8], node: &FlatNode)
    ensures { counts.new ≡ counted (fixed node.now) counts.old }
{
    count_all(counts, &node.outputs);
    count_all_restarts(counts, &node.eqns);
}

fn count_sampled(counts: &mut [u8], node: &FlatNode)
    ensures { counts.new ≡ counted (sampled node.now) counts.old }
{
    count_all_clocks(counts, &node.eqns);
}

/// Whether the right side is an operator's, which has neither a memory nor an instance.
pub fn is_operator(right: &FlatRight) -> bool
    ensures { result ≡ is_operator (right_seen right.now) }
{
    match right {
        FlatRight::Op(_, _) => true,
        FlatRight::Register { first: _, next: _ } => false,
        FlatRight::Call { node: _, args: _ } => false,
    }
}

/// Counts what a register or a call reads.
fn count_held_of(counts: &mut [u8], eqn: &FlatEqn)
    ensures { counts.new ≡ counted (held_reads eqn.now) counts.old }
{
    if !is_operator(&eqn.right) {
        count_reads(counts, eqn);
    }
}

fn count_all_held(counts: &mut [u8], eqns: &[FlatEqn])
    ensures { counts.new ≡ counted (flat_map held_reads eqns.now) counts.old }
{
    for eqn in eqns {
        count_held_of(counts, eqn);
    }
}

#[tactic(auto, using(crate::proofs::Rules::joining))]
fn count_roots(counts: &mut [u8], node: &FlatNode)
    ensures { counts.new ≡ counted (roots node.now) counts.old }
{
    count_all(counts, &node.outputs);
    count_all_held(counts, &node.eqns);
}

fn none_counted(alloc: Global, node: &FlatNode) -> Result<Vec<u8>, AllocError>
    ensures { IfOk result (λ counts. counts.items ≡ replicate (length node.now.variables) 0) }
{
    let counts = vec![in alloc; 0; node.variables.len()]?;
    Ok(counts)
}

/// How often each variable is defined, up to twice.
#[tactic(auto, using(crate::proofs::Rules::tables))]
pub fn target_counts(alloc: Global, node: &FlatNode) -> Result<Vec<u8>, AllocError>
    ensures { IfOk result (λ counts. counts.items ≡ counted (targets node.now) (replicate (length node.now.variables) 0)) }
{
    let mut counts = none_counted(alloc, node)?;
    count_targets(&mut counts, node);
    Ok(counts)
}

/// How often each variable is read, from outside or by an equation, up to twice.
#[tactic(auto, using(crate::proofs::Rules::tables))]
pub fn use_counts(alloc: Global, node: &FlatNode) -> Result<Vec<u8>, AllocError>
    ensures { IfOk result (λ counts. counts.items ≡ counted (uses node.now) (replicate (length node.now.variables) 0)) }
{
    let mut counts = none_counted(alloc, node)?;
    count_uses(&mut counts, node);
    Ok(counts)
}

/// How often each variable has to stay under its number, up to twice.
#[tactic(auto, using(crate::proofs::Rules::tables))]
pub fn fixed_counts(alloc: Global, node: &FlatNode) -> Result<Vec<u8>, AllocError>
    ensures { IfOk result (λ counts. counts.items ≡ counted (fixed node.now) (replicate (length node.now.variables) 0)) }
{
    let mut counts = none_counted(alloc, node)?;
    count_fixed(&mut counts, node);
    Ok(counts)
}

/// How often clocks read each variable, up to twice.
#[tactic(auto, using(crate::proofs::Rules::tables))]
pub fn sampled_counts(alloc: Global, node: &FlatNode) -> Result<Vec<u8>, AllocError>
    ensures { IfOk result (λ counts. counts.items ≡ counted (sampled node.now) (replicate (length node.now.variables) 0)) }
{
    let mut counts = none_counted(alloc, node)?;
    count_sampled(&mut counts, node);
    Ok(counts)
}

/// How often outputs, registers and calls read each variable, up to twice.
#[tactic(auto, using(crate::proofs::Rules::tables))]
pub fn root_counts(alloc: Global, node: &FlatNode) -> Result<Vec<u8>, AllocError>
    ensures { IfOk result (λ counts. counts.items ≡ counted (roots node.now) (replicate (length node.now.variables) 0)) }
{
    let mut counts = none_counted(alloc, node)?;
    count_roots(&mut counts, node);
    Ok(counts)
}

/// Whether the variable is in the table, and was counted so often.
pub fn is_counted(counts: &[u8], variable: usize, times: u8) -> bool
    ensures { result ≡ nat_lt variable (length counts.now) && nat_eq (get_or counts.now variable 0) times }
{
    variable < counts.len() && counts[variable] == times
}
