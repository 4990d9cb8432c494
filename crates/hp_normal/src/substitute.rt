//! A variable that a copy alone defines: whoever reads it reads what is copied.
ghost use Rattle.std.specs.Prelude.{◌≡◌, ℕ, length, map, IfOk};
ghost use Rattle.hp_flat.specs.EquationView.{right_seen};
ghost use Rattle.hp_flat.specs.declared.equation.Atom.TheVariants.{Variable};
ghost use Rattle.hp_normal.specs.Reading.{occurs, targets, fixed, sampled};
ghost use Rattle.hp_normal.specs.Substituting.{read, is_variable, may_stand, standing, meanings, is_replaced, variable_or, read_clock, read_right, read_eqn, substituted_eqns, substituted};
ghost use Rattle.hp_normal.specs.Tables.{stands_at, AreReadFacts};

use crate::copy::copy_of;
use crate::count::{fixed_counts, is_counted, sampled_counts, target_counts};
use hp_flat::{Atom, FlatEqn, FlatNode, FlatRight};
use std::alloc::{AllocError, Global};

/// What is known of the variables of a node, by their numbers.
#[derive(Drop)]
pub struct ReadFacts {
    /// How often each is defined, up to twice.
    targets: Vec<u8>,
    /// How often each has to stay under its number, up to twice.
    fixed: Vec<u8>,
    /// How often clocks read it, up to twice.
    sampled: Vec<u8>,
}

fn is_variable(atom: Atom) -> bool
    ensures { result ≡ is_variable atom }
{
    match atom {
        Atom::Variable(_) => true,
        Atom::Value(_) => false,
    }
}

impl ReadFacts {
    pub fn new(alloc: Global, node: &FlatNode) -> Result<ReadFacts, AllocError>
        ensures { IfOk result (λ facts. AreReadFacts node.now facts) }
    {
        let targets = target_counts(alloc, node)?;
        let fixed = fixed_counts(alloc, node)?;
        let sampled = sampled_counts(alloc, node)?;
        Ok(ReadFacts {
            targets,
            fixed,
            sampled,
        })
    }

    fn is_defined_once(&self, node: &FlatNode, variable: usize) -> bool
        requires facts { AreReadFacts node.now self.now }
        ensures { result ≡ occurs node.now 1 (targets node.now) variable }
    {
        is_counted(&self.targets, variable, 1)
    }

    fn is_not_fixed(&self, node: &FlatNode, variable: usize) -> bool
        requires facts { AreReadFacts node.now self.now }
        ensures { result ≡ occurs node.now 0 (fixed node.now) variable }
    {
        is_counted(&self.fixed, variable, 0)
    }

    fn is_in_no_clock(&self, node: &FlatNode, variable: usize) -> bool
        requires facts { AreReadFacts node.now self.now }
        ensures { result ≡ occurs node.now 0 (sampled node.now) variable }
    {
        is_counted(&self.sampled, variable, 0)
    }

    /// Whether the variable may stand for what its one equation copies.
    #[tactic(auto, using(crate::proofs::Rules::tests))]
    fn may_stand(&self, node: &FlatNode, variable: usize, atom: Atom) -> bool
        requires facts { AreReadFacts node.now self.now }
        ensures { result ≡ may_stand node.now variable atom }
    {
        if !self.is_defined_once(node, variable) {
            return false;
        }
        if !self.is_not_fixed(node, variable) {
            return false;
        }
        is_variable(atom) || self.is_in_no_clock(node, variable)
    }
}

/// What the table says of the variable.
fn meaning(table: &[Atom], variable: usize) -> Atom
    ensures { result ≡ stands_at table.now variable }
{
    if variable < table.len() {
        table[variable]
    } else {
        Atom::Variable(variable)
    }
}

/// What an atom stands for.
pub fn read(table: &[Atom], atom: Atom) -> Atom
    ensures { result ≡ read (stands_at table.now) atom }
{
    match atom {
        Atom::Variable(variable) => meaning(table, variable),
        Atom::Value(value) => Atom::Value(value),
    }
}

/// Notes what the variable of a copy stands for.
#[tactic(auto, using(crate::proofs::Rules::meanings))]
pub fn note(table: &mut [Atom], node: &FlatNode, facts: &ReadFacts, copy: Option<(usize, Atom)>)
    requires facts { AreReadFacts node.now facts.now }
    requires count { length table.old ≡ length node.now.variables }
    ensures meanings { stands_at table.new ≡ standing node.now copy (stands_at table.old) }
    ensures len { length table.new ≡ length table.old }
{
    if let Some((variable, source)) = copy {
        let atom = read(table, source);
        if facts.may_stand(node, variable, atom) {
            table[variable] = atom;
        }
    }
}

#[tactic(auto, using(crate::proofs::Rules::meanings))]
fn fill(table: &mut [Atom], node: &FlatNode, facts: &ReadFacts)
    requires facts { AreReadFacts node.now facts.now }
    requires count { length table.old ≡ length node.now.variables }
    ensures meanings { stands_at table.new ≡ meanings node.now node.now.eqns (stands_at table.old) }
    ensures len { length table.new ≡ length table.old }
{
    for eqn in &node.eqns {
        note(table, node, facts, copy_of(eqn));
    }
}

/// The variables below a count.
pub fn variables(alloc: Global, count: usize) -> Result<Vec<Atom>, AllocError>
    ensures count { IfOk result (λ table. length table.items ≡ count) }
    ensures same { IfOk result (λ table. stands_at table.items ≡ (λ x. Variable x)) }
{
    let mut table = Vec::with_capacity(alloc, count)?;
    for i in 0..count {
        table.push(Atom::Variable(i))?;
    }
    Ok(table)
}

/// What each variable stands for.
fn meanings(alloc: Global, node: &FlatNode) -> Result<Vec<Atom>, AllocError>
    ensures { IfOk result (λ table. stands_at table.items ≡ meanings node.now node.now.eqns (λ x. Variable x)) }
{
    let facts = ReadFacts::new(alloc, node)?;
    let mut table = variables(alloc, node.variables.len())?;
    fill(&mut table, node, &facts);
    Ok(table)
}

#[tactic(auto, using(crate::proofs::Rules::written))]
fn read_all(atoms: &mut [Atom], table: &[Atom])
    ensures { atoms.new ≡ map (read (stands_at table.now)) atoms.old }
{
    for atom in atoms.iter_mut() {
        *atom = read(table, *atom);
    }
}

fn variable_or(variable: usize, atom: Atom) -> usize
    ensures { result ≡ variable_or variable atom }
{
    match atom {
        Atom::Variable(other) => other,
        Atom::Value(_) => variable,
    }
}

#[tactic(auto, using(crate::proofs::Rules::written))]
fn read_clock(clock: &mut [(usize, u8)], table: &[Atom])
    ensures { clock.new ≡ read_clock (stands_at table.now) clock.old }
{
    for on in clock.iter_mut() {
        *on = (variable_or(on.0, meaning(table, on.0)), on.1);
    }
}

fn read_right(right: &mut FlatRight, table: &[Atom])
    ensures { right_seen right.new ≡ read_right (stands_at table.now) (right_seen right.old) }
{
    match right {
        FlatRight::Op(_, args) => read_all(args, table),
        FlatRight::Register { first: _, next } => *next = read(table, *next),
        FlatRight::Call { node: _, args } => read_all(args, table),
    }
}

fn read_eqn(eqn: &mut FlatEqn, table: &[Atom])
    ensures { eqn.new ≡ read_eqn (stands_at table.now) eqn.old }
{
    read_clock(eqn.clock.as_mut_slice(), table);
    read_right(&mut eqn.right, table);
}

#[tactic(auto, using(crate::proofs::Rules::written))]
fn read_eqns(eqns: &mut [FlatEqn], table: &[Atom])
    ensures { eqns.new ≡ map (read_eqn (stands_at table.now)) eqns.old }
{
    for eqn in eqns.iter_mut() {
        read_eqn(eqn, table);
    }
}

/// Whether the variable of the equation stands for something else.
fn is_replaced(eqn: &FlatEqn, table: &[Atom]) -> bool
    ensures { result ≡ is_replaced (stands_at table.now) eqn.now }
{
    match copy_of(eqn) {
        Some((variable, _)) => meaning(table, variable) != Atom::Variable(variable),
        None => false,
    }
}

fn substituted(mut eqns: Vec<FlatEqn>, table: &[Atom]) -> Vec<FlatEqn>
    ensures { result.items ≡ substituted_eqns (stands_at table.now) eqns.items }
{
    read_eqns(&mut eqns, table);
    eqns.retain(|eqn| !is_replaced(eqn, table));
    eqns
}

/// The node, in which what is copied is read in place of the copies.
pub fn substitute(alloc: Global, node: FlatNode) -> Result<FlatNode, AllocError>
    ensures { IfOk result (λ made. made ≡ substituted node) }
{
    let table = meanings(alloc, &node)?;
    let FlatNode {
        name,
        variables,
        inputs,
        outputs,
        eqns,
    } = node;
    let eqns = substituted(eqns, &table);
    Ok(FlatNode {
        name,
        variables,
        inputs,
        outputs,
        eqns,
    })
}
