//! Equations made simpler: choices between one variable and itself, and operators that begin anew.
ghost use Rattle.std.specs.Prelude.{◌≡◌, ◌∷◌, [], length, map, IfOk, Some};
ghost use Rattle.hp_flat.specs.EquationView.{right_seen};
ghost use Rattle.hp_flat.specs.declared.equation.Atom.TheVariants.{Variable as Read};
ghost use Rattle.hp_normal.specs.Choices.{are_one, choice, choice_meanings, choice_of, copying, has_type, needless, same_type, sides, simple, simplified, type_of, with_restart};
ghost use Rattle.hp_normal.specs.Reading.{copy_of};
ghost use Rattle.hp_normal.specs.Tables.{stands_at, AreReadFacts};

use crate::copy::{copy_of, only};
use crate::count::is_operator;
use crate::substitute::{ReadFacts, note, read, variables};
use hp_flat::{Atom, FlatEqn, FlatNode, FlatRight, FlatTy, Variable};
use hp_obc::ObcOp;
use std::alloc::{AllocError, Global};

/// What an operator on three arguments chooses between.
fn sides(args: &[Atom]) -> Option<(Atom, Atom)>
    ensures { result ≡ sides args.now }
{
    match args {
        [_, first, second] => Some((*first, *second)),
        _ => None,
    }
}

fn choice(right: &FlatRight) -> Option<(Atom, Atom)>
    ensures { result ≡ choice (right_seen right.now) }
{
    match right {
        FlatRight::Op(ObcOp::Mux, args) => sides(args.as_slice()),
        _ => None,
    }
}

/// Of an equation that gives one variable a choice: that variable, and what is chosen between.
fn choice_of(eqn: &FlatEqn) -> Option<(usize, (Atom, Atom))>
    ensures { result ≡ choice_of eqn.now }
{
    match (only(eqn.targets.as_slice()), choice(&eqn.right)) {
        (Some(target), Some(sides)) => Some((target, sides)),
        _ => None,
    }
}

/// Whether two things are one variable.
fn are_one(first: Atom, second: Atom) -> bool
    ensures { result ≡ are_one first second }
{
    match (first, second) {
        (Atom::Variable(x), Atom::Variable(y)) => y == x,
        _ => false,
    }
}

fn same_type(first: FlatTy, second: FlatTy) -> bool
    ensures { result ≡ same_type first second }
{
    match (first, second) {
        (FlatTy::Bool, FlatTy::Bool) => true,
        (FlatTy::Int, FlatTy::Int) => true,
        (FlatTy::Enum(first), FlatTy::Enum(second)) => first == second,
        _ => false,
    }
}

/// The type of the variable; an integer where there is none.
fn type_of(variables: &[Variable], variable: usize) -> FlatTy
    ensures { result ≡ type_of variables.now variable }
{
    if variable < variables.len() {
        variables[variable].ty
    } else {
        FlatTy::Int
    }
}

/// Whether a variable has the type of what is read.
fn has_type(variables: &[Variable], variable: usize, atom: Atom) -> bool
    ensures { result ≡ has_type variables.now variable atom }
{
    match atom {
        Atom::Variable(other) => same_type(type_of(variables, variable), type_of(variables, other)),
        Atom::Value(_) => false,
    }
}

/// What a choice copies that stands between one variable and itself.
fn needless(
    variables: &[Variable],
    table: &[Atom],
    choice: Option<(usize, (Atom, Atom))>,
) -> Option<Atom>
    ensures { result ≡ needless variables.now (stands_at table.now) choice }
{
    match choice {
        None => None,
        Some((variable, (first, second))) => {
            if are_one(read(table, first), read(table, second))
                && has_type(variables, variable, first)
            {
                Some(first)
            } else {
                None
            }
        }
    }
}

/// Of an equation that copies, or chooses between one variable and itself: its variable, and what is copied.
fn copied_in(variables: &[Variable], table: &[Atom], eqn: &FlatEqn) -> Option<(usize, Atom)>
    ensures { result ≡ copy_of (simplified variables.now (stands_at table.now) eqn.now) }
{
    match needless(variables, table, choice_of(eqn)) {
        None => copy_of(eqn),
        Some(atom) => match only(eqn.targets.as_slice()) {
            None => None,
            Some(target) => Some((target, atom)),
        },
    }
}

/// Notes what the variable of an equation stands for.
fn note_eqn(table: &mut [Atom], node: &FlatNode, facts: &ReadFacts, eqn: &FlatEqn)
    requires facts { AreReadFacts node.now facts.now }
    requires count { length table.old ≡ length node.now.variables }
    ensures meanings { stands_at table.new ≡ choice_meanings node.now (eqn.now ∷ []) (stands_at table.old) }
    ensures len { length table.new ≡ length table.old }
{
    let copy = copied_in(&node.variables, table, eqn);
    note(table, node, facts, copy);
}

#[tactic(auto, using(crate::proofs::Rules::choices))]
fn fill(table: &mut [Atom], node: &FlatNode, facts: &ReadFacts)
    requires facts { AreReadFacts node.now facts.now }
    requires count { length table.old ≡ length node.now.variables }
    ensures meanings { stands_at table.new ≡ choice_meanings node.now node.now.eqns (stands_at table.old) }
    ensures len { length table.new ≡ length table.old }
{
    for eqn in &node.eqns {
        note_eqn(table, node, facts, eqn);
    }
}

/// What each variable stands for.
fn meanings(alloc: Global, node: &FlatNode) -> Result<Vec<Atom>, AllocError>
    ensures { IfOk result (λ table. stands_at table.items ≡ choice_meanings node.now node.now.eqns (λ x. Read x)) }
{
    let facts = ReadFacts::new(alloc, node)?;
    let mut table = variables(alloc, node.variables.len())?;
    fill(&mut table, node, &facts);
    Ok(table)
}

/// The equation, as a copy.
fn copying(alloc: Global, atom: Atom, eqn: FlatEqn) -> Result<FlatEqn, AllocError>
    ensures { IfOk result (λ made. made ≡ copying (Some atom) eqn) }
{
    let args = vec![in alloc; atom; 1]?;
    let FlatEqn {
        targets,
        clock,
        right: _,
        restart,
        at,
    } = eqn;
    Ok(FlatEqn {
        targets,
        clock,
        right: FlatRight::Op(ObcOp::Copy, args),
        restart,
        at,
    })
}

/// The equation; an operator keeps nothing, so nothing makes it begin anew.
fn with_restart(mut eqn: FlatEqn) -> FlatEqn
    ensures { result ≡ with_restart eqn }
{
    if is_operator(&eqn.right) {
        eqn.restart.clear();
    }
    eqn
}

/// The equation; a choice between one variable and itself copies it.
fn with_copy(
    alloc: Global,
    variables: &[Variable],
    table: &[Atom],
    eqn: FlatEqn,
) -> Result<FlatEqn, AllocError>
    ensures { IfOk result (λ made. made ≡ copying (needless variables.now (stands_at table.now) (choice_of eqn)) eqn) }
{
    match needless(variables, table, choice_of(&eqn)) {
        None => Ok(eqn),
        Some(atom) => copying(alloc, atom, eqn),
    }
}

fn simplified(
    alloc: Global,
    variables: &[Variable],
    table: &[Atom],
    eqn: FlatEqn,
) -> Result<FlatEqn, AllocError>
    ensures { IfOk result (λ made. made ≡ simplified variables.now (stands_at table.now) eqn) }
{
    let made = with_copy(alloc, variables, table, eqn)?;
    Ok(with_restart(made))
}

#[tactic(auto, using(crate::proofs::Rules::choices))]
fn all_simplified(
    alloc: Global,
    variables: &[Variable],
    table: &[Atom],
    eqns: Vec<FlatEqn>,
) -> Result<Vec<FlatEqn>, AllocError>
    ensures { IfOk result (λ made. made.items ≡ map (simplified variables.now (stands_at table.now)) eqns.items) }
{
    let mut made = Vec::with_capacity(alloc, eqns.len())?;
    for eqn in eqns {
        made.push(simplified(alloc, variables, table, eqn)?)?;
    }
    Ok(made)
}

/// The node with its equations made simpler.
pub fn simplify(alloc: Global, node: FlatNode) -> Result<FlatNode, AllocError>
    ensures { IfOk result (λ made. made ≡ simple node) }
{
    let table = meanings(alloc, &node)?;
    let FlatNode {
        name,
        variables,
        inputs,
        outputs,
        eqns,
    } = node;
    let eqns = all_simplified(alloc, &variables, &table, eqns)?;
    Ok(FlatNode {
        name,
        variables,
        inputs,
        outputs,
        eqns,
    })
}
