//! An order in which each equation stands behind those that it reads.
ghost use Rattle.std.specs.Prelude.{◌≡◌, ◌+◌, ℕ, [], ◌∷◌, map, All, IfErr, IfOk, OnOk};
ghost use Rattle.std.specs.List.{flat_map};
ghost use Rattle.hp_flat.specs.EquationView.{right_seen};
ghost use Rattle.law_equations.specs.Meaning.Fitting.{atom_variables};
ghost use Rattle.law_equations.specs.Meaning.Scheduling.{clock_variables, right_reads, reads, IsRanked};
ghost use Rattle.hp_graph.specs.Graphs.{IsSortedBy};
ghost use Rattle.hp_complete.specs.Edges.{edges_to, edges_from, edges_of_eqn, edges_of, placed};
ghost use Rattle.hp_complete.specs.Names.{with_more};
ghost use Rattle.hp_complete.specs.Ordering.{unplaced, IsCircular, SaysTrue};
ghost use Rattle.hp_complete.specs.Ranges.{EqnWithin};

use crate::error::FlattenErr;
use hp_flat::{Atom, FlatEqn, FlatRight};
use hp_graph::{Sorted, rank_of, sort_edges};
use std::alloc::{AllocError, Global};

/// The graph of a node: its variables, and behind them its equations. An equation leads to what it reads, and a variable to its equations.
type Edges = Vec<(usize, usize)>;

#[tactic(auto, using(crate::proofs::OrderRules::edges))]
fn add_edge(from: usize, to: usize, edges: &mut Edges) -> Result<(), AllocError>
    ensures { OnOk result (edges.new.items ≡ with_more edges.old.items ((from, to) ∷ [])) }
{
    edges.push((from, to))?;
    Ok(())
}

#[tactic(auto, using(crate::proofs::OrderRules::edges))]
fn add_atom(vertex: usize, atom: Atom, edges: &mut Edges) -> Result<(), AllocError>
    ensures { OnOk result (edges.new.items ≡ with_more edges.old.items (edges_to vertex (atom_variables atom))) }
{
    match atom {
        Atom::Variable(variable) => add_edge(vertex, variable, edges),
        Atom::Value(_) => Ok(()),
    }
}

#[tactic(auto, using(crate::proofs::OrderRules::edges))]
fn add_atoms(vertex: usize, atoms: &[Atom], edges: &mut Edges) -> Result<(), AllocError>
    ensures { OnOk result (edges.new.items ≡ with_more edges.old.items (edges_to vertex (flat_map atom_variables atoms.now))) }
{
    for atom in atoms {
        add_atom(vertex, *atom, edges)?;
    }
    Ok(())
}

/// What the right side reads. A register reads nothing at this instant.
#[tactic(auto, using(crate::proofs::OrderRules::edges))]
fn add_right(vertex: usize, right: &FlatRight, edges: &mut Edges) -> Result<(), AllocError>
    ensures { OnOk result (edges.new.items ≡ with_more edges.old.items (edges_to vertex (right_reads (right_seen right.now)))) }
{
    match right {
        FlatRight::Op(_, args) => add_atoms(vertex, args, edges),
        FlatRight::Register { first: _, next: _ } => Ok(()),
        FlatRight::Call { node: _, args } => add_atoms(vertex, args, edges),
    }
}

#[tactic(auto, using(crate::proofs::OrderRules::edges))]
fn add_clock(vertex: usize, clock: &[(usize, u8)], edges: &mut Edges) -> Result<(), AllocError>
    ensures { OnOk result (edges.new.items ≡ with_more edges.old.items (edges_to vertex (clock_variables clock.now))) }
{
    for (variable, _) in clock {
        add_edge(vertex, *variable, edges)?;
    }
    Ok(())
}

#[tactic(auto, using(crate::proofs::OrderRules::edges))]
fn add_restart(vertex: usize, restart: &[usize], edges: &mut Edges) -> Result<(), AllocError>
    ensures { OnOk result (edges.new.items ≡ with_more edges.old.items (edges_to vertex restart.now)) }
{
    for variable in restart {
        add_edge(vertex, *variable, edges)?;
    }
    Ok(())
}

#[tactic(auto, using(crate::proofs::OrderRules::edges))]
fn add_targets(vertex: usize, targets: &[usize], edges: &mut Edges) -> Result<(), AllocError>
    ensures { OnOk result (edges.new.items ≡ with_more edges.old.items (edges_from vertex targets.now)) }
{
    for variable in targets {
        add_edge(*variable, vertex, edges)?;
    }
    Ok(())
}

#[tactic(auto, using(crate::proofs::OrderRules::joined))]
fn add_reads(vertex: usize, eqn: &FlatEqn, edges: &mut Edges) -> Result<(), AllocError>
    ensures { OnOk result (edges.new.items ≡ with_more edges.old.items (edges_to vertex (reads eqn.now))) }
{
    add_clock(vertex, &eqn.clock, edges)?;
    add_restart(vertex, &eqn.restart, edges)?;
    add_right(vertex, &eqn.right, edges)?;
    Ok(())
}

#[tactic(auto, using(crate::proofs::OrderRules::joined))]
fn add_eqn(vertex: usize, eqn: &FlatEqn, edges: &mut Edges) -> Result<(), AllocError>
    ensures { OnOk result (edges.new.items ≡ with_more edges.old.items (edges_of_eqn vertex eqn.now)) }
{
    add_reads(vertex, eqn, edges)?;
    add_targets(vertex, &eqn.targets, edges)?;
    Ok(())
}

/// The vertex of an equation, where there are so many variables.
fn vertex_of(variables: usize, place: usize) -> Result<usize, AllocError>
    ensures { IfOk result (λ vertex. vertex ≡ variables + place) }
{
    match variables.checked_add(place) {
        None => Err(AllocError),
        Some(vertex) => Ok(vertex),
    }
}

#[tactic(auto, using(crate::proofs::OrderRules::joined))]
fn add_eqns(variables: usize, eqns: &[FlatEqn], edges: &mut Edges) -> Result<(), AllocError>
    ensures { OnOk result (edges.new.items ≡ with_more edges.old.items (edges_of variables eqns.now)) }
{
    for i in 0..eqns.len() {
        let vertex = vertex_of(variables, i)?;
        add_eqn(vertex, &eqns[i], edges)?;
    }
    Ok(())
}

/// Ranks of the graph of so many variables and these equations, or a cycle.
#[tactic(auto, using(crate::proofs::OrderRules::begun))]
fn sort_eqns(alloc: Global, variables: usize, eqns: &[FlatEqn]) -> Result<Sorted, AllocError>
    ensures { IfOk result (IsSortedBy (edges_of variables eqns.now)) }
{
    let mut edges = Vec::new(alloc);
    add_eqns(variables, eqns, &mut edges)?;
    sort_edges(alloc, &edges)
}

/// The equations take their places by the ranks of their vertices.
fn place(variables: usize, ranks: &[usize], eqns: &mut [FlatEqn]) -> Result<(), AllocError>
    ensures placed { OnOk result (eqns.new ≡ placed ranks.now variables eqns.old) }
    ensures within { (n : ℕ) → All (EqnWithin n) eqns.old → All (EqnWithin n) eqns.new }
{
    for i in 0..eqns.len() {
        let vertex = vertex_of(variables, i)?;
        place_one(&mut eqns[i], rank_of(ranks, vertex));
    }
    Ok(())
}

fn place_one(eqn: &mut FlatEqn, place: usize)
    ensures { eqn.new ≡ record eqn.old { at = place } }
{
    eqn.at = place;
}

/// Gives the equations of so many variables their places: those that an equation reads stand before it.
pub fn order_eqns(alloc: Global, variables: usize, eqns: &mut [FlatEqn]) -> Result<(), FlattenErr>
    ensures same { OnOk result (map unplaced eqns.new ≡ map unplaced eqns.old) }
    ensures ranked { OnOk result (IsRanked eqns.new) }
    ensures circular { All (EqnWithin variables) eqns.old → IfErr result (SaysTrue (IsCircular eqns.old)) }
    ensures within { (n : ℕ) → All (EqnWithin n) eqns.old → All (EqnWithin n) eqns.new }
{
    match sort_eqns(alloc, variables, eqns)? {
        Sorted::Ranks(ranks) => {
            place(variables, &ranks, eqns)?;
            Ok(())
        }
        Sorted::Cycle(_) => Err(FlattenErr::Cycle),
    }
}
