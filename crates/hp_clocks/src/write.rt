//! Clocks are written on all declarations.
ghost use Rattle.std.specs.Prelude.{◌≡◌, ◌<◌, ◌++◌, length, map, reverse, All, IfOk, OnOk};
ghost use Rattle.hp_clocks.specs.Cells.{AreCells};
ghost use Rattle.hp_clocks.specs.Solved.{clock_read};
ghost use Rattle.hp_tree.specs.Blocks.{eqns_of, arms_of, states_of};
ghost use Rattle.hp_tree.specs.BlockView.{eqn_seen, arm_seen, state_seen};
ghost use Rattle.hp_meaning.specs.Clocking.Clocking.{base_written};
ghost use Rattle.hp_clocks.specs.Writing.{paths_seen, ahead, first, others, clocked_decl, decls_written, decls_left, block_written, block_left, eqns_written, eqns_left, eqn_written, eqn_left, arms_written, arms_left, states_written, states_left, node_written, node_left, items_written};

use crate::cell::{Cell, Cells};
use crate::solve::Solution;
use hp_base::Name;
use hp_tree::{Arm, Block, Cons, Decl, Eqn, Item, Node, Program, State};
use std::alloc::{AllocError, Global};
use std::vec::IntoIter;

/// The steps of a clock, the innermost first. What is open is on the base clock.
#[tactic(auto, using(crate::proofs::WriteRules::reading))]
fn steps_of(alloc: Global, cells: &Cells, clock: usize) -> Result<Vec<(Cons, Name)>, AllocError>
    requires are_cells { AreCells cells.now.cells.items }
    requires there { clock < length cells.now.cells.items }
    ensures { IfOk result (λ path. path.items ≡ clock_read cells.now.cells.items clock) }
{
    let mut path = Vec::new(alloc);
    let mut at = clock;
    loop {
        match cells.cell(at) {
            Cell::Same(next) => at = next,
            Cell::On(cons, name, under) => {
                path.push((cons.copy(alloc)?, name.copy(alloc)?))?;
                at = under;
            }
            Cell::Open(_) | Cell::Base => return Ok(path),
        }
    }
}

/// The path of a clock, the outermost step first.
fn path_of(alloc: Global, cells: &Cells, clock: usize) -> Result<Vec<(Cons, Name)>, AllocError>
    requires are_cells { AreCells cells.now.cells.items }
    requires there { clock < length cells.now.cells.items }
    ensures { IfOk result (λ path. path.items ≡ reverse (clock_read cells.now.cells.items clock)) }
{
    let mut path = steps_of(alloc, cells, clock)?;
    path.reverse();
    Ok(path)
}

/// The clocks of a node's locals, in the order of the text.
pub fn paths_of(
    alloc: Global,
    solution: &Solution,
    into: &mut Vec<Vec<(Cons, Name)>>,
) -> Result<(), AllocError>
    requires are_cells { AreCells solution.now.cells.cells.items }
    requires there { All (λ l. l < length solution.now.cells.cells.items) solution.now.locals.items }
    ensures { OnOk result (paths_seen into.new.items ≡ paths_seen into.old.items ++ map (λ l. reverse (clock_read solution.now.cells.cells.items l)) solution.now.locals.items) }
{
    for local in &solution.locals {
        into.push(path_of(alloc, &solution.cells, *local)?)?;
    }
    Ok(())
}

/// The clocks that are still to be written.
type Paths = IntoIter<Vec<(Cons, Name)>>;

fn write_local(decl: &mut Decl, paths: &mut Paths)
    ensures decl { decl.new ≡ clocked_decl (first (ahead paths.old)) decl.old }
    ensures left { ahead paths.new ≡ others (ahead paths.old) }
{
    decl.clock = paths.next();
}

fn write_locals(decls: &mut [Decl], paths: &mut Paths)
    ensures decls { decls.new ≡ decls_written decls.old (ahead paths.old) }
    ensures left { ahead paths.new ≡ decls_left decls.old (ahead paths.old) }
{
    for decl in decls.iter_mut() {
        write_local(decl, paths);
    }
}

fn write_base(alloc: Global, decls: &mut [Decl])
    ensures { decls.new ≡ map base_written decls.old }
{
    for decl in decls.iter_mut() {
        decl.clock = Some(Vec::new(alloc));
    }
}

#[cycle(write)]
fn write_block(block: &mut Block, paths: &mut Paths)
    ensures block { block.new ≡ block_written block.old (ahead paths.old) }
    ensures left { ahead paths.new ≡ block_left block.old (ahead paths.old) }
{
    write_locals(&mut block.locals, paths);
    write_eqns(&mut block.eqns, paths);
}

#[cycle(write)]
fn write_eqns(eqns: &mut [Eqn], paths: &mut Paths)
    ensures eqns { eqns_of (map eqn_seen eqns.new) ≡ eqns_written (eqns_of (map eqn_seen eqns.old)) (ahead paths.old) }
    ensures left { ahead paths.new ≡ eqns_left (eqns_of (map eqn_seen eqns.old)) (ahead paths.old) }
{
    for eqn in eqns.iter_mut() {
        write_eqn(eqn, paths);
    }
}

#[cycle(write)]
fn write_eqn(eqn: &mut Eqn, paths: &mut Paths)
    ensures eqn { eqn_seen eqn.new ≡ eqn_written (eqn_seen eqn.old) (ahead paths.old) }
    ensures left { ahead paths.new ≡ eqn_left (eqn_seen eqn.old) (ahead paths.old) }
{
    match eqn {
        Eqn::Def {
            span: _,
            names: _,
            right: _,
        } => {}
        Eqn::Switch {
            span: _,
            cond: _,
            arms,
        } => write_arms(arms, paths),
        Eqn::Reset {
            span: _,
            body,
            cond: _,
        } => write_block(body, paths),
        Eqn::Automaton { span: _, states } => write_states(states, paths),
    }
}

#[cycle(write)]
fn write_arms(arms: &mut [Arm], paths: &mut Paths)
    ensures arms { arms_of (map arm_seen arms.new) ≡ arms_written (arms_of (map arm_seen arms.old)) (ahead paths.old) }
    ensures left { ahead paths.new ≡ arms_left (arms_of (map arm_seen arms.old)) (ahead paths.old) }
{
    for arm in arms.iter_mut() {
        write_block(&mut arm.body, paths);
    }
}

#[cycle(write)]
fn write_states(states: &mut [State], paths: &mut Paths)
    ensures states { states_of (map state_seen states.new) ≡ states_written (states_of (map state_seen states.old)) (ahead paths.old) }
    ensures left { ahead paths.new ≡ states_left (states_of (map state_seen states.old)) (ahead paths.old) }
{
    for state in states.iter_mut() {
        write_block(&mut state.body, paths);
    }
}

/// Inputs, outputs and controllable variables are on the base clock.
fn write_node(alloc: Global, node: &mut Node, paths: &mut Paths)
    ensures node { node.new ≡ node_written node.old (ahead paths.old) }
    ensures left { ahead paths.new ≡ node_left node.old (ahead paths.old) }
{
    write_base(alloc, &mut node.inputs);
    write_base(alloc, &mut node.outputs);
    if let Some(contract) = &mut node.contract {
        write_block(&mut contract.body, paths);
        write_base(alloc, &mut contract.controls);
    }
    write_block(&mut node.body, paths);
}

fn write_items(alloc: Global, items: &mut [Item], paths: &mut Paths)
    ensures { items.new ≡ items_written items.old (ahead paths.old) }
{
    for item in items.iter_mut() {
        if let Item::NodeItem(node) = item {
            write_node(alloc, node, paths);
        }
    }
}

/// Writes the clocks of locals, in the order of the text, and the base clock on all other declarations.
pub fn write_program(alloc: Global, program: &mut Program, paths: Vec<Vec<(Cons, Name)>>)
    ensures { program.new ≡ items_written program.old (paths_seen paths.items) }
{
    let mut paths = paths.into_iter();
    write_items(alloc, &mut program.items, &mut paths);
}
