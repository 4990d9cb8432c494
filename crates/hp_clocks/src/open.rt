//! The cells of a node's variables, of which nothing is known at first.
ghost use Rattle.std.specs.Prelude.{◌≡◌, ◌+◌, ◌<◌, ⊤, length, map, IfOk, OnOk};
ghost use Rattle.hp_tree.specs.BlockView.{eqn_seen, arm_seen, state_seen};
ghost use Rattle.hp_tree.specs.Blocks.{eqns_of, arms_of, states_of};
ghost use Rattle.hp_clocks.specs.Cells.{AreCells, Tells};
ghost use Rattle.hp_clocks.specs.Units.{size, size_of, size_of_all, size_of_arms, size_of_states, size_of_contract, size_of_node};
ghost use Rattle.hp_clocks.specs.Putting.{IsOpened};

use crate::cell::Cells;
use hp_tree::{Arm, Block, Contract, Decl, Eqn, Node, State};
use std::alloc::{AllocError, Global};

#[tactic(auto, using(crate::proofs::OpenRules::opened))]
fn open_locals(cells: &mut Cells, decls: &[Decl]) -> Result<(), AllocError>
    requires { AreCells cells.old.cells.items }
    ensures tells { OnOk result (Tells cells.old.cells.items cells.new.cells.items (λ at. ⊤)) }
    ensures length { OnOk result (length cells.new.cells.items ≡ length cells.old.cells.items + length decls.now) }
{
    let mut left = decls.len();
    while left > 0 {
        cells.add_open()?;
        left -= 1;
    }
    Ok(())
}

#[cycle(open)]
#[tactic(auto, using(crate::proofs::OpenRules::opened))]
fn open_block(cells: &mut Cells, block: &Block) -> Result<(), AllocError>
    requires { AreCells cells.old.cells.items }
    ensures tells { OnOk result (Tells cells.old.cells.items cells.new.cells.items (λ at. ⊤)) }
    ensures length { OnOk result (length cells.new.cells.items ≡ length cells.old.cells.items + size block.now) }
{
    open_locals(cells, &block.locals)?;
    open_eqns(cells, &block.eqns)
}

#[cycle(open)]
#[tactic(auto, using(crate::proofs::OpenRules::opened))]
fn open_eqns(cells: &mut Cells, eqns: &[Eqn]) -> Result<(), AllocError>
    requires { AreCells cells.old.cells.items }
    ensures tells { OnOk result (Tells cells.old.cells.items cells.new.cells.items (λ at. ⊤)) }
    ensures length { OnOk result (length cells.new.cells.items ≡ length cells.old.cells.items + size_of_all (eqns_of (map eqn_seen eqns.now))) }
{
    for eqn in eqns {
        open_eqn(cells, eqn)?;
    }
    Ok(())
}

#[cycle(open)]
#[tactic(auto, using(crate::proofs::OpenRules::opened))]
fn open_eqn(cells: &mut Cells, eqn: &Eqn) -> Result<(), AllocError>
    requires { AreCells cells.old.cells.items }
    ensures tells { OnOk result (Tells cells.old.cells.items cells.new.cells.items (λ at. ⊤)) }
    ensures length { OnOk result (length cells.new.cells.items ≡ length cells.old.cells.items + size_of (eqn_seen eqn.now)) }
{
    match eqn {
        Eqn::Def {
            span: _,
            names: _,
            right: _,
        } => {
            cells.add_open()?;
            Ok(())
        }
        Eqn::Switch {
            span: _,
            cond: _,
            arms,
        } => open_arms(cells, arms),
        Eqn::Reset {
            span: _,
            body,
            cond: _,
        } => open_block(cells, body),
        Eqn::Automaton { span: _, states } => open_states(cells, states),
    }
}

#[cycle(open)]
#[tactic(auto, using(crate::proofs::OpenRules::opened))]
fn open_arms(cells: &mut Cells, arms: &[Arm]) -> Result<(), AllocError>
    requires { AreCells cells.old.cells.items }
    ensures tells { OnOk result (Tells cells.old.cells.items cells.new.cells.items (λ at. ⊤)) }
    ensures length { OnOk result (length cells.new.cells.items ≡ length cells.old.cells.items + size_of_arms (arms_of (map arm_seen arms.now))) }
{
    for arm in arms {
        open_block(cells, &arm.body)?;
    }
    Ok(())
}

#[cycle(open)]
#[tactic(auto, using(crate::proofs::OpenRules::opened))]
fn open_states(cells: &mut Cells, states: &[State]) -> Result<(), AllocError>
    requires { AreCells cells.old.cells.items }
    ensures tells { OnOk result (Tells cells.old.cells.items cells.new.cells.items (λ at. ⊤)) }
    ensures length { OnOk result (length cells.new.cells.items ≡ length cells.old.cells.items + size_of_states (states_of (map state_seen states.now))) }
{
    for state in states {
        open_block(cells, &state.body)?;
    }
    Ok(())
}

#[tactic(auto, using(crate::proofs::OpenRules::opened))]
fn open_contract(cells: &mut Cells, contract: &Option<Contract>) -> Result<(), AllocError>
    requires { AreCells cells.old.cells.items }
    ensures tells { OnOk result (Tells cells.old.cells.items cells.new.cells.items (λ at. ⊤)) }
    ensures length { OnOk result (length cells.new.cells.items ≡ length cells.old.cells.items + size_of_contract contract.now) }
{
    match contract {
        None => Ok(()),
        Some(contract) => open_block(cells, &contract.body),
    }
}

#[tactic(auto, using(crate::proofs::OpenRules::opened))]
fn open_parts(cells: &mut Cells, node: &Node) -> Result<(), AllocError>
    requires { AreCells cells.old.cells.items }
    ensures tells { OnOk result (Tells cells.old.cells.items cells.new.cells.items (λ at. ⊤)) }
    ensures length { OnOk result (length cells.new.cells.items ≡ length cells.old.cells.items + size_of_node node.now) }
{
    open_contract(cells, &node.contract)?;
    open_block(cells, &node.body)
}

/// The cells of the base clock and of the node's variables.
#[tactic(auto, using(crate::proofs::OpenRules::nodes))]
pub fn open_node<'a>(alloc: Global, node: &'a Node) -> Result<Cells<'a>, AllocError>
    ensures { IfOk result (λ cells. IsOpened (1 + size_of_node node.now) cells.cells.items) }
{
    let mut cells = Cells::new(alloc)?;
    open_parts(&mut cells, node)?;
    Ok(cells)
}
