//! The numbers of new variables.
ghost use Rattle.std.specs.Prelude.{◌≡◌, ◌+◌, map, option_map, IfOk, OnOk};
ghost use Rattle.hp_tree.specs.BlockView.{eqn_seen, arm_seen, state_seen};
ghost use Rattle.hp_tree.specs.Blocks.{eqns_of, arms_of, states_of};
ghost use Rattle.hp_expand.specs.Renaming.{renamed};
ghost use Rattle.hp_expand.specs.Numbering.{in_block, in_eqns, in_eqn, in_arms, in_states, numbered, new_in_block, new_in_eqns, new_in_eqn, new_in_arms, new_in_states};
ghost use Rattle.hp_expand.specs.Numbered.{front, entered, said_inside, own_new, inner_new, numbered_arm, numbered_state, numbered_contract, new_in_contract};
ghost use Rattle.hp_expand.specs.Layers.{said, said_in};

use crate::names::{Layer, Naming};
use crate::rename::rename_transitions;
use hp_tables::renaming::{rename_decls, rename_expr, rename_left};
use hp_tree::{Arm, Block, Contract, Eqn, Expr, Node, State, copy_decls};
use std::alloc::{AllocError, Global};

/// What is known at a place of a node whose new variables are numbered.
#[derive(Drop)]
struct Numbers<'a> {
    /// The numbers of names, block by block, the outermost first.
    layers: Vec<Layer<'a>>,
    /// The number of the next new variable.
    next: u64,
}

/// Enters a block: its new variables have numbers there.
#[tactic(auto, using(crate::proofs::Rules::entered))]
fn enter<'a>(alloc: Global, numbers: &mut Numbers<'a>, block: &'a Block) -> Result<(), AllocError>
    ensures layers { OnOk result (front numbers.new.layers.items ≡ numbers.old.layers.items) }
    ensures said { OnOk result (said_in numbers.new.layers.items ≡ said_inside (said_in numbers.old.layers.items) numbers.old.next block.now) }
    ensures next { OnOk result (numbers.new.next ≡ numbers.old.next + own_new block.now) }
{
    let own = Layer::declaring(alloc, &block.locals, &mut numbers.next)?;
    numbers.layers.push(own)?;
    Ok(())
}

/// Takes the innermost layer away.
#[tactic(auto, using(crate::proofs::Rules::left))]
fn leave_layer(layers: &mut Vec<Layer>)
    ensures { layers.new.items ≡ front layers.old.items }
{
    layers.pop();
}

#[cycle(number)]
#[tactic(auto, using(crate::proofs::Rules::numbered_in_blocks))]
fn number_block<'a>(
    alloc: Global,
    numbers: &mut Numbers<'a>,
    block: &'a Block,
) -> Result<Block, AllocError>
    ensures block { IfOk result (λ other. other ≡ in_block (said_in numbers.old.layers.items) numbers.old.next block.now) }
    ensures layers { OnOk result (numbers.new.layers.items ≡ numbers.old.layers.items) }
    ensures next { OnOk result (numbers.new.next ≡ numbers.old.next + new_in_block block.now) }
{
    enter(alloc, numbers, block)?;
    let other = number_inside(alloc, numbers, block)?;
    leave_layer(&mut numbers.layers);
    Ok(other)
}

/// A block that has been entered.
#[cycle(number)]
#[tactic(auto, using(crate::proofs::Rules::numbered_in_blocks))]
fn number_inside<'a>(
    alloc: Global,
    numbers: &mut Numbers<'a>,
    block: &'a Block,
) -> Result<Block, AllocError>
    ensures block { IfOk result (λ other. other ≡ entered (said_in numbers.old.layers.items) numbers.old.next block.now) }
    ensures layers { OnOk result (numbers.new.layers.items ≡ numbers.old.layers.items) }
    ensures next { OnOk result (numbers.new.next ≡ numbers.old.next + inner_new block.now) }
{
    let locals = rename_decls(alloc, &Naming::Numbered(&numbers.layers), &block.locals)?;
    let eqns = number_eqns(alloc, numbers, &block.eqns)?;
    Ok(Block { locals, eqns })
}

#[cycle(number)]
#[tactic(auto, using(crate::proofs::Rules::numbered_in_blocks))]
fn number_eqns<'a>(
    alloc: Global,
    numbers: &mut Numbers<'a>,
    eqns: &'a [Eqn],
) -> Result<Vec<Eqn>, AllocError>
    ensures eqns { IfOk result (λ others. eqns_of (map eqn_seen others.items) ≡ in_eqns (said_in numbers.old.layers.items) numbers.old.next (eqns_of (map eqn_seen eqns.now))) }
    ensures layers { OnOk result (numbers.new.layers.items ≡ numbers.old.layers.items) }
    ensures next { OnOk result (numbers.new.next ≡ numbers.old.next + new_in_eqns (eqns_of (map eqn_seen eqns.now))) }
{
    let mut others = Vec::new(alloc);
    for eqn in eqns {
        others.push(number_eqn(alloc, numbers, eqn)?)?;
    }
    Ok(others)
}

#[cycle(number)]
#[tactic(auto, using(crate::proofs::Rules::numbered_in_blocks))]
fn number_eqn<'a>(alloc: Global, numbers: &mut Numbers<'a>, eqn: &'a Eqn) -> Result<Eqn, AllocError>
    ensures eqn { IfOk result (λ other. eqn_seen other ≡ in_eqn (said_in numbers.old.layers.items) numbers.old.next (eqn_seen eqn.now)) }
    ensures layers { OnOk result (numbers.new.layers.items ≡ numbers.old.layers.items) }
    ensures next { OnOk result (numbers.new.next ≡ numbers.old.next + new_in_eqn (eqn_seen eqn.now)) }
{
    match eqn {
        Eqn::Def { span, names, right } => {
            let naming = Naming::Numbered(&numbers.layers);
            Ok(Eqn::Def {
                span: *span,
                names: rename_left(alloc, &naming, names)?,
                right: rename_expr(alloc, &naming, right)?,
            })
        }
        Eqn::Switch { span, cond, arms } => Ok(Eqn::Switch {
            span: *span,
            cond: rename_expr(alloc, &Naming::Numbered(&numbers.layers), cond)?,
            arms: number_arms(alloc, numbers, arms)?,
        }),
        Eqn::Reset { span, body, cond } => Ok(Eqn::Reset {
            span: *span,
            cond: rename_expr(alloc, &Naming::Numbered(&numbers.layers), cond)?,
            body: number_block(alloc, numbers, body)?,
        }),
        Eqn::Automaton { span, states } => Ok(Eqn::Automaton {
            span: *span,
            states: number_states(alloc, numbers, states)?,
        }),
    }
}

#[cycle(number)]
#[tactic(auto, using(crate::proofs::Rules::numbered_in_blocks))]
fn number_arms<'a>(
    alloc: Global,
    numbers: &mut Numbers<'a>,
    arms: &'a [Arm],
) -> Result<Vec<Arm>, AllocError>
    ensures arms { IfOk result (λ others. arms_of (map arm_seen others.items) ≡ in_arms (said_in numbers.old.layers.items) numbers.old.next (arms_of (map arm_seen arms.now))) }
    ensures layers { OnOk result (numbers.new.layers.items ≡ numbers.old.layers.items) }
    ensures next { OnOk result (numbers.new.next ≡ numbers.old.next + new_in_arms (arms_of (map arm_seen arms.now))) }
{
    let mut others = Vec::new(alloc);
    for arm in arms {
        others.push(number_arm(alloc, numbers, arm)?)?;
    }
    Ok(others)
}

#[cycle(number)]
#[tactic(auto, using(crate::proofs::Rules::numbered_in_blocks))]
fn number_arm<'a>(alloc: Global, numbers: &mut Numbers<'a>, arm: &'a Arm) -> Result<Arm, AllocError>
    ensures arm { IfOk result (λ other. arm_seen other ≡ numbered_arm (said_in numbers.old.layers.items) numbers.old.next (arm_seen arm.now)) }
    ensures layers { OnOk result (numbers.new.layers.items ≡ numbers.old.layers.items) }
    ensures next { OnOk result (numbers.new.next ≡ numbers.old.next + new_in_block arm.now.body) }
{
    Ok(Arm {
        cons: arm.cons.copy(alloc)?,
        body: number_block(alloc, numbers, &arm.body)?,
        span: arm.span,
    })
}

#[cycle(number)]
#[tactic(auto, using(crate::proofs::Rules::numbered_in_blocks))]
fn number_states<'a>(
    alloc: Global,
    numbers: &mut Numbers<'a>,
    states: &'a [State],
) -> Result<Vec<State>, AllocError>
    ensures states { IfOk result (λ others. states_of (map state_seen others.items) ≡ in_states (said_in numbers.old.layers.items) numbers.old.next (states_of (map state_seen states.now))) }
    ensures layers { OnOk result (numbers.new.layers.items ≡ numbers.old.layers.items) }
    ensures next { OnOk result (numbers.new.next ≡ numbers.old.next + new_in_states (states_of (map state_seen states.now))) }
{
    let mut others = Vec::new(alloc);
    for state in states {
        others.push(number_state(alloc, numbers, state)?)?;
    }
    Ok(others)
}

/// A state. Its weak transitions see the variables of its body.
#[cycle(number)]
#[tactic(auto, using(crate::proofs::Rules::numbered_in_blocks))]
fn number_state<'a>(
    alloc: Global,
    numbers: &mut Numbers<'a>,
    state: &'a State,
) -> Result<State, AllocError>
    ensures state { IfOk result (λ other. state_seen other ≡ numbered_state (said_in numbers.old.layers.items) numbers.old.next (state_seen state.now)) }
    ensures layers { OnOk result (numbers.new.layers.items ≡ numbers.old.layers.items) }
    ensures next { OnOk result (numbers.new.next ≡ numbers.old.next + new_in_block state.now.body) }
{
    let name = state.name.copy(alloc)?;
    enter(alloc, numbers, &state.body)?;
    let body = number_inside(alloc, numbers, &state.body)?;
    let until = rename_transitions(alloc, &Naming::Numbered(&numbers.layers), &state.until)?;
    leave_layer(&mut numbers.layers);
    let unless = rename_transitions(alloc, &Naming::Numbered(&numbers.layers), &state.unless)?;
    Ok(State {
        name,
        body,
        until,
        unless,
        span: state.span,
    })
}

fn rename_condition(
    alloc: Global,
    naming: &Naming<'_>,
    condition: &Option<Expr>,
) -> Result<Option<Expr>, AllocError>
    ensures { IfOk result (λ other. other ≡ option_map (renamed (said naming.now)) condition.now) }
{
    match condition {
        None => Ok(None),
        Some(expr) => Ok(Some(rename_expr(alloc, naming, expr)?)),
    }
}

/// A contract. Its conditions see the variables of its block.
#[tactic(auto, using(crate::proofs::Rules::numbered_in_nodes))]
fn number_contract<'a>(
    alloc: Global,
    numbers: &mut Numbers<'a>,
    contract: &'a Contract,
) -> Result<Contract, AllocError>
    ensures contract { IfOk result (λ other. other ≡ numbered_contract (said_in numbers.old.layers.items) numbers.old.next contract.now) }
    ensures layers { OnOk result (numbers.new.layers.items ≡ numbers.old.layers.items) }
    ensures next { OnOk result (numbers.new.next ≡ numbers.old.next + new_in_block contract.now.body) }
{
    enter(alloc, numbers, &contract.body)?;
    let body = number_inside(alloc, numbers, &contract.body)?;
    let naming = Naming::Numbered(&numbers.layers);
    let assume = rename_condition(alloc, &naming, &contract.assume)?;
    let enforce = rename_condition(alloc, &naming, &contract.enforce)?;
    leave_layer(&mut numbers.layers);
    Ok(Contract {
        body,
        assume,
        enforce,
        controls: copy_decls(alloc, &contract.controls)?,
        span: contract.span,
    })
}

#[tactic(auto, using(crate::proofs::Rules::numbered_in_nodes))]
fn number_observer<'a>(
    alloc: Global,
    numbers: &mut Numbers<'a>,
    contract: &'a Option<Contract>,
) -> Result<Option<Contract>, AllocError>
    ensures contract { IfOk result (λ other. other ≡ option_map (numbered_contract (said_in numbers.old.layers.items) numbers.old.next) contract.now) }
    ensures layers { OnOk result (numbers.new.layers.items ≡ numbers.old.layers.items) }
    ensures next { OnOk result (numbers.new.next ≡ numbers.old.next + new_in_contract contract.now) }
{
    match contract {
        None => Ok(None),
        Some(contract) => Ok(Some(number_contract(alloc, numbers, contract)?)),
    }
}

/// The node with its new variables numbered.
#[tactic(auto, using(crate::proofs::Rules::numbered_in_nodes))]
pub fn number_node(alloc: Global, node: &Node) -> Result<Node, AllocError>
    ensures { IfOk result (λ other. other ≡ numbered node.now) }
{
    let mut numbers = Numbers {
        layers: Vec::new(alloc),
        next: 1,
    };
    let contract = number_observer(alloc, &mut numbers, &node.contract)?;
    let body = number_block(alloc, &mut numbers, &node.body)?;
    Ok(Node {
        name: node.name.copy(alloc)?,
        span: node.span,
        inputs: copy_decls(alloc, &node.inputs)?,
        outputs: copy_decls(alloc, &node.outputs)?,
        contract,
        body,
    })
}
