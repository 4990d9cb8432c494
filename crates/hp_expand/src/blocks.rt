//! Blocks, contracts and nodes whose inlined calls are replaced.
ghost use Rattle.std.specs.Prelude.{◌≡◌, ◌++◌, [], ◌∷◌, map, Some, IfOk, OnOk};
ghost use Rattle.hp_tree.specs.Expressions.{call, exprs_of};
ghost use Rattle.hp_tree.specs.BlockView.{eqn_seen, arm_seen, state_seen};
ghost use Rattle.hp_tree.specs.Blocks.{block, define, eqns_of, arms_of, states_of, list_of_eqns};
ghost use Rattle.hp_expand.specs.Replacing.{locals_of, equations_of, in_definition, in_block, in_eqns, in_eqn, in_arms, in_states, in_condition, in_contract, in_node};
ghost use Rattle.hp_expand.specs.Making.{with_more, replaced_arm, replaced_state, in_conditions};
ghost use Rattle.hp_expand.specs.NodeTables.{node_in};

use crate::nodes::Nodes;
use crate::replace::{Made, add_definitions, inline, push_eqn, replace_args, replace_expr};
use hp_base::{Name, Span};
use hp_tree::{
    Arm, Block, Contract, Eqn, Expr, ExprKind, Node, State, copy_decls, copy_left, copy_transitions,
};
use std::alloc::{AllocError, Global};

/// Adds an equation of some names, whose right side is a call. An inlined one gives an equation for each name.
#[tactic(auto, using(crate::proofs::Rules::replaced_exprs))]
fn replace_defined_call(
    alloc: Global,
    nodes: &Nodes<'_>,
    span: Span,
    names: &[(Name, Span)],
    at: Span,
    node: &Name,
    inlined: bool,
    args: &[Expr],
    made: &mut Made,
) -> Result<(), AllocError>
    ensures locals { OnOk result (made.new.locals.items ≡ with_more made.old.locals.items (in_definition (node_in nodes.now) made.old.next span names.now (call at node.now inlined (exprs_of args.now))).locals) }
    ensures eqns { OnOk result (map eqn_seen made.new.eqns.items ≡ with_more (map eqn_seen made.old.eqns.items) ((in_definition (node_in nodes.now) made.old.next span names.now (call at node.now inlined (exprs_of args.now))).before ++ (in_definition (node_in nodes.now) made.old.next span names.now (call at node.now inlined (exprs_of args.now))).part)) }
    ensures next { OnOk result (made.new.next ≡ (in_definition (node_in nodes.now) made.old.next span names.now (call at node.now inlined (exprs_of args.now))).next) }
{
    let args = replace_args(alloc, nodes, args, made)?;
    if inlined {
        let outputs = inline(alloc, nodes, node, &args, made)?;
        return add_definitions(alloc, span, names, at, &outputs, &mut made.eqns);
    }
    let node = node.copy(alloc)?;
    let right = Expr::new(
        alloc,
        at,
        ExprKind::Call {
            node,
            inlined,
            args,
        },
    )?;
    push_definition(alloc, span, names, right, &mut made.eqns)
}

/// Adds the equation of the names.
#[tactic(auto, using(crate::proofs::Rules::replaced_exprs))]
fn push_definition(
    alloc: Global,
    span: Span,
    names: &[(Name, Span)],
    right: Expr,
    into: &mut Vec<Eqn>,
) -> Result<(), AllocError>
    ensures { OnOk result (map eqn_seen into.new.items ≡ with_more (map eqn_seen into.old.items) (define span names.now right ∷ [])) }
{
    let names = copy_left(alloc, names)?;
    push_eqn(into, Eqn::Def { span, names, right })
}

/// Adds what replaces an equation of some names.
#[tactic(auto, using(crate::proofs::Rules::replaced_exprs))]
fn replace_definition(
    alloc: Global,
    nodes: &Nodes<'_>,
    span: Span,
    names: &[(Name, Span)],
    right: &Expr,
    made: &mut Made,
) -> Result<(), AllocError>
    ensures locals { OnOk result (made.new.locals.items ≡ with_more made.old.locals.items (in_definition (node_in nodes.now) made.old.next span names.now right.now).locals) }
    ensures eqns { OnOk result (map eqn_seen made.new.eqns.items ≡ with_more (map eqn_seen made.old.eqns.items) ((in_definition (node_in nodes.now) made.old.next span names.now right.now).before ++ (in_definition (node_in nodes.now) made.old.next span names.now right.now).part)) }
    ensures next { OnOk result (made.new.next ≡ (in_definition (node_in nodes.now) made.old.next span names.now right.now).next) }
{
    match &*right.kind {
        ExprKind::Call {
            node,
            inlined,
            args,
        } => replace_defined_call(
            alloc, nodes, span, names, right.span, node, *inlined, args, made,
        ),
        _ => {
            let other = replace_expr(alloc, nodes, right, made)?;
            push_definition(alloc, span, names, other, &mut made.eqns)
        }
    }
}

/// The block's own variables, and no equation yet.
fn begin(alloc: Global, block: &Block, next: u64) -> Result<Made, AllocError>
    ensures locals { IfOk result (λ made. made.locals.items ≡ locals_of block.now) }
    ensures eqns { IfOk result (λ made. map eqn_seen made.eqns.items ≡ []) }
    ensures next { IfOk result (λ made. made.next ≡ next) }
{
    let locals = copy_decls(alloc, &block.locals)?;
    let eqns = Vec::new(alloc);
    Ok(Made { locals, eqns, next })
}

/// The block that has been made.
fn finish(made: Made) -> Block
    ensures { result ≡ block made.locals.items (eqns_of (map eqn_seen made.eqns.items)) }
{
    let Made { locals, eqns, .. } = made;
    Block { locals, eqns }
}

/// A block. Its new local variables stand behind its own.
#[cycle(block)]
#[tactic(auto, using(crate::proofs::Rules::replaced_blocks))]
fn replace_block(
    alloc: Global,
    nodes: &Nodes<'_>,
    block: &Block,
    next: &mut u64,
) -> Result<Block, AllocError>
    ensures block { IfOk result (λ other. other ≡ (in_block (node_in nodes.now) next.old block.now).part) }
    ensures next { OnOk result (next.new ≡ (in_block (node_in nodes.now) next.old block.now).next) }
{
    let mut made = begin(alloc, block, *next)?;
    replace_eqns(alloc, nodes, &block.eqns, &mut made)?;
    *next = made.next;
    Ok(finish(made))
}

/// Adds what replaces equations.
#[cycle(block)]
#[tactic(auto, using(crate::proofs::Rules::replaced_blocks))]
fn replace_eqns(
    alloc: Global,
    nodes: &Nodes<'_>,
    eqns: &[Eqn],
    made: &mut Made,
) -> Result<(), AllocError>
    ensures locals { OnOk result (made.new.locals.items ≡ with_more made.old.locals.items (in_eqns (node_in nodes.now) made.old.next (eqns_of (map eqn_seen eqns.now))).locals) }
    ensures eqns { OnOk result (map eqn_seen made.new.eqns.items ≡ with_more (map eqn_seen made.old.eqns.items) (list_of_eqns (in_eqns (node_in nodes.now) made.old.next (eqns_of (map eqn_seen eqns.now))).part)) }
    ensures next { OnOk result (made.new.next ≡ (in_eqns (node_in nodes.now) made.old.next (eqns_of (map eqn_seen eqns.now))).next) }
{
    for eqn in eqns {
        replace_eqn(alloc, nodes, eqn, made)?;
    }
    Ok(())
}

#[cycle(block)]
#[tactic(auto, using(crate::proofs::Rules::replaced_blocks))]
fn replace_eqn(
    alloc: Global,
    nodes: &Nodes<'_>,
    eqn: &Eqn,
    made: &mut Made,
) -> Result<(), AllocError>
    ensures locals { OnOk result (made.new.locals.items ≡ with_more made.old.locals.items (in_eqn (node_in nodes.now) made.old.next (eqn_seen eqn.now)).locals) }
    ensures eqns { OnOk result (map eqn_seen made.new.eqns.items ≡ with_more (map eqn_seen made.old.eqns.items) ((in_eqn (node_in nodes.now) made.old.next (eqn_seen eqn.now)).before ++ (in_eqn (node_in nodes.now) made.old.next (eqn_seen eqn.now)).part)) }
    ensures next { OnOk result (made.new.next ≡ (in_eqn (node_in nodes.now) made.old.next (eqn_seen eqn.now)).next) }
{
    match eqn {
        Eqn::Def { span, names, right } => {
            replace_definition(alloc, nodes, *span, names, right, made)
        }
        Eqn::Switch { span, cond, arms } => {
            let cond = replace_expr(alloc, nodes, cond, made)?;
            let arms = replace_arms(alloc, nodes, arms, &mut made.next)?;
            let span = *span;
            push_eqn(&mut made.eqns, Eqn::Switch { span, cond, arms })
        }
        Eqn::Reset { span, body, cond } => {
            let cond = replace_expr(alloc, nodes, cond, made)?;
            let body = replace_block(alloc, nodes, body, &mut made.next)?;
            let span = *span;
            push_eqn(&mut made.eqns, Eqn::Reset { span, body, cond })
        }
        Eqn::Automaton { span, states } => {
            let states = replace_states(alloc, nodes, states, &mut made.next)?;
            let span = *span;
            push_eqn(&mut made.eqns, Eqn::Automaton { span, states })
        }
    }
}

#[cycle(block)]
#[tactic(auto, using(crate::proofs::Rules::replaced_blocks))]
fn replace_arm(
    alloc: Global,
    nodes: &Nodes<'_>,
    arm: &Arm,
    next: &mut u64,
) -> Result<Arm, AllocError>
    ensures arm { IfOk result (λ other. arm_seen other ≡ replaced_arm (node_in nodes.now) next.old (arm_seen arm.now)) }
    ensures next { OnOk result (next.new ≡ (in_block (node_in nodes.now) next.old arm.now.body).next) }
{
    Ok(Arm {
        cons: arm.cons.copy(alloc)?,
        body: replace_block(alloc, nodes, &arm.body, next)?,
        span: arm.span,
    })
}

#[cycle(block)]
#[tactic(auto, using(crate::proofs::Rules::replaced_blocks))]
fn replace_arms(
    alloc: Global,
    nodes: &Nodes<'_>,
    arms: &[Arm],
    next: &mut u64,
) -> Result<Vec<Arm>, AllocError>
    ensures arms { IfOk result (λ others. arms_of (map arm_seen others.items) ≡ (in_arms (node_in nodes.now) next.old (arms_of (map arm_seen arms.now))).part) }
    ensures next { OnOk result (next.new ≡ (in_arms (node_in nodes.now) next.old (arms_of (map arm_seen arms.now))).next) }
{
    let mut others = Vec::new(alloc);
    for arm in arms {
        others.push(replace_arm(alloc, nodes, arm, next)?)?;
    }
    Ok(others)
}

/// A state. Its transitions hold no call.
#[cycle(block)]
#[tactic(auto, using(crate::proofs::Rules::replaced_blocks))]
fn replace_state(
    alloc: Global,
    nodes: &Nodes<'_>,
    state: &State,
    next: &mut u64,
) -> Result<State, AllocError>
    ensures state { IfOk result (λ other. state_seen other ≡ replaced_state (node_in nodes.now) next.old (state_seen state.now)) }
    ensures next { OnOk result (next.new ≡ (in_block (node_in nodes.now) next.old state.now.body).next) }
{
    Ok(State {
        name: state.name.copy(alloc)?,
        body: replace_block(alloc, nodes, &state.body, next)?,
        until: copy_transitions(alloc, &state.until)?,
        unless: copy_transitions(alloc, &state.unless)?,
        span: state.span,
    })
}

#[cycle(block)]
#[tactic(auto, using(crate::proofs::Rules::replaced_blocks))]
fn replace_states(
    alloc: Global,
    nodes: &Nodes<'_>,
    states: &[State],
    next: &mut u64,
) -> Result<Vec<State>, AllocError>
    ensures states { IfOk result (λ others. states_of (map state_seen others.items) ≡ (in_states (node_in nodes.now) next.old (states_of (map state_seen states.now))).part) }
    ensures next { OnOk result (next.new ≡ (in_states (node_in nodes.now) next.old (states_of (map state_seen states.now))).next) }
{
    let mut others = Vec::new(alloc);
    for state in states {
        others.push(replace_state(alloc, nodes, state, next)?)?;
    }
    Ok(others)
}

/// A condition of a contract. What replaces its calls is added before.
#[tactic(auto, using(crate::proofs::Rules::replaced_exprs))]
fn replace_condition(
    alloc: Global,
    nodes: &Nodes<'_>,
    condition: &Option<Expr>,
    made: &mut Made,
) -> Result<Option<Expr>, AllocError>
    ensures condition { IfOk result (λ other. other ≡ (in_condition (node_in nodes.now) made.old.next condition.now).part) }
    ensures locals { OnOk result (made.new.locals.items ≡ with_more made.old.locals.items (in_condition (node_in nodes.now) made.old.next condition.now).locals) }
    ensures eqns { OnOk result (map eqn_seen made.new.eqns.items ≡ with_more (map eqn_seen made.old.eqns.items) (in_condition (node_in nodes.now) made.old.next condition.now).before) }
    ensures next { OnOk result (made.new.next ≡ (in_condition (node_in nodes.now) made.old.next condition.now).next) }
{
    match condition {
        None => Ok(None),
        Some(expr) => Ok(Some(replace_expr(alloc, nodes, expr, made)?)),
    }
}

/// Adds what replaces the equations of a block.
fn replace_equations(
    alloc: Global,
    nodes: &Nodes<'_>,
    block: &Block,
    made: &mut Made,
) -> Result<(), AllocError>
    ensures locals { OnOk result (made.new.locals.items ≡ with_more made.old.locals.items (in_eqns (node_in nodes.now) made.old.next (equations_of block.now)).locals) }
    ensures eqns { OnOk result (map eqn_seen made.new.eqns.items ≡ with_more (map eqn_seen made.old.eqns.items) (list_of_eqns (in_eqns (node_in nodes.now) made.old.next (equations_of block.now)).part)) }
    ensures next { OnOk result (made.new.next ≡ (in_eqns (node_in nodes.now) made.old.next (equations_of block.now)).next) }
{
    replace_eqns(alloc, nodes, &block.eqns, made)
}

/// The conditions of a contract.
struct Conditions {
    assume: Option<Expr>,
    enforce: Option<Expr>,
}

/// The conditions of a contract. What replaces its equations is added before, and then what replaces the calls of the conditions.
#[tactic(auto, using(crate::proofs::Rules::replaced_exprs))]
fn replace_conditions(
    alloc: Global,
    nodes: &Nodes<'_>,
    contract: &Contract,
    made: &mut Made,
) -> Result<Conditions, AllocError>
    ensures assume { IfOk result (λ other. other.assume ≡ (in_conditions (node_in nodes.now) made.old.next contract.now).part.0) }
    ensures enforce { IfOk result (λ other. other.enforce ≡ (in_conditions (node_in nodes.now) made.old.next contract.now).part.1) }
    ensures locals { OnOk result (made.new.locals.items ≡ with_more made.old.locals.items (in_conditions (node_in nodes.now) made.old.next contract.now).locals) }
    ensures eqns { OnOk result (map eqn_seen made.new.eqns.items ≡ with_more (map eqn_seen made.old.eqns.items) (in_conditions (node_in nodes.now) made.old.next contract.now).before) }
    ensures next { OnOk result (made.new.next ≡ (in_conditions (node_in nodes.now) made.old.next contract.now).next) }
{
    replace_equations(alloc, nodes, &contract.body, made)?;
    let assume = replace_condition(alloc, nodes, &contract.assume, made)?;
    let enforce = replace_condition(alloc, nodes, &contract.enforce, made)?;
    Ok(Conditions { assume, enforce })
}

fn replace_contract(
    alloc: Global,
    nodes: &Nodes<'_>,
    contract: &Contract,
    next: &mut u64,
) -> Result<Contract, AllocError>
    ensures contract { IfOk result (λ other. Some other ≡ (in_contract (node_in nodes.now) next.old (Some contract.now)).part) }
    ensures next { OnOk result (next.new ≡ (in_contract (node_in nodes.now) next.old (Some contract.now)).next) }
{
    let controls = copy_decls(alloc, &contract.controls)?;
    let mut made = begin(alloc, &contract.body, *next)?;
    let conditions = replace_conditions(alloc, nodes, contract, &mut made)?;
    *next = made.next;
    let Conditions { assume, enforce } = conditions;
    Ok(Contract {
        body: finish(made),
        assume,
        enforce,
        controls,
        span: contract.span,
    })
}

fn replace_observer(
    alloc: Global,
    nodes: &Nodes<'_>,
    contract: &Option<Contract>,
    next: &mut u64,
) -> Result<Option<Contract>, AllocError>
    ensures contract { IfOk result (λ other. other ≡ (in_contract (node_in nodes.now) next.old contract.now).part) }
    ensures next { OnOk result (next.new ≡ (in_contract (node_in nodes.now) next.old contract.now).next) }
{
    match contract {
        None => Ok(None),
        Some(contract) => Ok(Some(replace_contract(alloc, nodes, contract, next)?)),
    }
}

/// The node, its calls replaced; those of its contract are the first.
pub fn replace_node(alloc: Global, nodes: &Nodes<'_>, node: &Node) -> Result<Node, AllocError>
    ensures { IfOk result (λ other. other ≡ in_node (node_in nodes.now) node.now) }
{
    let mut next = 1;
    let contract = replace_observer(alloc, nodes, &node.contract, &mut next)?;
    let body = replace_block(alloc, nodes, &node.body, &mut next)?;
    Ok(Node {
        name: node.name.copy(alloc)?,
        span: node.span,
        inputs: copy_decls(alloc, &node.inputs)?,
        outputs: copy_decls(alloc, &node.outputs)?,
        contract,
        body,
    })
}
