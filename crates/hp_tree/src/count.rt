//! How many places a node has.
ghost use Rattle.std.specs.Prelude.{◌≡◌, ◌+◌, map};
ghost use Rattle.hp_tree.specs.Expressions.{exprs_of, parts_of};
ghost use Rattle.hp_tree.specs.BlockView.{eqn_seen, arm_seen, state_seen};
ghost use Rattle.hp_tree.specs.Blocks.{eqns_of, arms_of, states_of};
ghost use Rattle.hp_tree.specs.Counting.{up_to_limit, places_of_expr, places_of_exprs, places_of_parts, places_of_transitions, places_of_block, places_of_eqns, places_of_eqn, places_of_arms, places_of_states, places_of_condition, places_of_contract, places_of_node};

use crate::block::{Arm, Block, Eqn, State, Trans};
use crate::decl::Cons;
use crate::expr::{Expr, ExprKind};
use crate::program::{Contract, Node};
use hp_base::What;

/// What is counted, or one more than the limit on places.
#[tactic(auto, unfolding(crate::specs::Counting::up_to_limit))]
fn limited(count: usize) -> u64
    ensures { result ≡ up_to_limit count }
{
    (count as u64).min(What::Places.most() + 1)
}

/// Two counts together. Neither is more than a count can be, so the sum is a number of 64 bits.
#[tactic(auto, unfolding(crate::specs::Counting::up_to_limit))]
fn sum(count: u64, other: u64) -> u64
    ensures { result ≡ up_to_limit (count + other) }
{
    count.saturating_add(other).min(What::Places.most() + 1)
}

#[cycle(places)]
#[tactic(auto, using(crate::proofs::Rules::counts))]
fn places_of_expr(expr: &Expr) -> u64
    ensures { result ≡ up_to_limit (places_of_expr expr.now) }
{
    match &*expr.kind {
        ExprKind::Const(_) | ExprKind::Name(_) | ExprKind::Last(_) => 1,
        ExprKind::One(_, a) | ExprKind::Pre(a) | ExprKind::When(a, _, _) => {
            sum(1, places_of_expr(a))
        }
        ExprKind::Two(_, a, b) | ExprKind::Fby(a, b) | ExprKind::Arrow(a, b) => {
            sum(1, sum(places_of_expr(a), places_of_expr(b)))
        }
        ExprKind::If(a, b, c) => {
            let branches = sum(places_of_expr(b), places_of_expr(c));
            sum(1, sum(places_of_expr(a), branches))
        }
        ExprKind::Merge(_, parts) => sum(1, places_of_parts(parts)),
        ExprKind::Call {
            node: _,
            inlined: _,
            args,
        } => sum(1, places_of_args(args)),
    }
}

#[cycle(places)]
#[tactic(auto, using(crate::proofs::Rules::counts_of_exprs))]
fn places_of_args(args: &[Expr]) -> u64
    ensures { result ≡ up_to_limit (places_of_exprs (exprs_of args.now)) }
{
    let mut all = 0;
    for arg in args {
        all = sum(all, places_of_expr(arg));
    }
    all
}

#[cycle(places)]
#[tactic(auto, using(crate::proofs::Rules::counts_of_exprs))]
fn places_of_parts(parts: &[(Cons, Expr)]) -> u64
    ensures { result ≡ up_to_limit (places_of_parts (parts_of parts.now)) }
{
    let mut all = 0;
    for (_, part) in parts {
        all = sum(all, places_of_expr(part));
    }
    all
}

#[tactic(auto, using(crate::proofs::Rules::counts_of_transitions))]
fn places_of_transitions(transitions: &[Trans]) -> u64
    ensures { result ≡ up_to_limit (places_of_transitions transitions.now) }
{
    let mut all = 0;
    for transition in transitions {
        all = sum(all, places_of_expr(&transition.cond));
    }
    all
}

#[cycle(block_places)]
#[tactic(auto, using(crate::proofs::Rules::counts_of_blocks))]
fn places_of_block(block: &Block) -> u64
    ensures { result ≡ up_to_limit (places_of_block block.now) }
{
    sum(limited(block.locals.len()), places_of_eqns(&block.eqns))
}

#[cycle(block_places)]
#[tactic(auto, using(crate::proofs::Rules::counts_of_blocks))]
fn places_of_eqns(eqns: &[Eqn]) -> u64
    ensures { result ≡ up_to_limit (places_of_eqns (eqns_of (map eqn_seen eqns.now))) }
{
    let mut all = 0;
    for eqn in eqns {
        all = sum(all, places_of_eqn(eqn));
    }
    all
}

#[cycle(block_places)]
#[tactic(auto, using(crate::proofs::Rules::counts_of_blocks))]
fn places_of_eqn(eqn: &Eqn) -> u64
    ensures { result ≡ up_to_limit (places_of_eqn (eqn_seen eqn.now)) }
{
    match eqn {
        Eqn::Def {
            span: _,
            names: _,
            right,
        } => places_of_expr(right),
        Eqn::Switch {
            span: _,
            cond,
            arms,
        } => sum(places_of_expr(cond), places_of_arms(arms)),
        Eqn::Reset {
            span: _,
            body,
            cond,
        } => sum(places_of_block(body), places_of_expr(cond)),
        Eqn::Automaton { span: _, states } => sum(4, places_of_states(states)),
    }
}

#[cycle(block_places)]
#[tactic(auto, using(crate::proofs::Rules::counts_of_blocks))]
fn places_of_arms(arms: &[Arm]) -> u64
    ensures { result ≡ up_to_limit (places_of_arms (arms_of (map arm_seen arms.now))) }
{
    let mut all = 0;
    for arm in arms {
        all = sum(all, places_of_block(&arm.body));
    }
    all
}

#[cycle(block_places)]
#[tactic(auto, using(crate::proofs::Rules::counts_of_blocks))]
fn places_of_states(states: &[State]) -> u64
    ensures { result ≡ up_to_limit (places_of_states (states_of (map state_seen states.now))) }
{
    let mut all = 0;
    for state in states {
        let weak = places_of_transitions(&state.until);
        let strong = places_of_transitions(&state.unless);
        all = sum(all, sum(places_of_block(&state.body), sum(weak, strong)));
    }
    all
}

#[tactic(auto, using(crate::proofs::Rules::counts))]
fn places_of_condition(condition: &Option<Expr>) -> u64
    ensures { result ≡ up_to_limit (places_of_condition condition.now) }
{
    match condition {
        None => 0,
        Some(expr) => places_of_expr(expr),
    }
}

#[tactic(auto, using(crate::proofs::Rules::counts))]
fn places_of_contract(contract: &Option<Contract>) -> u64
    ensures { result ≡ up_to_limit (places_of_contract contract.now) }
{
    match contract {
        None => 0,
        Some(contract) => {
            let assume = places_of_condition(&contract.assume);
            let enforce = places_of_condition(&contract.enforce);
            let body = places_of_block(&contract.body);
            sum(
                limited(contract.controls.len()),
                sum(body, sum(assume, enforce)),
            )
        }
    }
}

/// How many places the node has: declarations, occurrences of subexpressions and the four words of each automaton. It is 60,001 where there are more than 60,000, the limit of the language. It takes no memory.
#[tactic(auto, using(crate::proofs::Rules::counts))]
pub fn places(node: &Node) -> u64
    ensures { result ≡ up_to_limit (places_of_node node.now) }
{
    let interface = sum(limited(node.inputs.len()), limited(node.outputs.len()));
    let contract = places_of_contract(&node.contract);
    sum(interface, sum(contract, places_of_block(&node.body)))
}
