//! How much there is in the parts of a node once its inlined calls are replaced.
ghost use Rattle.std.specs.Prelude.{◌≡◌, map};
ghost use Rattle.hp_tree.specs.Expressions.{exprs_of, parts_of};
ghost use Rattle.hp_tree.specs.BlockView.{eqn_seen, arm_seen, state_seen};
ghost use Rattle.hp_tree.specs.Blocks.{eqns_of, arms_of, states_of};
ghost use Rattle.hp_expand.specs.Capped.{cap};
ghost use Rattle.hp_expand.specs.Sizes.{of_call, in_expr, in_exprs, in_parts, in_right, in_transitions, in_block, in_eqns, in_eqn, in_arms, in_states, in_condition, in_contract, in_node};
ghost use Rattle.hp_expand.specs.Tables.{size_in};

use crate::size::Size;
use crate::table::Sizes;
use hp_base::Name;
use hp_tree::{Arm, Block, Cons, Contract, Eqn, Expr, ExprKind, Node, State, Trans};

/// A call that gives the values of so many names, over such arguments.
#[tactic(auto, using(crate::proofs::Rules::sizes), unfolding(crate::specs::Sizes::of_call))]
fn size_of_call(known: &Sizes<'_>, names: usize, node: &Name, inlined: bool, args: Size) -> Size
    ensures { result ≡ cap (of_call names inlined (size_in known.now node.now) args) }
{
    let inside = known.of(node);
    if inlined {
        Size::of_places(names).join(inside.join(args))
    } else {
        Size::of_places(1).join(inside.called().join(args))
    }
}

/// What is in an expression.
#[cycle(size)]
#[tactic(auto, using(crate::proofs::Rules::sizes))]
pub fn size_of_expr(known: &Sizes<'_>, expr: &Expr) -> Size
    ensures { result ≡ cap (in_expr (size_in known.now) expr.now) }
{
    let one = Size::of_places(1);
    match &*expr.kind {
        ExprKind::Const(_) | ExprKind::Name(_) | ExprKind::Last(_) => one,
        ExprKind::One(_, a) | ExprKind::Pre(a) | ExprKind::When(a, _, _) => {
            one.join(size_of_expr(known, a))
        }
        ExprKind::Two(_, a, b) | ExprKind::Fby(a, b) | ExprKind::Arrow(a, b) => {
            one.join(size_of_expr(known, a).join(size_of_expr(known, b)))
        }
        ExprKind::If(a, b, c) => {
            let branches = size_of_expr(known, b).join(size_of_expr(known, c));
            one.join(size_of_expr(known, a).join(branches))
        }
        ExprKind::Merge(_, parts) => one.join(size_of_parts(known, parts)),
        ExprKind::Call {
            node,
            inlined,
            args,
        } => size_of_call(known, 1, node, *inlined, size_of_args(known, args)),
    }
}

#[cycle(size)]
#[tactic(auto, using(crate::proofs::Rules::sizes_of_exprs))]
fn size_of_args(known: &Sizes<'_>, args: &[Expr]) -> Size
    ensures { result ≡ cap (in_exprs (size_in known.now) (exprs_of args.now)) }
{
    let mut all = Size::none();
    for arg in args {
        all = all.join(size_of_expr(known, arg));
    }
    all
}

#[cycle(size)]
#[tactic(auto, using(crate::proofs::Rules::sizes_of_exprs))]
fn size_of_parts(known: &Sizes<'_>, parts: &[(Cons, Expr)]) -> Size
    ensures { result ≡ cap (in_parts (size_in known.now) (parts_of parts.now)) }
{
    let mut all = Size::none();
    for (_, part) in parts {
        all = all.join(size_of_expr(known, part));
    }
    all
}

/// The right side of an equation with so many names.
#[tactic(auto, using(crate::proofs::Rules::sizes))]
fn size_of_right(known: &Sizes<'_>, names: usize, right: &Expr) -> Size
    ensures { result ≡ cap (in_right (size_in known.now) names right.now) }
{
    match &*right.kind {
        ExprKind::Call {
            node,
            inlined,
            args,
        } => size_of_call(known, names, node, *inlined, size_of_args(known, args)),
        _ => size_of_expr(known, right),
    }
}

#[tactic(auto, using(crate::proofs::Rules::sizes_of_transitions))]
fn size_of_transitions(known: &Sizes<'_>, transitions: &[Trans]) -> Size
    ensures { result ≡ cap (in_transitions (size_in known.now) transitions.now) }
{
    let mut all = Size::none();
    for transition in transitions {
        all = all.join(size_of_expr(known, &transition.cond));
    }
    all
}

/// What is in a block, which is itself not counted as a level.
#[cycle(block)]
#[tactic(auto, using(crate::proofs::Rules::sizes_of_blocks))]
pub fn size_of_block(known: &Sizes<'_>, block: &Block) -> Size
    ensures { result ≡ cap (in_block (size_in known.now) block.now) }
{
    Size::of_places(block.locals.len()).join(size_of_eqns(known, &block.eqns))
}

#[cycle(block)]
#[tactic(auto, using(crate::proofs::Rules::sizes_of_blocks))]
fn size_of_eqns(known: &Sizes<'_>, eqns: &[Eqn]) -> Size
    ensures { result ≡ cap (in_eqns (size_in known.now) (eqns_of (map eqn_seen eqns.now))) }
{
    let mut all = Size::none();
    for eqn in eqns {
        all = all.join(size_of_eqn(known, eqn));
    }
    all
}

#[cycle(block)]
#[tactic(auto, using(crate::proofs::Rules::sizes_of_blocks))]
fn size_of_eqn(known: &Sizes<'_>, eqn: &Eqn) -> Size
    ensures { result ≡ cap (in_eqn (size_in known.now) (eqn_seen eqn.now)) }
{
    match eqn {
        Eqn::Def {
            span: _,
            names,
            right,
        } => size_of_right(known, names.len(), right),
        Eqn::Switch {
            span: _,
            cond,
            arms,
        } => size_of_expr(known, cond).join(size_of_arms(known, arms)),
        Eqn::Reset {
            span: _,
            body,
            cond,
        } => size_of_block(known, body)
            .deeper()
            .join(size_of_expr(known, cond)),
        Eqn::Automaton { span: _, states } => {
            Size::of_places(4).join(size_of_states(known, states))
        }
    }
}

#[cycle(block)]
#[tactic(auto, using(crate::proofs::Rules::sizes_of_blocks))]
fn size_of_arms(known: &Sizes<'_>, arms: &[Arm]) -> Size
    ensures { result ≡ cap (in_arms (size_in known.now) (arms_of (map arm_seen arms.now))) }
{
    let mut all = Size::none();
    for arm in arms {
        all = all.join(size_of_block(known, &arm.body).deeper());
    }
    all
}

#[cycle(block)]
#[tactic(auto, using(crate::proofs::Rules::sizes_of_blocks))]
fn size_of_states(known: &Sizes<'_>, states: &[State]) -> Size
    ensures { result ≡ cap (in_states (size_in known.now) (states_of (map state_seen states.now))) }
{
    let mut all = Size::none();
    for state in states {
        let weak = size_of_transitions(known, &state.until);
        let strong = size_of_transitions(known, &state.unless);
        all = all.join(
            size_of_block(known, &state.body)
                .deeper()
                .join(weak.join(strong)),
        );
    }
    all
}

#[tactic(auto, using(crate::proofs::Rules::sizes))]
fn size_of_condition(known: &Sizes<'_>, condition: &Option<Expr>) -> Size
    ensures { result ≡ cap (in_condition (size_in known.now) condition.now) }
{
    match condition {
        None => Size::none(),
        Some(expr) => size_of_expr(known, expr),
    }
}

#[tactic(auto, using(crate::proofs::Rules::sizes))]
fn size_of_contract(known: &Sizes<'_>, contract: &Option<Contract>) -> Size
    ensures { result ≡ cap (in_contract (size_in known.now) contract.now) }
{
    match contract {
        None => Size::none(),
        Some(contract) => {
            let assume = size_of_condition(known, &contract.assume);
            let enforce = size_of_condition(known, &contract.enforce);
            let body = size_of_block(known, &contract.body);
            Size::of_places(contract.controls.len()).join(body.join(assume.join(enforce)))
        }
    }
}

/// What is in a node, its body and its contract's not counted as levels.
#[tactic(auto, using(crate::proofs::Rules::sizes))]
pub fn size_of_node(known: &Sizes<'_>, node: &Node) -> Size
    ensures { result ≡ cap (in_node (size_in known.now) node.now) }
{
    let inputs = Size::of_places(node.inputs.len());
    let outputs = Size::of_places(node.outputs.len());
    let contract = size_of_contract(known, &node.contract);
    let body = size_of_block(known, &node.body);
    inputs.join(outputs).join(contract.join(body))
}
