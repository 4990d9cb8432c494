//! The calls of a node, and what they break.
ghost use Rattle.std.specs.Prelude.{◌≡◌, map};
ghost use Rattle.hp_tree.specs.Expressions.{exprs_of, parts_of};
ghost use Rattle.hp_tree.specs.BlockView.{eqn_seen, arm_seen, state_seen};
ghost use Rattle.hp_tree.specs.Blocks.{eqns_of, arms_of, states_of};
ghost use Rattle.hp_expand.specs.Shapes.{of_call, in_expr, in_exprs, in_parts, in_transitions, in_block, in_eqns, in_eqn, in_arms, in_states, in_condition, in_type, in_controls, in_contract, found_after};
ghost use Rattle.hp_expand.specs.Tables.{form_in};

use crate::forms::{Form, Forms};
use crate::found::Found;
use hp_base::{Span, Ty};
use hp_tree::{Arm, Block, Cons, Contract, Decl, Eqn, Expr, ExprKind, State, Trans};

/// A call of a node of such a form.
#[tactic(auto, using(crate::proofs::Rules::found), unfolding(crate::specs::Shapes::of_call))]
fn check_call(at: Span, inlined: bool, form: Form, found: &mut Found)
    ensures { found.new ≡ found_after found.old (of_call at inlined form) }
{
    if !inlined {
        found.see_plain(at);
        return;
    }
    if form.has_contract {
        found.see_bound(at);
        return;
    }
    if let Some(place) = form.plain {
        found.see_plain(place);
    }
}

/// The calls of an expression.
#[cycle(check)]
#[tactic(auto, using(crate::proofs::Rules::found))]
pub fn check_expr(forms: &Forms<'_>, expr: &Expr, found: &mut Found)
    ensures { found.new ≡ found_after found.old (in_expr (form_in forms.now) expr.now) }
{
    match &*expr.kind {
        ExprKind::Const(_) | ExprKind::Name(_) | ExprKind::Last(_) => {}
        ExprKind::One(_, a) | ExprKind::Pre(a) | ExprKind::When(a, _, _) => {
            check_expr(forms, a, found);
        }
        ExprKind::Two(_, a, b) | ExprKind::Fby(a, b) | ExprKind::Arrow(a, b) => {
            check_expr(forms, a, found);
            check_expr(forms, b, found);
        }
        ExprKind::If(a, b, c) => {
            check_expr(forms, a, found);
            check_expr(forms, b, found);
            check_expr(forms, c, found);
        }
        ExprKind::Merge(_, parts) => check_parts(forms, parts, found),
        ExprKind::Call {
            node,
            inlined,
            args,
        } => {
            check_call(expr.span, *inlined, forms.of(node), found);
            check_args(forms, args, found);
        }
    }
}

#[cycle(check)]
#[tactic(auto, using(crate::proofs::Rules::found_in_exprs))]
fn check_args(forms: &Forms<'_>, args: &[Expr], found: &mut Found)
    ensures { found.new ≡ found_after found.old (in_exprs (form_in forms.now) (exprs_of args.now)) }
{
    for arg in args {
        check_expr(forms, arg, found);
    }
}

#[cycle(check)]
#[tactic(auto, using(crate::proofs::Rules::found_in_exprs))]
fn check_parts(forms: &Forms<'_>, parts: &[(Cons, Expr)], found: &mut Found)
    ensures { found.new ≡ found_after found.old (in_parts (form_in forms.now) (parts_of parts.now)) }
{
    for (_, part) in parts {
        check_expr(forms, part, found);
    }
}

#[tactic(auto, using(crate::proofs::Rules::found_in_transitions))]
fn check_transitions(forms: &Forms<'_>, transitions: &[Trans], found: &mut Found)
    ensures { found.new ≡ found_after found.old (in_transitions (form_in forms.now) transitions.now) }
{
    for transition in transitions {
        check_expr(forms, &transition.cond, found);
    }
}

/// The calls of a block.
#[cycle(block)]
#[tactic(auto, using(crate::proofs::Rules::found_in_blocks))]
pub fn check_block(forms: &Forms<'_>, block: &Block, found: &mut Found)
    ensures { found.new ≡ found_after found.old (in_block (form_in forms.now) block.now) }
{
    check_eqns(forms, &block.eqns, found);
}

#[cycle(block)]
#[tactic(auto, using(crate::proofs::Rules::found_in_blocks))]
fn check_eqns(forms: &Forms<'_>, eqns: &[Eqn], found: &mut Found)
    ensures { found.new ≡ found_after found.old (in_eqns (form_in forms.now) (eqns_of (map eqn_seen eqns.now))) }
{
    for eqn in eqns {
        check_eqn(forms, eqn, found);
    }
}

#[cycle(block)]
#[tactic(auto, using(crate::proofs::Rules::found_in_blocks))]
fn check_eqn(forms: &Forms<'_>, eqn: &Eqn, found: &mut Found)
    ensures { found.new ≡ found_after found.old (in_eqn (form_in forms.now) (eqn_seen eqn.now)) }
{
    match eqn {
        Eqn::Def {
            span: _,
            names: _,
            right,
        } => check_expr(forms, right, found),
        Eqn::Switch {
            span: _,
            cond,
            arms,
        } => {
            check_expr(forms, cond, found);
            check_arms(forms, arms, found);
        }
        Eqn::Reset {
            span: _,
            body,
            cond,
        } => {
            check_block(forms, body, found);
            check_expr(forms, cond, found);
        }
        Eqn::Automaton { span: _, states } => check_states(forms, states, found),
    }
}

#[cycle(block)]
#[tactic(auto, using(crate::proofs::Rules::found_in_blocks))]
fn check_arms(forms: &Forms<'_>, arms: &[Arm], found: &mut Found)
    ensures { found.new ≡ found_after found.old (in_arms (form_in forms.now) (arms_of (map arm_seen arms.now))) }
{
    for arm in arms {
        check_block(forms, &arm.body, found);
    }
}

#[cycle(block)]
#[tactic(auto, using(crate::proofs::Rules::found_in_blocks))]
fn check_states(forms: &Forms<'_>, states: &[State], found: &mut Found)
    ensures { found.new ≡ found_after found.old (in_states (form_in forms.now) (states_of (map state_seen states.now))) }
{
    for state in states {
        check_block(forms, &state.body, found);
        check_transitions(forms, &state.until, found);
        check_transitions(forms, &state.unless, found);
    }
}

#[tactic(auto, using(crate::proofs::Rules::found))]
fn check_condition(forms: &Forms<'_>, condition: &Option<Expr>, found: &mut Found)
    ensures { found.new ≡ found_after found.old (in_condition (form_in forms.now) condition.now) }
{
    match condition {
        None => {}
        Some(expr) => check_expr(forms, expr, found),
    }
}

/// A controllable variable of a type.
#[tactic(auto, using(crate::proofs::Rules::found))]
fn check_type(ty: &Ty, at: Span, found: &mut Found)
    ensures { found.new ≡ found_after found.old (in_type at ty.now) }
{
    match ty {
        Ty::Int => found.see_integer(at),
        Ty::Bool | Ty::Enum(_) => {}
    }
}

/// The controllable variables that are integers.
#[tactic(auto, using(crate::proofs::Rules::found_in_controls))]
fn check_controls(controls: &[Decl], found: &mut Found)
    ensures { found.new ≡ found_after found.old (in_controls controls.now) }
{
    for control in controls {
        check_type(&control.ty, control.span, found);
    }
}

/// The calls of a contract, and its controllable variables that are integers.
#[tactic(auto, using(crate::proofs::Rules::found))]
pub fn check_contract(forms: &Forms<'_>, contract: &Option<Contract>, found: &mut Found)
    ensures { found.new ≡ found_after found.old (in_contract (form_in forms.now) contract.now) }
{
    match contract {
        None => {}
        Some(contract) => {
            check_block(forms, &contract.body, found);
            check_condition(forms, &contract.assume, found);
            check_condition(forms, &contract.enforce, found);
            check_controls(&contract.controls, found);
        }
    }
}
