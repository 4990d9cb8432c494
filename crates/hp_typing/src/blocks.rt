//! The types of equations and blocks.
ghost use Rattle.std.specs.Prelude.{◌≡◌, [], ◌∷◌, map, OnOk, drop};
ghost use Rattle.hp_tree.specs.BlockView.{eqn_seen, arm_seen, state_seen};
ghost use Rattle.hp_tree.specs.Blocks.{eqns_of, arms_of, states_of};
ghost use Rattle.hp_typing.specs.Seen.{kind_told, decls_told};
ghost use Rattle.hp_typing.specs.Scopes.{inside};
ghost use Rattle.hp_typing.specs.Claims.{in_names, in_row, in_single, in_right, in_transitions, in_block, in_eqns, in_eqn, in_arms, in_states};
ghost use Rattle.hp_typing.specs.Breaches.{found_after};

use crate::breach::{Breach, want, want_choice, want_shape};
use crate::declarations::{add_variables, check_decls};
use crate::expressions::{check_call, check_expr, check_test, place};
use crate::kind::{Kind, Shape};
use crate::scope::Scope;
use hp_base::{Name, Span};
use hp_tree::{Arm, Block, Decl, Eqn, Expr, ExprKind, State, Trans};
use std::alloc::AllocError;

/// Each output of a call has to be of the type of its name.
#[tactic(auto, using(crate::proofs::Rules::found_in_names))]
fn check_names<'a>(
    scope: &Scope<'a>,
    at: Span,
    names: &'a [(Name, Span)],
    outputs: &'a [Decl],
    found: &mut Option<Breach<'a>>,
)
    ensures { found.new ≡ found_after found.old (in_names scope.now at names.now outputs.now) }
{
    for i in 0..names.len().min(outputs.len()) {
        let (name, _) = &names[i];
        let output = &outputs[i];
        let wanted = scope.variable_kind(name);
        want(found, at, wanted, Some(Kind::of(&output.ty)));
    }
}

/// A call has to have an output for each name.
#[tactic(auto, using(crate::proofs::Rules::found))]
fn check_row<'a>(
    scope: &Scope<'a>,
    at: Span,
    names: &'a [(Name, Span)],
    outputs: Option<&'a [Decl]>,
    found: &mut Option<Breach<'a>>,
)
    ensures { found.new ≡ found_after found.old (in_row scope.now at names.now (decls_told outputs.entry)) }
{
    match outputs {
        None => {}
        Some(outputs) => {
            if names.len() == outputs.len() {
                check_names(scope, at, names, outputs, found);
            } else {
                let wanted = Shape::Row(names.len() as u64);
                want_shape(found, at, wanted, Shape::Row(outputs.len() as u64));
            }
        }
    }
}

/// A right side that is no call has one name, and is of its type.
#[tactic(auto, using(crate::proofs::Rules::found))]
fn check_single<'a>(
    scope: &Scope<'a>,
    at: Span,
    names: &'a [(Name, Span)],
    is: Option<Kind<'a>>,
    found: &mut Option<Breach<'a>>,
)
    ensures { found.new ≡ found_after found.old (in_single scope.now at names.now (kind_told is.entry)) }
{
    match (names, is) {
        (_, None) => {}
        ([(name, _)], Some(_)) => {
            let wanted = scope.variable_kind(name);
            want(found, at, wanted, is);
        }
        (_, Some(kind)) => {
            let wanted = Shape::Row(names.len() as u64);
            want_shape(found, at, wanted, Shape::Type(kind));
        }
    }
}

/// The right side of an equation.
#[tactic(auto, using(crate::proofs::Rules::found))]
fn check_right<'a>(
    scope: &Scope<'a>,
    names: &'a [(Name, Span)],
    right: &'a Expr,
    found: &mut Option<Breach<'a>>,
)
    ensures { found.new ≡ found_after found.old (in_right scope.now names.now right.now) }
{
    match &*right.kind {
        ExprKind::Call {
            node,
            inlined: _,
            args,
        } => {
            let outputs = check_call(scope, right.span, node, args, found);
            check_row(scope, right.span, names, outputs, found);
        }
        _ => {
            let is = check_expr(scope, right, found);
            check_single(scope, place(right), names, is, found);
        }
    }
}

#[tactic(auto, using(crate::proofs::Rules::found_in_transitions))]
fn check_transitions<'a>(
    scope: &Scope<'a>,
    transitions: &'a [Trans],
    found: &mut Option<Breach<'a>>,
)
    ensures { found.new ≡ found_after found.old (in_transitions scope.now transitions.now) }
{
    for transition in transitions {
        check_test(scope, &transition.cond, found);
    }
}

/// Checks the block, and leaves its variables in scope.
#[cycle(check)]
#[tactic(auto, using(crate::proofs::Rules::found_in_blocks))]
pub fn enter_block<'a>(
    scope: &mut Scope<'a>,
    block: &'a Block,
    found: &mut Option<Breach<'a>>,
) -> Result<(), AllocError>
    ensures scope { OnOk result (scope.new ≡ inside scope.old block.now) }
    ensures found { OnOk result (found.new ≡ found_after found.old (in_block scope.old block.now)) }
{
    add_variables(scope, &block.locals)?;
    check_decls(scope, &block.locals, found);
    check_eqns(scope, &block.eqns, found)
}

/// Checks the block, whose variables are in scope in it alone.
#[cycle(check)]
#[tactic(auto, using(crate::proofs::Rules::found_in_blocks))]
pub fn check_block<'a>(
    scope: &mut Scope<'a>,
    block: &'a Block,
    found: &mut Option<Breach<'a>>,
) -> Result<(), AllocError>
    ensures scope { OnOk result (scope.new ≡ scope.old) }
    ensures found { OnOk result (found.new ≡ found_after found.old (in_block scope.old block.now)) }
{
    let mark = scope.mark();
    enter_block(scope, block, found)?;
    scope.leave(mark);
    Ok(())
}

#[cycle(check)]
#[tactic(auto, using(crate::proofs::Rules::found_in_blocks))]
fn check_eqns<'a>(
    scope: &mut Scope<'a>,
    eqns: &'a [Eqn],
    found: &mut Option<Breach<'a>>,
) -> Result<(), AllocError>
    ensures scope { OnOk result (scope.new ≡ scope.old) }
    ensures found { OnOk result (found.new ≡ found_after found.old (in_eqns scope.old (eqns_of (map eqn_seen eqns.now)))) }
{
    for eqn in eqns {
        check_eqn(scope, eqn, found)?;
    }
    Ok(())
}

#[cycle(check)]
#[tactic(auto, using(crate::proofs::Rules::found_in_blocks))]
fn check_eqn<'a>(
    scope: &mut Scope<'a>,
    eqn: &'a Eqn,
    found: &mut Option<Breach<'a>>,
) -> Result<(), AllocError>
    ensures scope { OnOk result (scope.new ≡ scope.old) }
    ensures found { OnOk result (found.new ≡ found_after found.old (in_eqn scope.old (eqn_seen eqn.now))) }
{
    match eqn {
        Eqn::Def {
            span: _,
            names,
            right,
        } => {
            check_right(scope, names, right, found);
            Ok(())
        }
        Eqn::Switch {
            span: _,
            cond,
            arms,
        } => {
            let is = check_expr(scope, cond, found);
            want_choice(found, place(cond), is);
            check_arms(scope, is, arms, found)
        }
        Eqn::Reset {
            span: _,
            body,
            cond,
        } => {
            check_block(scope, body, found)?;
            check_test(scope, cond, found);
            Ok(())
        }
        Eqn::Automaton { span: _, states } => check_states(scope, states, found),
    }
}

/// The constructor of an arm has to be of the type of the condition.
#[cycle(check)]
#[tactic(auto, using(crate::proofs::Rules::found_in_blocks))]
fn check_arms<'a>(
    scope: &mut Scope<'a>,
    cond: Option<Kind<'a>>,
    arms: &'a [Arm],
    found: &mut Option<Breach<'a>>,
) -> Result<(), AllocError>
    ensures scope { OnOk result (scope.new ≡ scope.old) }
    ensures found { OnOk result (found.new ≡ found_after found.old (in_arms scope.old (kind_told cond.entry) (arms_of (map arm_seen arms.now)))) }
{
    for arm in arms {
        want(found, arm.span, cond, scope.cons_kind(&arm.cons));
        check_block(scope, &arm.body, found)?;
    }
    Ok(())
}

#[cycle(check)]
#[tactic(auto, using(crate::proofs::Rules::found_in_blocks))]
fn check_states<'a>(
    scope: &mut Scope<'a>,
    states: &'a [State],
    found: &mut Option<Breach<'a>>,
) -> Result<(), AllocError>
    ensures scope { OnOk result (scope.new ≡ scope.old) }
    ensures found { OnOk result (found.new ≡ found_after found.old (in_states scope.old (states_of (map state_seen states.now)))) }
{
    for state in states {
        check_state(scope, state, found)?;
    }
    Ok(())
}

/// A state: its weak transitions see the variables of its body.
#[cycle(check)]
#[tactic(auto, using(crate::proofs::Rules::found_in_blocks))]
fn check_state<'a>(
    scope: &mut Scope<'a>,
    state: &'a State,
    found: &mut Option<Breach<'a>>,
) -> Result<(), AllocError>
    ensures scope { OnOk result (scope.new ≡ scope.old) }
    ensures found { OnOk result (found.new ≡ found_after found.old (in_states scope.old (states_of (state_seen state.now ∷ [])))) }
{
    let mark = scope.mark();
    enter_block(scope, &state.body, found)?;
    check_transitions(scope, &state.until, found);
    scope.leave(mark);
    check_transitions(scope, &state.unless, found);
    Ok(())
}
