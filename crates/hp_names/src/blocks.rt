//! The names of equations and blocks.
ghost use Rattle.std.specs.Prelude.{◌≡◌, [], ◌∷◌, ◌++◌, map, OnOk, IfOk};
ghost use Rattle.hp_tree.specs.BlockView.{eqn_seen, arm_seen, state_seen};
ghost use Rattle.hp_tree.specs.Blocks.{eqns_of, arms_of, states_of};
ghost use Rattle.hp_names.specs.Breaches.{found_after};
ghost use Rattle.hp_names.specs.Names.{with_names, state_names};
ghost use Rattle.hp_names.specs.Scopes.{inside};
ghost use Rattle.hp_names.specs.Claims.{new_names, in_left, in_transitions, in_block, in_eqns, in_eqn, in_arms, in_states};

use crate::breach::{Breach, declare_name, use_name};
use crate::declarations::check_variables;
use crate::expressions::{check_cons, check_expr};
use crate::names::Names;
use crate::scope::Scope;
use hp_base::{Name, Span};
use hp_tree::{Arm, Block, Eqn, State, Trans};
use std::alloc::{AllocError, Global};

/// The names on the left of an equation.
#[tactic(auto, using(crate::proofs::Rules::found_in_left))]
fn check_left<'a>(scope: &Scope<'a>, names: &'a [(Name, Span)], found: &mut Option<Breach<'a>>)
    ensures { found.new ≡ found_after found.old (in_left scope.now names.now) }
{
    for (name, at) in names {
        use_name(found, &scope.variables, name, *at);
    }
}

/// Transitions, among the states of their automaton.
#[tactic(auto, using(crate::proofs::Rules::found_in_transitions))]
fn check_transitions<'a>(
    scope: &Scope<'a>,
    states: &Names<'a>,
    transitions: &'a [Trans],
    found: &mut Option<Breach<'a>>,
)
    ensures { found.new ≡ found_after found.old (in_transitions scope.now states.now transitions.now) }
{
    for transition in transitions {
        check_expr(scope, &transition.cond, found);
        use_name(found, states, &transition.target, transition.span);
    }
}

/// The names of the states of an automaton.
#[tactic(auto, using(crate::proofs::Rules::found_in_new_states))]
fn declare_states<'a>(
    alloc: Global,
    states: &'a [State],
    found: &mut Option<Breach<'a>>,
) -> Result<Names<'a>, AllocError>
    ensures names { IfOk result (λ names. names ≡ with_names [] (state_names (states_of (map state_seen states.now)))) }
    ensures found { OnOk result (found.new ≡ found_after found.old (new_names [] (state_names (states_of (map state_seen states.now))))) }
{
    let mut names = Names::new(alloc);
    for state in states {
        declare_name(found, &names, &state.name, state.span);
        names.add(&state.name)?;
    }
    Ok(names)
}

/// Checks the block, and leaves its variables in scope.
#[cycle(check)]
#[tactic(auto, using(crate::proofs::Rules::found_in_blocks))]
pub fn enter_block<'a>(
    alloc: Global,
    scope: &mut Scope<'a>,
    block: &'a Block,
    found: &mut Option<Breach<'a>>,
) -> Result<(), AllocError>
    ensures scope { OnOk result (scope.new ≡ inside scope.old block.now) }
    ensures found { OnOk result (found.new ≡ found_after found.old (in_block scope.old block.now)) }
{
    check_variables(scope, &block.locals, found)?;
    check_eqns(alloc, scope, &block.eqns, found)
}

/// Checks the block, whose variables are in scope in it alone.
#[cycle(check)]
#[tactic(auto, using(crate::proofs::Rules::found_in_blocks))]
pub fn check_block<'a>(
    alloc: Global,
    scope: &mut Scope<'a>,
    block: &'a Block,
    found: &mut Option<Breach<'a>>,
) -> Result<(), AllocError>
    ensures scope { OnOk result (scope.new ≡ scope.old) }
    ensures found { OnOk result (found.new ≡ found_after found.old (in_block scope.old block.now)) }
{
    let mark = scope.mark();
    enter_block(alloc, scope, block, found)?;
    scope.leave(mark);
    Ok(())
}

#[cycle(check)]
#[tactic(auto, using(crate::proofs::Rules::found_in_blocks))]
fn check_eqns<'a>(
    alloc: Global,
    scope: &mut Scope<'a>,
    eqns: &'a [Eqn],
    found: &mut Option<Breach<'a>>,
) -> Result<(), AllocError>
    ensures scope { OnOk result (scope.new ≡ scope.old) }
    ensures found { OnOk result (found.new ≡ found_after found.old (in_eqns scope.old (eqns_of (map eqn_seen eqns.now)))) }
{
    for eqn in eqns {
        check_eqn(alloc, scope, eqn, found)?;
    }
    Ok(())
}

#[cycle(check)]
#[tactic(auto, using(crate::proofs::Rules::found_in_blocks))]
fn check_eqn<'a>(
    alloc: Global,
    scope: &mut Scope<'a>,
    eqn: &'a Eqn,
    found: &mut Option<Breach<'a>>,
) -> Result<(), AllocError>
    ensures scope { OnOk result (scope.new ≡ scope.old) }
    ensures found { OnOk result (found.new ≡ found_after found.old (in_eqn scope.old (eqn_seen eqn.now))) }
{
    match eqn {
        Eqn::Def {
            span: _,
            names,
            right,
        } => {
            check_left(scope, names, found);
            check_expr(scope, right, found);
            Ok(())
        }
        Eqn::Switch {
            span: _,
            cond,
            arms,
        } => {
            check_expr(scope, cond, found);
            check_arms(alloc, scope, arms, found)
        }
        Eqn::Reset {
            span: _,
            body,
            cond,
        } => {
            check_block(alloc, scope, body, found)?;
            check_expr(scope, cond, found);
            Ok(())
        }
        Eqn::Automaton { span: _, states } => check_automaton(alloc, scope, states, found),
    }
}

/// The states of an automaton, which know each other.
#[cycle(check)]
#[tactic(auto, using(crate::proofs::Rules::found_in_blocks))]
fn check_automaton<'a>(
    alloc: Global,
    scope: &mut Scope<'a>,
    states: &'a [State],
    found: &mut Option<Breach<'a>>,
) -> Result<(), AllocError>
    ensures scope { OnOk result (scope.new ≡ scope.old) }
    ensures found { OnOk result (found.new ≡ found_after found.old (new_names [] (state_names (states_of (map state_seen states.now))) ++ in_states scope.old (with_names [] (state_names (states_of (map state_seen states.now)))) (states_of (map state_seen states.now)))) }
{
    let names = declare_states(alloc, states, found)?;
    check_states(alloc, scope, &names, states, found)
}

#[cycle(check)]
#[tactic(auto, using(crate::proofs::Rules::found_in_blocks))]
fn check_arms<'a>(
    alloc: Global,
    scope: &mut Scope<'a>,
    arms: &'a [Arm],
    found: &mut Option<Breach<'a>>,
) -> Result<(), AllocError>
    ensures scope { OnOk result (scope.new ≡ scope.old) }
    ensures found { OnOk result (found.new ≡ found_after found.old (in_arms scope.old (arms_of (map arm_seen arms.now)))) }
{
    for arm in arms {
        check_cons(scope, &arm.cons, arm.span, found);
        check_block(alloc, scope, &arm.body, found)?;
    }
    Ok(())
}

#[cycle(check)]
#[tactic(auto, using(crate::proofs::Rules::found_in_blocks))]
fn check_states<'a>(
    alloc: Global,
    scope: &mut Scope<'a>,
    names: &Names<'a>,
    states: &'a [State],
    found: &mut Option<Breach<'a>>,
) -> Result<(), AllocError>
    ensures scope { OnOk result (scope.new ≡ scope.old) }
    ensures found { OnOk result (found.new ≡ found_after found.old (in_states scope.old names.now (states_of (map state_seen states.now)))) }
{
    for state in states {
        check_state(alloc, scope, names, state, found)?;
    }
    Ok(())
}

/// A state: its weak transitions see the variables of its body.
#[cycle(check)]
#[tactic(auto, using(crate::proofs::Rules::found_in_blocks))]
fn check_state<'a>(
    alloc: Global,
    scope: &mut Scope<'a>,
    names: &Names<'a>,
    state: &'a State,
    found: &mut Option<Breach<'a>>,
) -> Result<(), AllocError>
    ensures scope { OnOk result (scope.new ≡ scope.old) }
    ensures found { OnOk result (found.new ≡ found_after found.old (in_states scope.old names.now (states_of (state_seen state.now ∷ [])))) }
{
    let mark = scope.mark();
    enter_block(alloc, scope, &state.body, found)?;
    check_transitions(scope, names, &state.until, found);
    scope.leave(mark);
    check_transitions(scope, names, &state.unless, found);
    Ok(())
}
