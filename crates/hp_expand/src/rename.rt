//! Blocks under other names.
ghost use Rattle.std.specs.Prelude.{◌≡◌, ◌++◌, map, IfOk, OnOk};
ghost use Rattle.hp_tree.specs.BlockView.{eqn_seen, arm_seen, state_seen};
ghost use Rattle.hp_expand.specs.Renaming.{renamed_decl, renamed_transition, renamed_block, renamed_eqn};
ghost use Rattle.hp_expand.specs.Renamed.{renamed_arm, renamed_state};
ghost use Rattle.hp_expand.specs.Layers.{said};

use crate::names::Naming;
use hp_tables::renaming::{rename_decls, rename_expr, rename_left};
use hp_tree::{Arm, Block, Decl, Eqn, State, Trans};
use std::alloc::{AllocError, Global};

/// Adds the declarations, in order.
pub fn add_decls(
    alloc: Global,
    naming: &Naming<'_>,
    decls: &[Decl],
    into: &mut Vec<Decl>,
) -> Result<(), AllocError>
    ensures { OnOk result (into.new.items ≡ into.old.items ++ map (renamed_decl (said naming.now)) decls.now) }
{
    let mut more = rename_decls(alloc, naming, decls)?;
    into.append(&mut more)?;
    Ok(())
}

fn rename_transition(
    alloc: Global,
    naming: &Naming<'_>,
    transition: &Trans,
) -> Result<Trans, AllocError>
    ensures { IfOk result (λ other. other ≡ renamed_transition (said naming.now) transition.now) }
{
    Ok(Trans {
        cond: rename_expr(alloc, naming, &transition.cond)?,
        restart: transition.restart,
        target: transition.target.copy(alloc)?,
        span: transition.span,
    })
}

#[tactic(auto, using(crate::proofs::Rules::more))]
pub fn rename_transitions(
    alloc: Global,
    naming: &Naming<'_>,
    transitions: &[Trans],
) -> Result<Vec<Trans>, AllocError>
    ensures { IfOk result (λ others. others.items ≡ map (renamed_transition (said naming.now)) transitions.now) }
{
    let mut others = Vec::new(alloc);
    for transition in transitions {
        others.push(rename_transition(alloc, naming, transition)?)?;
    }
    Ok(others)
}

#[cycle(block)]
#[tactic(auto, using(crate::proofs::Rules::renamed_in_blocks))]
fn rename_block(alloc: Global, naming: &Naming<'_>, block: &Block) -> Result<Block, AllocError>
    ensures { IfOk result (λ other. other ≡ renamed_block (said naming.now) block.now) }
{
    let locals = rename_decls(alloc, naming, &block.locals)?;
    let mut eqns = Vec::new(alloc);
    add_eqns(alloc, naming, &block.eqns, &mut eqns)?;
    Ok(Block { locals, eqns })
}

/// Adds the equations, in order.
#[cycle(block)]
#[tactic(auto, using(crate::proofs::Rules::renamed_in_blocks))]
pub fn add_eqns(
    alloc: Global,
    naming: &Naming<'_>,
    eqns: &[Eqn],
    into: &mut Vec<Eqn>,
) -> Result<(), AllocError>
    ensures { OnOk result (map eqn_seen into.new.items ≡ map eqn_seen into.old.items ++ map (λ e. renamed_eqn (said naming.now) (eqn_seen e)) eqns.now) }
{
    for eqn in eqns {
        into.push(rename_eqn(alloc, naming, eqn)?)?;
    }
    Ok(())
}

#[cycle(block)]
#[tactic(auto, using(crate::proofs::Rules::renamed_in_blocks))]
fn rename_eqn(alloc: Global, naming: &Naming<'_>, eqn: &Eqn) -> Result<Eqn, AllocError>
    ensures { IfOk result (λ other. eqn_seen other ≡ renamed_eqn (said naming.now) (eqn_seen eqn.now)) }
{
    match eqn {
        Eqn::Def { span, names, right } => Ok(Eqn::Def {
            span: *span,
            names: rename_left(alloc, naming, names)?,
            right: rename_expr(alloc, naming, right)?,
        }),
        Eqn::Switch { span, cond, arms } => Ok(Eqn::Switch {
            span: *span,
            cond: rename_expr(alloc, naming, cond)?,
            arms: rename_arms(alloc, naming, arms)?,
        }),
        Eqn::Reset { span, body, cond } => Ok(Eqn::Reset {
            span: *span,
            body: rename_block(alloc, naming, body)?,
            cond: rename_expr(alloc, naming, cond)?,
        }),
        Eqn::Automaton { span, states } => Ok(Eqn::Automaton {
            span: *span,
            states: rename_states(alloc, naming, states)?,
        }),
    }
}

#[cycle(block)]
#[tactic(auto, using(crate::proofs::Rules::renamed_in_blocks))]
fn rename_arm(alloc: Global, naming: &Naming<'_>, arm: &Arm) -> Result<Arm, AllocError>
    ensures { IfOk result (λ other. arm_seen other ≡ renamed_arm (said naming.now) (arm_seen arm.now)) }
{
    Ok(Arm {
        cons: arm.cons.copy(alloc)?,
        body: rename_block(alloc, naming, &arm.body)?,
        span: arm.span,
    })
}

#[cycle(block)]
#[tactic(auto, using(crate::proofs::Rules::renamed_in_blocks))]
fn rename_arms(alloc: Global, naming: &Naming<'_>, arms: &[Arm]) -> Result<Vec<Arm>, AllocError>
    ensures { IfOk result (λ others. map arm_seen others.items ≡ map (λ a. renamed_arm (said naming.now) (arm_seen a)) arms.now) }
{
    let mut others = Vec::new(alloc);
    for arm in arms {
        others.push(rename_arm(alloc, naming, arm)?)?;
    }
    Ok(others)
}

#[cycle(block)]
#[tactic(auto, using(crate::proofs::Rules::renamed_in_blocks))]
fn rename_state(alloc: Global, naming: &Naming<'_>, state: &State) -> Result<State, AllocError>
    ensures { IfOk result (λ other. state_seen other ≡ renamed_state (said naming.now) (state_seen state.now)) }
{
    Ok(State {
        name: state.name.copy(alloc)?,
        body: rename_block(alloc, naming, &state.body)?,
        until: rename_transitions(alloc, naming, &state.until)?,
        unless: rename_transitions(alloc, naming, &state.unless)?,
        span: state.span,
    })
}

#[cycle(block)]
#[tactic(auto, using(crate::proofs::Rules::renamed_in_blocks))]
fn rename_states(
    alloc: Global,
    naming: &Naming<'_>,
    states: &[State],
) -> Result<Vec<State>, AllocError>
    ensures { IfOk result (λ others. map state_seen others.items ≡ map (λ q. renamed_state (said naming.now) (state_seen q)) states.now) }
{
    let mut others = Vec::new(alloc);
    for state in states {
        others.push(rename_state(alloc, naming, state)?)?;
    }
    Ok(others)
}
