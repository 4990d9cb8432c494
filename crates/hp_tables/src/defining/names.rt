//! The names that equations define, each as often as it is defined, in the order of the text.
ghost use Rattle.std.specs.Prelude.{◌≡◌, [], ◌∷◌, if◌then◌else◌, map, IfOk, OnOk};
ghost use Rattle.hp_tree.specs.Meaning.{declares};
ghost use Rattle.hp_tree.specs.BlockView.{eqn_seen, arm_seen, state_seen};
ghost use Rattle.hp_tree.specs.Blocks.{eqns_of, arms_of, states_of};
ghost use Rattle.hp_tables.specs.Defining.Names.{controlled, controls_in, names_in, names_of, names_of_arms, names_of_states, outer_names, undeclared};
ghost use Rattle.hp_tables.specs.Defining.Seen.{holds, names_seen, with_held, with_more};

use hp_base::{Name, Span};
use hp_tree::{Arm, Block, Decl, Eqn, State};
use indexmap::IndexSet;
use std::alloc::{AllocError, Global};

/// The name behind the others.
#[tactic(auto, using(crate::proofs::DefiningLemmas::Rules::names))]
pub(crate) fn push<'a>(name: &'a Name, into: &mut Vec<&'a Name>) -> Result<(), AllocError>
    ensures { OnOk result (names_seen into.new.items ≡ with_more (names_seen into.old.items) (name.now ∷ [])) }
{
    into.push(name)?;
    Ok(())
}

/// The names on the left of an equation.
#[tactic(auto, using(crate::proofs::DefiningLemmas::Rules::names))]
fn add_left<'a>(names: &'a [(Name, Span)], into: &mut Vec<&'a Name>) -> Result<(), AllocError>
    ensures { OnOk result (names_seen into.new.items ≡ with_more (names_seen into.old.items) (map (λ y. y.0) names.now)) }
{
    for (name, _) in names {
        push(name, into)?;
    }
    Ok(())
}

/// One name more is known.
fn add_known<'a>(name: &'a [u8], names: &mut IndexSet<&'a [u8]>) -> Result<(), AllocError>
    ensures { OnOk result (holds names.new ≡ with_held (holds names.old) name.now) }
{
    names.insert(name)?;
    Ok(())
}

/// The names that are declared.
#[tactic(auto, using(crate::proofs::DefiningLemmas::Rules::names))]
fn declared<'a>(alloc: Global, decls: &'a [Decl]) -> Result<IndexSet<&'a [u8]>, AllocError>
    ensures { IfOk result (λ names. holds names ≡ declares decls.now) }
{
    let mut names = IndexSet::new(alloc);
    for decl in decls {
        add_known(decl.name.bytes(), &mut names)?;
    }
    Ok(names)
}

/// The name, if it is not known.
#[tactic(auto, using(crate::proofs::DefiningLemmas::Rules::names))]
fn add_unknown<'a>(
    known: &IndexSet<&'a [u8]>,
    name: &'a Name,
    into: &mut Vec<&'a Name>,
) -> Result<(), AllocError>
    ensures { OnOk result (names_seen into.new.items ≡ (if holds known.now name.now then names_seen into.old.items else with_more (names_seen into.old.items) (name.now ∷ []))) }
{
    if known.contains(name.bytes()) {
        return Ok(());
    }
    push(name, into)
}

/// Those of the names that are not declared there.
#[tactic(auto, using(crate::proofs::DefiningLemmas::Rules::names))]
fn add_undeclared<'a>(
    alloc: Global,
    decls: &'a [Decl],
    names: &[&'a Name],
    into: &mut Vec<&'a Name>,
) -> Result<(), AllocError>
    ensures { OnOk result (names_seen into.new.items ≡ with_more (names_seen into.old.items) (undeclared decls.now (names_seen names.now))) }
{
    let known = declared(alloc, decls)?;
    for i in 0..names.len() {
        add_unknown(&known, names[i], into)?;
    }
    Ok(())
}

#[cycle(names)]
#[tactic(auto, using(crate::proofs::DefiningLemmas::Rules::names))]
fn add_names<'a>(alloc: Global, eqns: &'a [Eqn], into: &mut Vec<&'a Name>) -> Result<(), AllocError>
    ensures { OnOk result (names_seen into.new.items ≡ with_more (names_seen into.old.items) (names_in (eqns_of (map eqn_seen eqns.now)))) }
{
    for eqn in eqns {
        add_names_of(alloc, eqn, into)?;
    }
    Ok(())
}

#[cycle(names)]
#[tactic(auto, using(crate::proofs::DefiningLemmas::Rules::names))]
fn add_names_of<'a>(alloc: Global, eqn: &'a Eqn, into: &mut Vec<&'a Name>) -> Result<(), AllocError>
    ensures { OnOk result (names_seen into.new.items ≡ with_more (names_seen into.old.items) (names_of (eqn_seen eqn.now))) }
{
    match eqn {
        Eqn::Def {
            span: _,
            names,
            right: _,
        } => add_left(names, into),
        Eqn::Switch {
            span: _,
            cond: _,
            arms,
        } => add_names_of_arms(alloc, arms, into),
        Eqn::Reset {
            span: _,
            body,
            cond: _,
        } => add_outer_names(alloc, body, into),
        Eqn::Automaton { span: _, states } => add_names_of_states(alloc, states, into),
    }
}

#[cycle(names)]
#[tactic(auto, using(crate::proofs::DefiningLemmas::Rules::names))]
fn add_names_of_arms<'a>(
    alloc: Global,
    arms: &'a [Arm],
    into: &mut Vec<&'a Name>,
) -> Result<(), AllocError>
    ensures { OnOk result (names_seen into.new.items ≡ with_more (names_seen into.old.items) (names_of_arms (arms_of (map arm_seen arms.now)))) }
{
    for arm in arms {
        add_outer_names(alloc, &arm.body, into)?;
    }
    Ok(())
}

#[cycle(names)]
#[tactic(auto, using(crate::proofs::DefiningLemmas::Rules::names))]
fn add_names_of_states<'a>(
    alloc: Global,
    states: &'a [State],
    into: &mut Vec<&'a Name>,
) -> Result<(), AllocError>
    ensures { OnOk result (names_seen into.new.items ≡ with_more (names_seen into.old.items) (names_of_states (states_of (map state_seen states.now)))) }
{
    for state in states {
        add_outer_names(alloc, &state.body, into)?;
    }
    Ok(())
}

#[cycle(names)]
#[tactic(auto, using(crate::proofs::DefiningLemmas::Rules::names))]
fn add_outer_names<'a>(
    alloc: Global,
    block: &'a Block,
    into: &mut Vec<&'a Name>,
) -> Result<(), AllocError>
    ensures { OnOk result (names_seen into.new.items ≡ with_more (names_seen into.old.items) (outer_names block.now)) }
{
    let mut names = Vec::new(alloc);
    add_names(alloc, &block.eqns, &mut names)?;
    add_undeclared(alloc, &block.locals, &names, into)?;
    Ok(())
}

/// The names that the equation defines, unless it is a basic one.
#[tactic(auto, using(crate::proofs::DefiningLemmas::Rules::names))]
fn add_controlled<'a>(
    alloc: Global,
    eqn: &'a Eqn,
    into: &mut Vec<&'a Name>,
) -> Result<(), AllocError>
    ensures { OnOk result (names_seen into.new.items ≡ with_more (names_seen into.old.items) (controlled (eqn_seen eqn.now))) }
{
    match eqn {
        Eqn::Def {
            span: _,
            names: _,
            right: _,
        } => Ok(()),
        _ => add_names_of(alloc, eqn, into),
    }
}

#[tactic(auto, using(crate::proofs::DefiningLemmas::Rules::names))]
fn add_controls<'a>(
    alloc: Global,
    eqns: &'a [Eqn],
    into: &mut Vec<&'a Name>,
) -> Result<(), AllocError>
    ensures { OnOk result (names_seen into.new.items ≡ with_more (names_seen into.old.items) (controls_in (eqns_of (map eqn_seen eqns.now)))) }
{
    for eqn in eqns {
        add_controlled(alloc, eqn, into)?;
    }
    Ok(())
}

/// The names that equations define.
#[tactic(auto, using(crate::proofs::DefiningLemmas::Rules::names))]
pub fn names_in<'a>(alloc: Global, eqns: &'a [Eqn]) -> Result<Vec<&'a Name>, AllocError>
    ensures { IfOk result (λ names. names_seen names.items ≡ names_in (eqns_of (map eqn_seen eqns.now))) }
{
    let mut names = Vec::new(alloc);
    add_names(alloc, eqns, &mut names)?;
    Ok(names)
}

/// The names that an equation defines.
#[tactic(auto, using(crate::proofs::DefiningLemmas::Rules::names))]
pub fn names_of<'a>(alloc: Global, eqn: &'a Eqn) -> Result<Vec<&'a Name>, AllocError>
    ensures { IfOk result (λ names. names_seen names.items ≡ names_of (eqn_seen eqn.now)) }
{
    let mut names = Vec::new(alloc);
    add_names_of(alloc, eqn, &mut names)?;
    Ok(names)
}

/// The names that the arms of a `switch` define.
#[tactic(auto, using(crate::proofs::DefiningLemmas::Rules::names))]
pub fn names_of_arms<'a>(alloc: Global, arms: &'a [Arm]) -> Result<Vec<&'a Name>, AllocError>
    ensures { IfOk result (λ names. names_seen names.items ≡ names_of_arms (arms_of (map arm_seen arms.now))) }
{
    let mut names = Vec::new(alloc);
    add_names_of_arms(alloc, arms, &mut names)?;
    Ok(names)
}

/// The names that the states of an automaton define.
#[tactic(auto, using(crate::proofs::DefiningLemmas::Rules::names))]
pub fn names_of_states<'a>(alloc: Global, states: &'a [State]) -> Result<Vec<&'a Name>, AllocError>
    ensures { IfOk result (λ names. names_seen names.items ≡ names_of_states (states_of (map state_seen states.now))) }
{
    let mut names = Vec::new(alloc);
    add_names_of_states(alloc, states, &mut names)?;
    Ok(names)
}

/// The names that a block defines for the blocks around it.
#[tactic(auto, using(crate::proofs::DefiningLemmas::Rules::names))]
pub fn outer_names<'a>(alloc: Global, block: &'a Block) -> Result<Vec<&'a Name>, AllocError>
    ensures { IfOk result (λ names. names_seen names.items ≡ outer_names block.now) }
{
    let mut names = Vec::new(alloc);
    add_outer_names(alloc, block, &mut names)?;
    Ok(names)
}

/// The names that the control equations among these define.
#[tactic(auto, using(crate::proofs::DefiningLemmas::Rules::names))]
pub fn controls_in<'a>(alloc: Global, eqns: &'a [Eqn]) -> Result<Vec<&'a Name>, AllocError>
    ensures { IfOk result (λ names. names_seen names.items ≡ controls_in (eqns_of (map eqn_seen eqns.now))) }
{
    let mut names = Vec::new(alloc);
    add_controls(alloc, eqns, &mut names)?;
    Ok(names)
}
