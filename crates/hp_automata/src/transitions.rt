//! Transitions: each has a word for the jump that it and those behind it choose.
ghost use Rattle.std.specs.Prelude.{◌≡◌, ◌+◌, [], ◌∷◌, None, length, map, IfOk, OnOk};
ghost use Rattle.hp_base.specs.declared.ty.Ty.TheVariants.{Int};
ghost use Rattle.hp_tree.specs.Expressions.{choose};
ghost use Rattle.hp_tree.specs.BlockView.{eqn_seen};
ghost use Rattle.hp_automata.specs.Lowering.{on_base, number, code, transition_locals, chosen, choice, choices};
ghost use Rattle.hp_automata.specs.NewNames.{transition_word};
ghost use Rattle.hp_automata.specs.Renaming.{renamed};
ghost use Rattle.hp_automata.specs.Held.{frame_seen, said, target_in};
ghost use Rattle.hp_automata.specs.Lists.{with_more};

use crate::around::{Layer, States};
use crate::definitions::{add_definition, choose, code, following, number, on_base, variable};
use crate::frame::Frame;
use crate::new_names::{Word, transition_word};
use hp_tables::renaming::rename_expr;
use hp_tree::{Decl, Eqn, Expr, Trans, Ty};
use std::alloc::{AllocError, Global};

/// Transitions of one kind, of the state with this number.
#[derive(Clone, Copy)]
pub struct Chain<'c> {
    pub word: Word,
    pub state: u64,
    pub transitions: &'c [Trans],
    /// The jump behind the last.
    pub end: &'c Expr,
}

/// Adds the word of one transition.
#[tactic(auto, using(crate::proofs::Rules::growing))]
fn add_transition_local(
    alloc: Global,
    frame: &Frame<'_>,
    word: Word,
    state: u64,
    i: u64,
    transition: &Trans,
    into: &mut Vec<Decl>,
) -> Result<(), AllocError>
    ensures { OnOk result (into.new.items ≡ with_more into.old.items (on_base transition.now.span (transition_word word frame.now.depth state i) Int None ∷ [])) }
{
    let name = transition_word(alloc, word, frame.depth, state, i)?;
    into.push(on_base(alloc, transition.span, name, Ty::Int, None))?;
    Ok(())
}

/// Adds the words of such transitions.
#[tactic(auto, using(crate::proofs::Rules::growing))]
pub fn add_transition_locals(
    alloc: Global,
    frame: &Frame<'_>,
    word: Word,
    state: u64,
    transitions: &[Trans],
    into: &mut Vec<Decl>,
) -> Result<(), AllocError>
    ensures { OnOk result (into.new.items ≡ with_more into.old.items (transition_locals (frame_seen frame.now) word state 0 transitions.now)) }
{
    for i in 0..transitions.len() {
        let transition = &transitions[i];
        add_transition_local(alloc, frame, word, state, i as u64, transition, into)?;
    }
    Ok(())
}

/// The jump that the transitions from this number on choose.
pub fn chosen(
    alloc: Global,
    frame: &Frame<'_>,
    chain: Chain<'_>,
    number: u64,
) -> Result<Expr, AllocError>
    ensures { IfOk result (λ expr. expr ≡ chosen (frame_seen frame.now) chain.entry.word chain.entry.state (length chain.entry.transitions.now) chain.entry.end.now number) }
{
    if number < chain.transitions.len() as u64 {
        let name = transition_word(alloc, chain.word, frame.depth, chain.state, number)?;
        return variable(alloc, frame.span, name);
    }
    chain.end.copy(alloc)
}

/// The jump that the transition makes, or that those behind it choose.
fn choice(
    alloc: Global,
    layers: &[Layer<'_>],
    frame: &Frame<'_>,
    chain: Chain<'_>,
    i: u64,
    transition: &Trans,
) -> Result<Expr, AllocError>
    ensures { IfOk result (λ expr. expr ≡ choose frame.now.span (renamed (said layers.now) transition.now.cond) (number frame.now.span (code (target_in frame.now.targets transition.now.target) transition.now.restart)) (chosen (frame_seen frame.now) chain.entry.word chain.entry.state (length chain.entry.transitions.now) chain.entry.end.now (i + 1))) }
{
    let condition = rename_expr(alloc, &States { layers }, &transition.cond)?;
    let target = frame.targets.of(&transition.target);
    let jump = number(alloc, frame.span, code(target, transition.restart)?)?;
    let other = chosen(alloc, frame, chain, following(i)?)?;
    choose(alloc, frame.span, condition, jump, other)
}

/// Adds the equation of one transition.
fn add_choice(
    alloc: Global,
    layers: &[Layer<'_>],
    frame: &Frame<'_>,
    chain: Chain<'_>,
    i: u64,
    transition: &Trans,
    into: &mut Vec<Eqn>,
) -> Result<(), AllocError>
    ensures { OnOk result (map eqn_seen into.new.items ≡ with_more (map eqn_seen into.old.items) (choice (said layers.now) (frame_seen frame.now) chain.entry.word chain.entry.state (length chain.entry.transitions.now) chain.entry.end.now i transition.now ∷ [])) }
{
    let name = transition_word(alloc, chain.word, frame.depth, chain.state, i)?;
    let right = choice(alloc, layers, frame, chain, i, transition)?;
    add_definition(alloc, frame.span, name, right, into)
}

/// Adds the equations of the transitions.
#[tactic(auto, using(crate::proofs::Rules::growing))]
pub fn add_choices(
    alloc: Global,
    layers: &[Layer<'_>],
    frame: &Frame<'_>,
    chain: Chain<'_>,
    into: &mut Vec<Eqn>,
) -> Result<(), AllocError>
    ensures { OnOk result (map eqn_seen into.new.items ≡ with_more (map eqn_seen into.old.items) (choices (said layers.now) (frame_seen frame.now) chain.entry.word chain.entry.state (length chain.entry.transitions.now) chain.entry.end.now 0 chain.entry.transitions.now)) }
{
    let transitions = chain.transitions;
    for i in 0..transitions.len() {
        let transition = &transitions[i];
        add_choice(alloc, layers, frame, chain, i as u64, transition, into)?;
    }
    Ok(())
}
