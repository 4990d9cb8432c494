//! The words and equations of an automaton and of its states.
ghost use Rattle.std.specs.Prelude.{◌≡◌, [], ◌∷◌, None, length, map, IfOk, OnOk};
ghost use Rattle.hp_tree.specs.Blocks.{block, eqns_of, states_of};
ghost use Rattle.hp_tree.specs.BlockView.{eqn_seen, arm_seen, state_seen};
ghost use Rattle.hp_tree.specs.declared.decl.Cons.TheVariants.{False, True};
ghost use Rattle.hp_automata.specs.NewNames.{state_word};
ghost use Rattle.hp_automata.specs.Lowering.{on_base, value_local, state_words, state_locals, locals_from, frame_words, frame_locals, joined, jump_eqn, next_eqn, frame_eqns, idle_value, idle_next, idle, from_eqn, on_word, afresh, state_switch, strong_eqns, choosing_eqns, own_next, weak_eqns};
ghost use Rattle.hp_automata.specs.Held.{frame_seen, said};
ghost use Rattle.hp_automata.specs.Lists.{names_seen, with_more};

use crate::around::{Around, Enums, Layer, said, type_of};
use crate::definitions::{
    add_definition, choose, code, following, goes_to, is_jump, number, on_base, push_eqn, variable,
};
use crate::frame::{Frame, value_handed};
use crate::new_names::{Word, state_word, value_name, word_name};
use crate::transitions::{Chain, add_choices, add_transition_locals, chosen};
use hp_base::known::Known;
use hp_base::{Const, Name, Span, Ty};
use hp_tree::{Arm, Block, Cons, Decl, Eqn, State, Trans};
use std::alloc::{AllocError, Global};

/// Adds the word for the value of a name in a state.
#[tactic(auto, using(crate::proofs::Rules::growing))]
fn add_value_local(
    alloc: Global,
    types: &Known<'_, Ty>,
    frame: &Frame<'_>,
    state: u64,
    name: &Name,
    into: &mut Vec<Decl>,
) -> Result<(), AllocError>
    ensures { OnOk result (into.new.items ≡ with_more into.old.items (value_local types.now (frame_seen frame.now) state name.now ∷ [])) }
{
    let value = value_name(alloc, frame.depth, state, name.bytes())?;
    let ty = type_of(alloc, types, name)?;
    into.push(on_base(alloc, frame.span, value, ty, None))?;
    Ok(())
}

/// Adds the words for the values of names in a state.
#[tactic(auto, using(crate::proofs::Rules::growing))]
fn add_value_locals(
    alloc: Global,
    types: &Known<'_, Ty>,
    frame: &Frame<'_>,
    state: u64,
    names: &[&Name],
    into: &mut Vec<Decl>,
) -> Result<(), AllocError>
    ensures { OnOk result (into.new.items ≡ with_more into.old.items (map (value_local types.now (frame_seen frame.now) state) (names_seen names.now))) }
{
    for i in 0..names.len() {
        add_value_local(alloc, types, frame, state, names[i], into)?;
    }
    Ok(())
}

/// Adds a word of a state.
#[tactic(auto, using(crate::proofs::Rules::growing))]
fn add_state_word(
    alloc: Global,
    frame: &Frame<'_>,
    word: Word,
    state: u64,
    ty: Ty,
    into: &mut Vec<Decl>,
) -> Result<(), AllocError>
    ensures { OnOk result (into.new.items ≡ with_more into.old.items (on_base frame.now.span (state_word word frame.now.depth state) ty None ∷ [])) }
{
    let name = state_word(alloc, word, frame.depth, state)?;
    into.push(on_base(alloc, frame.span, name, ty, None))?;
    Ok(())
}

/// Adds the words of a state for jumps and for being active.
#[tactic(auto, using(crate::proofs::Rules::growing))]
fn add_state_words(
    alloc: Global,
    frame: &Frame<'_>,
    state: u64,
    into: &mut Vec<Decl>,
) -> Result<(), AllocError>
    ensures { OnOk result (into.new.items ≡ with_more into.old.items (state_words (frame_seen frame.now) state)) }
{
    add_state_word(alloc, frame, Word::From, state, Ty::Int, into)?;
    add_state_word(alloc, frame, Word::On, state, Ty::Bool, into)?;
    add_state_word(alloc, frame, Word::Next, state, Ty::Int, into)
}

/// Adds the words of a state with such strong transitions.
#[tactic(auto, using(crate::proofs::Rules::growing))]
fn add_state_locals(
    alloc: Global,
    types: &Known<'_, Ty>,
    frame: &Frame<'_>,
    state: u64,
    unless: &[Trans],
    into: &mut Vec<Decl>,
) -> Result<(), AllocError>
    ensures { OnOk result (into.new.items ≡ with_more into.old.items (state_locals types.now (frame_seen frame.now) state unless.now)) }
{
    add_state_words(alloc, frame, state, into)?;
    add_transition_locals(alloc, frame, Word::Strong, state, unless, into)?;
    add_value_locals(alloc, types, frame, state, &frame.names.names, into)
}

/// The words of an automaton itself.
fn frame_words(alloc: Global, frame: &Frame<'_>) -> Result<Vec<Decl>, AllocError>
    ensures { IfOk result (λ locals. locals.items ≡ frame_words (frame_seen frame.now)) }
{
    let next = word_name(alloc, Word::Next, frame.depth)?;
    let jump = word_name(alloc, Word::Jump, frame.depth)?;
    let mut locals = Vec::new(alloc);
    locals.push(on_base(alloc, frame.span, next, Ty::Int, Some(Const::I(0))))?;
    locals.push(on_base(alloc, frame.span, jump, Ty::Int, None))?;
    Ok(locals)
}

/// Adds the words of the states.
#[tactic(auto, using(crate::proofs::Rules::growing))]
fn add_locals(
    alloc: Global,
    types: &Known<'_, Ty>,
    frame: &Frame<'_>,
    states: &[State],
    into: &mut Vec<Decl>,
) -> Result<(), AllocError>
    ensures { OnOk result (into.new.items ≡ with_more into.old.items (locals_from types.now (frame_seen frame.now) 0 (states_of (map state_seen states.now)))) }
{
    for i in 0..states.len() {
        let state = &states[i];
        add_state_locals(alloc, types, frame, i as u64, &state.unless, into)?;
    }
    Ok(())
}

/// The words of an automaton and of its states.
#[tactic(auto, using(crate::proofs::Rules::made))]
pub fn frame_locals(
    alloc: Global,
    types: &Known<'_, Ty>,
    frame: &Frame<'_>,
    states: &[State],
) -> Result<Vec<Decl>, AllocError>
    ensures { IfOk result (λ locals. locals.items ≡ frame_locals types.now (frame_seen frame.now) (states_of (map state_seen states.now))) }
{
    let mut locals = frame_words(alloc, frame)?;
    add_locals(alloc, types, frame, states, &mut locals)?;
    Ok(locals)
}

/// Adds the equation of a name that an automaton defines.
fn add_joined(
    alloc: Global,
    enums: &Enums<'_>,
    around: &Around<'_>,
    frame: &Frame<'_>,
    name: &Name,
    into: &mut Vec<Eqn>,
) -> Result<(), AllocError>
    ensures { OnOk result (map eqn_seen into.new.items ≡ with_more (map eqn_seen into.old.items) (joined enums.now (said around.now.layers.items) around.now.types (frame_seen frame.now) name.now ∷ [])) }
{
    let value = value_handed(alloc, enums, &around.types, frame, 0, name)?;
    let left = said(alloc, &around.layers, name)?;
    add_definition(alloc, frame.span, left, value, into)
}

/// Adds the equations of the names that an automaton defines.
#[tactic(auto, using(crate::proofs::Rules::growing))]
fn add_all_joined(
    alloc: Global,
    enums: &Enums<'_>,
    around: &Around<'_>,
    frame: &Frame<'_>,
    names: &[&Name],
    into: &mut Vec<Eqn>,
) -> Result<(), AllocError>
    ensures { OnOk result (map eqn_seen into.new.items ≡ with_more (map eqn_seen into.old.items) (map (joined enums.now (said around.now.layers.items) around.now.types (frame_seen frame.now)) (names_seen names.now))) }
{
    for i in 0..names.len() {
        add_joined(alloc, enums, around, frame, names[i], into)?;
    }
    Ok(())
}

/// Adds the equation of the jump of this instant.
fn add_jump(alloc: Global, frame: &Frame<'_>, into: &mut Vec<Eqn>) -> Result<(), AllocError>
    ensures { OnOk result (map eqn_seen into.new.items ≡ with_more (map eqn_seen into.old.items) (jump_eqn (frame_seen frame.now) ∷ [])) }
{
    let pending = frame.pending(alloc)?;
    let jump = frame.handed(alloc, Word::From, &pending, 0)?;
    let name = word_name(alloc, Word::Jump, frame.depth)?;
    add_definition(alloc, frame.span, name, jump, into)
}

/// Adds the equation of the next jump.
fn add_next(alloc: Global, frame: &Frame<'_>, into: &mut Vec<Eqn>) -> Result<(), AllocError>
    ensures { OnOk result (map eqn_seen into.new.items ≡ with_more (map eqn_seen into.old.items) (next_eqn (frame_seen frame.now) ∷ [])) }
{
    let none = number(alloc, frame.span, 0)?;
    let next = frame.handed(alloc, Word::Next, &none, 0)?;
    let name = word_name(alloc, Word::Next, frame.depth)?;
    add_definition(alloc, frame.span, name, next, into)
}

/// Adds the equations of the automaton itself.
#[tactic(auto, using(crate::proofs::Rules::growing))]
pub fn add_frame_eqns(
    alloc: Global,
    enums: &Enums<'_>,
    around: &Around<'_>,
    frame: &Frame<'_>,
    into: &mut Vec<Eqn>,
) -> Result<(), AllocError>
    ensures { OnOk result (map eqn_seen into.new.items ≡ with_more (map eqn_seen into.old.items) (frame_eqns enums.now (said around.now.layers.items) around.now.types (frame_seen frame.now))) }
{
    add_jump(alloc, frame, into)?;
    add_next(alloc, frame, into)?;
    add_all_joined(alloc, enums, around, frame, &frame.names.names, into)
}

/// Adds the equation for the value of a name that a state hands on where it is not active.
fn add_idle_value(
    alloc: Global,
    enums: &Enums<'_>,
    types: &Known<'_, Ty>,
    frame: &Frame<'_>,
    state: u64,
    name: &Name,
    into: &mut Vec<Eqn>,
) -> Result<(), AllocError>
    ensures { OnOk result (map eqn_seen into.new.items ≡ with_more (map eqn_seen into.old.items) (idle_value enums.now types.now (frame_seen frame.now) state name.now ∷ [])) }
{
    let value = value_handed(alloc, enums, types, frame, following(state)?, name)?;
    let left = value_name(alloc, frame.depth, state, name.bytes())?;
    add_definition(alloc, frame.span, left, value, into)
}

/// Adds the equations for the values that a state hands on where it is not active.
#[tactic(auto, using(crate::proofs::Rules::growing))]
fn add_idle_values(
    alloc: Global,
    enums: &Enums<'_>,
    types: &Known<'_, Ty>,
    frame: &Frame<'_>,
    state: u64,
    names: &[&Name],
    into: &mut Vec<Eqn>,
) -> Result<(), AllocError>
    ensures { OnOk result (map eqn_seen into.new.items ≡ with_more (map eqn_seen into.old.items) (map (idle_value enums.now types.now (frame_seen frame.now) state) (names_seen names.now))) }
{
    for i in 0..names.len() {
        add_idle_value(alloc, enums, types, frame, state, names[i], into)?;
    }
    Ok(())
}

/// Adds the equation of the next jump that a state hands on where it is not active.
fn add_idle_next(
    alloc: Global,
    frame: &Frame<'_>,
    state: u64,
    into: &mut Vec<Eqn>,
) -> Result<(), AllocError>
    ensures { OnOk result (map eqn_seen into.new.items ≡ with_more (map eqn_seen into.old.items) (idle_next (frame_seen frame.now) state ∷ [])) }
{
    let none = number(alloc, frame.span, 0)?;
    let next = frame.handed(alloc, Word::Next, &none, following(state)?)?;
    let name = state_word(alloc, Word::Next, frame.depth, state)?;
    add_definition(alloc, frame.span, name, next, into)
}

/// What a state hands on where it is not active.
#[tactic(auto, using(crate::proofs::Rules::made))]
pub fn idle(
    alloc: Global,
    enums: &Enums<'_>,
    types: &Known<'_, Ty>,
    frame: &Frame<'_>,
    state: u64,
) -> Result<Block, AllocError>
    ensures { IfOk result (λ block. block ≡ idle enums.now types.now (frame_seen frame.now) state) }
{
    let mut eqns = Vec::new(alloc);
    add_idle_next(alloc, frame, state, &mut eqns)?;
    add_idle_values(
        alloc,
        enums,
        types,
        frame,
        state,
        &frame.names.names,
        &mut eqns,
    )?;
    Ok(Block {
        locals: Vec::new(alloc),
        eqns,
    })
}

/// Adds the jump that the states from this one on choose, where one of them is selected.
fn add_from(
    alloc: Global,
    frame: &Frame<'_>,
    chain: Chain<'_>,
    into: &mut Vec<Eqn>,
) -> Result<(), AllocError>
    ensures { OnOk result (map eqn_seen into.new.items ≡ with_more (map eqn_seen into.old.items) (from_eqn (frame_seen frame.now) chain.entry.state chain.entry.word (length chain.entry.transitions.now) chain.entry.end.now ∷ [])) }
{
    let selected = goes_to(alloc, frame.span, chain.end, chain.state)?;
    let own = chosen(alloc, frame, chain, 0)?;
    let other = frame.handed(alloc, Word::From, chain.end, following(chain.state)?)?;
    let right = choose(alloc, frame.span, selected, own, other)?;
    let name = state_word(alloc, Word::From, frame.depth, chain.state)?;
    add_definition(alloc, frame.span, name, right, into)
}

/// Adds whether the state is active.
fn add_on(
    alloc: Global,
    frame: &Frame<'_>,
    state: u64,
    into: &mut Vec<Eqn>,
) -> Result<(), AllocError>
    ensures { OnOk result (map eqn_seen into.new.items ≡ with_more (map eqn_seen into.old.items) (on_word (frame_seen frame.now) state ∷ [])) }
{
    let jump = frame.jump(alloc)?;
    let right = goes_to(alloc, frame.span, &jump, state)?;
    let name = state_word(alloc, Word::On, frame.depth, state)?;
    add_definition(alloc, frame.span, name, right, into)
}

/// The body of a state, begun anew where it is entered afresh.
fn afresh(alloc: Global, frame: &Frame<'_>, state: u64, body: Block) -> Result<Eqn, AllocError>
    ensures { IfOk result (λ eqn. eqn_seen eqn ≡ afresh (frame_seen frame.now) state body) }
{
    let jump = frame.jump(alloc)?;
    let cond = is_jump(alloc, frame.span, &jump, state, true)?;
    Ok(Eqn::Reset {
        span: frame.span,
        body,
        cond,
    })
}

/// A block of one equation.
#[tactic(auto, using(crate::proofs::Rules::pushed))]
fn alone(alloc: Global, eqn: Eqn) -> Result<Block, AllocError>
    ensures { IfOk result (λ other. other ≡ block [] (eqns_of (eqn_seen eqn ∷ []))) }
{
    let mut eqns = Vec::new(alloc);
    eqns.push(eqn)?;
    Ok(Block {
        locals: Vec::new(alloc),
        eqns,
    })
}

/// Two arms.
fn two_arms(alloc: Global, span: Span, body: Block, other: Block) -> Result<Vec<Arm>, AllocError>
    ensures { IfOk result (λ arms. map arm_seen arms.items ≡ record { cons = True; body = body; span = span } ∷ record { cons = False; body = other; span = span } ∷ []) }
{
    let mut arms = Vec::new(alloc);
    arms.push(Arm {
        cons: Cons::True,
        body,
        span,
    })?;
    arms.push(Arm {
        cons: Cons::False,
        body: other,
        span,
    })?;
    Ok(arms)
}

/// The choice between the body of a state and what it hands on.
fn state_switch(
    alloc: Global,
    frame: &Frame<'_>,
    state: u64,
    body: Block,
    other: Block,
) -> Result<Eqn, AllocError>
    ensures { IfOk result (λ eqn. eqn_seen eqn ≡ state_switch (frame_seen frame.now) state body other) }
{
    let name = state_word(alloc, Word::On, frame.depth, state)?;
    let cond = variable(alloc, frame.span, name)?;
    let begun = afresh(alloc, frame, state, body)?;
    let body = alone(alloc, begun)?;
    let arms = two_arms(alloc, frame.span, body, other)?;
    Ok(Eqn::Switch {
        span: frame.span,
        cond,
        arms,
    })
}

/// Adds the equations of a state over its strong transitions.
#[tactic(auto, using(crate::proofs::Rules::growing))]
fn add_strong(
    alloc: Global,
    layers: &[Layer<'_>],
    frame: &Frame<'_>,
    state: u64,
    unless: &[Trans],
    into: &mut Vec<Eqn>,
) -> Result<(), AllocError>
    ensures { OnOk result (map eqn_seen into.new.items ≡ with_more (map eqn_seen into.old.items) (strong_eqns (said layers.now) (frame_seen frame.now) state unless.now)) }
{
    let pending = frame.pending(alloc)?;
    let chain = Chain {
        word: Word::Strong,
        state,
        transitions: unless,
        end: &pending,
    };
    add_choices(alloc, layers, frame, chain, into)?;
    add_from(alloc, frame, chain, into)
}

/// Adds the choice between the body of a state and what it hands on.
pub fn add_switch(
    alloc: Global,
    frame: &Frame<'_>,
    state: u64,
    body: Block,
    other: Block,
    into: &mut Vec<Eqn>,
) -> Result<(), AllocError>
    ensures { OnOk result (map eqn_seen into.new.items ≡ with_more (map eqn_seen into.old.items) (state_switch (frame_seen frame.now) state body other ∷ [])) }
{
    let eqn = state_switch(alloc, frame, state, body, other)?;
    push_eqn(into, eqn)
}

/// Adds the first equations of a state: whether it is selected, and whether it is active.
#[tactic(auto, using(crate::proofs::Rules::growing))]
pub fn add_choosing(
    alloc: Global,
    layers: &[Layer<'_>],
    frame: &Frame<'_>,
    state: u64,
    unless: &[Trans],
    into: &mut Vec<Eqn>,
) -> Result<(), AllocError>
    ensures { OnOk result (map eqn_seen into.new.items ≡ with_more (map eqn_seen into.old.items) (choosing_eqns (said layers.now) (frame_seen frame.now) state unless.now)) }
{
    add_strong(alloc, layers, frame, state, unless, into)?;
    add_on(alloc, frame, state, into)
}

/// Adds the equation of the next jump of a state.
fn add_own_next(
    alloc: Global,
    frame: &Frame<'_>,
    chain: Chain<'_>,
    into: &mut Vec<Eqn>,
) -> Result<(), AllocError>
    ensures { OnOk result (map eqn_seen into.new.items ≡ with_more (map eqn_seen into.old.items) (own_next (frame_seen frame.now) chain.entry.state chain.entry.word (length chain.entry.transitions.now) chain.entry.end.now ∷ [])) }
{
    let next = chosen(alloc, frame, chain, 0)?;
    let name = state_word(alloc, Word::Next, frame.depth, chain.state)?;
    add_definition(alloc, frame.span, name, next, into)
}

/// Adds the first equations of the body of a state: its weak transitions, and its next jump.
#[tactic(auto, using(crate::proofs::Rules::growing))]
pub fn add_weak(
    alloc: Global,
    layers: &[Layer<'_>],
    frame: &Frame<'_>,
    state: u64,
    until: &[Trans],
    into: &mut Vec<Eqn>,
) -> Result<(), AllocError>
    ensures { OnOk result (map eqn_seen into.new.items ≡ with_more (map eqn_seen into.old.items) (weak_eqns (said layers.now) (frame_seen frame.now) state until.now)) }
{
    let stays = number(alloc, frame.span, code(state, false)?)?;
    let chain = Chain {
        word: Word::Weak,
        state,
        transitions: until,
        end: &stays,
    };
    add_choices(alloc, layers, frame, chain, into)?;
    add_own_next(alloc, frame, chain, into)
}
