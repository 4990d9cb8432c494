//! What the parts of an automaton know of it.
ghost use Rattle.std.specs.Prelude.{◌≡◌, map, IfOk, OnOk};
ghost use Rattle.hp_tree.specs.Blocks.{no_state, states_of};
ghost use Rattle.hp_tree.specs.Meaning.{number_of};
ghost use Rattle.hp_tree.specs.BlockView.{state_seen};
ghost use Rattle.hp_automata.specs.Lowering.{frame, jump_of, pending_of, handed, value_handed};
ghost use Rattle.hp_automata.specs.Held.{target_in, put_target, frame_seen};

use crate::around::{Enums, some_constant, type_of};
use crate::defined::names_of_states;
use crate::definitions::{constant, last_value, variable};
use crate::names::Names;
use crate::new_names::{Word, state_word, value_name, word_name};
use hp_base::known::Known;
use hp_base::{Name, Span, Ty};
use hp_tree::{Expr, State};
use indexmap::IndexMap;
use std::alloc::{AllocError, Global};

/// The numbers of the states of an automaton; of two of one name the first counts.
#[derive(Drop)]
pub struct Targets<'a> {
    numbers: IndexMap<&'a [u8], u64>,
}

impl<'a> Targets<'a> {
    fn new(alloc: Global) -> Targets<'a>
        ensures { target_in result ≡ number_of 0 no_state }
    {
        Targets {
            numbers: IndexMap::new(alloc),
        }
    }

    fn put(&mut self, name: &'a [u8], number: u64) -> Result<(), AllocError>
        ensures { OnOk result (target_in self.new ≡ put_target (target_in self.old) name.now number) }
    {
        self.numbers.insert(name, number)?;
        Ok(())
    }

    /// The numbers of the states.
    fn of_states(alloc: Global, states: &'a [State]) -> Result<Targets<'a>, AllocError>
        ensures { IfOk result (λ targets. target_in targets ≡ number_of 0 (states_of (map state_seen states.now))) }
    {
        let mut targets = Targets::new(alloc);
        let mut i = states.len();
        while i > 0 {
            i -= 1;
            let state = &states[i];
            targets.put(state.name.bytes(), i as u64)?;
        }
        Ok(targets)
    }

    /// The number of the state, 0 for a name of none.
    pub fn of(&self, name: &Name) -> u64
        ensures { result ≡ target_in self.now name.now }
    {
        match self.numbers.get(name.bytes()) {
            None => 0,
            Some(number) => *number,
        }
    }
}

/// What the parts of an automaton know of it.
#[derive(Drop)]
pub struct Frame<'a> {
    pub span: Span,
    /// How many automata are around it.
    pub depth: u64,
    /// How many states it has.
    pub count: u64,
    pub targets: Targets<'a>,
    /// The names that it defines.
    pub names: Names<'a>,
}

impl<'a> Frame<'a> {
    pub fn new(
        alloc: Global,
        span: Span,
        depth: u64,
        states: &'a [State],
    ) -> Result<Frame<'a>, AllocError>
        ensures { IfOk result (λ made. frame_seen made ≡ frame span depth (states_of (map state_seen states.now))) }
    {
        let targets = Targets::of_states(alloc, states)?;
        let names = names_of_states(alloc, states)?;
        Ok(Frame {
            span,
            depth,
            count: states.len() as u64,
            targets,
            names,
        })
    }

    /// The jump of this instant.
    pub fn jump(&self, alloc: Global) -> Result<Expr, AllocError>
        ensures { IfOk result (λ expr. expr ≡ jump_of (frame_seen self.now)) }
    {
        variable(alloc, self.span, word_name(alloc, Word::Jump, self.depth)?)
    }

    /// The jump that is pending from the instant before.
    pub fn pending(&self, alloc: Global) -> Result<Expr, AllocError>
        ensures { IfOk result (λ expr. expr ≡ pending_of (frame_seen self.now)) }
    {
        last_value(alloc, self.span, word_name(alloc, Word::Next, self.depth)?)
    }

    /// What the states from this number on hand on of the word; `end` stands behind the last.
    pub fn handed(
        &self,
        alloc: Global,
        word: Word,
        end: &Expr,
        state: u64,
    ) -> Result<Expr, AllocError>
        ensures { IfOk result (λ expr. expr ≡ handed (frame_seen self.now) word end.now state) }
    {
        if state < self.count {
            return variable(
                alloc,
                self.span,
                state_word(alloc, word, self.depth, state)?,
            );
        }
        end.copy(alloc)
    }
}

/// What the states from this number on hand on of the value of a name.
pub fn value_handed(
    alloc: Global,
    enums: &Enums<'_>,
    types: &Known<'_, Ty>,
    frame: &Frame<'_>,
    state: u64,
    name: &Name,
) -> Result<Expr, AllocError>
    ensures { IfOk result (λ expr. expr ≡ value_handed enums.now types.now (frame_seen frame.now) state name.now) }
{
    if state < frame.count {
        return variable(
            alloc,
            frame.span,
            value_name(alloc, frame.depth, state, name.bytes())?,
        );
    }
    let ty = type_of(alloc, types, name)?;
    constant(alloc, frame.span, some_constant(alloc, enums, &ty)?)
}
