//! The words of automata.
ghost use Rattle.std.specs.Prelude.{◌≡◌, map, IfOk, OnOk};
ghost use Rattle.hp_tree.specs.Blocks.{states_of};
ghost use Rattle.hp_tree.specs.BlockView.{state_seen};
ghost use Rattle.hp_tables.specs.Declarations.Tables.{said_in};
ghost use Rattle.hp_drawing.specs.Places as places;
ghost use Rattle.hp_drawing.specs.Planned.{count_states};
ghost use Rattle.hp_drawing.specs.Seen.{sketch_of};
ghost use Rattle.hp_drawing.specs.Told.{or_none};
ghost use Rattle.hp_abstract.specs.Seen.{numbers_in};

use hp_base::Name;
use hp_drawing::{Draft, FALSE, Jump, Lines, Place, TRUE};
use hp_tables::declarations::Table;
use hp_tree::{State, Trans};
use std::alloc::{AllocError, Global};

/// The states of an automaton, and the wires of its words.
#[derive(Drop)]
pub struct Words<'a> {
    numbers: Table<'a, usize>,
    pub lines: Lines,
}

/// The numbers of states by their names, of which those of a name that come later count.
#[tactic(auto, using(crate::proofs::Rules::states))]
fn add_numbers<'a>(states: &'a [State], numbers: &mut Table<'a, usize>) -> Result<(), AllocError>
    ensures { OnOk result (said_in numbers.new ≡ places.put_numbers 0 (states_of (map state_seen states.now)) (said_in numbers.old)) }
{
    for i in 0..states.len() {
        let state = &states[i];
        numbers.put(state.name.bytes(), i)?;
    }
    Ok(())
}

impl<'a> Words<'a> {
    pub fn new(
        alloc: Global,
        states: &'a [State],
        place: Place,
        draft: &mut Draft,
    ) -> Result<Words<'a>, AllocError>
        ensures sketch { OnOk result (sketch_of draft.new ≡ (places.new_lines (count_states (states_of (map state_seen states.now))) place (sketch_of draft.old)).1) }
        ensures lines { IfOk result (λ words. words.lines ≡ (places.new_lines (count_states (states_of (map state_seen states.now))) place (sketch_of draft.old)).0) }
        ensures numbers { IfOk result (λ words. numbers_in words ≡ places.numbers_of (states_of (map state_seen states.now))) }
    {
        let lines = Lines::new(states.len(), place, draft)?;
        let mut numbers = Table::new(alloc);
        add_numbers(states, &mut numbers)?;
        Ok(Words { numbers, lines })
    }

    /// The number of a state; zero if there is none of the name.
    #[tactic(auto, unfolding(crate::specs::Seen::numbers_in))]
    fn number(&self, name: &Name) -> usize
        ensures { result ≡ or_none (numbers_in self.now name.now) }
    {
        match self.numbers.find(name.bytes()) {
            None => 0,
            Some(number) => number,
        }
    }

    /// Adds a transition to a jump.
    #[tactic(auto, unfolding(hp_drawing::specs::Places::transition))]
    pub fn add(
        &self,
        rest: Jump,
        condition: usize,
        transition: &Trans,
        draft: &mut Draft,
    ) -> Result<Jump, AllocError>
        ensures sketch { OnOk result (sketch_of draft.new ≡ (places.transition (numbers_in self.now) self.now.lines.shape rest condition transition.now (sketch_of draft.old)).1) }
        ensures jump { IfOk result (λ j. j ≡ (places.transition (numbers_in self.now) self.now.lines.shape rest condition transition.now (sketch_of draft.old)).0) }
    {
        let restart = if transition.restart { TRUE } else { FALSE };
        let state = self.number(&transition.target);
        let target = Jump::to(draft, self.lines.shape, state, restart)?;
        rest.add(draft, self.lines.shape, condition, target)
    }
}
