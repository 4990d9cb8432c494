//! The wires of the words of automata.
ghost use Rattle.std.specs.Prelude.{◌≡◌, IfOk, OnOk};
ghost use Rattle.hp_drawing.specs.Places as places;
ghost use Rattle.hp_drawing.specs.Seen.{sketch_of};

use crate::draft::{Draft, FALSE};
use crate::parts::{Jump, Lines, Place, Register, Rests};
use hp_circuit::Shape;
use std::alloc::AllocError;

impl Lines {
    /// The words of an automaton of so many states.
    #[tactic(auto, unfolding(crate::specs::Places::new_lines))]
    pub fn new(count: usize, place: Place, draft: &mut Draft) -> Result<Lines, AllocError>
        ensures sketch { OnOk result (sketch_of draft.new ≡ (places.new_lines count place (sketch_of draft.old)).1) }
        ensures lines { IfOk result (λ lines. lines ≡ (places.new_lines count place (sketch_of draft.old)).0) }
    {
        let shape = Shape::Cons { count };
        let next = Register::new(place, 0, shape, draft)?;
        let pending = Register::new(place, 0, Shape::Truth, draft)?;
        let active = Jump::hole(draft, shape)?;
        let selected = Jump {
            state: next.read,
            restart: pending.read,
        };
        Ok(Lines {
            shape,
            next,
            pending,
            selected,
            active,
        })
    }

    /// Where an automaton stays that takes no weak transition.
    pub fn stays(self) -> Jump
        ensures { result ≡ places.stays self }
    {
        Jump {
            state: self.active.state,
            restart: FALSE,
        }
    }

    /// Says what is remembered of the automaton.
    #[tactic(auto, unfolding(crate::specs::Places::lines_take))]
    pub fn take(self, place: Place, next: Jump, draft: &mut Draft) -> Result<(), AllocError>
        ensures { OnOk result (sketch_of draft.new ≡ places.lines_take self place next (sketch_of draft.old)) }
    {
        self.next.takes(place, next.state, draft)?;
        self.pending.takes(place, next.restart, draft)
    }

    /// Where no state is selected memory's word stays, and where none is active the first one is next.
    #[tactic(auto, unfolding(crate::specs::Places::lines_end))]
    pub fn end(self, rests: Rests, draft: &mut Draft) -> Result<(), AllocError>
        ensures { OnOk result (sketch_of draft.new ≡ places.lines_end self rests (sketch_of draft.old)) }
    {
        rests.strong.end(draft, self.selected)?;
        let first = Jump::to(draft, self.shape, 0, FALSE)?;
        rests.weak.end(draft, first)
    }
}
