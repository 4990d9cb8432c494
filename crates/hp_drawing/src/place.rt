//! Where something stands, and its registers.
ghost use Rattle.std.specs.Prelude.{◌≡◌, IfOk, OnOk};
ghost use Rattle.hp_circuit.specs.declared.circuit.Shape.TheVariants.{Truth};
ghost use Rattle.hp_drawing.specs.Places as places;
ghost use Rattle.hp_drawing.specs.Seen.{sketch_of};
ghost use Rattle.hp_drawing.specs.Sketch.{next_slot};

use crate::draft::{BASE, Draft, FALSE, TRUE};
use crate::parts::{Place, Register};
use hp_circuit::{Role, Shape, Wire};
use std::alloc::AllocError;

impl Place {
    /// The place of a node itself.
    pub fn top() -> Place
        ensures { result ≡ places.top_place }
    {
        Place {
            here: TRUE,
            cut: FALSE,
            kept: FALSE,
            clock: BASE,
            outside: true,
        }
    }

    /// The same on another clock.
    pub fn on(self, clock: usize) -> Place
        ensures { result ≡ places.on_clock self clock }
    {
        Place { clock, ..self }
    }

    /// A free place may be early on the base clock, outside of all blocks.
    pub fn may_be_early(self) -> bool
        ensures { result ≡ places.may_be_early self }
    {
        self.outside && self.clock == BASE
    }

    /// Whether it is there.
    #[tactic(auto, unfolding(crate::specs::Places::there))]
    pub fn there(self, draft: &mut Draft) -> Result<usize, AllocError>
        ensures sketch { OnOk result (sketch_of draft.new ≡ (places.there self (sketch_of draft.old)).1) }
        ensures wire { IfOk result (λ w. w ≡ (places.there self (sketch_of draft.old)).0) }
    {
        draft.and(self.here, draft.holds(self.clock))
    }

    /// A block within the place, which is there where a condition holds.
    #[tactic(auto, unfolding(crate::specs::Places::within))]
    pub fn within(self, condition: usize, draft: &mut Draft) -> Result<Place, AllocError>
        ensures sketch { OnOk result (sketch_of draft.new ≡ (places.within self condition (sketch_of draft.old)).1) }
        ensures place { IfOk result (λ place. place ≡ (places.within self condition (sketch_of draft.old)).0) }
    {
        let here = draft.and(self.here, condition)?;
        Ok(Place {
            here,
            clock: BASE,
            outside: false,
            ..self
        })
    }

    /// The body of a `reset` with this condition.
    #[tactic(auto, unfolding(crate::specs::Places::reset_by))]
    pub fn reset(self, condition: usize, draft: &mut Draft) -> Result<Place, AllocError>
        ensures sketch { OnOk result (sketch_of draft.new ≡ (places.reset_by self condition (sketch_of draft.old)).1) }
        ensures place { IfOk result (λ place. place ≡ (places.reset_by self condition (sketch_of draft.old)).0) }
    {
        let cut = draft.or(self.cut, condition)?;
        let kept = draft.choose(self.here, cut, self.kept, Shape::Truth)?;
        Ok(Place {
            cut,
            kept,
            clock: BASE,
            outside: false,
            ..self
        })
    }

    /// The contract of a node that is called at the place.
    #[tactic(auto, unfolding(crate::specs::Places::called_at))]
    pub fn called(self, draft: &mut Draft) -> Result<Place, AllocError>
        ensures sketch { OnOk result (sketch_of draft.new ≡ (places.called_at self (sketch_of draft.old)).1) }
        ensures place { IfOk result (λ place. place ≡ (places.called_at self (sketch_of draft.old)).0) }
    {
        let here = self.there(draft)?;
        Ok(Place {
            here,
            clock: BASE,
            outside: false,
            ..self
        })
    }
}

impl Register {
    /// A register that holds this number at first.
    #[tactic(auto, unfolding(crate::specs::Places::new_register))]
    pub fn new(
        place: Place,
        first: usize,
        shape: Shape,
        draft: &mut Draft,
    ) -> Result<Register, AllocError>
        ensures sketch { OnOk result (sketch_of draft.new ≡ (places.new_register place first shape (sketch_of draft.old)).1) }
        ensures register { IfOk result (λ r. r ≡ (places.new_register place first shape (sketch_of draft.old)).0) }
    {
        let slot = draft.next_slot();
        let held = draft.slot(Role::Register { first, next: FALSE }, shape)?;
        let start = draft.push(Wire::Constant(first), shape)?;
        let read = draft.choose(place.cut, start, held, shape)?;
        let keeps = draft.choose(place.kept, start, held, shape)?;
        Ok(Register {
            slot,
            read,
            keeps,
            shape,
        })
    }

    /// Says what it takes where the place is there.
    #[tactic(auto, unfolding(crate::specs::Places::takes))]
    pub fn takes(self, place: Place, value: usize, draft: &mut Draft) -> Result<(), AllocError>
        ensures { OnOk result (sketch_of draft.new ≡ places.takes self place value (sketch_of draft.old)) }
    {
        let there = place.there(draft)?;
        let next = draft.choose(there, value, self.keeps, self.shape)?;
        draft.set_next(self.slot, next);
        Ok(())
    }
}
