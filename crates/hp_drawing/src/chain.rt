//! Values that are chosen by the first condition that holds.
ghost use Rattle.std.specs.Prelude.{◌≡◌, IfOk, OnOk};
ghost use Rattle.hp_drawing.specs.Places as places;
ghost use Rattle.hp_drawing.specs.Seen.{sketch_of};

use crate::draft::Draft;
use crate::parts::{Jump, Value};
use hp_circuit::{Shape, Wire};
use std::alloc::AllocError;

/// Says that the wire `hole` has this value where the condition holds, and gives the wire that has the value elsewhere. An integer is one wire, which reads all of them.
#[tactic(auto, unfolding(crate::specs::Places::chain_add))]
pub fn add(
    draft: &mut Draft,
    hole: usize,
    condition: usize,
    source: Value,
) -> Result<usize, AllocError>
    ensures sketch { OnOk result (sketch_of draft.new ≡ (places.chain_add hole condition source (sketch_of draft.old)).1) }
    ensures wire { IfOk result (λ w. w ≡ (places.chain_add hole condition source (sketch_of draft.old)).0) }
{
    match source.shape {
        Shape::Mark => {
            draft.read(hole, condition)?;
            draft.read(hole, source.wire)?;
            Ok(hole)
        }
        shape => {
            let rest = draft.hole(shape)?;
            draft.set(hole, Wire::If(condition, source.wire, rest))?;
            Ok(rest)
        }
    }
}

/// Where no condition holds the value is the one of zeros.
#[tactic(auto, unfolding(crate::specs::Places::chain_end))]
pub fn end(draft: &mut Draft, hole: usize) -> Result<(), AllocError>
    ensures { OnOk result (sketch_of draft.new ≡ places.chain_end hole (sketch_of draft.old)) }
{
    draft.set(hole, Wire::Constant(0))
}

impl Jump {
    /// One that is said later.
    #[tactic(auto, unfolding(crate::specs::Places::jump_hole))]
    pub fn hole(draft: &mut Draft, shape: Shape) -> Result<Jump, AllocError>
        ensures sketch { OnOk result (sketch_of draft.new ≡ (places.jump_hole shape (sketch_of draft.old)).1) }
        ensures jump { IfOk result (λ j. j ≡ (places.jump_hole shape (sketch_of draft.old)).0) }
    {
        let state = draft.hole(shape)?;
        let restart = draft.hole(Shape::Truth)?;
        Ok(Jump { state, restart })
    }

    /// The state of a number.
    #[tactic(auto, unfolding(crate::specs::Places::jump_to))]
    pub fn to(
        draft: &mut Draft,
        shape: Shape,
        state: usize,
        restart: usize,
    ) -> Result<Jump, AllocError>
        ensures sketch { OnOk result (sketch_of draft.new ≡ (places.jump_to shape state restart (sketch_of draft.old)).1) }
        ensures jump { IfOk result (λ j. j ≡ (places.jump_to shape state restart (sketch_of draft.old)).0) }
    {
        let state = draft.push(Wire::Constant(state), shape)?;
        Ok(Jump { state, restart })
    }

    /// Says where this one goes if the condition holds, and gives the one that says it elsewhere.
    #[tactic(auto, unfolding(crate::specs::Places::jump_add))]
    pub fn add(
        self,
        draft: &mut Draft,
        shape: Shape,
        condition: usize,
        source: Jump,
    ) -> Result<Jump, AllocError>
        ensures sketch { OnOk result (sketch_of draft.new ≡ (places.jump_add self shape condition source (sketch_of draft.old)).1) }
        ensures jump { IfOk result (λ j. j ≡ (places.jump_add self shape condition source (sketch_of draft.old)).0) }
    {
        let rest = Jump::hole(draft, shape)?;
        draft.set(self.state, Wire::If(condition, source.state, rest.state))?;
        draft.set(
            self.restart,
            Wire::If(condition, source.restart, rest.restart),
        )?;
        Ok(rest)
    }

    /// It goes where the other does.
    #[tactic(auto, unfolding(crate::specs::Places::jump_end))]
    pub fn end(self, draft: &mut Draft, source: Jump) -> Result<(), AllocError>
        ensures { OnOk result (sketch_of draft.new ≡ places.jump_end self source (sketch_of draft.old)) }
    {
        draft.set(self.state, Wire::Copy(source.state))?;
        draft.set(self.restart, Wire::Copy(source.restart))
    }
}
