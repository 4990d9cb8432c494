//! What is said of a name, and the wires of a call.
ghost use Rattle.std.specs.Prelude.{◌≡◌, IfOk, OnOk};
ghost use Rattle.hp_drawing.specs.DrawnExpressions as drawn;
ghost use Rattle.hp_drawing.specs.Scopes as scopes;
ghost use Rattle.hp_drawing.specs.Seen.{sketch_of};

use crate::draft::Draft;
use crate::parts::{Callee, Entry, Value};
use hp_circuit::Shape;
use std::alloc::AllocError;

impl Entry {
    /// A name that has this wire.
    pub fn at(wire: usize, shape: Shape) -> Entry
        ensures { result ≡ scopes.entry_at wire shape }
    {
        Entry {
            wire: Some(wire),
            shape,
            hole: wire,
            decl: None,
        }
    }

    /// A name that has this wire, by the declaration of this number.
    pub fn local(number: usize, wire: usize, shape: Shape) -> Entry
        ensures { result ≡ scopes.local_entry number wire shape }
    {
        Entry {
            wire: Some(wire),
            shape,
            hole: wire,
            decl: Some(number),
        }
    }

    /// A name without a value.
    pub fn unseen(shape: Shape) -> Entry
        ensures { result ≡ scopes.unseen_entry shape }
    {
        Entry {
            wire: None,
            shape,
            hole: 0,
            decl: None,
        }
    }
}

impl Callee {
    /// An output, by its place. There is no memory for so many wires that it has no number.
    #[tactic(auto, unfolding(crate::specs::DrawnExpressions::output))]
    pub fn output(self, place: usize, draft: &Draft) -> Result<Value, AllocError>
        ensures { IfOk result (λ v. v ≡ drawn.output self place (sketch_of draft.now)) }
    {
        let Some(wire) = self.outputs.checked_add(place) else {
            return Err(AllocError);
        };
        let shape = match draft.shape(wire) {
            None => Shape::Truth,
            Some(shape) => shape,
        };
        Ok(Value { wire, shape })
    }

    /// Gives an input its value, by its place. There is no memory for so many wires that it has no number.
    #[tactic(auto, unfolding(crate::specs::DrawnExpressions::takes_input))]
    pub fn takes(self, place: usize, value: Value, draft: &mut Draft) -> Result<(), AllocError>
        ensures { OnOk result (sketch_of draft.new ≡ drawn.takes_input self place value (sketch_of draft.old)) }
    {
        let Some(input) = self.inputs.checked_add(place) else {
            return Err(AllocError);
        };
        draft.define(input, value)?;
        draft.read(self.reads, value.wire)
    }
}
