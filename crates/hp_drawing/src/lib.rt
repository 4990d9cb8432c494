//! The circuit of a node's contract as a definition over plain data, which `hp_abstract` computes. Invariant: definitions alone, and laws of its slots. Used by `hp_abstract`, `hp_verdicts` and the laws.
#![tactic(auto)]

ghost use Rattle.hp_drawing.specs.Laws.{SlotsPlannedLaw};

pub mod chain;
mod draft;
mod entry;
mod lines;
pub mod operator;
mod parts;
mod place;
pub mod slotted;

pub use draft::{BASE, Draft, FALSE, TRUE};
pub use parts::{
    Callee, Clock, Constructor, Entered, Entry, Jump, Lines, Place, Register, Rests, Value,
};

/// The slots of what is drawn of a node are those that are planned. The function does nothing: it is a law, which its contract states.
pub fn slots_are_planned()
    ensures { SlotsPlannedLaw }
{}
