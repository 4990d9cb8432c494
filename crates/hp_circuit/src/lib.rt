//! Circuits of one instant: wires, each with a value that other wires and slots give it, and the Boolean machine that has their bits as gates. Invariant: slots keep the order of places. Used by `hp_drawing`, `hp_abstract`, `hp_verdicts`, `hp_controller`, `hp_controlled` and the laws.
#![tactic(auto)]

mod abstraction;
mod bits;
mod circuit;
mod error;
mod form;
mod gates;
mod given;
mod kind;
mod levels;
mod machine;
mod order;
pub mod placed;
mod places;
mod registers;
mod steered;
mod validity;
mod wires;
mod words;

pub use abstraction::Abstraction;
pub use bits::shape_width;
pub use circuit::{Circuit, Role, Shape, Slot, Wire};
pub use error::CircuitErr;
pub use given::Given;
pub use kind::Kind;
pub use machine::{abstraction_of, machine_of};
