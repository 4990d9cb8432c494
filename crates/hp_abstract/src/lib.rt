//! The Boolean machine of a node's contract: the circuit of its Boolean abstraction, from the tree. Invariant: it is the circuit that `hp_drawing` defines. Used by `hp_verdicts`, `hp_controlled`, `hp_driver`; its specs by `law_decided`.
#![tactic(auto)]

mod abstracted;
mod block;
mod call;
mod circuit;
mod clock;
mod contract;
mod definition;
mod error;
mod expression;
mod lasts;
mod laws;
mod layers;
mod machine;
mod scope;
mod shape;
mod table;
mod words;

pub use abstracted::Abstraction;
pub use error::AbsErr;
pub use hp_circuit::{Given, Shape, shape_width};
pub use laws::nodes_have_one_abstraction;
pub use machine::{abstract_node, abstraction};
