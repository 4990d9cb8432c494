//! The names that equations define, and layers of names with numbers.
#![tactic(auto)]

mod layer;
mod names;

pub use layer::{Layer, declared_names, sight};
pub use names::{controls_in, names_in, names_of, names_of_arms, names_of_states, outer_names};
