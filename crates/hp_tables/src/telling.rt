//! How the clock of a definition is told: by its first name, or else by the names of its right side.
#![tactic(auto)]

mod clock;

pub use clock::{Telling, told_by};
