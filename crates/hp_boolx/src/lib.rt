//! Boolean machines, and the game on them: the environment chooses early values, the controller controls, and the environment late values. Invariant: gates stand behind what they read. Used by `hp_circuit` and all crates of games above it.
#![tactic(auto)]

mod checked;
mod evaluation;
mod gate;
mod laws;
mod machine;

pub use checked::Parts;
pub use evaluation::eval;
pub use gate::Gate;
pub use laws::{certificates_prove, choice_is_found, forced_is_decided, rounds_solve};
pub use machine::{BoolMachine, Counts};
