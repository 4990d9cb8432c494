//! The machine of scheduled equations. Invariant: a step of the machine is an instant of the equations. Used by `hp_machines`; its specs by `hp_form` and the laws.
#![tactic(auto)]

mod command;
mod declare;
mod label;
mod laws;
mod machine;
mod place;
mod table;

pub use laws::{clocks_are_followed, names_differ};
pub use machine::to_machine;
pub use table::Tables;
