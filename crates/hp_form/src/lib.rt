//! Whether types, machines and clocked equations have the form that is asked for. Invariant: a yes is that they have it. Used by `hp_machines`, `hp_controlled`; its specs by the laws.
#![tactic(auto)]

mod command;
mod declare;
mod error;
mod file;
mod kind;
mod levels;
mod machine;
mod numbers;
pub mod regular;
mod scope;
mod spelling;
mod types;

pub use error::FormErr;
pub use file::formed;
