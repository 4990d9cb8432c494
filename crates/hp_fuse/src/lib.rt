//! Neighbouring cases of machines, joined. Invariant: the step does the same to every store. Used by `hp_machines`; its specs by `hp_form`, `law_equations`.
#![tactic(auto)]

mod error;
mod join;
mod levels;
mod sets;

pub use error::FuseErr;
pub use levels::fuse;
