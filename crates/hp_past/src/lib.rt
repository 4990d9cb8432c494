//! Past-time formulas of contracts replaced by variables that remember. Invariant: the unfolded program is the one of the definition, and each variable that it adds with `last` remembers a formula. Used by `hp_driver` (`past`).
#![tactic(auto)]

mod additions;
mod contracts;
mod error;
mod expressions;
mod formula;
mod laws;
mod names;
mod programs;
mod text;

pub use error::PastErr;
pub use laws::{
    formulas_are_remembered, unfolded_contracts_remember, unfolded_programs_are_read_back,
};
pub use programs::unfold;
