//! Why a contract is kept or lost, as lines of words: its machine, what the variables of this stand for in the names of the source, and a shortest play where it is lost. Invariant: only what is found of the machine is written, and a play was replayed on its gates. Used by `hp_why`.
//!
//! Proved: what `reason_of` says of the machine and of the play. The lines are tested alone, through what `tools/hept-why` makes of them (`tools/tests/test_why.py`).
#![tactic(auto)]

mod because;
mod error;
mod labels;
mod machine;
mod names;
mod page;
mod parts;
mod reason;
mod slots;
mod source;
mod values;

pub use error::WhyErr;
pub use reason::{Reason, facts, reason_of};
