//! The front: the program of a source text, judged, arranged and ordered, or why it is refused. Invariant: the refusal is that of the first judgement that fails, and no other fits the text. Used by `hp_driver`.
#![tactic(auto)]

mod arranging;
mod judging;
mod laws;
mod refusal;

pub use arranging::{arrange, front};
pub use judging::judge;
pub use laws::{one_cause, one_walk};
pub use refusal::{Place, Refusal};
