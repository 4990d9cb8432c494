//! Quantifiers, composition and other passes over whole decision diagrams. Invariant: the table grows, and references keep their functions. Used by `hp_synth`, `hp_control`, `hp_cert`, `hp_verdicts`, `hp_controller`.
#![tactic(auto)]

mod implication;
mod line;
mod memo;
mod pair;
mod quantifier;
mod replacement;
mod sweeping;
mod turns;

pub use implication::implies;
pub use line::{Line, import, import_line, reference};
pub use memo::Memo;
pub use quantifier::{all_marked, either_marked, exists, forall, some_marked};
pub use replacement::{compose, compose_all, compose_with};
pub use sweeping::sweep;
