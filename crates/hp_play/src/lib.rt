//! Losing plays of the game on a Boolean machine: at each instant the environment takes early values by which every choice loses. Invariant: where a violation is forced a play is found; it is one of the game, ends in a violation, and is as short as any that is forced. Used by `hp_reasons`, which shows why a contract is lost.
//!
//! Proved: what `losing_play` and `replay` say. No clause says which of several shortest plays is shown, nor what is marked in `free`.
#![tactic(auto)]

mod forcing;
mod instant;
mod losing;
mod picking;
mod replaying;

pub use instant::{Instant, Outcome};
pub use losing::losing_play;
pub use replaying::replay;
