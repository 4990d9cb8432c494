//! The permitted choices of a solved machine, and the functions of a controller: the preferred one of them, bit by bit. Invariant: the choice is permitted at every valuation where one is. Used by `hp_cert`, `hp_verdicts`, `hp_controller`, `hp_games`.
#![tactic(auto)]

mod choosing;
mod controlling;
mod permitted;

pub use choosing::{functions, permissive, played_functions};
pub use controlling::put;
pub use permitted::permitted_at;
