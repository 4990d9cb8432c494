//! Laws of `hp_typing`, `hp_init`: in each reaction of an accepted program places have values of their types where their clocks are there. Used by the laws of the passes and of contracts.
#![tactic(auto)]

pub mod accepted;
pub mod filled;
pub mod valued;
