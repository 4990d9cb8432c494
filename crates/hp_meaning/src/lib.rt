//! The meaning of the language: which places read which, exactly one reaction, allowed and shortest clocks, contracts as games. Laws and definitions alone, below the code. Used by `hp_clocks`, `hp_init`, `hp_cause`, `hp_compile`, `hp_drawing`, `hp_abstract`, `hp_driver` and the laws.
#![tactic(auto)]

pub mod causal;
pub mod clocking;
pub mod contract;
