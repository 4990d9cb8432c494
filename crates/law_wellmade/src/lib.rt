//! Laws of `hp_automata`, `hp_complete`, `hp_form`: the clocked equations of a program are well made, that is in time, in no circle, regular, with names and clocks as machines ask. Used by `hp_driver` and the laws above.
#![tactic(auto)]

pub mod acyclic;
pub mod apart;
pub mod begun;
pub mod lettered;
pub mod nested;
pub mod parted;
pub mod regular;
pub mod spelled;
pub mod suited;
pub mod tested;
pub mod timely;
