//! Laws of programs with controllable variables: with their values given there is one reaction and one meaning, and the choice is the machine's.
#![tactic(auto)]

pub mod adding;
pub mod answered;
pub mod choosing;
pub mod chosen;
pub mod closed;
pub mod coded;
pub mod depending;
pub mod filled;
pub mod flat;
pub mod in_turn;
pub mod independent;
pub mod instances;
pub mod observed;
pub mod on_clocks;
pub mod once;
pub mod one_for_one;
pub mod ordered;
pub mod part;
pub mod places;
pub mod playing;
pub mod runs;
pub mod seeing;
pub mod streams;
pub mod undisturbed;
