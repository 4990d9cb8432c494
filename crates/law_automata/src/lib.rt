//! Laws of `hp_automata`: removing automata keeps reactions, values, clocks and ranks. Used by `law_wellmade`, `law_history`, `law_drawing`, `law_choices`.
#![tactic(auto)]

pub mod classed;
pub mod lowerable;
pub mod lowered;
pub mod readied;
