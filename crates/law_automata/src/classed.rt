//! Laws: a program without its automata is initialised as it was before.
//!
//! The function here does nothing: it is a law, which its contract states.
#![tactic(auto)]

ghost use Rattle.law_automata.specs.Classed.Laws.{ClassesLaw};

/// Each node of a ready program has classes where its automata are removed.
pub fn removing_automata_keeps_classes()
    ensures { ClassesLaw }
{}
