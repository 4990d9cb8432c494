//! What is supposed and owed in the circuit of a node that calls nothing.
//!
//! The functions here do nothing: each is a law, which its contract states.
#![tactic(auto)]

ghost use Rattle.law_drawing.specs.Uncalled.Laws.{UncalledLaw};

/// Where a node calls nothing, its circuit supposes what the node assumes, and owes what it enforces.
pub fn nothing_else_is_owed()
    ensures { UncalledLaw }
{}
