//! Laws: what the variables and equations stand for that are made of a node without automata, one after the other.
//!
//! The functions here do nothing: each is a law, which its contract states.
#![tactic(auto)]

ghost use Rattle.law_equations.specs.Made.Laws.{MadeLaw, MadePlacesLaw};

/// The equations that are made of a node stand for those over its flat names.
pub fn made_equations_stand_for_flat_names()
    ensures { MadeLaw }
{}

/// The equations that compare or call are, in their order, those of the comparisons and calls of its body, and their variables stand for the places of these.
pub fn comparisons_and_calls_have_places()
    ensures { MadePlacesLaw }
{}
