//! Laws: with the values of controllable variables given by the inputs of their instances so far, a program and what it becomes have one reaction, and they agree.
//!
//! The functions here do nothing: each is a law, which its contract states.
#![tactic(auto)]

ghost use Rattle.law_choices.specs.Runs.Laws.{LoweredLaw, OfProgramLaw, OneLaw};

use hp_meaning::causal::ranks_of_points;
use law_automata::lowered::{ranks_are_kept, reactions_are_kept};

/// In a ranked program there is exactly one reaction over each list of inputs in which the controllable variables of every instance have the chosen values; and it is a reaction of the program.
pub fn chosen_values_make_one_reaction()
    ensures one { OneLaw }
    ensures of_program { OfProgramLaw }
{}

/// A ready program has exactly one reaction with the chosen values over each list of inputs of the types, and without its automata exactly one, which agrees with it on the names of the signature and of the body.
pub fn removing_automata_keeps_chosen_reactions()
    ensures { LoweredLaw }
{
    ranks_of_points();
    ranks_are_kept();
    reactions_are_kept();
}
