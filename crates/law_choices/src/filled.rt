//! Laws: with the values of controllable variables given by the inputs of their instances so far, the filled form of a program has one reaction, and it agrees with that of the language.
//!
//! The functions here do nothing: each is a law, which its contract states.
#![tactic(auto)]

ghost use Rattle.law_choices.specs.Filled.Laws.{AgreeLaw, FitsLaw, OneLaw, OutputsLaw};
ghost use Rattle.law_choices.specs.Filled.Ready.{ChoicesKeptLaw, ReadyLaw};

use crate::runs::removing_automata_keeps_chosen_reactions;
use hp_meaning::causal::ranks_of_points;
use law_automata::classed::removing_automata_keeps_classes;
use law_automata::lowered::ranks_are_kept;
use law_automata::readied::programs_with_classes_are_accepted;
use law_values::filled::programs_have_first_values;

/// In a ranked program the filled form has exactly one reaction with the chosen values over each list of inputs; in an accepted program its instants fit.
pub fn chosen_values_make_one_filled_reaction()
    ensures one { OneLaw }
    ensures fit { FitsLaw }
{}

/// It has the value of the language's reaction with the same chosen values wherever that is not Nil, and the same outputs.
pub fn filled_reactions_agree_under_each_choice()
    ensures places { AgreeLaw }
    ensures outputs { OutputsLaw }
{}

/// So it is of a ready program and the filled form of it without its automata: each has exactly one reaction with the chosen values, and they give the same outputs.
pub fn ready_programs_have_one_filled_reaction()
    ensures choices { ChoicesKeptLaw }
    ensures ready { ReadyLaw }
{
    removing_automata_keeps_classes();
    programs_with_classes_are_accepted();
    ranks_of_points();
    ranks_are_kept();
    programs_have_first_values();
    removing_automata_keeps_chosen_reactions();
}
