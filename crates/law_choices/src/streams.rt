//! Laws: with the values of controllable variables given by the inputs of their instances so far, what the clocked equations of a program mean is what the program does.
//!
//! The functions here do nothing: each is a law, which its contract states.
#![tactic(auto)]

ghost use Rattle.law_choices.specs.Embedded.Meaning.{ObserversKeepLaw, ObserversKnownLaw};
ghost use Rattle.law_choices.specs.Streams.Alike.{AlikeLaw};
ghost use Rattle.law_choices.specs.Streams.Names.{NamesLaw, TextNamesLaw};
ghost use Rattle.law_choices.specs.Streams.Places.{PlacesLaw};
ghost use Rattle.law_choices.specs.Streams.Streams.{StreamLaw, TextLaw};
ghost use Rattle.law_choices.specs.Streams.Uncontrolled.{NoChoiceLaw, UncontrolledProgramLaw};

use crate::choosing::{
    chosen_nodes_have_one_reaction, programs_have_one_meaning_under_each_choice,
};
use crate::flat::{
    chosen_nodes_answer, equations_answer_under_each_choice,
    equations_keep_names_under_each_choice, equations_keep_places_under_each_choice,
};
use hp_meaning::causal::ranks_of_points;
use law_automata::classed::removing_automata_keeps_classes;
use law_automata::lowered::{ranks_are_kept, reactions_are_kept};
use law_automata::readied::programs_with_classes_are_accepted;
use law_equations::fitting::{calls_are_kept, targets_differ};
use law_equations::meaning::nodes_have_one_reaction;
use law_values::filled::programs_have_first_values;

/// Whatever the nodes of a program answer with the chosen values is what their one meaning answers.
pub fn chosen_answers_are_alike()
    ensures { AlikeLaw }
{
    chosen_nodes_have_one_reaction();
    nodes_have_one_reaction();
}

/// The one meaning of the clocked equations of a ready program under a choice answers with the outputs of the program's one reaction under this choice.
/// Over the same inputs the clocked equations of each node have exactly one reaction with the chosen values, over what the one meaning answers.
/// In it each name of the node's body has a variable, with the value that the name has in the program's one reaction, wherever this is not Nil.
pub fn meanings_give_the_chosen_reactions()
    ensures ready { StreamLaw }
    ensures text { TextLaw }
    ensures names { NamesLaw }
    ensures names_of_text { TextNamesLaw }
{
    programs_have_one_meaning_under_each_choice();
    removing_automata_keeps_classes();
    programs_with_classes_are_accepted();
    ranks_of_points();
    ranks_are_kept();
    targets_differ();
    calls_are_kept();
    chosen_nodes_have_one_reaction();
    nodes_have_one_reaction();
    programs_have_first_values();
    reactions_are_kept();
    chosen_nodes_answer();
    equations_answer_under_each_choice();
    equations_keep_names_under_each_choice();
}

/// In it the variables of what compares or calls stand for places of the program without automata, and they have the values that the comparisons and calls of the node have, wherever these are there and not Nil.
pub fn meanings_keep_places()
    ensures { PlacesLaw }
{
    removing_automata_keeps_classes();
    programs_with_classes_are_accepted();
    ranks_of_points();
    ranks_are_kept();
    targets_differ();
    calls_are_kept();
    chosen_nodes_have_one_reaction();
    nodes_have_one_reaction();
    programs_have_first_values();
    reactions_are_kept();
    chosen_nodes_answer();
    equations_answer_under_each_choice();
    equations_keep_places_under_each_choice();
}

/// So it is of the observers of a program's contracts, though they are no program of a text: their clocked equations have one meaning, in which the places of comparisons have their values. What is known of observers are their outputs.
pub fn observers_keep_places()
    ensures keep { ObserversKeepLaw }
    ensures known { ObserversKnownLaw }
{
    ranks_of_points();
    ranks_are_kept();
    targets_differ();
    calls_are_kept();
    chosen_nodes_have_one_reaction();
    nodes_have_one_reaction();
    reactions_are_kept();
    chosen_nodes_answer();
    equations_answer_under_each_choice();
    equations_keep_places_under_each_choice();
}

/// Where a program has no controllable variable, the one meaning under a choice is the one meaning without choices; and that nothing is chosen is a choice.
pub fn uncontrolled_programs_choose_nothing()
    ensures meaning { UncontrolledProgramLaw }
    ensures nothing { NoChoiceLaw }
{
    programs_have_one_meaning_under_each_choice();
}
