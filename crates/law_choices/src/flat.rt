//! Laws: where the values of controllable variables are given by the inputs of their instances so far, the clocked equations of a program's nodes answer as its nodes do.
//!
//! The functions here do nothing: each is a law, which its contract states.
#![tactic(auto)]

ghost use Rattle.law_choices.specs.Flat.Laws.{BehaveLaw, EquationsAnswerLaw, SomeAnswersLaw};
ghost use Rattle.law_choices.specs.Flat.Names.{NamesLaw};
ghost use Rattle.law_choices.specs.Flat.Places.{PlacesLaw};

/// In the filled form of a ranked program each node answers on all inputs with the chosen values, and behaves so wherever it is called.
pub fn chosen_nodes_answer()
    ensures some { SomeAnswersLaw }
    ensures behave { BehaveLaw }
{}

/// The clocked equations that are made of a node answer under the same choice as the node does, where the values that it chooses are of the types.
pub fn equations_answer_under_each_choice()
    ensures { EquationsAnswerLaw }
{}

/// They have a reaction under the choice in which the variable of each name of the node's body has the values that the name has in the node.
pub fn equations_keep_names_under_each_choice()
    ensures { NamesLaw }
{}

/// The variables of those that compare or call stand for the places of comparisons and calls, and in such a reaction each variable that stands for a place has the values of the place.
pub fn equations_keep_places_under_each_choice()
    ensures { PlacesLaw }
{}
