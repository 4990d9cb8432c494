//! Laws: the nodes that are made of a program, of which those with contracts choose the values of their controllable variables, stand in turn and mean what the program allows.
//!
//! The functions here do nothing: each is a law, which its contract states.
#![tactic(auto)]

ghost use Rattle.law_choices.specs.InTurn.Allowed.{AllowedRunLaw};
ghost use Rattle.law_choices.specs.InTurn.Laws.{ChoosingProgramLaw, TellingLaw, TurnLaw, WithinLaw};
ghost use Rattle.law_choices.specs.InTurn.Observed.{ObservedLaw};
ghost use Rattle.law_choices.specs.InTurn.Observers.{ObserverLaw};
ghost use Rattle.law_choices.specs.InTurn.Standing.{StandsLaw};
ghost use Rattle.law_choices.specs.InTurn.Telling.{TellsForLaw};
ghost use Rattle.law_choices.specs.InTurn.Texts.{SignLaw, TextLaw};
ghost use Rattle.law_choices.specs.InTurn.Worked.{SomeContractedLaw};

use crate::adding::{
    callees_may_differ_elsewhere, equations_may_be_added, made_nodes_may_be_added_to,
    watched_nodes_choose,
};
use crate::answered::{closed_programs_answer_as_the_program_allows, extended_nodes_close};
use crate::on_clocks::programs_have_one_meaning;
use crate::runs::chosen_values_make_one_reaction;
use hp_controller::lines_give_their_functions;
use law_equations::fitting::{calls_are_kept, targets_differ};
use law_equations::meaning::nodes_have_one_reaction;
use law_wellmade::lettered::names_are_spelled;

/// The nodes stand in turn: controllers, nodes that choose, and those that tell what a contract assumes and enforces. Each is well made, and calls those before it alone.
/// So they have one meaning: each answer is an output of the program's one reaction in which all controllable variables have values of their types; and what tells a contract answers the same, with what is assumed and enforced behind.
pub fn nodes_that_choose_stand_in_turn()
    ensures turn { TurnLaw }
    ensures within { WithinLaw }
    ensures means { ChoosingProgramLaw }
    ensures tells { TellingLaw }
{
    callees_may_differ_elsewhere();
    equations_may_be_added();
    made_nodes_may_be_added_to();
    watched_nodes_choose();
    extended_nodes_close();
    targets_differ();
    calls_are_kept();
    nodes_have_one_reaction();
    programs_have_one_meaning();
    closed_programs_answer_as_the_program_allows();
}

/// One of the nodes that are made stands for each node of the program: it has its name, and takes values of the kinds of its inputs.
pub fn a_node_stands_for_each()
    ensures { StandsLaw }
{
    callees_may_differ_elsewhere();
    equations_may_be_added();
    made_nodes_may_be_added_to();
    watched_nodes_choose();
    extended_nodes_close();
    targets_differ();
    calls_are_kept();
}

/// Of each node with a contract one of the nodes that are made tells the contract: it takes what the node takes, and answers what the node answers, with what is assumed and enforced behind.
pub fn a_node_tells_each_contract()
    ensures { TellsForLaw }
{
    callees_may_differ_elsewhere();
    equations_may_be_added();
    made_nodes_may_be_added_to();
    watched_nodes_choose();
    extended_nodes_close();
    targets_differ();
    calls_are_kept();
    nodes_have_one_reaction();
}

/// Line by line: the answers of a node are the outputs of a reaction of the program in which all controllable variables have values of their types.
pub fn nodes_that_choose_answer_as_the_program_allows()
    ensures { AllowedRunLaw }
{
    chosen_values_make_one_reaction();
}

/// What is asked of a program is so of that of a text that the judgements accept: no name of its nodes holds the sign.
pub fn programs_of_texts_may_choose()
    ensures text { TextLaw }
    ensures sign { SignLaw }
{
    names_are_spelled();
}

/// Observers whose clocked equations are well built, and take what their nodes take and give, suit: the comparisons of the contract are free in them.
pub fn well_built_observers_suit()
    ensures { ObserverLaw }
{}

/// So it is of the observers of the contracts of a ready program, where they can be compiled; and they call nothing.
pub fn observers_of_contracts_suit()
    ensures { ObservedLaw }
{
    callees_may_differ_elsewhere();
    made_nodes_may_be_added_to();
    calls_are_kept();
}

/// A node whose contract asks for nothing has a controller, is watched, and chooses.
pub fn a_worked_contract()
    ensures { SomeContractedLaw }
{
    lines_give_their_functions();
}
