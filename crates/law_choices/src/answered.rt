//! Laws: nodes that define their controllable variables themselves answer as the program does under one choice of the values of these variables.
//!
//! The functions here do nothing: each is a law, which its contract states.
#![tactic(auto)]

ghost use Rattle.law_choices.specs.Answered.Loops.{ControlledLoopLaw, ExtendedLoopLaw, LoopLaw, LoopsLaw, OwnLoopLaw, ThenLaw};
ghost use Rattle.law_choices.specs.Answered.Programs.{AllowedLaw, ClosedProgramLaw, ClosedTextLaw};

use crate::choosing::programs_have_one_meaning_under_each_choice;
use crate::streams::{chosen_answers_are_alike, meanings_give_the_chosen_reactions};
use hp_controller::added_equations_give_inputs;
use law_equations::fitting::{calls_are_kept, targets_differ};
use law_equations::meaning::nodes_have_one_reaction;

/// What a node answers that has equations for its controllable variables, the node answers in which these are inputs, where the values are chosen that they have in the former.
/// So it is of nodes in turn: the values that are chosen are of the kinds of the variables.
pub fn closed_loops_answer_under_a_choice()
    ensures one { LoopLaw }
    ensures nodes { LoopsLaw }
{
    nodes_have_one_reaction();
}

/// A node whose equations stay, with equations behind them that define its last inputs and new variables, closes the node as it was; it may be extended first.
/// A node that asks a controller defines its controllable variables at each instant.
pub fn extended_nodes_close()
    ensures extended { ExtendedLoopLaw }
    ensures itself { OwnLoopLaw }
    ensures in_two_steps { ThenLaw }
    ensures controlled { ControlledLoopLaw }
{
    added_equations_give_inputs();
}

/// Each answer is one that the program allows: it is the output of the program's one reaction in which the controllable variables have chosen values, each of its type, in each instant and in each instance at every depth.
/// What is chosen are the values that these variables have in the nodes that define them.
pub fn closed_programs_answer_as_the_program_allows()
    ensures allowed { AllowedLaw }
    ensures ready { ClosedProgramLaw }
    ensures text { ClosedTextLaw }
{
    closed_loops_answer_under_a_choice();
    targets_differ();
    calls_are_kept();
    programs_have_one_meaning_under_each_choice();
    chosen_answers_are_alike();
    meanings_give_the_chosen_reactions();
}
