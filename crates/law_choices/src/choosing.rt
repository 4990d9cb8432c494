//! Laws: with the values of controllable variables given by the inputs of their instances so far, clocked equations have one meaning.
//!
//! The functions here do nothing: each is a law, which its contract states.
#![tactic(auto)]

ghost use Rattle.law_choices.specs.Choosing.Choices.{OneReactionLaw};
ghost use Rattle.law_choices.specs.Choosing.Meaning.{MeaningLaw, UncontrolledLaw};
ghost use Rattle.law_choices.specs.Choosing.Programs.{ReadyLaw, TextLaw};

use law_equations::fitting::{calls_are_kept, targets_differ};
use law_equations::meaning::nodes_have_one_reaction;

/// A node that is well made has exactly one reaction over inputs of its kinds in which its controllable variables have the chosen values, whatever the nodes that it calls answer of their kinds.
pub fn chosen_nodes_have_one_reaction()
    ensures { OneReactionLaw }
{
    nodes_have_one_reaction();
}

/// With the chosen values nodes answer in one way on what calls give them: nodes in turn, and so those of a program.
/// Where none has a controllable variable, it is the one meaning that they have without choices.
pub fn programs_have_one_meaning_under_each_choice()
    ensures nodes { MeaningLaw }
    ensures ready { ReadyLaw }
    ensures text { TextLaw }
    ensures uncontrolled { UncontrolledLaw }
{
    targets_differ();
    calls_are_kept();
    nodes_have_one_reaction();
}
