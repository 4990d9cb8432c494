//! Laws: removing automata keeps reactions one for one, where the values of controllable variables are given.
//!
//! The functions here do nothing: each is a law, which its contract states.
#![tactic(auto)]

ghost use Rattle.law_choices.specs.OneForOne.Always.{AlwaysLaw};
ghost use Rattle.law_choices.specs.OneForOne.Laws.{GivenLaw};

use hp_meaning::causal::{one_reaction, ranks_of_points};
use law_automata::lowerable::conditions_have_truth_values;
use law_automata::lowered::{ranks_are_kept, reactions_are_kept};

/// Over each list of inputs of its types, and for the same values of the controllable variables of the node and of every instance below, a node of a ready program has exactly one reaction, and without automata exactly one;
/// they agree on inputs, controllable variables, outputs, the names of the body and each expression of the text.
pub fn reactions_are_kept_one_for_one()
    ensures { GivenLaw }
{
    conditions_have_truth_values();
    one_reaction();
    ranks_are_kept();
    ranks_of_points();
    reactions_are_kept();
}

/// Whatever is given to a program, the same can be given to the program without its automata.
pub fn the_same_can_be_given()
    ensures { AlwaysLaw }
{}
