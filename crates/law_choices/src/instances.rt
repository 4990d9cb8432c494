//! Laws: the instance of a call, in a reaction with chosen values, is a reaction of its callee with chosen values; and over inputs of their kinds.
//!
//! The functions here do nothing: each is a law, which its contract states.
#![tactic(auto)]

ghost use Rattle.law_choices.specs.Instances.InKind.{InKindLaw};
ghost use Rattle.law_choices.specs.Instances.Integers.{ShortReactionLaw};
ghost use Rattle.law_choices.specs.Instances.Reacting.{InstancesLaw};

use hp_meaning::causal::ranks_of_points;
use law_drawing::drawable::calls_of_ready_nodes_fit;

/// In a reaction of a ready program in which all controllable variables have chosen values of their types, the instance of each call that is there, with its own past, is such a reaction of the callee, over inputs of its types.
pub fn instances_react_as_callees()
    ensures { InstancesLaw }
{
    calls_of_ready_nodes_fit();
}

/// In a reaction of a ranked program over integers of 32 bits, where it writes no other, and no other is chosen, each integer that an instant holds has 32 bits: at every place, also in each instance.
pub fn instants_hold_short_integers()
    ensures { ShortReactionLaw }
{}

/// So where the node is given inputs of its kinds, the instance of each call that is there is given inputs of the kinds of the callee, at each instant of its own past.
pub fn instances_react_in_kind()
    ensures { InKindLaw }
{
    calls_of_ready_nodes_fit();
    ranks_of_points();
}
