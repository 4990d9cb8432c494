//! Laws: clocked equations depend on no more of what a node is given than the node does.
//!
//! The functions here do nothing: each is a law, which its contract states.
#![tactic(auto)]

ghost use Rattle.law_choices.specs.Depending.Found.{EarlyEventsLaw, EventPlacesLaw, FoundEarlyLaw, FoundPlaceLaw, LabelsMeanLaw};
ghost use Rattle.law_choices.specs.Depending.Laws.{BothLaw, NodeLaw, VariablesLaw};
ghost use Rattle.law_choices.specs.Depending.Places.{EarlyPlaceLaw, PlaceLaw};
ghost use Rattle.law_choices.specs.Depending.Targets.{TargetsLaw};

use crate::places::walks_find_places;
use hp_meaning::causal::{causal_is_ranked, clocks_make_no_cycle, ranked_is_causal, same_reads};
use law_automata::lowered::{clocks_are_kept, ranks_are_kept};

/// Where a name of the body on the base clock does not depend on an input or a controllable variable, the variable of clocked equations that stands for it does not.
pub fn flattening_adds_no_dependence()
    ensures { NodeLaw }
{
    causal_is_ranked();
    clocks_make_no_cycle();
    same_reads();
}

/// So it is where automata are removed first.
pub fn passes_add_no_dependence()
    ensures { BothLaw }
{
    causal_is_ranked();
    clocks_are_kept();
    clocks_make_no_cycle();
    ranked_is_causal();
    ranks_are_kept();
    same_reads();
}

/// The variables of outputs stand for their names in the body, and the first variables for what is given.
pub fn variables_of_outputs_and_inputs()
    ensures { VariablesLaw }
{}

/// A variable that stands for a name of the body, as that of an output, is a target of an equation.
pub fn names_are_targets()
    ensures { TargetsLaw }
{}

/// What a place of the outermost block of a node does not depend on, of inputs and controllable variables, no variable that stands for it without automata depends on.
pub fn places_add_no_dependence()
    ensures { PlaceLaw }
{
    causal_is_ranked();
    clocks_are_kept();
    ranks_are_kept();
}

/// So the variable of an early place there depends on no controllable variable.
pub fn early_places_depend_on_no_choice()
    ensures { EarlyPlaceLaw }
{
    places_add_no_dependence();
}

/// So it is of each comparison and call that a walk over the node finds, also in conditions of strong transitions, and of the place that stands for it without automata.
pub fn found_places_add_no_dependence()
    ensures { FoundPlaceLaw }
{
    causal_is_ranked();
    clocks_are_kept();
    ranks_are_kept();
}

/// So what stands for an early one depends on no controllable variable.
pub fn found_early_places_depend_on_no_choice()
    ensures { FoundEarlyLaw }
{
    found_places_add_no_dependence();
}

/// Where the targets of the equations of comparisons and calls stand for their places, so it is of these targets, beside a walk over the node.
pub fn events_add_no_dependence()
    ensures { EventPlacesLaw }
{
    found_places_add_no_dependence();
    walks_find_places();
}

/// And they depend on no controllable variable where their places are early.
pub fn early_events_depend_on_no_choice()
    ensures { EarlyEventsLaw }
{
    found_early_places_depend_on_no_choice();
    walks_find_places();
}

/// Where the equations that compare or call are made of the labels of a body, their targets stand for the places of its comparisons and calls.
pub fn labels_name_targets()
    ensures { LabelsMeanLaw }
{}
