//! Laws: the comparisons and calls among a node's equations, by their order, and how a walk over the tree finds them.
//!
//! The functions here do nothing: each is a law, which its contract states.
#![tactic(auto)]

ghost use Rattle.law_choices.specs.Places.Laws.{CountLaw, EventsLaw, FoundLaw, SlotsLaw, WalkLaw};
ghost use Rattle.law_choices.specs.Places.Standing.{StandingLaw};
ghost use Rattle.law_choices.specs.Places.Values.{ValuesLaw};

/// The equations of comparisons and calls that are made of a node without automata are those of its comparisons and calls, in turn: with that operator and one target, or with that callee and a target for each output.
pub fn events_are_places()
    ensures { EventsLaw }
{}

/// A walk over a node finds its comparisons and calls in the order of slots, each where it stands in what is made of the node without automata. Beside the numbers of the equations that are made of it finds theirs, leaves none, and there are as many as the tree tells.
pub fn walks_find_places()
    ensures places { WalkLaw }
    ensures numbers { FoundLaw }
    ensures count { CountLaw }
{}

/// The free places of a block are some of the places that the walk finds, in their order, where the contracts of callees compare no integers.
pub fn free_places_are_found()
    ensures { SlotsLaw }
{}

/// Where an instant without automata stands for one of the program, what the walk finds has the same values in both, wherever it is there.
pub fn found_places_keep_values()
    ensures { ValuesLaw }
{}

/// Where the variables of what compares or calls stand for the places that its labels name, so do those of the equations that the walk finds.
pub fn found_places_have_variables()
    ensures { StandingLaw }
{}
