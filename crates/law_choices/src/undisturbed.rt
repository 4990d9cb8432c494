//! Laws: in ready programs no pass adds a dependence on what a node is given.
//!
//! The functions here do nothing: each is a law, which its contract states.
#![tactic(auto)]

ghost use Rattle.law_choices.specs.Depending.Contracts.{ContractsLaw, ReadsOutputsLaw};
ghost use Rattle.law_choices.specs.Undisturbed.Laws.{ApartLaw, PlacesLaw, ReadyLaw};

use crate::depending::{
    early_events_depend_on_no_choice, early_places_depend_on_no_choice, events_add_no_dependence,
    passes_add_no_dependence, places_add_no_dependence,
};
use crate::independent::{automata_add_no_dependence, independent_names_stay_so};
use crate::places::walks_find_places;
use hp_meaning::causal::{ranked_is_causal, ranks_of_points};
use law_values::accepted::ready_programs_are_accepted;

/// Controllable variables of a ready program are neither inputs nor outputs.
pub fn controls_are_apart()
    ensures { ApartLaw }
{}

/// In a ready program an output or a local on the base clock depends on no more inputs and controllable variables without automata, and neither does its variable in clocked equations.
pub fn ready_programs_keep_dependence()
    ensures { ReadyLaw }
{
    automata_add_no_dependence();
    independent_names_stay_so();
    passes_add_no_dependence();
    ranked_is_causal();
    ranks_of_points();
    ready_programs_are_accepted();
}

/// Nor do variables of places of a node's outermost block depend on more of them than the places do, and those of early places, also of comparisons and calls that a walk finds, depend on no controllable variable.
pub fn ready_programs_keep_places()
    ensures { PlacesLaw }
{
    early_events_depend_on_no_choice();
    early_places_depend_on_no_choice();
    places_add_no_dependence();
    ranks_of_points();
    ready_programs_are_accepted();
}

/// A free place of a contract on the base clock, outside of all blocks, depends in the observer on the input that stands for an output only where the place depends on the output in the node.
pub fn observers_read_no_more()
    ensures { ReadsOutputsLaw }
{}

/// So what stands for an early place of a contract in clocked equations of the observer depends on no input that stands for an output which depends on a controllable variable.
pub fn ready_programs_keep_contracts()
    ensures { ContractsLaw }
{
    events_add_no_dependence();
    walks_find_places();
    ranks_of_points();
}
