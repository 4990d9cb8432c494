//! Laws: over the same inputs there are no two runs of chosen values.
//!
//! The functions here do nothing: each is a law, which its contract states. That some choice is taken is not said: a machine that decides the game gives one.
#![tactic(auto)]

ghost use Rattle.law_choices.specs.Once.Laws.{DeterminedLaw, FollowedLaw, OneChosenReactionLaw, OneChosenRunLaw, ReadyReactionLaw, ReadyRunLaw, SomeChosenRunLaw};

use hp_meaning::contract::{kept_is_safe, one_choice, one_steered_run};
use law_games::ready_games::contracts_call_nothing;

/// What is known before a choice leaves at most one that is taken, and so it is with what a strategy gives.
pub fn choices_are_determined()
    ensures chosen { DeterminedLaw }
    ensures followed { FollowedLaw }
{
    one_choice();
}

/// In a ranked program whose clocks are right and whose contracts call nothing, two reactions over the same inputs in which each instance, at every depth, has the values that are chosen agree at every place of every instant. So two runs give the same outputs. Some node that calls one with controllable variables meets all of this.
pub fn chosen_runs_are_one()
    ensures reaction { OneChosenReactionLaw }
    ensures run { OneChosenRunLaw }
    ensures some { SomeChosenRunLaw }
{
    kept_is_safe();
    one_steered_run();
    choices_are_determined();
}

/// So it is in each ready program with ranks.
pub fn ready_runs_are_one()
    ensures reaction { ReadyReactionLaw }
    ensures run { ReadyRunLaw }
{
    contracts_call_nothing();
    chosen_runs_are_one();
}
