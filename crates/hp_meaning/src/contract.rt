//! What a contract means: what an abstraction forgets, what the inputs can force, and which values controllable variables are given.
//!
//! The functions here do nothing: each is a law, which its contract states.
#![tactic(auto)]

ghost use Rattle.hp_meaning.specs.Contract.Codes.{CodeLaw, WidthLaw};
ghost use Rattle.hp_meaning.specs.Contract.Forgetting.{ErasedLaw};
ghost use Rattle.hp_meaning.specs.Contract.FreePlaces.{AbstractEarlyValuesLaw, EarlyValuesLaw};
ghost use Rattle.hp_meaning.specs.Contract.Game.{AllowedLaw, ChoiceTypesLaw, ChosenLaw, ForcedLaw, GuaranteeLaw, KeptLaw, OneChoiceLaw, PermittedLaw};
ghost use Rattle.hp_meaning.specs.Contract.Guarantee.{ErasedNextLaw, GuaranteedLaw, RunGuaranteedLaw, RunKeepsDutyLaw};
ghost use Rattle.hp_meaning.specs.Contract.ChosenRuns.{InstanceLaw, TypedControlsLaw, UncontrolledLaw};
ghost use Rattle.hp_meaning.specs.Contract.SteeredRuns.{ChosenReactionLaw, OneReactionByLaw, OneSteeredLaw, SteeredLaw};

/// So many values take the least number of bits in which each has a code, which is its number.
pub fn codes_of_values()
    ensures numbers { CodeLaw }
    ensures least_bits { WidthLaw }
{}

/// Forgetting turns each instant of a node into an instant of its abstraction.
pub fn forgotten_is_abstract()
    ensures { ErasedLaw }
{}

/// What the inputs force within some instants they force within one more.
pub fn forced_once_more()
    ensures { ForcedLaw }
{}

/// A set of histories that some choice always keeps, together with the duty, is safe.
pub fn kept_is_safe()
    ensures { KeptLaw }
{}

/// After a safe history it cannot be that no choice is permitted; so a choice that is permitted wherever some is, as the one that is taken, is permitted there.
pub fn choice_is_permitted()
    ensures some { PermittedLaw }
    ensures chosen { ChosenLaw }
    ensures allowed { AllowedLaw }
{}

/// There is at most one greatest permitted choice.
pub fn one_choice()
    ensures { OneChoiceLaw }
{}

/// A choice gives each controllable variable a value of its type; so it is in a run, in each instance at every depth.
pub fn choices_are_values()
    ensures choice { ChoiceTypesLaw }
    ensures run { TypedControlsLaw }
{}

/// Where nothing is forced at first, the chosen values keep the duty as long as the hypothesis holds.
pub fn duty_is_kept()
    ensures { GuaranteeLaw }
{}

/// In a ranked program whose clocks are right, for each function that chooses by what is known before the choice, there is exactly one reaction over each list of inputs in which each instance, at every depth, has the values that it chooses.
pub fn one_steered_run()
    ensures { OneReactionByLaw }
{}

/// The meaning in which each node chooses so says the same as that rule.
pub fn steered_meaning()
    ensures one { OneSteeredLaw }
    ensures of_program { SteeredLaw }
    ensures converse { ChosenReactionLaw }
{}

/// In a program without controllable variables each reaction is a run of chosen values.
pub fn run_without_controls()
    ensures { UncontrolledLaw }
{}

/// What a reaction holds at an instant is, erased, an instant of the game.
pub fn reactions_are_instants_of_the_game()
    ensures { ErasedNextLaw }
{}

/// Where nothing is forced at first, a run keeps the duty of its node as long as the hypothesis holds.
pub fn run_keeps_duty()
    ensures { RunKeepsDutyLaw }
{}

/// The instance of each call holds what the callee does, after the own past of the instance.
pub fn instances_hold_callees()
    ensures { InstanceLaw }
{}

/// Where nothing is forced at first in any node with a contract, each instance keeps its contract, at every depth, where choices are permitted wherever some are.
pub fn run_keeps_contracts()
    ensures reaction { GuaranteedLaw }
    ensures run { RunGuaranteedLaw }
{}

/// Early places have the same values whatever the controllable variables of the node are.
pub fn early_values_are_unsteered()
    ensures as_read { EarlyValuesLaw }
    ensures in_abstraction { AbstractEarlyValuesLaw }
{}
