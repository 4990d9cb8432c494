//! Which points of a node read which at one instant, and why a ranked program has exactly one reaction.
//!
//! The functions here do nothing: each is a law, which its contract states.
#![tactic(auto)]

mod point;

ghost use Rattle.hp_meaning.specs.Causal.Agreement.{AbstractGivenLaw, GivenLaw, OneByControlsLaw, OneByFreeLaw};
ghost use Rattle.hp_meaning.specs.Causal.Causality.{CausalLaw, CausalProgramLaw, ClocksLaw, OrderLaw};
ghost use Rattle.hp_meaning.specs.Causal.InputDependence.{SameReadsLaw};
ghost use Rattle.hp_meaning.specs.Causal.Runs.{OneRunLaw, SomeRunLaw};
ghost use Rattle.hp_meaning.specs.Causal.Steering.{AbstractSteeringLaw, UnsteeredLaw, SteeringLaw};
ghost use Rattle.hp_meaning.specs.Causal.RanksOfPoints.{AllRanksLaw, PointsLaw, RanksLaw};
ghost use Rattle.hp_meaning.specs.Causal.OneReaction.{AbstractHistoryLaw, AbstractLaw, CausalReactionLaw, FilledLaw, InstantLaw, PrefixLaw, ReactionLaw, ReactionLawRead};

pub use point::{Point, PointKind};

/// In a ranked program there is exactly one instant of each node after each past, under each reading; so in the filled form.
pub fn one_instant()
    ensures as_read { InstantLaw }
    ensures filled { FilledLaw }
{}

/// In a ranked program there is exactly one reaction of each node over each list of inputs, and so in a causal one whose clocks are right.
pub fn one_reaction()
    ensures as_it_is { ReactionLaw }
    ensures of_causal { CausalReactionLaw }
    ensures as_read { ReactionLawRead }
{}

/// What is given is looked at at the controllable variables of the instances that are there, and in the abstraction at the comparisons and outputs of calls that are there: where it agrees there, an instant meets the one as the other.
pub fn given_values()
    ensures real { GivenLaw }
    ensures in_abstraction { AbstractGivenLaw }
{}

/// So in a ranked program there is one reaction, and one abstract instant, for all given values that agree there.
pub fn one_by_given_values()
    ensures reaction { OneByControlsLaw }
    ensures abstract_instant { OneByFreeLaw }
{}

/// In a ranked program a reaction over more inputs begins with the one over the fewer.
pub fn reactions_begin()
    ensures { PrefixLaw }
{}

/// A ranked program without controllable variables has one run over each list of inputs.
pub fn one_run()
    ensures some { SomeRunLaw }
    ensures only { OneRunLaw }
{}

/// In the Boolean abstraction of a node of a ranked program there is exactly one instant after each history.
pub fn one_abstract_instant()
    ensures instant { AbstractLaw }
    ensures history { AbstractHistoryLaw }
{}

/// A node whose places have ranks is causal: no place reads itself by one or more steps.
pub fn ranked_is_causal()
    ensures { CausalLaw }
{}

/// What a place of a node depends on are points of the node.
pub fn sources_are_points()
    ensures { PointsLaw }
{}

/// Where the points of a node have ranks that fall along what they depend on, all its places have.
pub fn ranks_of_points()
    ensures node { RanksLaw }
    ensures program { AllRanksLaw }
{}

/// In a ranked program what does not depend on the controllable variables of a node has the same value, whatever theirs are.
pub fn steering()
    ensures real { SteeringLaw }
    ensures in_abstraction { AbstractSteeringLaw }
    ensures early { UnsteeredLaw }
{}

/// Where an input is a place too, what is read besides inputs is the same.
pub fn same_reads()
    ensures { SameReadsLaw }
{}

/// Where clocks are right, a causal node has no cycle of dependences.
pub fn clocks_make_no_cycle()
    ensures { ClocksLaw }
{}

/// A causal node whose names are declared and whose clocks are right has ranks, and so has a program of such nodes.
pub fn causal_is_ranked()
    ensures node { OrderLaw }
    ensures program { CausalProgramLaw }
{}
