//! What clocked equations mean, and that they have one reaction.
//!
//! The functions here do nothing: each is a law, which its contract states.
#![tactic(auto)]

ghost use Rattle.law_equations.specs.Meaning.Kinding.{OneReactionLaw, OutputsOfKindsLaw};
ghost use Rattle.law_equations.specs.Meaning.Solving.{OnlyLaw, SomeLaw};

/// Ranked equations have at most one reaction over some inputs, and one where each instant can be solved.
pub fn ranked_equations_are_solved()
    ensures only { OnlyLaw }
    ensures some { SomeLaw }
{}

/// A node that is well made has exactly one reaction over inputs of its kinds; in it clocks fit, and its outputs are of their kinds.
pub fn nodes_have_one_reaction()
    ensures one { OneReactionLaw }
    ensures outputs { OutputsOfKindsLaw }
{}
