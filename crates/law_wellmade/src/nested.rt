//! Laws: the clocks of the equations that are made of a program are short.
//!
//! The functions here do nothing: each is a law, which its contract states.
#![tactic(auto)]

ghost use Rattle.law_wellmade.specs.Nested.Laws.{LoweredLaw, NodeLaw, TextLaw, WrittenLaw};

/// A clock has at most a step for each level of arms around its equation, those that are written, and one more. Removing automata makes
/// no more levels, and no longer clocks.
pub fn clocks_are_within_arms()
    ensures node { NodeLaw }
    ensures written { WrittenLaw }
    ensures lowered { LoweredLaw }
{}

/// So each equation of a program of a text that the judgements accept, and that is arranged, has at most 128 steps.
pub fn clocks_of_texts_are_short()
    ensures { TextLaw }
{}
