//! Laws: the Boolean abstraction of an accepted program has values that fit, and Nil does not bear on what its contract says.
//!
//! The functions here do nothing: each is a law, which its contract states.
#![tactic(auto)]

ghost use Rattle.law_games.specs.Abstracted.Laws.{AbstractAgreeLaw, AbstractFitsLaw};

/// Each abstract instant of an accepted program fits, over what fits; and where it is not Nil it agrees with the one without Nil.
pub fn abstractions_agree()
    ensures fits { AbstractFitsLaw }
    ensures agree { AbstractAgreeLaw }
{}
