//! Laws: in the reactions of an accepted program each value is there as the clocks of its flat equations are.
//!
//! The functions here do nothing: each is a law, which its contract states.
#![tactic(auto)]

ghost use Rattle.law_wellmade.specs.Timely.Laws.{BeginsLaw, FittingLaw, KeepsLaw, MadeFittingLaw};

/// In each reaction of a node of an accepted program over inputs of its kinds its flat equations fit; so the clocked equations that are made of
/// a node stand for flat names that fit.
pub fn reactions_fit()
    ensures flat { FittingLaw }
    ensures made { MadeFittingLaw }
{}

/// What the equations of a node keep is what the node remembers, and each `fby` has a first value.
pub fn what_is_kept_is_remembered()
    ensures keeps { KeepsLaw }
    ensures begins { BeginsLaw }
{}
