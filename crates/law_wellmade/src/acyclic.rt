//! Laws: clocked equations that are made of a node whose places have ranks never read each other in a circle.
//!
//! The function here does nothing: it is a law, which its contract states.
#![tactic(auto)]

ghost use Rattle.law_wellmade.specs.Acyclic.Laws.{NodeLaw, NoCircleLaw};

/// The equations of a ranked node read each other in no circle, and so do those of each node of a ranked program.
pub fn equations_read_in_no_circle()
    ensures node { NodeLaw }
    ensures program { NoCircleLaw }
{}
