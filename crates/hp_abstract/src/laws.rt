//! What is known of the machines of contracts. The function here does nothing: it is a law, which its contract states.
ghost use Rattle.hp_abstract.specs.Abstractions.{OneAbstractionLaw};

/// A node has one abstraction, gate by gate.
pub fn nodes_have_one_abstraction()
    ensures { OneAbstractionLaw }
{}
