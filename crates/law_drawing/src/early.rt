//! Which free slots of the circuit that is drawn of a node are early: those whose places are, as far as that is shown.
//!
//! The functions here do nothing: each is a law, which its contract states.
#![tactic(auto)]

ghost use Rattle.law_drawing.specs.Early.Flags.{FlagsLaw};
ghost use Rattle.law_drawing.specs.Early.Right.{RightLaw};

/// A free slot may be early by its role exactly where its place stands in the node itself on the base clock.
pub fn slots_are_flagged()
    ensures { FlagsLaw }
{}

/// Where each such slot whose place depends on a controllable variable has a wire that reads one, each free slot of the circuit is early exactly where its place is.
pub fn early_slots_are_right()
    ensures { RightLaw }
{}
