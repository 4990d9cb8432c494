//! The circuit that is drawn of a node has what the mirror asks of it, as far as that is shown: its slots, what registers hold at first, and which free places are early.
//!
//! The functions here do nothing: each is a law, which its contract states.
#![tactic(auto)]

ghost use Rattle.law_drawing.specs.Carried.Early.{EarlyLaw};
ghost use Rattle.law_drawing.specs.Carried.Laws.{NodeSlotsLaw};

/// In a judged program the circuit that is drawn of a node has the node's slots, in order, and its registers begin as memory does.
pub fn nodes_have_their_slots()
    ensures { NodeSlotsLaw }
{}

/// Where each free slot of that circuit is early exactly where its place is, the places that the circuit has early are the node's early places.
pub fn early_places_are_told()
    ensures { EarlyLaw }
{}
