//! The wires that are drawn of a node read each other in no circle: not those of any node of an accepted program.
//!
//! The functions here do nothing: each is a law, which its contract states.
#![tactic(auto)]

ghost use Rattle.law_drawing.specs.NoCircle.Laws.{NoCircleLaw, NodeCircleLaw};

/// In what is drawn of a node that has types and ranks, as it is asked of nodes, no wire reads itself by some chain. So none stays open, which would be a copy of itself.
pub fn drawn_wires_are_in_no_circle()
    ensures { NodeCircleLaw }
{}

/// So it is of each node of a ready program: it has types, its declarations have names of their own, its calls fit, and the ranks of its places fall along what they read.
pub fn ready_nodes_have_no_circle()
    ensures { NoCircleLaw }
{}
