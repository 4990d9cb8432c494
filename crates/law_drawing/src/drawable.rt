//! Accepted programs can be drawn: the nodes of a ready program meet what is asked of nodes that are drawn.
//!
//! The functions here do nothing: each is a law, which its contract states.
#![tactic(auto)]

ghost use Rattle.law_drawing.specs.Drawable.Fitting.{FitsLaw, ToldLaw};
ghost use Rattle.law_drawing.specs.Drawable.Laws.{DrawableLaw};

/// In a ready program each node can be drawn, and so can those that it may call: names are declared and defined once, constructors in clocks and arms are of the types of what they are compared with, and constructors have the numbers of their values.
pub fn ready_nodes_can_be_drawn()
    ensures { DrawableLaw }
{}

/// The tables of the program tell the nodes that a node may call, and its calls fit the nodes that they name.
pub fn calls_of_ready_nodes_fit()
    ensures told { ToldLaw }
    ensures fits { FitsLaw }
{}
