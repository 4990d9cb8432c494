//! The slots of what is drawn of a node are those of its abstraction.
//!
//! The function here does nothing: it is a law, which its contract states.
#![tactic(auto)]

ghost use Rattle.hp_drawing.specs.Slotted.Laws.{NodeSlotsLaw};

/// In a judged program the slots of what is drawn of a node are those of its abstraction, in order, and registers hold at first what memory has of no history.
pub fn drawn_slots_are_the_nodes()
    ensures { NodeSlotsLaw }
{}
