//! What is drawn of a node of a ready program is a circuit: numbers name wires and slots, and shapes fit.
//!
//! The function here does nothing: it is a law, which its contract states.
#![tactic(auto)]

ghost use Rattle.law_drawing.specs.Form.Laws.{FormLaw};

/// Each circuit that has the lists of what is drawn of a node of a ready program is a circuit.
pub fn drawn_circuits_are_circuits()
    ensures { FormLaw }
{}
