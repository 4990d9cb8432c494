//! Typed wires of a node of a ready program are read with values in the shapes of its slots, so slots have the numbers of these values.
//!
//! The functions here do nothing: each is a law, which its contract states.
#![tactic(auto)]

ghost use Rattle.law_drawing.specs.Inshape.Laws.{NodeNumbersLaw, NodeShapeLaw, ZerosLaw};

/// Registers hold values of their shapes, and what is given is of its types; so slots have the numbers of these. Zeros have the number zero.
pub fn slots_are_in_shape()
    ensures shape { NodeShapeLaw }
    ensures numbers { NodeNumbersLaw }
    ensures zeros { ZerosLaw }
{}
