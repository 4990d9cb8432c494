//! Laws of `hp_past`: in each reaction of an accepted program what contracts remember are formulas, and what unfolding adds remembers them. `hp_driver` uses them for what `past` writes.
//!
//! The functions here do nothing: each is a law, which its contract states.
#![tactic(auto)]

ghost use Rattle.law_past.specs.OneBit.{OneBitLaw};
ghost use Rattle.law_past.specs.Remembered.{BooleanLaw, FormulaLaw};
ghost use Rattle.law_past.specs.Unfolded.{KeptLaw, UnfoldedLaw, WrittenLaw};

/// In each reaction of an accepted program the variables of a formula that a contract remembers are Boolean, so the variable that remembers it is true exactly where the formula holds. In the Boolean abstraction of the node it is one bit.
pub fn formulas_of_accepted_programs_are_remembered()
    ensures boolean { BooleanLaw }
    ensures value { FormulaLaw }
    ensures bit { OneBitLaw }
{}

/// A contract still remembers its formulas where inlined calls are replaced and clocks are written. So in the accepted program of a text that is written of an unfolded program each new variable has, at
/// each instant of each reaction of its node, the value of its formula.
pub fn unfolded_formulas_have_their_values()
    ensures kept { KeptLaw }
    ensures unfolded { UnfoldedLaw }
    ensures written { WrittenLaw }
{}
