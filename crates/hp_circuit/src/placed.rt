//! The machine of a circuit: there is one, and its valuations are codes, one for each slot.
//!
//! The functions here do nothing: each is a law, which its contract states.
#![tactic(auto)]

ghost use Rattle.hp_circuit.specs.One.{OneMachineLaw};
ghost use Rattle.hp_circuit.specs.Placed.Valuations.{MadeOfCodesLaw, SlotNumbersLaw, ToldLaw, ValidCodesLaw};

/// Each valuation is made of codes, one for each slot, and in it each slot has the number that its code spells. It is valid exactly where each code that is given spells a value.
pub fn valuations_are_codes()
    ensures made { MadeOfCodesLaw }
    ensures numbers { SlotNumbersLaw }
    ensures valid { ValidCodesLaw }
{}

/// The gates of a machine say at codes what any numbers say that solve its circuit there.
pub fn gates_tell_solutions()
    ensures { ToldLaw }
{}

/// Two circuits with the same wires and slots have one machine, gate by gate.
pub fn circuits_have_one_machine()
    ensures { OneMachineLaw }
{}
