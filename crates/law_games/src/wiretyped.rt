//! The wires of accepted programs: their values are of the types of the program, so registers stay in shape.
//!
//! The functions here do nothing: each is a law, which its contract states.
#![tactic(auto)]

ghost use Rattle.law_games.specs.Wiretyped.Fitting.{ChoiceLaw, InputsLaw, OutputsLaw};
ghost use Rattle.law_games.specs.Wiretyped.Laws.{MemoryLaw, ShapeLaw, SoundLaw, StartLaw, TypedLaw, WiringLaw};

/// Circuits keep types: where registers are in shape, inputs and given values fit and all wires are typed, so is what the circuits give of them. Typed wires are sound, and the next memory is in shape, as the one before the first instant is. So typed wires that solve the circuits after a history are its wires, and the memory that the longer history leaves is in shape. It is the memory of contracts, where each node is found in the program as it is found behind the node.
pub fn wires_are_typed()
    ensures circuits { TypedLaw }
    ensures sound { SoundLaw }
    ensures shape { ShapeLaw }
    ensures start { StartLaw }
    ensures wiring { WiringLaw }
    ensures memory { MemoryLaw }
{}

/// What the game of a contract is played with fits: inputs of the abstraction, the values of a choice, and what is given for the outputs of calls.
pub fn games_fit_wires()
    ensures inputs { InputsLaw }
    ensures choice { ChoiceLaw }
    ensures outputs { OutputsLaw }
{}
