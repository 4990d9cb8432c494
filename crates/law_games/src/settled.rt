//! The one wiring of a ranked node of an accepted program: its values are of the types of the program.
//!
//! The functions here do nothing: each is a law, which its contract states.
#![tactic(auto)]

ghost use Rattle.law_games.specs.Settled.Laws.{SettledLaw, TypedLaw, WiringLaw, ZeroValueLaw, ZerosLaw};

/// Where any wires of a ranked node are typed, those that solve its circuits are; and first values at each place are typed. So the one wiring of a ranked node is typed, and after each history that left registers in shape the next memory is in shape too. What a register of a type holds before the first instant is a value of the type.
pub fn wires_settle()
    ensures settled { SettledLaw }
    ensures zeros { ZerosLaw }
    ensures typed { TypedLaw }
    ensures wiring { WiringLaw }
    ensures value { ZeroValueLaw }
{}
