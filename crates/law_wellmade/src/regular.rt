//! Laws: the clocked equations of a program without automata are regular, and their kinds agree.
//!
//! The functions here do nothing: each is a law, which its contract states.
#![tactic(auto)]

ghost use Rattle.law_wellmade.specs.Regular.Kinds.{FoundLaw, KindsLaw, TypesLaw};
ghost use Rattle.law_wellmade.specs.Regular.Laws.{ClocksLaw, ConstantsLaw, LoweredLaw, RegularLaw};

/// Clocks name constructors of the types of their variables, constants are of the types, and copies have the types of what they copy.
pub fn equations_are_regular()
    ensures { RegularLaw }
{}

/// The constants of equations are integers of 32 bits where those of the program with its automata are.
pub fn integers_are_short()
    ensures constants { ConstantsLaw }
    ensures clocks { ClocksLaw }
    ensures lowered { LoweredLaw }
{}

/// Operators get operands of the right kinds, registers next values, calls arguments and targets, and restart lists truth values; and each variable is of a type that is declared and has a value.
pub fn kinds_agree()
    ensures kinds { KindsLaw }
    ensures variables { TypesLaw }
    ensures found { FoundLaw }
{}
