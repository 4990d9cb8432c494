//! Laws: the clocked equations that are made of a node define each variable once wherever it is there.
//!
//! The function here does nothing: it is a law, which its contract states.
#![tactic(auto)]

ghost use Rattle.law_wellmade.specs.Parted.Laws.{NodeLaw, ProgramLaw};

/// Two equations of a node that define one variable are the same, or their clocks part; so it is of each node of a program.
pub fn equations_define_apart()
    ensures node { NodeLaw }
    ensures program { ProgramLaw }
{}
