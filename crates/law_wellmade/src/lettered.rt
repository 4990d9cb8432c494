//! Laws: the names that become names of machines and of their variables are spelled as machine texts ask for it.
//!
//! The functions here do nothing: each is a law, which its contract states.
#![tactic(auto)]

ghost use Rattle.law_wellmade.specs.Lettered.Laws.{ClockedNamesLaw, LoweredNamesLaw, MachineNamesLaw, MachineTypesLaw, MadeNamesLaw, ReplacedNamesLaw, TextNamesLaw};

/// The names of a text are short words of letters, digits and `_`, and each pass keeps names that machines may have.
pub fn names_are_spelled()
    ensures text { TextNamesLaw }
    ensures replaced { ReplacedNamesLaw }
    ensures clocked { ClockedNamesLaw }
    ensures lowered { LoweredNamesLaw }
    ensures made { MadeNamesLaw }
{}

/// So the names of the nodes and variables that machines are made of are names of machine texts, and the types have form.
pub fn machines_are_spelled()
    ensures names { MachineNamesLaw }
    ensures types { MachineTypesLaw }
{}
