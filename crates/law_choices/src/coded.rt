//! Laws: the bits of free places that are added to a node are the codes of their values.
//!
//! The functions here do nothing: each is a law, which its contract states.
#![tactic(auto)]

ghost use Rattle.law_choices.specs.Coded.Laws.{CodeBitsLaw, CodedLaw, InputBitsLaw, KindBitsLaw};

/// Where the equations of a node that is watched hold, its early and late variables have the bits of the values of early and of late places: of the variable where its clock holds, and of some value of its type elsewhere.
pub fn bits_are_codes()
    ensures { CodedLaw }
{}

/// The bits of a value are those of its kind, in clocked equations as in the machine of a contract; so the bits of the inputs of a node are those of their values.
pub fn bits_are_those_of_kinds()
    ensures kinds { KindBitsLaw }
    ensures codes { CodeBitsLaw }
    ensures inputs { InputBitsLaw }
{}
