//! The filled form of the language: what it is given fits, it has one reaction over each list of inputs, and that is the language's wherever
//! the latter is not Nil.
//!
//! The functions here do nothing: each is a law, which its contract states.
#![tactic(auto)]

ghost use Rattle.law_values.specs.Filled.Laws.{AgreeLaw, AloneLaw, FilledAgreesLaw, FilledFitsLaw, FirstValueLaw, FirstsFitLaw, OneFilledLaw, ReadyFirstsLaw, ReadyFormLaw, ReadyOutputsLaw, SameOutputsLaw, TextTypesLaw};

/// An enumeration with a constructor has a first value.
pub fn types_have_first_values()
    ensures { FirstValueLaw }
{}

/// In an accepted program whose declarations have first values, what the filled form is given fits, and so does each instant of its reactions.
pub fn first_values_fit()
    ensures given { FirstsFitLaw }
    ensures alone { AloneLaw }
    ensures instants { FilledFitsLaw }
{}

/// In a ranked program the filled form has exactly one reaction over each list of inputs.
pub fn one_filled_reaction()
    ensures { OneFilledLaw }
{}

/// A reaction of the language and one of the filled form have the same value wherever the first one's is not Nil, and the same outputs.
pub fn filled_reactions_agree()
    ensures given { AgreeLaw }
    ensures places { FilledAgreesLaw }
    ensures outputs { SameOutputsLaw }
{}

/// Each enumeration of the program of a text has a constructor, so each declaration of a ready program has a type with a first value.
pub fn programs_have_first_values()
    ensures text { TextTypesLaw }
    ensures ready { ReadyFirstsLaw }
{}

/// A ready program has a reaction of its filled form, whose instants fit and with which each reaction of the language agrees; it gives the
/// same outputs.
pub fn ready_programs_have_filled_reactions()
    ensures form { ReadyFormLaw }
    ensures outputs { ReadyOutputsLaw }
{}
