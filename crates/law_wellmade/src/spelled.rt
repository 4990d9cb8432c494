//! Laws: what the program of a text spells.
//!
//! The functions here do nothing: each is a law, which its contract states.
#![tactic(auto)]

ghost use Rattle.law_wellmade.specs.Spelled.Laws.{ReplacedContractsLaw, ReplacedIntegersLaw, ReplacedTextIntegersLaw, TextIntegersLaw, TypesLaw};

/// The integers that the program of a text writes are of 32 bits, also where its inlined calls are replaced.
pub fn integers_of_texts_are_short()
    ensures text { TextIntegersLaw }
    ensures replaced { ReplacedIntegersLaw }
    ensures replaced_text { ReplacedTextIntegersLaw }
    ensures contracts { ReplacedContractsLaw }
{}

/// The types of a text have the form that types of machines have.
pub fn types_of_texts_have_form()
    ensures { TypesLaw }
{}
