//! Laws: the part of a node that some of its outputs read, one by another, answers as the node does.
//!
//! The functions here do nothing: each is a law, which its contract states.
#![tactic(auto)]

ghost use Rattle.law_choices.specs.Part.Laws.{AnsweredLaw, NamesLaw, NoInputsLaw, PartLaw, RankedLaw, SomePartLaw, WithinLaw};

/// Each reaction of a node in which clocks fit remains in its part, so the part answers as the node does.
pub fn parts_keep_reactions()
    ensures keeps { PartLaw }
    ensures answers { AnsweredLaw }
{}

/// The part has the ranks of the node; its numbers are those of its variables, whose names differ; and it defines no input.
pub fn parts_keep_form()
    ensures ranked { RankedLaw }
    ensures no_inputs { NoInputsLaw }
    ensures within { WithinLaw }
    ensures names { NamesLaw }
{}

/// A node of which an equation is left out has a part.
pub fn a_worked_part()
    ensures { SomePartLaw }
{}
