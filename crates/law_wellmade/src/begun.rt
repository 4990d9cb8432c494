//! Laws: what the registers of a program without automata hold at first.
//!
//! The functions here do nothing: each is a law, which its contract states.
#![tactic(auto)]

ghost use Rattle.law_wellmade.specs.Begun.Laws.{BegunLaw, FewTypesLaw};

/// The first values of registers are those of their types, and fit what the filled form is given.
pub fn registers_begin()
    ensures { BegunLaw }
{}

/// The program of every text has few types, so that each has a number of its own.
pub fn texts_have_few_types()
    ensures { FewTypesLaw }
{}
