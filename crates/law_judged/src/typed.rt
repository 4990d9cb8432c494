//! What the passes behind the judgements may rely on: in a judged program each expression has its type.
//!
//! The function here does nothing: it is a law, which its contract states.
#![tactic(auto)]

ghost use Rattle.law_judged.specs.Typed.Typed.{TypedLaw};

/// In a program whose names are well used and whose types agree, each expression has a type, and each name and constructor that stands
/// somewhere is known there. Each `merge` has to have a part, as it has in the tree of every text.
pub fn judged_programs_have_types()
    ensures { TypedLaw }
{}
