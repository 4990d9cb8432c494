//! Where inlined calls are replaced, names stay in their scopes.
//!
//! The functions here do nothing: each is a law, which its contract states.
#![tactic(auto)]

ghost use Rattle.law_judged.specs.Replaced.Judged.{CallsFitLaw, FewVariablesLaw, JudgedReplacedLaw};
ghost use Rattle.law_judged.specs.Replaced.Laws.{NumberedLaw, ReplacedLaw, ReplacedNodeLaw};

/// Numbering the new variables of a node keeps its names in their scopes.
pub fn numbering_keeps_scopes()
    ensures { NumberedLaw }
{}

/// In a program whose inlined calls are replaced names are in their scopes, where the names of its text have no sign, each call fits
/// the node that it calls, and there are numbers enough.
pub fn replacing_keeps_scopes()
    ensures node { ReplacedNodeLaw }
    ensures program { ReplacedLaw }
{}

/// In a program whose expressions have types each inlined call fits the node that it calls.
pub fn typed_calls_fit()
    ensures { CallsFitLaw }
{}

/// In a program that keeps its limits there are numbers enough.
pub fn numbers_are_enough()
    ensures { FewVariablesLaw }
{}

/// So in a judged program whose inlined calls are replaced names are in their scopes, each local is declared once and has an equation,
/// and what control equations define is declared.
pub fn judged_programs_keep_scopes()
    ensures { JudgedReplacedLaw }
{}
