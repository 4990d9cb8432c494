//! Laws: what the variables and equations that are made of a node have of what is asked of clocked equations.
//!
//! The functions here do nothing: each is a law, which its contract states.
#![tactic(auto)]

ghost use Rattle.law_equations.specs.Fitting.Fitting.{CallsLaw, FreeNamesLaw, NamesLaw, TargetsLaw};

/// The names of the variables differ, and none is that of a memory or an instance.
pub fn names_fit()
    ensures { NamesLaw }
{}

/// None of the names is one that is made for a variable of a larger number.
pub fn larger_names_are_free()
    ensures { FreeNamesLaw }
{}

/// No equation has a target twice.
pub fn targets_differ()
    ensures { TargetsLaw }
{}

/// The nodes that the equations call are those that the tree calls.
pub fn calls_are_kept()
    ensures { CallsLaw }
{}
