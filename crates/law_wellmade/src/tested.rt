//! Laws: tests are typed in a program without automata.
//!
//! The functions here do nothing: each is a law, which its contract states.
#![tactic(auto)]

ghost use Rattle.law_wellmade.specs.Tested.Laws.{ContractsApartLaw, DifferLaw, TestedLaw};

/// No constructor of a ready program without its automata stands twice.
pub fn constructors_differ()
    ensures { DifferLaw }
{}

/// Tests are typed in a ready program without its automata: at each clock, `merge` and `switch` the constructors are apart, and of the type of what is tested.
pub fn tests_are_typed()
    ensures { TestedLaw }
{}

/// In the contracts of a ready program no constructor stands twice among the parts of a `merge` or the arms of a `switch`.
pub fn contracts_are_apart()
    ensures { ContractsApartLaw }
{}
