//! Laws: the observers of the contracts of a program can be compiled, as its nodes can.
//!
//! The functions here do nothing: each is a law, which its contract states.
#![tactic(auto)]

ghost use Rattle.law_choices.specs.Observed.Laws.{CanBeObservedLaw, TestedObserversLaw};
ghost use Rattle.law_choices.specs.Observed.Texts.{ObservableTextsLaw};
ghost use Rattle.law_choices.specs.Observed.Worked.{SomeObservedLaw};

/// The observers of a ready program can be compiled where their tests are typed: they are sound and whole without automata, their names differ, their clocks are right, and they call nothing. The contracts hold no call, and their names and integers are such as those of a text.
pub fn observers_can_be_compiled()
    ensures { CanBeObservedLaw }
{}

/// The tests of the observers of a ready program are typed: at each clock, `merge` and `switch` the constructors are apart, and of the type of what is tested.
pub fn tests_of_observers_are_typed()
    ensures { TestedObserversLaw }
{}

/// The contracts of the program of a text have such names and integers.
pub fn contracts_of_texts_can_be_observed()
    ensures { ObservableTextsLaw }
{}

/// A node whose contract enforces its output: all that is asked of it and of its observer is met.
pub fn a_worked_observer()
    ensures { SomeObservedLaw }
{}
