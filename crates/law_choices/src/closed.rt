//! Laws: clocked equations that are made of a program read nothing that is undefined, define nothing twice, and fit where variables have clocks.
//!
//! The functions here do nothing: each is a law, which its contract states.
#![tactic(auto)]

ghost use Rattle.law_choices.specs.Closed.Clocking.{FitLaw, SomeLaw, WellMadeLaw};
ghost use Rattle.law_choices.specs.Closed.Closed.{ClosedLaw, WithinLaw};
ghost use Rattle.law_choices.specs.Closed.Exclusive.{ExclusiveLaw, PartedLaw};

/// Each variable of a node is an input or a target of an equation, and so is each that stands in an equation: all numbers are those of variables.
pub fn equations_are_closed()
    ensures closed { ClosedLaw }
    ensures within { WithinLaw }
{}

/// Two equations that define one variable have clocks that part; so whatever the values at an instant are, no two that are there define one variable.
pub fn equations_are_exclusive()
    ensures parted { PartedLaw }
    ensures exclusive { ExclusiveLaw }
{}

/// Where the variables of a closed node have clocks, whatever is read is there at each possible instant; so a node that has shape is well made.
pub fn clocks_fit()
    ensures fit { FitLaw }
    ensures made { WellMadeLaw }
    ensures some { SomeLaw }
{}
