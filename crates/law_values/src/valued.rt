//! The values of accepted programs: of which types they are, where they are there, and where they may be Nil.
//!
//! The functions here do nothing: each is a law, which its contract states.
#![tactic(auto)]

ghost use Rattle.law_values.specs.Valued.Values.{FilledLaw, RealLaw, ValuesLaw};

/// In each reaction of a program whose judgements hold, each place has a value of its type exactly where its clock is there, and is Nil
/// only at a place of class Second; in the filled form none is Nil.
pub fn values_fit()
    ensures any { ValuesLaw }
    ensures real { RealLaw }
    ensures filled { FilledLaw }
{}
