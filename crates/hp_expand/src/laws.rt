//! What shapes and counts say of programs. The functions here do nothing: each is a law, which its contract states.
ghost use Rattle.hp_expand.specs.FirstBreach.{FirstIsNamed};
ghost use Rattle.hp_expand.specs.Fitting.{CountedAsReplaced};
ghost use Rattle.hp_expand.specs.CallNumbers.{CallsWithinPlaces};
ghost use Rattle.hp_expand.specs.NewNumbers.{NamesAreWhole, NumbersWithinPlaces};
ghost use Rattle.hp_expand.specs.Plain.{NoneIsLeft, PlainStays};

/// What is counted of a node is what there is in it once its inlined calls are replaced, where each of them fits the node that it
/// names: this has no contract and as many inputs as there are arguments, and gives as many values as names are defined by it.
#[tactic(auto, using(crate::proofs::Rules::counted))]
pub fn counts_are_those_of_replaced_nodes()
    ensures { CountedAsReplaced }
{}

/// Of the shapes that a node breaks the one that is named is broken at the first place in the text.
pub fn named_breaches_are_first()
    ensures { FirstIsNamed }
{}

/// No inlined call is left of a program; and one that has none, and declares no name with the sign of new ones, stays as it is.
#[tactic(auto, using(crate::proofs::Rules::plain))]
pub fn expanded_programs_are_plain()
    ensures plain { NoneIsLeft }
    ensures stays { PlainStays }
{}

/// A node whose inlined calls are replaced, where each fits the node that it names, has no more new variables than places; and no more
/// inlined calls than places and equations without a name. With such numbers new names are whole, where the old ones are no longer
/// than names of a source text, numbered or not.
#[tactic(auto, using(crate::proofs::Rules::within_places))]
pub fn numbers_are_within_places()
    ensures variables { NumbersWithinPlaces }
    ensures calls { CallsWithinPlaces }
    ensures names { NamesAreWhole }
{}
