//! Laws: each reaction of a node without automata is one of its clocked equations.
#![tactic(auto)]

ghost use Rattle.law_equations.specs.Flattened.Laws.{FlattenLaw};
ghost use Rattle.law_equations.specs.Flattened.Numbered.{NumberedLaw};

/// Each reaction of a node without automata is a reaction of what it becomes as clocked equations.
pub fn flattening_keeps_reactions()
    ensures { FlattenLaw }
{}

/// A reaction of flat names is one of the clocked equations whose variables stand for them.
pub fn variables_stand_for_names()
    ensures { NumberedLaw }
{}
