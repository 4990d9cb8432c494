//! The machine of scheduled equations follows each of their reactions, and so do the machines of a program.
//!
//! The functions here do nothing: each is a law, which its contract states.
#![tactic(auto)]

ghost use Rattle.law_equations.specs.Followed.Following.{AnsweredLaw, ConstantsLaw, MemoryLaw, OutputsLaw, RunLaw, StepLaw};
ghost use Rattle.law_equations.specs.Followed.Premises.{OwnNamesLaw};
ghost use Rattle.law_equations.specs.Followed.Programs.{FusedLaw, ProgramLaw, ProgramRunLaw};

/// The machine of scheduled equations does in each step what an instant of a reaction does, and so over the inputs of each reaction.
pub fn machines_follow()
    ensures step { StepLaw }
    ensures memory { MemoryLaw }
    ensures outputs { OutputsLaw }
    ensures run { RunLaw }
    ensures answered { AnsweredLaw }
{}

/// The constants that are written for values of types tell them.
pub fn constants_tell()
    ensures { ConstantsLaw }
{}

/// Names of a source text, and names with another letter behind the sign, are none of memories and instances.
pub fn names_are_own()
    ensures { OwnNamesLaw }
{}

/// The machines of nodes in order answer as the nodes do, also where their neighbouring cases are joined.
pub fn programs_follow()
    ensures answers { ProgramLaw }
    ensures joined { FusedLaw }
    ensures runs { ProgramRunLaw }
{}
