//! Removing automata keeps the reactions, the right clocks and the ranks of a program.
//!
//! The functions here do nothing: each is a law, which its contract states.
#![tactic(auto)]

ghost use Rattle.law_automata.specs.Lowered.Laws.{AllRightLaw, ClocksLaw, NodeRanksLaw, OnlyLaw, OutputsLaw, RanksLaw, ReadLaw, RealLaw, UncontrolledLaw};

/// Each reaction of a program in which conditions of transitions have truth values gives one of the program without automata that stands
/// for it; where that program has ranks, it has no other. Both give the same outputs.
pub fn reactions_are_kept()
    ensures as_read { ReadLaw }
    ensures real { RealLaw }
    ensures only { OnlyLaw }
    ensures outputs { OutputsLaw }
    ensures uncontrolled { UncontrolledLaw }
{}

/// Where the clocks of a node, or of a program, are right, they are right without automata too.
pub fn clocks_are_kept()
    ensures node { ClocksLaw }
    ensures program { AllRightLaw }
{}

/// Where a node, or a program, has ranks, it has ranks without automata too: no place then depends on itself.
pub fn ranks_are_kept()
    ensures node { NodeRanksLaw }
    ensures program { RanksLaw }
{}
