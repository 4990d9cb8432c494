//! Laws: the instances of machines are no more than what is counted of a program, so its machines are within the executor's limits.
//!
//! The functions here do nothing: each is a law, which its contract states.
#![tactic(auto)]

ghost use Rattle.law_history.specs.Counted.Laws.{FewLaw, LoweredLaw, MachineLaw, MadeLaw, NeverLaw};

/// The equations of a node call what its tree calls, and no more; removing automata brings no calls; and the instances of a machine are
/// calls of its equations.
pub fn instances_are_calls()
    ensures made { MadeLaw }
    ensures lowered { LoweredLaw }
    ensures machine { MachineLaw }
{}

/// So the machines of the program of a text that the judgements accept, and that is arranged, are within the limits of the executor.
pub fn machines_of_texts_are_few()
    ensures few { FewLaw }
    ensures never { NeverLaw }
{}
