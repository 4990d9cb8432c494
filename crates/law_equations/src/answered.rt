//! Laws: the clocked equations of a program's nodes answer as its nodes do.
//!
//! The functions here do nothing: each is a law, which its contract states.
#![tactic(auto)]

ghost use Rattle.law_equations.specs.Answered.Short.{ShortLaw};
ghost use Rattle.law_equations.specs.Answered.Laws.{AllAnswersLaw, AnsweredLaw, BehaveLaw, FirstsLaw, FitsLaw, MadeFlatLaw, NodeAnswersLaw, SomeAnswersLaw};

/// In the filled form of a ranked program each node answers on all inputs; and without controllable variables it behaves so wherever it is called.
pub fn nodes_answer()
    ensures some { SomeAnswersLaw }
    ensures behave { BehaveLaw }
{}

/// So a reaction of a node without automata is, read by variables that stand for its flat names, a reaction of clocked equations with the same
/// answers; and the equations that are made of a node of a program stand for its flat names.
pub fn equations_answer()
    ensures flat { NodeAnswersLaw }
    ensures made { MadeFlatLaw }
{}

/// Clocked equations that stand for flat names fit where these do.
pub fn equations_fit()
    ensures { FitsLaw }
{}

/// So a node answers as its clocked equations do, where these fit in each of its reactions; and what it answers are the outputs of its reactions.
pub fn nodes_answer_as_their_equations()
    ensures answered { AnsweredLaw }
    ensures all { AllAnswersLaw }
{}

/// Where the first values of the filled form are given to a node, each call is given those of its node.
pub fn calls_are_given_first_values()
    ensures { FirstsLaw }
{}

/// Where constants, inputs and answers are integers of 32 bits, so is each integer of a reaction of clocked equations.
pub fn integers_are_short()
    ensures { ShortLaw }
{}
