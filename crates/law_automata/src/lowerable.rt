//! Judged and arranged programs meet what removing automata asks of them, so it keeps their runs.
//!
//! The functions here do nothing: each is a law, which its contract states.
#![tactic(auto)]

ghost use Rattle.law_automata.specs.Lowerable.Laws.{DecidedLaw, FilledDecidedLaw, KeptLaw, RemovableTextLaw, RunLaw};

/// The automata of an arranged program of a text may be removed.
pub fn automata_of_texts_may_be_removed()
    ensures { RemovableTextLaw }
{}

/// In each reaction of a ready program conditions of transitions have truth values, in the language and in the filled form.
pub fn conditions_have_truth_values()
    ensures real { DecidedLaw }
    ensures filled { FilledDecidedLaw }
{}

/// So removing the automata of a ready program without controllable variables keeps its reactions and runs, and gives it no others.
pub fn removing_automata_keeps_runs()
    ensures reactions { KeptLaw }
    ensures runs { RunLaw }
{}
