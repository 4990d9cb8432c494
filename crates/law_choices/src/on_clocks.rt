//! Laws: variables of the clocked equations that are made of a ready program have clocks, so that its nodes are well made.
//!
//! The functions here do nothing: each is a law, which its contract states.
#![tactic(auto)]

ghost use Rattle.law_choices.specs.Closed.Compilable.{CompilableLaw};
ghost use Rattle.law_choices.specs.OnClocks.Clocks.{ClocksLaw, OwnClocksLaw};
ghost use Rattle.law_choices.specs.OnClocks.Meaning.{MeaningLaw};
ghost use Rattle.law_choices.specs.OnClocks.Programs.{ReadyLaw, StreamLaw, TextMeaningLaw};
ghost use Rattle.law_choices.specs.OnClocks.WellMade.{CalleesLaw, MadeLaw, ReactionsLaw, TextLaw};

use law_equations::fewer::nodes_are_compiled;
use law_equations::fitting::{calls_are_kept, targets_differ};
use law_equations::meaning::nodes_have_one_reaction;
use law_history::streams::machines_give_the_history;
use law_wellmade::apart::names_are_apart;
use law_wellmade::suited::nodes_suit;

/// The variables of each node have clocks: what an equation tests and reads is there where it is, and each variable is defined wherever its clock holds.
/// An equation that is no copy defines variables of its own clock. A ready program without its automata is one that can be compiled.
pub fn variables_have_clocks()
    ensures compilable { CompilableLaw }
    ensures clocks { ClocksLaw }
    ensures own { OwnClocksLaw }
{}

/// Each node is well made, so that it has exactly one reaction over inputs of its kinds.
pub fn nodes_are_well_made()
    ensures made { MadeLaw }
    ensures callees { CalleesLaw }
    ensures reactions { ReactionsLaw }
    ensures text { TextLaw }
{
    targets_differ();
    nodes_have_one_reaction();
}

/// Nodes that are well made, each of which calls those before it alone, answer in one way on arguments of their kinds; so do the nodes of a program.
pub fn programs_have_one_meaning()
    ensures nodes { MeaningLaw }
    ensures ready { ReadyLaw }
    ensures text { TextMeaningLaw }
{
    targets_differ();
    calls_are_kept();
    nodes_have_one_reaction();
}

/// What the one meaning of a program's clocked equations answers are the outputs of the program's runs.
pub fn meanings_give_the_runs()
    ensures { StreamLaw }
{
    names_are_apart();
    nodes_suit();
    nodes_are_compiled();
    machines_give_the_history();
}
