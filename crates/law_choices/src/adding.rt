//! Laws: equations that are added to a node keep it well made, where they define what is new and read what is there.
//!
//! The functions here do nothing: each is a law, which its contract states.
#![tactic(auto)]

ghost use Rattle.law_choices.specs.Adding.Base.{BaseLaw};
ghost use Rattle.law_choices.specs.Adding.Called.{CalledLaw};
ghost use Rattle.law_choices.specs.Adding.Choosing.{ChoosingLaw, WatchingLaw};
ghost use Rattle.law_choices.specs.Adding.Controls.{ControlledStaysLaw, StepsKeepLaw};
ghost use Rattle.law_choices.specs.Adding.Embeds.{EmbeddedLaw};
ghost use Rattle.law_choices.specs.Adding.Keeping.{BasedLaw};
ghost use Rattle.law_choices.specs.Adding.Laws.{AddingLaw, BuiltLaw, OrderedLaw, SomeAddingLaw};
ghost use Rattle.law_choices.specs.Adding.Lifts.{BitsLaw, CopyLaw, LiftLaw, SomeLiftLaw};
ghost use Rattle.law_choices.specs.Adding.Made.{BytesLaw, CompiledMadeLaw, ReadyMadeLaw};
ghost use Rattle.law_choices.specs.Adding.Placed.{PlacedLaw, PlacedLoopLaw, PlacedReactionLaw};
ghost use Rattle.law_choices.specs.Adding.Surveyed.{SurveyedLaw};
ghost use Rattle.law_choices.specs.Adding.Watched.{WatchedLaw};
ghost use Rattle.law_choices.specs.Adding.Whole.{WholeLaw};
ghost use Rattle.law_choices.specs.Adding.Worked.{SomeCalledLaw, SomeChoosingLaw, SomeControlledLaw, SomeEmbeddedLaw, SomePlacedLaw, SomeWatchedLaw, SomeWatchingLaw, SomeWholeLaw};

use crate::answered::extended_nodes_close;
use law_equations::fitting::targets_differ;

/// A node that has shape, is closed, defines nothing twice and has clocks is well built; it stays so where equations are added to it, and with ranks it is well made.
pub fn equations_may_be_added()
    ensures built { BuiltLaw }
    ensures adding { AddingLaw }
    ensures ordered { OrderedLaw }
{}

/// Equations on the base clock may be added that define each new variable once, and read what is on the base clock.
pub fn equations_may_be_added_on_the_base_clock()
    ensures { BaseLaw }
{}

/// A copy is added to a node.
pub fn a_worked_addition()
    ensures { SomeAddingLaw }
{}

/// The inputs of a node that is well built may be on the base clock.
pub fn inputs_are_on_the_base_clock()
    ensures { BasedLaw }
{}

/// What is said of nodes that it does not call does not matter.
pub fn callees_may_differ_elsewhere()
    ensures { CalledLaw }
{}

/// The clocked equations that are made of a program without automata that can be compiled are well built, and so are those of a ready one; the constructors of its types have numbers of one byte.
pub fn made_nodes_may_be_added_to()
    ensures compiled { CompiledMadeLaw }
    ensures made { ReadyMadeLaw }
    ensures bytes { BytesLaw }
{
    targets_differ();
}

/// A variable may be lifted to the base clock, its bits may be added there, and a copy: the node stays well built, and these are variables of their types on the base clock.
pub fn values_may_be_lifted()
    ensures lift { LiftLaw }
    ensures bits { BitsLaw }
    ensures copy { CopyLaw }
{}

/// The bits of free places may be added, where the clock of each can stand and its variable is there then: the node stays well built, and the bits are truth values on the base clock.
pub fn free_places_may_be_watched()
    ensures { WatchedLaw }
{}

/// The equations of an observer may be put into a node at a site that fits: the node stays well built, and each variable of the observer is there on the clock of the site and its own one.
pub fn observers_may_be_put()
    ensures { EmbeddedLaw }
{}

/// The observer of a node, and those of the nodes that it calls, may be put into it, where they are well built and take what these take and give: the node stays well built, and all its free places are free in it.
pub fn nodes_may_be_surveyed()
    ensures { SurveyedLaw }
{}

/// A node may keep the registers of a machine, ask its controller, and make the values of its last inputs of the answer: it stays well built.
pub fn machines_may_be_asked()
    ensures steps { StepsKeepLaw }
    ensures controlled { ControlledStaysLaw }
{}

/// Equations may take other places: the node is as well built, has the same reactions, and closes the same nodes.
pub fn places_may_change()
    ensures built { PlacedLaw }
    ensures reactions { PlacedReactionLaw }
    ensures loops { PlacedLoopLaw }
{}

/// The node that chooses is made so of one that is watched, whose own inputs and control variables are of their kinds: ordered, it is well made, and closes the node that it is made of.
pub fn nodes_that_choose_are_made()
    ensures { WholeLaw }
{
    equations_may_be_added();
    extended_nodes_close();
}

/// So it is where the node is watched as the compiler watches it, and its observers suit.
pub fn watched_nodes_choose()
    ensures watched { WatchingLaw }
    ensures chooses { ChoosingLaw }
{
    nodes_that_choose_are_made();
}

/// A variable is lifted and watched, an observer is put into a node, and a node chooses the value of its control variable; it meets all that is asked at once. An equation takes another place, and of calls the same is said.
pub fn worked_steps()
    ensures lift { SomeLiftLaw }
    ensures controlled { SomeControlledLaw }
    ensures whole { SomeWholeLaw }
    ensures embedded { SomeEmbeddedLaw }
    ensures watched { SomeWatchedLaw }
    ensures watching { SomeWatchingLaw }
    ensures choosing { SomeChoosingLaw }
    ensures placed { SomePlacedLaw }
    ensures called { SomeCalledLaw }
{}
