//! What a program without automata has of the program that it was made of, as later passes ask.
//!
//! The functions here do nothing: each is a law, which its contract states.
#![tactic(auto)]

ghost use Rattle.law_automata.specs.Readied.Accepted.{AcceptedLaw};
ghost use Rattle.law_automata.specs.Readied.Laws.{LoweredLaw, OutputsLaw, PlainLaw, SingleLaw, WholeLaw};
ghost use Rattle.law_automata.specs.Readied.Sound.{ReadyConstantsLaw, ReadySoundLaw, SoundLaw, TextLaw};

/// No automaton is left.
pub fn no_automaton_is_left()
    ensures { LoweredLaw }
{}

/// Names are declared once, what is declared is defined, and each name has one equation in its block; the body defines the outputs alone.
pub fn names_are_defined_once()
    ensures plain { PlainLaw }
    ensures outputs { OutputsLaw }
{}

/// So it is in each ready program without its automata.
pub fn ready_programs_become_whole()
    ensures single { SingleLaw }
    ensures whole { WholeLaw }
{}

/// A node that is sound stays so without its automata, where the types of its names have constants; those of a ready program have, so its nodes stay sound.
pub fn nodes_stay_sound()
    ensures node { SoundLaw }
    ensures constants { ReadyConstantsLaw }
    ensures program { ReadySoundLaw }
{}

/// The program of a text that is judged and arranged is so without its automata.
pub fn programs_of_texts_stay_sound()
    ensures { TextLaw }
{}

/// Such a program is accepted with the classes that its nodes have.
pub fn programs_with_classes_are_accepted()
    ensures { AcceptedLaw }
{}
