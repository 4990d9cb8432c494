//! What the judgements of a program give for its values, and what replacing inlined calls and writing clocks keep of it.
//!
//! The functions here do nothing: each is a law, which its contract states.
#![tactic(auto)]

ghost use Rattle.law_values.specs.Accepted.Laws.{AcceptedLaw, ClassesLaw, ClockedClassesLaw, ClockedSoundLaw, ClocksFirstLaw, FilledValueLaw, FirstValueLaw, NoStarLaw, OutputsHereLaw, PlainLaw, ReadyFilledLaw, ReadyOutputsLaw, ReadyRealLaw, ReadyTextLaw, ReplacedSoundLaw, SoundLaw};

/// Each node of a judged program is sound, and each node of the program whose inlined calls are replaced.
pub fn judged_programs_are_sound()
    ensures judged { SoundLaw }
    ensures replaced { ReplacedSoundLaw }
{}

/// Writing clocks keeps nodes sound.
pub fn clocks_keep_nodes_sound()
    ensures { ClockedSoundLaw }
{}

/// A node that meets its wishes has its classes where its variables are read and defined.
pub fn met_wishes_give_classes()
    ensures { ClassesLaw }
{}

/// Each name of the shortest clocks of a node is First, so writing them keeps these classes.
pub fn clocks_keep_classes()
    ensures first { ClocksFirstLaw }
    ensures classes { ClockedClassesLaw }
{}

/// Where inlined calls are replaced, automata still have a state and conditions of transitions are plain.
pub fn replacing_keeps_nodes_plain()
    ensures { PlainLaw }
{}

/// The program of a text that the judgements accept, and that is arranged, meets what the law below asks.
pub fn arranged_texts_are_ready()
    ensures { ReadyTextLaw }
{}

/// So a judged program whose inlined calls are replaced and whose clocks are written is accepted, and the instants of its reactions fit.
pub fn ready_programs_are_accepted()
    ensures accepted { AcceptedLaw }
    ensures real { ReadyRealLaw }
    ensures filled { ReadyFilledLaw }
{}

/// Outputs of reactions whose instants fit are neither Nil nor Absent.
pub fn outputs_have_values()
    ensures fitting { OutputsHereLaw }
    ensures ready { ReadyOutputsLaw }
{}

/// A value that fits is of its type where its clock is there and else Absent, in the filled form and where it is of class First; it is
/// never the mark of the abstraction.
pub fn fitting_values_have_types()
    ensures filled { FilledValueLaw }
    ensures first { FirstValueLaw }
    ensures unmarked { NoStarLaw }
{}
