//! Laws: the machines of a program give its stream history.
//!
//! The function here does nothing: it is a law, which its contract states.
#![tactic(auto)]

ghost use Rattle.law_history.specs.Streams.Laws.{HistoryLaw};
ghost use Rattle.law_history.specs.Streams.Texts.{BuiltLaw, TextLaw, WithinLaw};

use crate::counted::machines_of_texts_are_few;
use hp_complete::known_names_agree;
use hp_meaning::causal::{one_reaction, one_run, ranks_of_points};
use law_automata::classed::removing_automata_keeps_classes;
use law_automata::lowerable::{automata_of_texts_may_be_removed, removing_automata_keeps_runs};
use law_automata::lowered::ranks_are_kept;
use law_automata::readied::{
    nodes_stay_sound, programs_with_classes_are_accepted, ready_programs_become_whole,
};
use law_equations::answered::{nodes_answer, nodes_answer_as_their_equations};
use law_equations::fewer::nodes_are_compiled;
use law_equations::fitting::calls_are_kept;
use law_equations::shaped::{machines_have_form, shape_is_kept};
use law_values::accepted::{arranged_texts_are_ready, outputs_have_values};
use law_values::filled::{filled_reactions_agree, programs_have_first_values};
use law_values::valued::values_fit;
use law_wellmade::acyclic::equations_read_in_no_circle;
use law_wellmade::apart::names_are_apart;
use law_wellmade::begun::{registers_begin, texts_have_few_types};
use law_wellmade::lettered::machines_are_spelled;
use law_wellmade::nested::clocks_of_texts_are_short;
use law_wellmade::parted::equations_define_apart;
use law_wellmade::regular::{equations_are_regular, integers_are_short, kinds_agree};
use law_wellmade::spelled::integers_of_texts_are_short;
use law_wellmade::suited::nodes_suit;
use law_wellmade::tested::{constructors_differ, tests_are_typed};
use law_wellmade::timely::reactions_fit;

/// Over inputs of its kinds the machine of a node gives the outputs of the node's one run.
pub fn machines_give_the_history()
    ensures { HistoryLaw }
{
    removing_automata_keeps_classes();
    programs_with_classes_are_accepted();
    ranks_of_points();
    ranks_are_kept();
    programs_have_first_values();
    nodes_stay_sound();
    ready_programs_become_whole();
    names_are_apart();
    registers_begin();
    known_names_agree();
    nodes_suit();
    calls_are_kept();
    constructors_differ();
    tests_are_typed();
    reactions_fit();
    nodes_answer_as_their_equations();
    nodes_are_compiled();
    one_reaction();
    one_run();
    values_fit();
    outputs_have_values();
    removing_automata_keeps_runs();
    filled_reactions_agree();
    nodes_answer();
}

/// The machines of the program of a text run its nodes: they take and give the same kinds, and
/// over each list of inputs give the outputs of the node's one run.
pub fn machines_run_the_nodes_of_texts()
    ensures { TextLaw }
{
    machines_give_the_history();
    arranged_texts_are_ready();
    automata_of_texts_may_be_removed();
    programs_have_first_values();
    texts_have_few_types();
}

/// The machines of the program of a text are within the limits of what is executed.
pub fn machines_of_texts_are_within_limits()
    ensures { WithinLaw }
{
    machines_of_texts_are_few();
}

/// Nothing is in the way of them: equations read each other in no circle and are regular, and machines of them have form.
pub fn machines_of_texts_are_built()
    ensures { BuiltLaw }
{
    removing_automata_keeps_classes();
    programs_with_classes_are_accepted();
    ranks_of_points();
    ranks_are_kept();
    programs_have_first_values();
    nodes_stay_sound();
    ready_programs_become_whole();
    names_are_apart();
    registers_begin();
    constructors_differ();
    tests_are_typed();
    arranged_texts_are_ready();
    automata_of_texts_may_be_removed();
    texts_have_few_types();
    known_names_agree();
    nodes_suit();
    equations_read_in_no_circle();
    integers_of_texts_are_short();
    integers_are_short();
    equations_are_regular();
    kinds_agree();
    machines_are_spelled();
    clocks_of_texts_are_short();
    equations_define_apart();
    shape_is_kept();
    machines_have_form();
}
