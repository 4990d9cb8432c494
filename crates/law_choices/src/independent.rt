//! Laws: removing automata adds no dependence of a name of the body on what the node is given.
//!
//! The functions here do nothing: each is a law, which its contract states.
#![tactic(auto)]

ghost use Rattle.law_choices.specs.Independent.Laws.{ControlsLaw, InputsLaw, NodeLaw};

use hp_meaning::causal::{causal_is_ranked, clocks_make_no_cycle, ranked_is_causal, same_reads};
use law_automata::lowered::ranks_are_kept;

/// Where an output or a local on the base clock does not depend on an input or a controllable variable, it does not without automata.
pub fn automata_add_no_dependence()
    ensures { NodeLaw }
{
    causal_is_ranked();
    clocks_make_no_cycle();
    ranked_is_causal();
    ranks_are_kept();
    same_reads();
}

/// So a name that depends on none of some inputs depends on none of them without automata, and one that reads no controllable variable by any chain reads none.
pub fn independent_names_stay_so()
    ensures inputs { InputsLaw }
    ensures controls { ControlsLaw }
{
    automata_add_no_dependence();
    same_reads();
}
