//! Laws of `hp_verdicts`: what is decided of the contracts of a ready program is so in the games of these contracts, and machines of programs whose contracts are kept keep them. Used by `hp_driver`.
//!
//! The functions here do nothing: each is a law, which its contract states.
#![tactic(auto)]

ghost use Rattle.law_decided.specs.Laws.{AllKeptLaw, AllSafeLaw, ForcedLaw, KeptLaw, ProofLaw, TextLaw, VerifiedLaw};
ghost use Rattle.law_decided.specs.Mirrored.{MachinesLaw};
ghost use Rattle.law_decided.specs.Outcomes.{OutcomesLaw};
ghost use Rattle.law_decided.specs.Promised.{MachineLaw, RunLaw};

use law_drawing::form::drawn_circuits_are_circuits;
use law_drawing::mirrors::{
    assumptions_read_controls, drawn_games_are_kept, drawn_nodes_are_mirrored,
    limits_are_passed_by_nodes,
};
use law_drawing::no_circle::ready_nodes_have_no_circle;
use law_games::guaranteed::runs_keep_contracts;
use law_games::ready_games::programs_of_texts_are_in_order;
use law_history::streams::machines_run_the_nodes_of_texts;

/// Where the contract of a node is found to be kept, no violation is ever forced in its game; where a violation is found to be forced within so many instants it is, and within no fewer.
pub fn decided_contracts_are_so()
    ensures kept { KeptLaw }
    ensures forced { ForcedLaw }
    ensures all_kept { AllKeptLaw }
    ensures all_safe { AllSafeLaw }
    ensures text { TextLaw }
{
    drawn_games_are_kept();
}

/// The verdict of the certificate of a node's machine is the one on the game of the node's contract; and what a text that is checked proves of the machine holds in the game.
pub fn certificates_are_so()
    ensures made { ProofLaw }
    ensures verified { VerifiedLaw }
{
    drawn_games_are_kept();
}

/// What is found of the contracts of the program of an accepted text says so of their games: that each is kept, which is the first that is refused and why, and what a certificate proves.
pub fn outcomes_are_so()
    ensures { OutcomesLaw }
{
    drawn_games_are_kept();
    drawn_circuits_are_circuits();
    ready_nodes_have_no_circle();
    assumptions_read_controls();
    limits_are_passed_by_nodes();
}

/// The machine of each contract of the program of an accepted text mirrors its node.
pub fn machines_mirror_contracts()
    ensures { MachinesLaw }
{
    drawn_nodes_are_mirrored();
}

/// Where all contracts of an accepted program without controllable variables are found to be kept, each instance in each reaction of a node keeps its contract, at every depth; and the machine of the node gives the outputs of its run.
pub fn machines_keep_contracts()
    ensures run { RunLaw }
    ensures machine { MachineLaw }
{
    programs_of_texts_are_in_order();
    runs_keep_contracts();
    machines_run_the_nodes_of_texts();
}
