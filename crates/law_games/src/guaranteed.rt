//! The runs of a ready program keep its contracts.
//!
//! The functions here do nothing: each is a law, which its contract states.
#![tactic(auto)]

ghost use Rattle.law_games.specs.Guaranteed.Laws.{ApartLaw, ChoicesKeepContractsLaw, NodeRunsKeepContractsLaw, OwnContractLaw, RunsKeepContractsLaw, TypedLaw};

use hp_meaning::contract::run_keeps_contracts;

/// No two nodes of a ready program have one name; and in each reaction each instant of the node and of each instance, at every depth, has values of the types that the guarantee of a run asks for.
pub fn reactions_are_typed()
    ensures apart { ApartLaw }
    ensures typed { TypedLaw }
{}

/// So where no violation of a contract is ever forced, each instance in a run keeps its contract, at every depth, where choices are permitted wherever some are; without controllable variables in each reaction, and so the node itself keeps its own.
pub fn runs_keep_contracts()
    ensures choices { ChoicesKeepContractsLaw }
    ensures runs { RunsKeepContractsLaw }
    ensures node_runs { NodeRunsKeepContractsLaw }
    ensures own { OwnContractLaw }
{
    run_keeps_contracts();
}
