//! The wires of a node of the Boolean abstraction: its circuits at one instant, with memory in place of pasts, and without absence.
//!
//! The functions here do nothing: each is a law, which its contract states.
#![tactic(auto)]

ghost use Rattle.law_games.specs.Wires.Laws.{CallsLaw, ContractLaw, DutyLaw, MemoryLaw, NextLaw, OneWiringLaw, RegisterLaw};

/// What is shown of a node's wires is an instant of its abstraction, and the next memory is what the longer history leaves. What the node assumes and enforces has the value of its wires, and so at each call that is there what the callee assumes and enforces: the hypothesis and the duty of the instant are those of its wires. Among the items of a program what is remembered is the memory of contracts.
pub fn wires_give_instants()
    ensures instant { NextLaw }
    ensures registers { RegisterLaw }
    ensures contract { ContractLaw }
    ensures calls { CallsLaw }
    ensures duty { DutyLaw }
    ensures memory { MemoryLaw }
{}

/// A ranked node whose callees are ranked has exactly one wiring, for each memory, for all inputs and all that is given.
pub fn one_wiring()
    ensures { OneWiringLaw }
{}
