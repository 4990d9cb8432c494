//! The tests of all crates that no row of `hp_rows` can show: objects of the outside, tokens, trees, printed texts, executors, natives, diagrams and machines of contracts. Invariant: no other crate has a test. Used by the gate alone.
#![tactic(auto)]

#[cfg(test)]
mod canonical;
#[cfg(test)]
mod checkpoints;
#[cfg(test)]
mod contracts;
#[cfg(test)]
mod diagrams;
#[cfg(test)]
mod edge;
#[cfg(test)]
mod executors;
#[cfg(test)]
mod machine_texts;
#[cfg(test)]
mod natives;
#[cfg(test)]
mod outside;
#[cfg(test)]
mod programs;
#[cfg(test)]
mod quantifiers;
#[cfg(test)]
mod tokens;
#[cfg(test)]
mod trees;
#[cfg(test)]
mod values;

#[cfg(test)]
use programs::program_of;
