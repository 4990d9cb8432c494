use hp_boolx::BoolMachine;
use hp_circuit::Given;

/// The Boolean machine of a node's contract, with what a compiler of controllers needs besides.
#[derive(Debug, Drop)]
pub struct Abstraction {
    pub machine: BoolMachine,
    /// Inputs, comparisons and outputs of calls, in the order of slots.
    pub given: Vec<Given>,
    /// The gate of what the node assumes.
    pub assume: usize,
    /// The gate of what the node enforces.
    pub enforce: usize,
}
