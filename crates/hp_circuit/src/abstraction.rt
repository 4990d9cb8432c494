use crate::given::Given;
use hp_boolx::BoolMachine;

/// The Boolean machine of a circuit, with what is given to it.
#[derive(Debug, Drop)]
pub struct Abstraction {
    pub machine: BoolMachine,
    /// What is given to the machine, in the order of slots.
    pub given: Vec<Given>,
    /// For each wire that is asked for the gate that has its truth value.
    pub gates: Vec<usize>,
}
