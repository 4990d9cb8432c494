//! Drawn wires read a controllable variable wherever the place that they are drawn of depends on one. `law_drawing::steered` has the converse, so the early slots of the circuit of a node are its early places.
//!
//! The functions here do nothing: each is a law, which its contract states.
#![tactic(auto)]

ghost use Rattle.law_drawing.specs.Reached.Accepted.{ContractFilledLaw, NodeReadsLaw, PlacesRightLaw, SlotsRightLaw};
ghost use Rattle.law_drawing.specs.Reached.Reached.{AssumptionReachedLaw, ReachedLaw};

/// A free slot of what is drawn of a node that may be early by its role has a wire that reads a controllable variable by some chain where the place of the slot depends on one; and so has the assumption.
pub fn wires_are_reached()
    ensures slots { ReachedLaw }
    ensures assumed { AssumptionReachedLaw }
{}

/// What is asked of a node is met by sound and well named ones, but that no controllable variable is an integer.
pub fn sound_nodes_are_read()
    ensures contracts { ContractFilledLaw }
    ensures nodes { NodeReadsLaw }
{}

/// In a judged program each free slot of the circuit that is drawn of a node is early exactly where its place is, so the places that the circuit has early are the early places of the node.
pub fn early_slots_are_right()
    ensures slots { SlotsRightLaw }
    ensures places { PlacesRightLaw }
{}
