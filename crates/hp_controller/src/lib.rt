//! The controller of a machine as a node of clocked equations, and nodes that ask it for the values of their last inputs. Invariant: the equations of a node that asks are its own, with more behind them. Used by `hp_controlled`.
#![tactic(auto)]

mod controlling;
mod decoding;
mod gates;
mod laws;
mod node;
mod steering;
mod steps;

pub use controlling::controller;
pub use decoding::{Added, Control, ControlKind, Enumeration, add_controls};
pub use gates::add_gates;
pub use laws::{
    added_equations_give_inputs, codes_are_decoded, controlled_nodes_follow_their_controller,
    controllers_answer_with_the_choice, gates_have_their_values, lines_give_their_functions,
    registers_follow_their_machine,
};
pub use node::{has_few_variables, node_of_lines};
pub use steering::controlled;
pub use steps::{Placing, add_steps};
