//! What the variables of a contract's machine stand for: a label for each slot of a node, with its place in the text and its values. Invariant: labels stand in the order of slots (`hp_meaning`'s `Contract/Slots`), which is tested and not proved. Used by `hp_reasons`.
#![tactic(auto)]

mod declared;
mod label;
mod scope;
mod walk;

pub use label::{Call, Label, Subject, Values};
pub use walk::labels_of;
