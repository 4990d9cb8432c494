//! Clocked equations: what a node is between its tree and its machine. Invariant: variables are numbers, each equation defines its targets on one clock. Used by the passes from `hp_complete` to `hp_toobc`, `hp_form`, `hp_watch`, `hp_controller`, `hp_controlled` and the laws.
#![tactic(auto)]

mod equation;
mod node;

pub use equation::{Atom, FlatEqn, FlatRight};
pub use node::{FlatNode, FlatTy, Scheduled, Variable};
