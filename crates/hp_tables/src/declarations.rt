//! What a program declares, as tables by names: constructors and nodes, and whatever else stands for names.
#![tactic(auto)]

mod constructors;
mod nodes;
mod table;

pub use constructors::constructors_of;
pub use nodes::nodes_of;
pub use table::{Table, numbers_of};
