//! Machines with a step and a reset: their types, their form and what they mean. Invariant: a machine that has form sets what is declared, at its type, and calls machines before it. Used by the passes from `hp_toobc` on.
#![tactic(auto)]

mod command;
mod machine;
mod obc;
pub mod spelling;

pub use command::{Arg, Cmd, Cmds, ObcOp};
pub use hp_base::{Const, Ty};
pub use machine::{Machine, Mem, Var};
pub use obc::{Obc, ObcType, outputs_are_of_their_kinds};
