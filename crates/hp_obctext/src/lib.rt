//! The text of machines, and of checkpoints of what they keep, both ways. Invariant: what is printed reads back as the same; a refusal names the first token that is wrong. Used by `hp_driver`.
#![tactic(auto)]

mod check;
mod check_steps;
mod convert;
mod error;
mod found;
mod labels;
mod lexing;
mod memory;
mod names;
mod page;
mod parse;
mod place;
mod print;
mod read;
mod reader;
mod scope;
mod spelling;
mod steps;
mod text;

pub use error::ObcErr;
pub use memory::{MemErr, memory_room, read_memory, write_memory};
pub use print::print_obc;
pub use read::read_obc;
