//! The lines of a trace: the values that a line spells, and the line of some values. Invariant: a refusal names the first wrong word, and taking in a line takes no memory. Used by `hp_driver`, `hp_obctext`, `hp_cert`.
#![tactic(auto)]

mod number;
mod place;
mod read;
mod stop;
mod value;
mod words;
mod write;

pub use number::read_int;
pub use place::{last_line, newlines};
pub use read::{LineErr, MAX_LINE, read_line};
pub use stop::Stop;
pub use write::{line_room, write_line};
