//! What every crate speaks of: names and their bytes, places in a text, values, kinds, arithmetic of 32 bits, limits. Invariant: a name has at most 270 bytes of its alphabet (255 in a source text), a value is of its kind. Used by all crates.
#![tactic(auto)]

mod byte;
pub mod first;
mod kind;
pub mod known;
mod limit;
mod name;
mod op;
mod span;
mod ty;
mod value;

pub use byte::{is_blank_byte, is_capital_letter, is_digit_byte, is_small_letter, is_word_part};
pub use kind::{Kind, Signature};
pub use limit::{Limit, What};
pub use name::{MAX_NAME, Name, copy_names};
pub use op::{Op, int_op};
pub use span::Span;
pub use ty::{Const, Ty};
pub use value::Value;
