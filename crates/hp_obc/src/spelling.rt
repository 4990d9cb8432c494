//! How the names of machines are spelled.
#![tactic(auto)]

mod spelling;

pub use spelling::{is_name_part, is_reserved_word, spells_constructor, spells_name};
