//! Parts of a program in which other names stand for names.
#![tactic(auto)]

mod rename;

pub use rename::{Renaming, rename_decls, rename_expr, rename_left};
