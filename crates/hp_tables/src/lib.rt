//! The names of a program in tables: what defines them, what is declared, how clocks are told, other names in their place. Invariant: each table answers what the definition over the tree answers. Used by the passes from `hp_expand` on.
#![tactic(auto)]

pub mod declarations;
pub mod defining;
pub mod renaming;
pub mod telling;
