//! What clocked equations mean, and laws of `hp_complete`, `hp_schedule`, `hp_normal`, `hp_toobc`, `hp_fuse`: the equations of a node answer as it does, and their machines follow them. Used by these passes and the laws above.
#![tactic(auto)]

pub mod answered;
pub mod fewer;
pub mod fitting;
pub mod flattened;
pub mod followed;
pub mod made;
pub mod meaning;
pub mod shaped;
