//! Laws of `hp_names`, `hp_typing`, `hp_expand`, `hp_clocks`: in judged programs expressions have their types, names are in their scopes and have one equation each, also where inlined calls are replaced. Used by `hp_compile`, `hp_driver` and the laws above.
#![tactic(auto)]

pub mod clocked;
pub mod named;
pub mod once;
pub mod plain;
pub mod replaced;
pub mod typed;
