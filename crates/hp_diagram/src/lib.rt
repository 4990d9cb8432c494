//! Canonical decision diagrams: a table of nodes in which each Boolean function of its variables has one reference at most. Invariant: tables are reduced and ordered. Used by `hp_quant`, `hp_synth`, `hp_control`, `hp_cert`, `hp_verdicts`, `hp_controller`, `hp_games`.
#![tactic(auto)]

mod question;
mod recent;
mod reference;
mod table;

pub use reference::{Branch, Ref, one, zero};
pub use table::Table;
