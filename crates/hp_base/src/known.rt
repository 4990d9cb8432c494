//! What is known of names, in the order in which they came.
#![tactic(auto)]

mod known;

pub use known::Known;
