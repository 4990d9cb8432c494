//! Clocked equations in one order, which their node alone determines: by clock, as late as their readers let them. Invariant: each stands behind those that it reads. Used by `hp_machines`; its laws by `law_history`.
#![tactic(auto)]

mod laws;
mod order;
mod reach;

pub use laws::order_by_clock_is_one;
pub use order::schedule;
