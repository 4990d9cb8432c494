//! Natives: functions that answer calls of machines in place of their steps. Invariant: a native gives what the step of its machine gives, in every file, so a run with natives is the run without. Used by `hp_driver`.
#![tactic(auto)]

mod commands;
mod fit;
mod linked;
mod native;
mod order;
mod same;
mod simple;
mod stepping;

pub use commands::same_machine;
pub use linked::{Linked, link};
pub use native::{Answer, Answers, Native};
pub use order::{give_greater, give_lesser, max_machine, min_machine};
pub use simple::plain;
pub use stepping::{NativeExec, Steps, links_change_nothing, step_natively};
