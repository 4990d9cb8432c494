//! What the controller of a node sees of an instant: a variable on the base clock for each bit that is given to its machine. Invariant: the variables and equations of a node stay, and more stand behind them. Used by `hp_controlled`.
#![tactic(auto)]

mod adding;
mod embedding;
mod error;
mod lifting;
mod observer;
mod walk;
mod watching;

pub use adding::add_copy;
pub use error::WatchErr;
pub use observer::observers;
pub use watching::{Observer, Observers, Watched, watch};
