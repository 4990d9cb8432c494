//! Needless choices, needless copies and equations that nothing needs taken out of clocked equations. Invariant: outputs keep their values at every instant. Used by `hp_machines`; its specs by `hp_form` and the laws.
#![tactic(auto)]

mod choice;
mod copy;
mod count;
mod laws;
mod normal;
mod prune;
mod retarget;
mod substitute;

pub use copy::copy_of;
pub use laws::copies_are_followed;
pub use normal::normalise;
