//! Whether clocked equations have what their machine asks of them.
#![tactic(auto)]

mod laws;
mod regular;

pub use laws::regular_equations_have_form;
pub use regular::{is_regular, is_small};
