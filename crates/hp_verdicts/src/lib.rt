//! The contracts of a program, decided: nothing is forced in any of them, or the first in which a violation is; and their certificates, made and checked. Invariant: contracts are taken in the order of the text. Used by `hp_driver`; its specs by `law_decided`.
#![tactic(auto)]

mod certificate;
mod deciding;
mod error;
mod laws;
mod machine;
mod proving;
mod verifying;

pub use deciding::decide;
pub use error::ContractErr;
pub use hp_cert::Proved;
pub use laws::certificates_are_one;
pub use machine::machine_of;
pub use proving::prove;
pub use verifying::verify;
