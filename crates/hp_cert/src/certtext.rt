//! The text of certificates, both ways.
#![tactic(auto)]

mod cert;
mod error;
mod page;
mod parse;
mod piece;
mod place;
mod read;
mod reader;
mod spelling;
mod write;

pub use cert::{Cert, CertKind};
pub use error::{CertErr, Cond, Misfit};
pub use read::read_cert;
pub use write::write_cert;
