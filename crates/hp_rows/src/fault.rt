use crate::malformed::Malformed;
use std::alloc::{AllocError, Global};
use std::fmt;

/// Why a row does not hold.
#[derive(Drop)]
pub enum Fault {
    /// It cannot be run.
    Malformed(Malformed),
    /// A step did something other than is wanted, which this says.
    Differs(String),
}

impl fmt::Display for Fault {
    fn fmt<W: fmt::Write>(&self, f: &mut fmt::Formatter<W>) -> fmt::Result {
        match self {
            Fault::Malformed(error) => write!(f, "{error}"),
            Fault::Differs(text) => write!(f, "{text}"),
        }
    }
}

impl From<Malformed> for Fault {
    fn from(error: Malformed) -> Fault {
        Fault::Malformed(error)
    }
}

/// Says what was wanted of a part of a step, and what was found.
pub fn differs(alloc: Global, part: &str, wanted: &[u8], found: &[u8]) -> Fault {
    let wanted = wanted.escape_ascii();
    let found = found.escape_ascii();
    let text: Result<String, AllocError> = format!(in alloc;
        "{part}: wanted \"{wanted}\", found \"{found}\""
    );
    match text {
        Ok(text) => Fault::Differs(text),
        Err(_) => Fault::Malformed(Malformed::OutOfMemory),
    }
}
