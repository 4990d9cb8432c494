use hp_base::{Name, Span};
use std::alloc::AllocError;
use thiserror::Error;

/// Why the values of a program are not there from the first instant on.
#[derive(Debug, Drop, Error)]
pub enum InitErr {
    /// In the node the unit at the place is the first that wants something to be First which is Second.
    #[error("line {line}, column {col}: may be undefined at first", line = .span.line, col = .span.col)]
    Late { node: Name, span: Span },
    #[error("out of memory")]
    OutOfMemory,
}

impl From<AllocError> for InitErr {
    ghost use Rattle.std.specs.Prelude.{◌≡◌};
    ghost use Rattle.hp_init.specs.declared.error.InitErr.TheVariants.{OutOfMemory};

    ghost from_gives = { λ _ e. e ≡ OutOfMemory };

    fn from(_: AllocError) -> InitErr {
        InitErr::OutOfMemory
    }
}
