use hp_base::{Name, Span};
use std::alloc::AllocError;
use thiserror::Error;

/// Why the names of a program were refused.
#[derive(Debug, Drop, Error)]
pub enum NameErr {
    /// The name is used where it is not known.
    #[error("line {line}, column {col}: unknown name", line = .span.line, col = .span.col)]
    Unknown { name: Name, span: Span },
    /// The name is declared where it is known already.
    #[error("line {line}, column {col}: name declared twice", line = .span.line, col = .span.col)]
    Twice { name: Name, span: Span },
    #[error("out of memory")]
    OutOfMemory,
}

impl From<AllocError> for NameErr {
    ghost use Rattle.std.specs.Prelude.{◌≡◌};
    ghost use Rattle.hp_names.specs.declared.error.NameErr.TheVariants.{OutOfMemory};

    ghost from_gives = { λ _ e. e ≡ OutOfMemory };

    fn from(_: AllocError) -> NameErr {
        NameErr::OutOfMemory
    }
}
