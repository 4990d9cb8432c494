use hp_base::{Limit, Name, Span};
use std::alloc::AllocError;
use thiserror::Error;

/// The shape of contracts that is broken.
#[derive(Clone, Copy, Debug, PartialEq, Eq)]
pub enum Shape {
    /// A contract makes a plain call.
    Call,
    /// A node with a contract is inlined.
    Inline,
    /// A controllable variable is an integer.
    WrongType,
}

/// Why a program is not expanded.
#[derive(Debug, Drop, Error)]
pub enum ExpandErr {
    /// The first breach of a shape in the first node that has one. Its place is the call, or the declaration of the variable.
    #[error("line {line}, column {col}: shape of a contract", line = .span.line, col = .span.col)]
    Shape {
        node: Name,
        span: Span,
        shape: Shape,
    },
    /// The first limit that the first node passes that passes one.
    #[error("a limit is passed")]
    Limit {
        node: Name,
        limit: Limit,
    },
    #[error("out of memory")]
    OutOfMemory,
}

impl From<AllocError> for ExpandErr {
    ghost use Rattle.std.specs.Prelude.{◌≡◌};
    ghost use Rattle.hp_expand.specs.declared.error.ExpandErr.TheVariants.{OutOfMemory};

    ghost from_gives = { λ _ e. e ≡ OutOfMemory };

    fn from(_: AllocError) -> ExpandErr {
        ExpandErr::OutOfMemory
    }
}
