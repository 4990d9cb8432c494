use hp_base::{Limit, Name, Span};
use std::alloc::AllocError;
use thiserror::Error;

/// Why a contract is refused.
#[derive(Debug, Drop, Error)]
pub enum ContractErr {
    /// The assumption of the node, which begins at the place, reads a controllable variable at its own instant.
    #[error("line {line}, column {col}: the assumption reads a controllable variable", line = .span.line, col = .span.col)]
    Assume {
        node: Name,
        span: Span,
    },
    /// The first limit that the contract of the node passes, of the bits of registers, early values, controllable variables and late values.
    #[error("a limit is passed")]
    Limit {
        node: Name,
        limit: Limit,
    },
    /// In the node a violation is forced within so many instants, and within no fewer. The text of the certificate of its machine, unless that is too long.
    #[error("a violation is forced")]
    Forced {
        node: Name,
        instants: u64,
        cert: Option<Vec<u8>>,
    },
    /// The text of the certificate of a contract that is proved would be too long.
    #[error("the text of the certificate is too long")]
    TooLong,
    /// What is drawn of a node with a contract is no circuit. It is never so of a node of an accepted program.
    #[error("the circuit of a node is not built")]
    NotBuilt,
    #[error("out of memory")]
    OutOfMemory,
}

impl From<AllocError> for ContractErr {
    ghost use Rattle.std.specs.Prelude.{◌≡◌};
    ghost use Rattle.hp_verdicts.specs.declared.error.ContractErr.TheVariants.{OutOfMemory};

    ghost from_gives = { λ _ e. e ≡ OutOfMemory };

    fn from(_: AllocError) -> ContractErr {
        ContractErr::OutOfMemory
    }
}
