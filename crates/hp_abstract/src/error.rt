use hp_base::{Limit, Span};
use std::alloc::AllocError;
use thiserror::Error;

/// Why a contract has no machine.
#[derive(Debug, Drop, Error)]
pub enum AbsErr {
    /// The assumption, which begins at the place, reads a controllable variable at its own instant.
    #[error("line {line}, column {col}: the assumption reads a controllable variable", line = .span.line, col = .span.col)]
    Assume { span: Span },
    /// The first limit that is passed, of the bits of registers, early values, controllable variables and late values.
    #[error("a limit is passed")]
    Limit(Limit),
    /// What is drawn of the node is no circuit: numbers name no wire, shapes do not fit, or wires read each other in a circle. Of a node of an accepted program it never is so (`law_drawing::form`, `law_drawing::no_circle`).
    #[error("the circuit of the node is not built")]
    NotBuilt,
    #[error("out of memory")]
    OutOfMemory,
}

impl From<AllocError> for AbsErr {
    ghost use Rattle.std.specs.Prelude.{◌≡◌};
    ghost use Rattle.hp_abstract.specs.declared.error.AbsErr.TheVariants.{OutOfMemory};

    ghost from_gives = { λ _ e. e ≡ OutOfMemory };

    fn from(_: AllocError) -> AbsErr {
        AbsErr::OutOfMemory
    }
}
