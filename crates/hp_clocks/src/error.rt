use hp_base::{Limit, Name, Span};
use std::alloc::AllocError;
use thiserror::Error;

/// Why a program has no clocks, or one that is too long.
#[derive(Debug, Drop, Error)]
pub enum ClockErr {
    /// In the node the unit at the place is the first such that the units up to it allow no clocks.
    #[error("line {line}, column {col}: clocks do not agree", line = .span.line, col = .span.col)]
    Clash { node: Name, span: Span },
    /// The node has a clock of more steps than there may be.
    #[error("a limit is passed")]
    Limit { node: Name, limit: Limit },
    #[error("out of memory")]
    OutOfMemory,
}

impl From<AllocError> for ClockErr {
    ghost use Rattle.std.specs.Prelude.{◌≡◌};
    ghost use Rattle.hp_clocks.specs.declared.error.ClockErr.TheVariants.{OutOfMemory};

    ghost from_gives = { λ _ e. e ≡ OutOfMemory };

    fn from(_: AllocError) -> ClockErr {
        ClockErr::OutOfMemory
    }
}
