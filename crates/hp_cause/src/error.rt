use hp_base::Name;
use hp_meaning::causal::Point;
use std::alloc::AllocError;
use thiserror::Error;

/// Why the points of a program have no order.
#[derive(Debug, Drop, Error)]
pub enum CauseErr {
    /// In the node these points read each other in a circle. The first stands at the end again.
    #[error("causality cycle")]
    Cycle { node: Name, points: Vec<Point> },
    #[error("out of memory")]
    OutOfMemory,
}

impl From<AllocError> for CauseErr {
    ghost use Rattle.std.specs.Prelude.{◌≡◌};
    ghost use Rattle.hp_cause.specs.declared.error.CauseErr.TheVariants.{OutOfMemory};

    ghost from_gives = { λ _ e. e ≡ OutOfMemory };

    fn from(_: AllocError) -> CauseErr {
        CauseErr::OutOfMemory
    }
}
