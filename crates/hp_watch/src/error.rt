use std::alloc::{AllocError, AllocFailed};
use thiserror::Error;

/// Why a node has no variables for what is given to its machine.
#[derive(Clone, Copy, Debug, PartialEq, Eq, Error)]
pub enum WatchErr {
    /// The clocked equations are not those of the node, or the machine is not that of its contract.
    #[error("the equations are not those of the node")]
    Misfit,
    #[error("out of memory")]
    OutOfMemory,
}

impl From<AllocError> for WatchErr {
    ghost use Rattle.std.specs.Prelude.{◌≡◌};
    ghost use Rattle.hp_watch.specs.declared.error.WatchErr.TheVariants.{OutOfMemory};

    ghost from_gives = { λ _ e. e ≡ OutOfMemory };

    fn from(_error: AllocError) -> WatchErr {
        WatchErr::OutOfMemory
    }
}

impl<T: Drop> From<AllocFailed<T>> for WatchErr {
    ghost use Rattle.std.specs.Prelude.{◌≡◌};
    ghost use Rattle.hp_watch.specs.declared.error.WatchErr.TheVariants.{OutOfMemory};

    ghost from_gives = { λ _ e. e ≡ OutOfMemory };

    fn from(_error: AllocFailed<T>) -> WatchErr {
        WatchErr::OutOfMemory
    }
}
