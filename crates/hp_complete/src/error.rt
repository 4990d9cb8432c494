use std::alloc::AllocError;
use thiserror::Error;

/// Why a program has no clocked equations in order.
#[derive(Clone, Copy, Debug, PartialEq, Eq, Error)]
pub enum FlattenErr {
    /// Some equations of a node read each other in a circle.
    #[error("equations read each other in a circle")]
    Cycle,
    #[error("out of memory")]
    OutOfMemory,
}

impl From<AllocError> for FlattenErr {
    ghost use Rattle.std.specs.Prelude.{◌≡◌};
    ghost use Rattle.hp_complete.specs.declared.error.FlattenErr.TheVariants.{OutOfMemory};

    ghost from_gives = { λ _ e. e ≡ OutOfMemory };

    fn from(_: AllocError) -> FlattenErr {
        FlattenErr::OutOfMemory
    }
}
