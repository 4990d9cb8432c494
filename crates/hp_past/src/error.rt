use std::alloc::AllocError;
use thiserror::Error;

/// Why a program is not unfolded.
#[derive(Clone, Copy, Debug, PartialEq, Eq, Error)]
pub enum PastErr {
    #[error("out of memory")]
    OutOfMemory,
}

impl From<AllocError> for PastErr {
    ghost use Rattle.std.specs.Prelude.{◌≡◌};
    ghost use Rattle.hp_past.specs.declared.error.PastErr.TheVariants.{OutOfMemory};

    ghost from_gives = { λ _ e. e ≡ OutOfMemory };

    fn from(_error: AllocError) -> PastErr {
        PastErr::OutOfMemory
    }
}
