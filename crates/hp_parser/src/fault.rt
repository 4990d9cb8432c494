ghost use Rattle.std.specs.Prelude.{◌≡◌};
ghost use Rattle.hp_parser.specs.declared.fault.Stop.TheVariants.{Memory};

use hp_base::What;
use std::alloc::{AllocError, AllocFailed};

/// Why a token is refused.
#[derive(Clone, Copy, Debug, PartialEq, Eq)]
pub(crate) enum Fault {
    /// With it the tokens so far begin no program.
    Bad,
    /// With it they begin no program within the limits.
    Limit(What),
}

/// Why reading stopped.
#[derive(Debug, Drop)]
pub(crate) enum Stop {
    Memory,
    Fault(Fault),
}

impl From<AllocError> for Stop {
    ghost from_gives = { λ _ e. e ≡ Memory };

    fn from(_e: AllocError) -> Stop {
        Stop::Memory
    }
}

impl<T: Drop> From<AllocFailed<T>> for Stop {
    ghost from_gives = { λ _ e. e ≡ Memory };

    fn from(_e: AllocFailed<T>) -> Stop {
        Stop::Memory
    }
}
