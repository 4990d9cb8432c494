use hp_base::Limit;
use std::alloc::AllocError;
use thiserror::Error;

/// Why there is no executor.
#[derive(Clone, Copy, Debug, PartialEq, Eq, Error)]
pub enum ExecErr {
    /// The file has no machine of the name.
    #[error("no machine of this name")]
    NoNode,
    /// A chain of instances from the machine has too many machines, or there are too many instances in it.
    #[error("the machine has too many {word}", word = .0.what.word())]
    Limit(Limit),
    #[error("out of memory")]
    OutOfMemory,
}

impl From<AllocError> for ExecErr {
    ghost use Rattle.std.specs.Prelude.{◌≡◌};
    ghost use Rattle.hp_exec.specs.declared.error.ExecErr.TheVariants.{OutOfMemory};

    ghost from_gives = { λ _ e. e ≡ OutOfMemory };

    fn from(_: AllocError) -> ExecErr {
        ExecErr::OutOfMemory
    }
}
