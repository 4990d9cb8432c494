use std::alloc::AllocError;
use thiserror::Error;

/// The outside did not do what it was asked for.
#[derive(Clone, Copy, Debug, PartialEq, Eq, Error)]
#[error("the call failed")]
pub struct Failed;

/// Why a file was not read.
#[derive(Clone, Copy, Debug, PartialEq, Eq, Error)]
pub enum ReadErr {
    /// The file is not there, or the folder did not give it.
    #[error("the file could not be read")]
    Failed,
    /// The file has more than `limit` bytes.
    #[error("the file has more than {limit} bytes")]
    TooLong { limit: usize },
    #[error("out of memory")]
    OutOfMemory,
}

impl From<Failed> for ReadErr {
    ghost use Rattle.std.specs.Prelude.{◌≡◌};
    ghost use Rattle.hp_io.specs.declared.error.ReadErr.TheVariants.{Failed};

    ghost from_gives = { λ _ e. e ≡ Failed };

    fn from(_: Failed) -> ReadErr {
        ReadErr::Failed
    }
}

impl From<AllocError> for ReadErr {
    ghost use Rattle.std.specs.Prelude.{◌≡◌};
    ghost use Rattle.hp_io.specs.declared.error.ReadErr.TheVariants.{OutOfMemory};

    ghost from_gives = { λ _ e. e ≡ OutOfMemory };

    fn from(_: AllocError) -> ReadErr {
        ReadErr::OutOfMemory
    }
}

/// Why a file was not written.
#[derive(Clone, Copy, Debug, PartialEq, Eq, Error)]
pub enum WriteErr {
    #[error("the file could not be written")]
    Failed,
    #[error("out of memory")]
    OutOfMemory,
}

impl From<Failed> for WriteErr {
    ghost use Rattle.std.specs.Prelude.{◌≡◌};
    ghost use Rattle.hp_io.specs.declared.error.WriteErr.TheVariants.{Failed};

    ghost from_gives = { λ _ e. e ≡ Failed };

    fn from(_: Failed) -> WriteErr {
        WriteErr::Failed
    }
}

impl From<AllocError> for WriteErr {
    ghost use Rattle.std.specs.Prelude.{◌≡◌};
    ghost use Rattle.hp_io.specs.declared.error.WriteErr.TheVariants.{OutOfMemory};

    ghost from_gives = { λ _ e. e ≡ OutOfMemory };

    fn from(_: AllocError) -> WriteErr {
        WriteErr::OutOfMemory
    }
}
