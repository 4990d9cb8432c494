use hp_abstract::AbsErr;
use std::alloc::AllocError;
use thiserror::Error;

/// Why a contract is not explained.
#[derive(Debug, Drop, Error)]
pub enum WhyErr {
    /// It has no machine.
    #[error("{0}")]
    NoMachine(AbsErr),
    /// The labels of the node are not those of its machine. No program is known of which this is so.
    #[error("the slots of the node are not those of its machine")]
    NoLabels,
    /// The play that was found is refused by the gates of the machine. It never is (`hp_play`).
    #[error("the play is none of the machine")]
    NoPlay,
    #[error("out of memory")]
    OutOfMemory,
}

impl From<AllocError> for WhyErr {
    fn from(_: AllocError) -> WhyErr {
        WhyErr::OutOfMemory
    }
}

impl From<AbsErr> for WhyErr {
    fn from(e: AbsErr) -> WhyErr {
        match e {
            AbsErr::OutOfMemory => WhyErr::OutOfMemory,
            e => WhyErr::NoMachine(e),
        }
    }
}
