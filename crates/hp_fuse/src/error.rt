use hp_obc::Machine;
use thiserror::Error;

/// There is no memory for joining cases.
#[derive(Debug, Drop, Error)]
#[error("out of memory")]
pub struct FuseErr {
    /// The machine, of which some cases may be joined.
    pub machine: Machine,
}
