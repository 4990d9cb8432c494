use hp_base::Limit;
use std::alloc::AllocError;
use thiserror::Error;

/// Why a circuit has no machine.
#[derive(Debug, Drop, Error)]
pub enum CircuitErr {
    /// The assumption reads a controllable variable.
    #[error("the assumption reads a controllable variable")]
    Steered,
    /// The first limit that is passed, of the bits of registers, early values, controllable variables and late values.
    #[error("a limit is passed")]
    Limit(Limit),
    /// It is no circuit: a number names no wire or slot, shapes do not fit, or wires read each other in a circle.
    #[error("no circuit")]
    NoCircuit,
    #[error("out of memory")]
    OutOfMemory,
}

impl From<AllocError> for CircuitErr {
    ghost use Rattle.std.specs.Prelude.{◌≡◌};
    ghost use Rattle.hp_circuit.specs.declared.error.CircuitErr.TheVariants.{OutOfMemory};

    ghost from_gives = { λ _ e. e ≡ OutOfMemory };

    fn from(_: AllocError) -> CircuitErr {
        CircuitErr::OutOfMemory
    }
}
