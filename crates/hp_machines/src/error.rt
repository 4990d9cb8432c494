use hp_complete::FlattenErr;
use hp_form::FormErr;
use std::alloc::AllocError;
use thiserror::Error;

/// Why a program has no machines.
#[derive(Clone, Copy, Debug, PartialEq, Eq, Error)]
pub enum MachineErr {
    /// Equations that read each other in a circle or are not regular, or machines that have no form, which no program has shown: the way from
    /// the program to machines is not built.
    #[error("not built")]
    NotBuilt,
    #[error("out of memory")]
    OutOfMemory,
}

impl From<AllocError> for MachineErr {
    ghost use Rattle.std.specs.Prelude.{◌≡◌};
    ghost use Rattle.hp_machines.specs.declared.error.MachineErr.TheVariants.{OutOfMemory};

    ghost from_gives = { λ _ e. e ≡ OutOfMemory };

    fn from(_error: AllocError) -> MachineErr {
        MachineErr::OutOfMemory
    }
}

impl From<FlattenErr> for MachineErr {
    ghost use Rattle.hp_machines.specs.NotBuilt.{IsOfFlatten};

    ghost from_gives = { IsOfFlatten };

    fn from(error: FlattenErr) -> MachineErr {
        match error {
            FlattenErr::Cycle => MachineErr::NotBuilt,
            FlattenErr::OutOfMemory => MachineErr::OutOfMemory,
        }
    }
}

impl From<FormErr> for MachineErr {
    ghost use Rattle.hp_machines.specs.NotBuilt.{IsOfForm};

    ghost from_gives = { IsOfForm };

    fn from(error: FormErr) -> MachineErr {
        match error {
            FormErr::NoForm => MachineErr::NotBuilt,
            FormErr::OutOfMemory => MachineErr::OutOfMemory,
        }
    }
}
