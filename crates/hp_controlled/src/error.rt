ghost use Rattle.hp_controlled.specs.Errors.{IsOfAbstraction};

use hp_abstract::AbsErr;
use hp_complete::FlattenErr;
use hp_form::FormErr;
use hp_machines::MachineErr;
use hp_watch::WatchErr;
use std::alloc::{AllocError, AllocFailed};
use thiserror::Error;

/// Why a program has no machines that choose.
#[derive(Clone, Copy, Debug, PartialEq, Eq, Error)]
pub enum ControlledErr {
    /// A contract that is not kept, equations that read each other in a circle or are not regular, what is given to a machine that is not found among them, or machines
    /// that have no form. No program whose contracts are kept has shown any of it; that none does is not proved yet.
    #[error("not built")]
    NotBuilt,
    #[error("out of memory")]
    OutOfMemory,
}

impl From<AllocError> for ControlledErr {
    ghost use Rattle.std.specs.Prelude.{◌≡◌};
    ghost use Rattle.hp_controlled.specs.declared.error.ControlledErr.TheVariants.{OutOfMemory};

    ghost from_gives = { λ _ e. e ≡ OutOfMemory };

    fn from(_error: AllocError) -> ControlledErr {
        ControlledErr::OutOfMemory
    }
}

impl<T: Drop> From<AllocFailed<T>> for ControlledErr {
    ghost use Rattle.std.specs.Prelude.{◌≡◌};
    ghost use Rattle.hp_controlled.specs.declared.error.ControlledErr.TheVariants.{OutOfMemory};

    ghost from_gives = { λ _ e. e ≡ OutOfMemory };

    fn from(_error: AllocFailed<T>) -> ControlledErr {
        ControlledErr::OutOfMemory
    }
}

impl From<FlattenErr> for ControlledErr {
    ghost use Rattle.hp_controlled.specs.Errors.{IsOfFlatten};

    ghost from_gives = { IsOfFlatten };

    fn from(error: FlattenErr) -> ControlledErr {
        match error {
            FlattenErr::Cycle => ControlledErr::NotBuilt,
            FlattenErr::OutOfMemory => ControlledErr::OutOfMemory,
        }
    }
}

impl From<FormErr> for ControlledErr {
    ghost use Rattle.hp_controlled.specs.Errors.{IsOfForm};

    ghost from_gives = { IsOfForm };

    fn from(error: FormErr) -> ControlledErr {
        match error {
            FormErr::NoForm => ControlledErr::NotBuilt,
            FormErr::OutOfMemory => ControlledErr::OutOfMemory,
        }
    }
}

impl From<MachineErr> for ControlledErr {
    ghost use Rattle.hp_controlled.specs.Errors.{IsOfMachine};

    ghost from_gives = { IsOfMachine };

    fn from(error: MachineErr) -> ControlledErr {
        match error {
            MachineErr::NotBuilt => ControlledErr::NotBuilt,
            MachineErr::OutOfMemory => ControlledErr::OutOfMemory,
        }
    }
}

impl From<WatchErr> for ControlledErr {
    ghost use Rattle.hp_controlled.specs.Errors.{IsOfWatch};

    ghost from_gives = { IsOfWatch };

    fn from(error: WatchErr) -> ControlledErr {
        match error {
            WatchErr::Misfit => ControlledErr::NotBuilt,
            WatchErr::OutOfMemory => ControlledErr::OutOfMemory,
        }
    }
}

/// Why there is no Boolean machine, as why there are no machines that choose.
pub fn of_abstraction(error: &AbsErr) -> ControlledErr
    ensures { IsOfAbstraction error.now result }
{
    match error {
        AbsErr::OutOfMemory => ControlledErr::OutOfMemory,
        AbsErr::Assume { .. } | AbsErr::Limit(_) | AbsErr::NotBuilt => ControlledErr::NotBuilt,
    }
}
