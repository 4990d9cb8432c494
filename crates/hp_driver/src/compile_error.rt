ghost use Rattle.hp_driver.specs.CompileErrors.{of_refusal, of_contract};
ghost use Rattle.std.specs.Prelude.{◌≡◌};

use hp_compile::Refusal;
use hp_verdicts::ContractErr;
use std::alloc::AllocError;
use thiserror::Error;

/// Why a text is not compiled.
#[derive(Debug, Drop, Error)]
pub enum CompileErr {
    /// The text has no program that breaks no rule, and this is the first that it breaks. It is no want of memory.
    #[error("{0}")]
    Refused(Refusal),
    /// A contract is refused, the first that is. It is no want of memory.
    #[error("{0}")]
    Contract(ContractErr),
    #[error("out of memory")]
    OutOfMemory,
}

impl From<Refusal> for CompileErr {
    ghost use Rattle.std.specs.Prelude.{◌≡◌};
    ghost use Rattle.hp_driver.specs.CompileErrors.{of_refusal};

    ghost from_gives = { λ refusal e. e ≡ of_refusal refusal };

    fn from(refusal: Refusal) -> CompileErr {
        match refusal {
            Refusal::OutOfMemory => CompileErr::OutOfMemory,
            other => CompileErr::Refused(other),
        }
    }
}

impl From<ContractErr> for CompileErr {
    ghost use Rattle.std.specs.Prelude.{◌≡◌};
    ghost use Rattle.hp_driver.specs.CompileErrors.{of_contract};

    ghost from_gives = { λ error e. e ≡ of_contract error };

    fn from(error: ContractErr) -> CompileErr {
        match error {
            ContractErr::OutOfMemory => CompileErr::OutOfMemory,
            other => CompileErr::Contract(other),
        }
    }
}

impl From<AllocError> for CompileErr {
    ghost use Rattle.std.specs.Prelude.{◌≡◌};
    ghost use Rattle.hp_driver.specs.declared.compile_error.CompileErr.TheVariants.{OutOfMemory};

    ghost from_gives = { λ _ e. e ≡ OutOfMemory };

    fn from(_error: AllocError) -> CompileErr {
        CompileErr::OutOfMemory
    }
}
