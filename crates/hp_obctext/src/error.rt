use hp_base::{Limit, Span};
use std::alloc::{AllocError, AllocFailed};
use thiserror::Error;

/// Why a text is no text of machines with form.
#[derive(Debug, Drop, Error)]
pub enum ObcErr {
    /// The first word with which the text so far begins no text of machines, a byte that begins no word, or the place behind the text.
    #[error("line {line}, column {col}: no machines", line = .span.line, col = .span.col)]
    Syntax { span: Span },
    /// The first word that breaks a rule of form.
    #[error("line {line}, column {col}: machines without form", line = .span.line, col = .span.col)]
    Form { span: Span },
    /// The text is too long.
    #[error("the text is too long")]
    Limit(Limit),
    #[error("out of memory")]
    OutOfMemory,
}

impl From<AllocError> for ObcErr {
    ghost use Rattle.std.specs.Prelude.{◌≡◌};
    ghost use Rattle.hp_obctext.specs.declared.error.ObcErr.TheVariants.{OutOfMemory};

    ghost from_gives = { λ _ e. e ≡ OutOfMemory };

    fn from(_: AllocError) -> ObcErr {
        ObcErr::OutOfMemory
    }
}

impl<T: Drop> From<AllocFailed<T>> for ObcErr {
    ghost use Rattle.std.specs.Prelude.{◌≡◌};
    ghost use Rattle.hp_obctext.specs.declared.error.ObcErr.TheVariants.{OutOfMemory};

    ghost from_gives = { λ _ e. e ≡ OutOfMemory };

    fn from(_failed: AllocFailed<T>) -> ObcErr {
        ObcErr::OutOfMemory
    }
}
