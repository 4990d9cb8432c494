use hp_base::{Limit, Span};
use std::alloc::{AllocError, AllocFailed};
use thiserror::Error;

/// What of a certificate is not that of a machine.
#[derive(Clone, Copy, Debug, PartialEq, Eq)]
pub enum Misfit {
    /// Another name.
    Node,
    /// Other counts, other widths, or a line with a variable that the machine has not.
    Vars,
    /// Not one function for each control bit.
    Count,
    /// A set of states that reads more than registers, or a function that reads more than registers and early bits.
    Scope,
}

/// A condition of a certificate that fails.
#[derive(Clone, Copy, Debug, PartialEq, Eq)]
pub enum Cond {
    /// The initial state is not in the set, or not in the last rank.
    Init,
    /// From some state of the set, the functions do not keep it.
    Step,
    /// From some state of this rank, counted from 1, a violation or the rank below cannot be forced by the next instant.
    Rank(u64),
}

/// Why a certificate is refused.
#[derive(Debug, Drop, Error)]
pub enum CertErr {
    /// The first piece of a text with which it begins no certificate: a word, a space or a newline, or the place behind the text.
    #[error("line {line}, column {col}: no certificate", line = .span.line, col = .span.col)]
    Syntax { span: Span },
    /// It is not one of this machine.
    #[error("not a certificate of this machine")]
    Misfit(Misfit),
    /// It proves nothing of this machine.
    #[error("a condition of the certificate fails")]
    Fails(Cond),
    /// The text is too long.
    #[error("the text is too long")]
    Limit(Limit),
    #[error("out of memory")]
    OutOfMemory,
}

impl From<AllocError> for CertErr {
    ghost use Rattle.std.specs.Prelude.{◌≡◌};
    ghost use Rattle.hp_cert.specs.declared.certtext.error.CertErr.TheVariants.{OutOfMemory};

    ghost from_gives = { λ _ e. e ≡ OutOfMemory };

    fn from(_: AllocError) -> CertErr {
        CertErr::OutOfMemory
    }
}

impl<T: Drop> From<AllocFailed<T>> for CertErr {
    ghost use Rattle.std.specs.Prelude.{◌≡◌};
    ghost use Rattle.hp_cert.specs.declared.certtext.error.CertErr.TheVariants.{OutOfMemory};

    ghost from_gives = { λ _ e. e ≡ OutOfMemory };

    fn from(_failed: AllocFailed<T>) -> CertErr {
        CertErr::OutOfMemory
    }
}
