use hp_base::{Name, Span};
use std::alloc::AllocError;
use thiserror::Error;

/// What is wanted or found where types are compared.
#[derive(Debug, Drop)]
pub enum Is {
    Bool,
    Int,
    Enum(Name),
    /// So many values, where a call has so many outputs or arguments, or an equation so many names.
    Row(u64),
}

/// Why the types or definitions of a program were refused.
#[derive(Debug, Drop, Error)]
pub enum TypeErr {
    /// The expression at the place has another type than is wanted.
    #[error("line {line}, column {col}: wrong type", line = .span.line, col = .span.col)]
    Wrong { span: Span, wanted: Is, found: Is },
    /// The name has no equation.
    #[error("line {line}, column {col}: name without an equation", line = .span.line, col = .span.col)]
    Undefined { name: Name, span: Span },
    /// The name has more than one equation, or one where it may have none.
    #[error("line {line}, column {col}: name defined twice", line = .span.line, col = .span.col)]
    Twice { name: Name, span: Span },
    /// A block of a control equation lacks the name; or a `switch` or `merge` lacks or repeats the constructor.
    #[error("line {line}, column {col}: not each branch once", line = .span.line, col = .span.col)]
    Branch { name: Name, span: Span },
    #[error("out of memory")]
    OutOfMemory,
}

impl From<AllocError> for TypeErr {
    ghost use Rattle.std.specs.Prelude.{◌≡◌};
    ghost use Rattle.hp_typing.specs.declared.error.TypeErr.TheVariants.{OutOfMemory};

    ghost from_gives = { λ _ e. e ≡ OutOfMemory };

    fn from(_: AllocError) -> TypeErr {
        TypeErr::OutOfMemory
    }
}
