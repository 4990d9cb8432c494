use hp_io::{ReadErr, WriteErr};
use std::alloc::{AllocError, AllocFailed};
use std::fmt;

/// Why a table or a row cannot be run.
#[derive(Clone, Copy)]
pub enum Malformed {
    /// The file of the table cannot be read.
    NoFile,
    /// The table is no JSON, which shows here.
    NoJson { line: usize, column: usize },
    /// The table is no list of rows, or an empty one.
    NoTable,
    /// The row has no step.
    NoStep,
    /// A field is lacking, or is of another form.
    Field(&'static str),
    /// There is a field that has no meaning.
    UnknownField,
    /// A text has a character above U+00FF, or a piece of another form.
    NoText,
    OutOfMemory,
}

impl fmt::Display for Malformed {
    fn fmt<W: fmt::Write>(&self, f: &mut fmt::Formatter<W>) -> fmt::Result {
        match self {
            Malformed::NoFile => f.write_str("the file of the table cannot be read"),
            Malformed::NoJson { line, column } => write!(
                f,
                "no JSON at line {line}, column {column}"
            ),
            Malformed::NoTable => f.write_str("the table is no list of rows, or an empty one"),
            Malformed::NoStep => f.write_str("the row has no step"),
            Malformed::Field(field) => write!(
                f,
                "the field `{field}` is lacking, or is of another form"
            ),
            Malformed::UnknownField => f.write_str("there is a field that has no meaning"),
            Malformed::NoText => f.write_str(
                "a text has a character above U+00FF, or a piece of another form",
            ),
            Malformed::OutOfMemory => f.write_str("no memory"),
        }
    }
}

impl From<AllocError> for Malformed {
    fn from(_: AllocError) -> Malformed {
        Malformed::OutOfMemory
    }
}

impl<T: Drop> From<AllocFailed<T>> for Malformed {
    fn from(_: AllocFailed<T>) -> Malformed {
        Malformed::OutOfMemory
    }
}

impl From<serde_json::Error> for Malformed {
    fn from(error: serde_json::Error) -> Malformed {
        Malformed::NoJson {
            line: error.line(),
            column: error.column(),
        }
    }
}

impl From<ReadErr> for Malformed {
    fn from(error: ReadErr) -> Malformed {
        match error {
            ReadErr::OutOfMemory => Malformed::OutOfMemory,
            ReadErr::Failed | ReadErr::TooLong { .. } => Malformed::NoFile,
        }
    }
}

impl From<WriteErr> for Malformed {
    fn from(error: WriteErr) -> Malformed {
        match error {
            WriteErr::OutOfMemory => Malformed::OutOfMemory,
            WriteErr::Failed => Malformed::Field("keep_rest"),
        }
    }
}
