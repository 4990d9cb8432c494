//! How a call ends.
ghost use Rattle.std.specs.Prelude.{◌≡◌};
ghost use Rattle.hp_driver.specs.Status.{code_of};

/// How a call of the tool ended.
#[derive(Clone, Copy, Debug, PartialEq, Eq)]
pub enum Status {
    /// What was asked for was done.
    Done,
    /// The program is refused, or what was asked for is not there.
    Refused,
    /// The words are none of the forms.
    NoCommand,
    /// A line of the trace is refused.
    BadLine,
    /// A read of the folder or a take of the console failed.
    ReadFailed,
    /// A write, a put of the console or of the diagnostics failed.
    WriteFailed,
    NoMemory,
    /// The certificate is refused.
    NoCertificate,
    /// The text of machines is refused.
    NoMachines,
    /// The checkpoint is refused.
    NoCheckpoint,
}

impl Status {
    /// The number that the process ends with.
    pub fn code(self) -> u8
        ensures { result ≡ code_of self }
    {
        match self {
            Status::Done => 0,
            Status::Refused => 1,
            Status::NoCommand => 2,
            Status::BadLine => 3,
            Status::ReadFailed => 4,
            Status::WriteFailed => 5,
            Status::NoMemory => 6,
            Status::NoCertificate => 7,
            Status::NoMachines => 8,
            Status::NoCheckpoint => 9,
        }
    }
}
