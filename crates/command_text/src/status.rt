//! How the program ends.

ghost use Rattle.std.specs.Prelude.{◌≡◌};
ghost use Rattle.command_text.specs.Status.{number_of};

/// How a command ended.
#[derive(Clone, Copy, Debug, PartialEq, Eq)]
pub enum Status {
    /// The input was read to its end, and all was written.
    Ok,
    /// The words are no command.
    BadWords,
    /// The input is not in the command's grammar.
    BadInput,
    /// A read failed.
    ReadFault,
    /// A write failed.
    WriteFault,
    /// An allocation failed. A prefix of the output was written.
    NoMemory,
    /// A bind, a receive or a send failed.
    WireFault,
    /// The history that was checked is no run.
    NotRun,
    /// The input has too many bytes or lines.
    TooLong,
    /// A driven client had 1,000,000 fruitless turns in a row.
    Stalled,
    /// The node doesn't open.
    BadNode,
}

impl Status {
    /// The status as the system is told it.
    pub fn number(self) -> u8
        ensures { result ≡ number_of self }
    {
        match self {
            Status::Ok => 0,
            Status::BadWords => 1,
            Status::BadInput => 2,
            Status::ReadFault => 3,
            Status::WriteFault => 4,
            Status::NoMemory => 5,
            Status::WireFault => 6,
            Status::NotRun => 7,
            Status::TooLong => 8,
            Status::Stalled => 9,
            Status::BadNode => 10,
        }
    }
}
