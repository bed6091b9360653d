ghost use Rattle.std.specs.Prelude.{◌≡◌};

/// How a run ended. On any status but `Done` a line on the error output names the fault.
#[derive(Clone, Copy, Debug, PartialEq, Eq)]
pub enum Status {
    /// The reports were written.
    Done,
    /// The words of the command line have no form that a command has.
    Usage,
    /// The input could not be read.
    ReadFault,
    /// The reports could not be written.
    WriteFault,
    /// The input is too long, or no accepted text.
    Text,
    /// The grammar is refused.
    Grammar,
    /// A word passes a limit.
    Limit,
    /// There was not enough memory.
    Memory,
    /// A certificate is not right.
    Rejected,
}

impl Status {
    ghost use Rattle.adp_main.specs.Status.{number_of};

    /// The program's exit status.
    pub fn number(self) -> u8
        ensures { result ≡ number_of self }
    {
        match self {
            Status::Done => 0,
            Status::Usage => 2,
            Status::ReadFault => 3,
            Status::WriteFault => 4,
            Status::Text => 5,
            Status::Grammar => 6,
            Status::Limit => 7,
            Status::Memory => 8,
            Status::Rejected => 10,
        }
    }
}
