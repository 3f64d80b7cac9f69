ghost use Rattle.std.specs.Prelude.{◌≡◌};
ghost use Rattle.mz_cli.specs.Numbers.{number_of};

/// How a call of the program ended.
#[derive(Clone, Copy, Debug, PartialEq, Eq)]
pub enum Status {
    /// The mode did its work to the end.
    Done,
    /// The source was refused, for a cause that was written.
    Refused,
    /// The words weren't taken, and the usage line was written.
    Usage,
    /// The program ran, and a thread stopped.
    Stopped,
    /// The source failed, and nothing was written.
    ReadFault,
    /// The sink failed, and a front of the text was written.
    WriteFault,
    /// Want of memory.
    Memory,
}

impl Status {
    /// The exit status of the process.
    pub fn number(&self) -> u8
        ensures { result ≡ number_of self.now }
    {
        match self {
            Status::Done => 0,
            Status::Refused => 1,
            Status::Usage => 2,
            Status::Stopped => 3,
            Status::ReadFault => 4,
            Status::WriteFault => 5,
            Status::Memory => 6,
        }
    }
}
