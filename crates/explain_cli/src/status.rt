ghost use Rattle.std.specs.Prelude.{◌≡◌};
ghost use Rattle.explain_cli.specs.ExitCode.{code_of};

/// How a call ended.
#[derive(Clone, Copy, Debug, PartialEq, Eq)]
pub enum Status {
    /// The data conforms, or a minimal pair was found, or a pair was applied, or a document is accepted.
    Done,
    /// The data doesn't conform, or no pair explains, or a document is not accepted.
    No,
    /// The words are no command.
    Usage,
    /// A document is refused, or what the documents together are.
    Input,
    /// A document could not be read.
    Read,
    /// A sink did not take all of its text.
    Write,
    /// Memory could not be had.
    Memory,
    /// The budget of search steps is used up. Only `explain` ends so.
    Spent,
}

impl Status {
    /// The exit status of the program.
    pub fn code(&self) -> u8
        ensures { result ≡ code_of self.now }
    {
        match self {
            Status::Done => 0,
            Status::No => 1,
            Status::Usage => 2,
            Status::Input => 3,
            Status::Read => 4,
            Status::Write => 5,
            Status::Memory => 6,
            Status::Spent => 8,
        }
    }
}
