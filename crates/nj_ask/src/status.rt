//! How a run ends.

ghost use Rattle.std.specs.Prelude.{◌≡◌};
ghost use Rattle.nj_ask.specs.Cited.{exit_code};

/// How a run ends.
#[derive(Clone, Copy)]
pub enum Status {
    /// The requested output was written.
    Done,
    /// A fault was found, and named on standard error.
    Fault,
    /// The arguments are not a valid request.
    Usage,
    /// The requested output was written, and there is something to look at.
    Look,
    /// Standard output could not be written.
    OutputFailed,
}

impl Status {
    /// The exit status of the process, from 0 to 4.
    pub fn code(self) -> u8
        ensures { result ≡ exit_code self }
    {
        match self {
            Status::Done => 0,
            Status::Fault => 1,
            Status::Usage => 2,
            Status::Look => 3,
            Status::OutputFailed => 4,
        }
    }
}
