//! Why arguments are not a question.

ghost use Rattle.std.specs.Prelude.{◌≡◌};
ghost use Rattle.nj_questions.specs.Cited.{OutOfMemory};

use std::alloc::{AllocError, AllocFailed};

/// Why the arguments of a command line are not a question.
#[derive(Debug, Drop)]
pub enum Refusal {
    /// An argument before the first `--` is `--deps-log`, which `--deps` has replaced.
    OldOption,
    /// Help or the version is requested. The text is for standard output.
    Help(String),
    /// `clap` does not accept the arguments. The text is for standard error.
    Unparsed(String),
    /// An allocation failed.
    OutOfMemory,
}

impl From<AllocError> for Refusal {
    ghost from_gives = { λ _ e. e ≡ OutOfMemory };

    fn from(_e: AllocError) -> Refusal {
        Refusal::OutOfMemory
    }
}

impl<T: Drop> From<AllocFailed<T>> for Refusal {
    ghost from_gives = { λ _ e. e ≡ OutOfMemory };

    fn from(_e: AllocFailed<T>) -> Refusal {
        Refusal::OutOfMemory
    }
}
