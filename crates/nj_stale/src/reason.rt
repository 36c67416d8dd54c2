//! Why an edge is stale.

/// Why an edge is stale. The numbers are places among the inputs that count, which are the explicit,
/// the implicit and the discovered inputs, and among the outputs.
#[derive(Clone, Copy, Debug, PartialEq, Eq)]
pub enum Reason {
    /// The inputs that builds discovered for it are not known.
    UnknownInputs,
    /// This input is stale.
    StaleInput(usize),
    /// This output is missing.
    MissingOutput(usize),
    /// This output is older than the newest input that counts.
    OlderOutput(usize),
    /// The log records another command for this output.
    OtherCommand(usize),
    /// The log records a time for this output that is before the newest input that counts.
    EarlierBuild(usize),
    /// The log does not record this output.
    NotLogged(usize),
}
