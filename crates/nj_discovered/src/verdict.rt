//! Whether the inputs that builds discovered for an edge are known.

ghost use Rattle.std.specs.Prelude.{◌≡◌, ◌++◌, OnOk};
ghost use Rattle.nj_discovered.specs.Cited.{fault_text, error_text, stranger_text};

use nj_depfiles::DepfileFault;
use nj_faults::Name;
use std::alloc::AllocError;

/// Whether the inputs that builds discovered for an edge are known.
#[derive(Drop)]
pub enum Verdict {
    /// They are known. An edge without `deps` and `depfile` has no discovered inputs.
    Known,
    /// They are not known, so that Ninja builds the edge again.
    Unknown(Unknown),
    /// The depfile has a fault, at which Ninja stops.
    Faulty(DepfileError),
}

/// Why the inputs that builds discovered for an edge are not known.
#[derive(Clone, Copy, Debug, PartialEq, Eq)]
pub enum Unknown {
    /// The deps log has no record for the first output.
    NoRecord,
    /// The first output is newer than its record.
    NewerOutput,
    /// The time of the first output cannot be read.
    NoTime,
    /// There is no depfile.
    NoDepfile,
    /// The depfile is empty.
    EmptyDepfile,
    /// The first target of the depfile is not the first output.
    OtherTarget,
}

/// The fault of a depfile.
#[derive(Debug, Drop)]
pub enum DepfileError {
    /// It cannot be read, or its path is not UTF-8.
    Unreadable,
    /// It is not a depfile.
    Depfile(DepfileFault),
    /// It has no target.
    NoTarget,
    /// This target, which is not the first target, is not an output of the edge.
    NoSuchOutput(Name),
}

impl DepfileError {
    /// Appends the fault in the words of Ninja.
    pub fn append_text(&self, out: &mut Vec<u8>) -> Result<(), AllocError>
        ensures { OnOk result (out.new.items ≡ out.old.items ++ error_text self.now) }
    {
        match self {
            DepfileError::Unreadable => out.extend_from_slice(b"it cannot be read"),
            DepfileError::Depfile(fault) => append_fault(out, *fault),
            DepfileError::NoTarget => out.extend_from_slice(b"no outputs declared"),
            DepfileError::NoSuchOutput(target) => append_stranger(out, target.as_bytes()),
        }
    }
}

// Appends that a target is not an output.
fn append_stranger(out: &mut Vec<u8>, target: &[u8]) -> Result<(), AllocError>
    ensures { OnOk result (out.new.items ≡ out.old.items ++ stranger_text target.now) }
{
    out.extend_from_slice(b"depfile mentions '")?;
    out.extend_from_slice(target)?;
    out.extend_from_slice(b"' as an output, but no such output was declared")?;
    Ok(())
}

// Appends the fault of a text that is not a depfile.
fn append_fault(out: &mut Vec<u8>, fault: DepfileFault) -> Result<(), AllocError>
    ensures { OnOk result (out.new.items ≡ out.old.items ++ fault_text fault) }
{
    match fault {
        DepfileFault::NoColon => out.extend_from_slice(b"expected ':' in depfile"),
        DepfileFault::InputHasInputs => {
            out.extend_from_slice(b"inputs may not also have inputs")
        }
        DepfileFault::OutOfMemory => out.extend_from_slice(b"out of memory"),
    }
}
