//! The roots of a graph: the outputs that no edge uses.

ghost use Rattle.std.specs.Prelude.{◌≡◌, not, false, length, slice_index_or, IfOk};
ghost use Rattle.nj_edges.specs.Cited.{filter, AreNumbers, has_number, AreFlags};

use nj_names::FileNo;
use std::alloc::{AllocError, Global};

/// The outputs that are not inputs, in their order.
pub(crate) fn roots(
    alloc: Global,
    file_count: usize,
    outputs: &[FileNo],
    inputs: &[FileNo],
) -> Result<Vec<FileNo>, AllocError>
    requires outputs { AreNumbers file_count outputs.now }
    requires inputs { AreNumbers file_count inputs.now }
    ensures { IfOk result (λ roots. roots.items
        ≡ filter (λ file. not (has_number file.0 inputs.now)) outputs.now) }
{
    let used = flags_of(alloc, file_count, inputs)?;
    unflagged(alloc, outputs, &used)
}

// For each of `file_count` files, whether it is among the given files.
fn flags_of(alloc: Global, file_count: usize, files: &[FileNo]) -> Result<Vec<bool>, AllocError>
    requires { AreNumbers file_count files.now }
    ensures { IfOk result (λ flags. AreFlags file_count files.now flags.items) }
{
    let mut flags = vec![in alloc; false; file_count]?;
    'files: for file in files {
        flags[file.0] = true;
    }
    Ok(flags)
}

// The files without a flag, in their order.
fn unflagged(alloc: Global, files: &[FileNo], flags: &[bool]) -> Result<Vec<FileNo>, AllocError>
    requires { AreNumbers (length flags.now) files.now }
    ensures { IfOk result (λ rest. rest.items
        ≡ filter (λ file. not (slice_index_or flags.now file.0 false)) files.now) }
{
    let mut rest = Vec::new(alloc);
    'files: for file in files {
        if !flags[file.0] {
            rest.push(*file)?;
        }
    }
    Ok(rest)
}
