//! Lines of text that wait to be written.

ghost use Rattle.std.specs.Prelude.{◌≡◌, ◌++◌, OnOk};
ghost use Rattle.nj_tools.specs.Cited.{line, path_lines};

use nj_graph::Files;
use std::alloc::AllocError;

/// Appends a line of two parts.
#[inline]
pub(crate) fn append_line(text: &mut Vec<u8>, before: &[u8], after: &[u8]) -> Result<(), AllocError>
    ensures { OnOk result (text.new.items ≡ text.old.items ++ line (before.now ++ after.now)) }
{
    text.extend_from_slice(before)?;
    text.extend_from_slice(after)?;
    text.push(b'\n')?;
    Ok(())
}

/// Appends the paths of files, a line each, after the given beginning.
pub(crate) fn append_paths(
    text: &mut Vec<u8>,
    beginning: &[u8],
    files: Files<'_>,
) -> Result<(), AllocError>
    ensures { OnOk result (text.new.items
        ≡ text.old.items ++ path_lines beginning.now files.entry) }
{
    'files: for file in files {
        append_line(text, beginning, file.path())?;
    }
    Ok(())
}
