//! The paths of an edge, as byte strings.

ghost use Rattle.std.specs.Prelude.{◌≡◌, ◌<◌, ◌++◌, Some, map, length, slice_get, All, OnOk, OnErr, if◌then◌else◌};
ghost use Rattle.nj_edge_env.specs.Cited.{IsPrefix, quoted, path_at, paths_text};

use nj_names::{FileNo, Files};
use nj_text::quote_into;
use std::alloc::AllocError;

/// Appends the paths of files, with the separator between them; each path is quoted for a shell
/// separately, or written verbatim.
pub(crate) fn append_paths(
    out: &mut Vec<u8>,
    files: &Files,
    paths: &[FileNo],
    separator: u8,
    quoting: bool,
) -> Result<(), AllocError>
    requires { All (λ file. file.0 < length files.now) paths.now }
    ensures appended { OnOk result (out.new.items
        ≡ out.old.items ++ paths_text quoting separator (map (path_at files.now) paths.now)) }
    ensures refused { OnErr result (IsPrefix out.old.items out.new.items) }
{
    'paths: for index in 0..paths.len() {
        if index > 0 {
            out.push(separator)?;
        }
        append_path(out, files.path(file_at(paths, index)), quoting)?;
    }
    Ok(())
}

// The file at an index.
fn file_at(files: &[FileNo], index: usize) -> FileNo
    requires { index < length files.now }
    ensures { slice_get files.now index ≡ Some result }
{
    files[index]
}

// Appends a path.
fn append_path(out: &mut Vec<u8>, path: &[u8], quoting: bool) -> Result<(), AllocError>
    ensures appended { OnOk result (out.new.items
        ≡ out.old.items ++ (if quoting then quoted path.now else path.now)) }
    ensures refused { OnErr result (out.new.items ≡ out.old.items) }
{
    if quoting {
        quote_into(out, path)
    } else {
        out.extend_from_slice(path)
    }
}
