//! The paths that names may mean.

ghost use Rattle.std.specs.Prelude.{◌≡◌, ◌++◌, IfOk, OnOk, option_copied};
ghost use Rattle.nj_audit.specs.Cited.{after_slash, is_absolute, path_below, path_named, path_seen, seen_from, stands_alone, without_folder, without_here};

use nj_text::{TextFault, clean_into, is_clean};
use std::alloc::{AllocError, Global};

/// Buffers for paths.
#[derive(Drop)]
pub struct PathBuffers {
    /// For a path below a directory.
    pub joined: Vec<u8>,
    /// For its clean path.
    pub clean: Vec<u8>,
}

impl PathBuffers {
    /// Returns empty buffers.
    pub fn new(alloc: Global) -> PathBuffers {
        PathBuffers {
            joined: Vec::new(alloc),
            clean: Vec::new(alloc),
        }
    }
}

/// Returns the path of a name that a command sees from a directory, as seen from the directory of
/// the build, or `None` for an empty name. The path is in the buffers if it differs from the name.
pub fn path_seen<'a>(
    buffers: &'a mut PathBuffers,
    folder: &[u8],
    within: &[u8],
    name: &'a [u8],
) -> Result<Option<&'a [u8]>, AllocError>
    ensures { IfOk result (λ path. option_copied path
        ≡ path_seen folder.now (seen_from within.now name.now)) }
{
    if name.is_empty() {
        return Ok(None);
    }
    let path = without_here(name);
    if within.is_empty() {
        return path_named(&mut buffers.clean, folder, path);
    }
    buffers.joined.clear();
    push_below(&mut buffers.joined, within, path)?;
    path_named(&mut buffers.clean, folder, &buffers.joined)
}

/// Returns a name without `$PWD/`, `${PWD}/` or `$(pwd)/`, the directory in which a command reads
/// it.
pub fn without_here(name: &[u8]) -> &[u8]
    ensures { result.now ≡ without_here name.now }
{
    if name.starts_with(b"$PWD/") {
        return &name[5..];
    }
    if name.starts_with(b"${PWD}/") || name.starts_with(b"$(pwd)/") {
        return &name[7..];
    }
    name
}

/// Appends a path that is read in a directory, if any.
pub fn push_below(out: &mut Vec<u8>, folder: &[u8], path: &[u8]) -> Result<(), AllocError>
    ensures { OnOk result (out.new.items ≡ out.old.items ++ path_below folder.now path.now) }
{
    if !stands_alone(folder, path) {
        out.extend_from_slice(folder)?;
        out.push(b'/')?;
        out.extend_from_slice(path)?;
        return Ok(());
    }
    out.extend_from_slice(path)?;
    Ok(())
}

/// Whether a path stands alone, without a directory in front of it.
fn stands_alone(folder: &[u8], path: &[u8]) -> bool
    ensures { result ≡ stands_alone folder.now path.now }
{
    folder.is_empty() || is_absolute(path)
}

/// Whether a path begins with a slash.
fn is_absolute(path: &[u8]) -> bool
    ensures { result ≡ is_absolute path.now }
{
    matches!(path, [b'/', ..])
}

/// Returns the path of a name, as seen from the directory, or `None` for an empty name. The path is
/// in the buffer if it differs from the name. Without a directory, absolute paths stay.
pub fn path_named<'a>(
    buffer: &'a mut Vec<u8>,
    folder: &[u8],
    name: &'a [u8],
) -> Result<Option<&'a [u8]>, AllocError>
    ensures { IfOk result (λ path. option_copied path ≡ path_named folder.now name.now) }
{
    if is_clean(name) {
        return Ok(Some(without_folder(folder, name)));
    }
    buffer.clear();
    match clean_into(buffer, name) {
        Ok(()) => Ok(Some(without_folder(folder, buffer.as_slice()))),
        Err(TextFault::EmptyPath) => Ok(None),
        Err(TextFault::OutOfMemory) => Err(AllocError),
    }
}

/// Returns a path without the directory that it begins with, if a directory is given.
fn without_folder<'a>(folder: &[u8], path: &'a [u8]) -> &'a [u8]
    ensures { result.now ≡ without_folder folder.now path.now }
{
    if folder.is_empty() || !path.starts_with(folder) {
        return path;
    }
    match after_slash(&path[folder.len()..]) {
        Some(rest) => rest,
        None => path,
    }
}

/// Returns the text after the slash with which a text begins.
fn after_slash(text: &[u8]) -> Option<&[u8]>
    ensures { option_copied result ≡ after_slash text.now }
{
    match text {
        [b'/', rest @ ..] => Some(rest),
        _ => None,
    }
}
