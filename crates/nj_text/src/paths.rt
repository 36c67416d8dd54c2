//! Paths, and their clean form.

ghost use Rattle.nj_text.specs.declared.paths.TextFault.TheVariants.{OutOfMemory};
ghost use Rattle.std.specs.Prelude.{◌≡◌, ◌++◌, ◌↔◌, [], Ok, Err, Some, IsTrue, IfOk, OnOk, OnErr};
ghost use Rattle.nj_text.specs.Cited.{EmptyPath, path_fault_text, clean_path_of, stays_clean};

use crate::cleaning::{is_absolute, push_clean};
use crate::components::{after_ups, all_stay, is_here};
use crate::fault::OUT_OF_MEMORY_TEXT;
use std::alloc::{AllocError, AllocFailed, Global};
use std::error::Error;
use std::fmt;

/// Why a path has no clean form.
#[derive(Clone, Copy, Debug, PartialEq, Eq)]
pub enum TextFault {
    /// The path is empty.
    EmptyPath,
    /// Out of memory.
    OutOfMemory,
}

impl fmt::Display for TextFault {
    ghost output = { λ fault. Some (path_fault_text fault) };

    fn fmt<W: fmt::Write>(&self, f: &mut fmt::Formatter<W>) -> fmt::Result {
        match self {
            TextFault::EmptyPath => f.write_str("empty path"),
            TextFault::OutOfMemory => f.write_str(OUT_OF_MEMORY_TEXT),
        }
    }
}

impl Error for TextFault {}

impl From<AllocError> for TextFault {
    ghost from_gives = { λ _ e. e ≡ OutOfMemory };

    fn from(_e: AllocError) -> TextFault {
        TextFault::OutOfMemory
    }
}

impl<T: Drop> From<AllocFailed<T>> for TextFault {
    ghost from_gives = { λ _ e. e ≡ OutOfMemory };

    fn from(_e: AllocFailed<T>) -> TextFault {
        TextFault::OutOfMemory
    }
}

/// Whether the path is its own clean path (see [`clean_into`]); the empty path is not.
pub fn is_clean(path: &[u8]) -> bool
    ensures { IsTrue result ↔ (clean_path_of path.now ≡ path.now) }
{
    stays_clean(path)
}

/// Whether each component of the path is in its clean path unchanged.
fn stays_clean(path: &[u8]) -> bool
    ensures { result ≡ stays_clean path.now }
{
    if is_absolute(path) {
        let components = &path[1..];
        components.is_empty() || all_stay(components, true)
    } else {
        is_here(path) || all_stay(after_ups(path), false)
    }
}

/// Appends the clean path of a path: its components without empty components and `.`, without each
/// component that a later `..` takes back, and without `..` at the front of an absolute path; `.`
/// or `/` if no component is left.
///
/// # Errors
///
/// `EmptyPath` for the empty path, and `OutOfMemory` if an allocation failed; `out` is then
/// unchanged.
pub fn clean_into(out: &mut Vec<u8>, path: &[u8]) -> Result<(), TextFault>
    ensures ok { OnOk result (out.new.items ≡ out.old.items ++ clean_path_of path.now) }
    ensures refused { OnErr result (out.new.items ≡ out.old.items) }
    ensures empty { (result ≡ Err EmptyPath) ↔ (path.now ≡ []) }
{
    if path.is_empty() {
        return Err(TextFault::EmptyPath);
    }
    if is_clean(path) {
        out.extend_from_slice(path)?;
        return Ok(());
    }
    let start = out.len();
    if let Err(_refused) = push_clean(out, path) {
        out.truncate(start);
        return Err(TextFault::OutOfMemory);
    }
    Ok(())
}

/// The clean path of a path (see [`clean_into`]).
///
/// # Errors
///
/// `EmptyPath` for the empty path, and `OutOfMemory` if an allocation failed.
pub fn clean_path(alloc: Global, path: &[u8]) -> Result<Vec<u8>, TextFault>
    ensures ok { IfOk result (λ clean. clean.items ≡ clean_path_of path.now) }
    ensures empty { (result ≡ Err EmptyPath) ↔ (path.now ≡ []) }
{
    let mut out = Vec::new(alloc);
    clean_into(&mut out, path)?;
    Ok(out)
}
