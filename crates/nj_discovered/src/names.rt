//! Discovered paths as numbers of clean names.

ghost use Rattle.std.specs.Prelude.{◌≡◌, ◌<◌, ◌∷◌, [], length, IfOk, OnOk};
ghost use Rattle.nj_discovered.specs.Cited.{clean_path_of, Appends};

use nj_names::{Names, short_number};
use nj_text::{TextFault, clean_into, is_clean};
use std::alloc::AllocError;

/// The clean path of a path that is not empty, in the buffer if it differs from the path.
pub fn clean<'b>(buffer: &'b mut Vec<u8>, path: &'b [u8]) -> Result<&'b [u8], AllocError>
    ensures { IfOk result (λ clean. clean.now ≡ clean_path_of path.now) }
{
    if is_clean(path) {
        return Ok(path);
    }
    buffer.clear();
    match clean_into(buffer, path) {
        Ok(()) => Ok(buffer.as_slice()),
        Err(TextFault::EmptyPath) => Ok(b"."),
        Err(TextFault::OutOfMemory) => Err(AllocError),
    }
}

/// Appends the number of the clean path of a path, which is added to the names unless they have it.
pub fn add_clean(
    names: &mut Names,
    numbers: &mut Vec<u32>,
    buffer: &mut Vec<u8>,
    path: &[u8],
) -> Result<(), AllocError>
    ensures { OnOk result (Appends (clean_path_of path.now ∷ []) names.old names.new
        numbers.old.items numbers.new.items) }
{
    let number = names.add(clean(buffer, path)?)?;
    numbers.push(short_number(number)?)?;
    Ok(())
}
