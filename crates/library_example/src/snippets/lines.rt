//! Lines of a text.

use std::alloc::AllocError;

/// Appends the given parts and a line end.
pub fn append_line(text: &mut Vec<u8>, parts: &[&[u8]]) -> Result<(), AllocError> {
    for part in parts {
        text.extend_from_slice(part)?;
    }
    text.push(b'\n')?;
    Ok(())
}
