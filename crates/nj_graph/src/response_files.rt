//! Commands without their response files.

ghost use Rattle.std.specs.Prelude.{◌≡◌, ◌+◌, ◌++◌, ◌≤◌, length, IfOk, IfSome, OnOk};
ghost use Rattle.nj_graph.specs.Cited.{first_position, sign_position, on_one_line, with_content};

use memchr::memmem;
use std::alloc::{AllocError, Global};

/// A command without its response file: the contents of the file, on one line, replace the `@` and
/// the name after it ("Rule variables" in the Ninja manual). If the name does not occur, or its
/// first occurrence has no `@` directly before it, the command stays the same.
///
/// # Errors
///
/// If an allocation failed.
pub(crate) fn with_content(
    alloc: Global,
    command: Vec<u8>,
    file: &[u8],
    content: &[u8],
) -> Result<Vec<u8>, AllocError>
    ensures { IfOk result (λ text.
        text.items ≡ with_content command.items file.now content.now) }
{
    let Some(sign) = sign_position(&command, file) else {
        return Ok(command);
    };
    let mut text = Vec::from_slice(alloc, &command[..sign])?;
    append_on_one_line(&mut text, content)?;
    text.extend_from_slice(&command[sign + 1 + file.len()..])?;
    Ok(text)
}

// The position of the `@` directly before the first occurrence of the file's name in a command.
fn sign_position(command: &[u8], file: &[u8]) -> Option<usize>
    ensures sign { result ≡ sign_position command.now file.now }
    ensures fits { IfSome result (λ sign. (sign + 1) + length file.now ≤ length command.now) }
{
    let position = first_position(command, file)?;
    let sign = position.checked_sub(1)?;
    if command[sign] == b'@' {
        Some(sign)
    } else {
        None
    }
}

// The position at which a part first occurs in a text.
fn first_position(text: &[u8], part: &[u8]) -> Option<usize>
    ensures first { result ≡ first_position part.now text.now }
    ensures fits { IfSome result (λ position. position + length part.now ≤ length text.now) }
{
    memmem::find(text, part)
}

// Appends a text with a space for each line feed.
fn append_on_one_line(out: &mut Vec<u8>, text: &[u8]) -> Result<(), AllocError>
    ensures { OnOk result (out.new.items ≡ out.old.items ++ on_one_line text.now) }
{
    'bytes: for byte in text {
        out.push(if *byte == b'\n' { b' ' } else { *byte })?;
    }
    Ok(())
}
