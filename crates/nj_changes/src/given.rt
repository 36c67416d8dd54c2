//! The paths that a text lists.

ghost use Rattle.std.specs.Prelude.{◌≡◌, IfOk, OnOk, ◌++◌, [], map};
ghost use Rattle.nj_changes.specs.Cited.{filter, is_empty, ended_by, lines_of, strip_carriage_return, zero_ended};

use std::alloc::{AllocError, Global};

/// Returns the lines of a text that are not empty, without their ends, LF or CR LF; the last line
/// may lack its end.
pub fn lines_of(alloc: Global, text: &[u8]) -> Result<Vec<&[u8]>, AllocError>
    ensures { IfOk result (λ lines. map (λ line. line.now) lines.items ≡ lines_of text.now) }
{
    let mut lines = Vec::new(alloc);
    'pieces: for piece in &ended_by(alloc, text, b'\n')? {
        let line = without_return(piece);
        if !line.is_empty() {
            lines.push(line)?;
        }
    }
    Ok(lines)
}

/// Returns the paths in a text that each end in a zero byte, without that byte and without empty
/// paths; the last path may lack the byte.
pub fn zero_ended(alloc: Global, text: &[u8]) -> Result<Vec<&[u8]>, AllocError>
    ensures { IfOk result (λ paths. map (λ path. path.now) paths.items ≡ zero_ended text.now) }
{
    ended_by(alloc, text, 0)
}

// The pieces of a text that each end in the given byte, without the byte and without empty pieces.
fn ended_by(alloc: Global, text: &[u8], end: u8) -> Result<Vec<&[u8]>, AllocError>
    ensures { IfOk result (λ pieces.
        map (λ piece. piece.now) pieces.items ≡ ended_by end text.now) }
{
    text.split(|byte| *byte == end)
        .filter(|piece| !piece.is_empty())
        .collect(alloc)
}

// A line without the CR at its end.
fn without_return(line: &[u8]) -> &[u8]
    ensures { result.now ≡ strip_carriage_return line.now }
{
    match line {
        [front @ .., b'\r'] => front,
        _ => line,
    }
}
