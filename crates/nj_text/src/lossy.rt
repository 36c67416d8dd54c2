//! Bytes that people read as text.

ghost use Rattle.std.specs.Prelude.{Some, ◌++◌};
ghost use Rattle.nj_text.specs.Cited.{WritesOnOk, utf8_lossy, replaced};

use std::fmt;

/// Bytes that are printed as text, with U+FFFD for each sequence that is not UTF-8.
#[derive(Clone, Copy, Debug, PartialEq, Eq)]
pub struct Lossy<'a>(pub &'a [u8]);

impl fmt::Display for Lossy<'_> {
    ghost output = { λ text. Some (utf8_lossy text.0.now) };

    fn fmt<W: fmt::Write>(&self, f: &mut fmt::Formatter<W>) -> fmt::Result {
        for chunk in self.0.utf8_chunks() {
            write_chunk(f, chunk.valid(), chunk.invalid())?;
        }
        Ok(())
    }
}

/// Writes a text, and U+FFFD for the bytes after it that are not text.
fn write_chunk<W: fmt::Write>(f: &mut fmt::Formatter<W>, text: &str, invalid: &[u8]) -> fmt::Result
    ensures { WritesOnOk W.write_str_gives f.old result (text.now ++ replaced invalid.now) f.new }
{
    match invalid {
        [] => f.write_str(text),
        _ => write!(f, "{text}\u{FFFD}"),
    }
}
