//! Texts in the quotes of Graphviz.

ghost use Rattle.std.specs.Prelude.{◌≡◌, ◌++◌, OnOk};
ghost use Rattle.nj_ask.specs.Cited.{escaped, escapes, quoted};

use std::alloc::AllocError;

/// Appends a text in quotes, with U+FFFD for invalid UTF-8.
pub(crate) fn push_quoted(out: &mut Vec<u8>, text: &[u8]) -> Result<(), AllocError>
    ensures { OnOk result (out.new.items ≡ out.old.items ++ quoted text.now) }
{
    out.push(b'"')?;
    push_escapes(out, text)?;
    out.push(b'"')?;
    Ok(())
}

/// Appends a text as it is written in quotes, with U+FFFD for invalid UTF-8.
pub(crate) fn push_escapes(out: &mut Vec<u8>, text: &[u8]) -> Result<(), AllocError>
    ensures { OnOk result (out.new.items ≡ out.old.items ++ escapes text.now) }
{
    let text = String::from_utf8_lossy(*out.allocator(), text)?;
    'bytes: for byte in text.as_bytes() {
        push_escaped(out, *byte)?;
    }
    Ok(())
}

/// Appends a byte as it is written in quotes.
fn push_escaped(out: &mut Vec<u8>, byte: u8) -> Result<(), AllocError>
    ensures { OnOk result (out.new.items ≡ out.old.items ++ escaped byte) }
{
    if byte == b'&' {
        return out.extend_from_slice(b"&amp;");
    }
    if byte == b'"' || byte == b'\\' {
        out.push(b'\\')?;
    }
    out.push(byte)?;
    Ok(())
}
