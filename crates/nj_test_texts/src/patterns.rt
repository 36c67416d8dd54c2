//! Names of tests in patterns that match them.

ghost use Rattle.std.specs.Prelude.{◌≡◌, ◌++◌, OnOk};
ghost use Rattle.nj_test_texts.specs.Cited.{glob_of, glob_part, is_glob_sign, is_regex_sign, regex_of, regex_part};

use std::alloc::AllocError;

/// Appends a name as a part of a regular expression of CMake.
pub(crate) fn push_regex(text: &mut Vec<u8>, name: &[u8]) -> Result<(), AllocError>
    ensures { OnOk result (text.new.items ≡ text.old.items ++ regex_of name.now) }
{
    'bytes: for byte in name {
        push_regex_part(text, *byte)?;
    }
    Ok(())
}

/// Appends a byte of a name as a part of a regular expression.
fn push_regex_part(text: &mut Vec<u8>, byte: u8) -> Result<(), AllocError>
    ensures { OnOk result (text.new.items ≡ text.old.items ++ regex_part byte) }
{
    if is_regex_sign(byte) {
        text.push(b'\\')?;
    }
    text.push(byte)?;
    Ok(())
}

/// Whether a byte is a sign in regular expressions of CMake, outside of brackets.
fn is_regex_sign(byte: u8) -> bool
    ensures { result ≡ is_regex_sign byte }
{
    matches!(
        byte,
        b'$' | b'(' | b')' | b'*' | b'+' | b'.' | b'?' | b'[' | b'\\' | b']' | b'^' | b'|'
    )
}

/// Appends a name as a pattern of Python's `fnmatch`.
pub(crate) fn push_glob(text: &mut Vec<u8>, name: &[u8]) -> Result<(), AllocError>
    ensures { OnOk result (text.new.items ≡ text.old.items ++ glob_of name.now) }
{
    'bytes: for byte in name {
        push_glob_part(text, *byte)?;
    }
    Ok(())
}

/// Appends a byte of a name as a part of a pattern.
fn push_glob_part(text: &mut Vec<u8>, byte: u8) -> Result<(), AllocError>
    ensures { OnOk result (text.new.items ≡ text.old.items ++ glob_part byte) }
{
    if is_glob_sign(byte) {
        return text.extend_from_slice(&[b'[', byte, b']']);
    }
    text.push(byte)?;
    Ok(())
}

/// Whether a byte is a sign in patterns of `fnmatch`, outside of brackets.
fn is_glob_sign(byte: u8) -> bool
    ensures { result ≡ is_glob_sign byte }
{
    matches!(byte, b'*' | b'?' | b'[')
}
