//! Shell quotes of paths.

ghost use Rattle.std.specs.Prelude.{IfSome, ◌≡◌, ◌++◌, ◌<◌, true, length, OnOk, OnErr};
ghost use Rattle.nj_text.specs.Cited.{option_copied, list_all, flat_map, BeginsWith, is_plain_byte, within_quotes, in_quotes, quoted, after_run};

use crate::plain_bytes::plain_front;
use std::alloc::AllocError;

/// Appends the shell quote of a path: a path of letters, digits and `_`, `+`, `-`, `.`, `/` alone
/// verbatim, any other in single quotes, with each `'` written `'\''`, as `$in` and `$out` are in
/// commands ("Rule variables" in the Ninja manual).
///
/// # Errors
///
/// If an allocation failed; `out` is then unchanged.
pub fn quote_into(out: &mut Vec<u8>, path: &[u8]) -> Result<(), AllocError>
    ensures ok { OnOk result (out.new.items ≡ out.old.items ++ quoted path.now) }
    ensures refused { OnErr result (out.new.items ≡ out.old.items) }
{
    let plain = plain_front(path);
    if plain == path.len() {
        out.extend_from_slice(path)?;
        return Ok(());
    }
    let start = out.len();
    let (front, rest) = path.split_at(plain);
    if let Err(refused) = push_quoted(out, front, rest) {
        out.truncate(start);
        return Err(refused);
    }
    Ok(())
}

/// The bytes before the first `'`, and the bytes after it; the whole text and `None` without a `'`.
fn first_run(text: &[u8]) -> (&[u8], Option<&[u8]>)
    ensures run { flat_map within_quotes text.now
        ≡ result.0.now ++ after_run (option_copied result.1) }
    ensures shorter { IfSome result.1 (λ after. length after.now < length text.now) }
{
    for (end, byte) in text.iter().enumerate() {
        if *byte == b'\'' {
            return (&text[..end], Some(&text[end + 1..]));
        }
    }
    (text, None)
}

/// Appends a path in quotes; its front is plain.
fn push_quoted(out: &mut Vec<u8>, front: &[u8], rest: &[u8]) -> Result<(), AllocError>
    requires { list_all is_plain_byte front.now ≡ true }
    ensures ok { OnOk result (out.new.items ≡ out.old.items ++ in_quotes (front.now ++ rest.now)) }
    ensures err { OnErr result (BeginsWith out.old.items out.new.items) }
{
    out.push(b'\'')?;
    out.extend_from_slice(front)?;
    let mut left = Some(rest);
    'runs: while let Some(text) = left {
        let (run, after) = first_run(text);
        out.extend_from_slice(run)?;
        if after.is_some() {
            out.extend_from_slice(b"'\\''".as_slice())?;
        }
        left = after;
    }
    out.push(b'\'')?;
    Ok(())
}
