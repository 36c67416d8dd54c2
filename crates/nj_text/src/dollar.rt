//! The kinds of units that begin with `$`: a join, an escape or a reference.

ghost use Rattle.std.specs.Prelude.{◌≡◌, ◌≤◌, ◌+◌, ℕ, false, ◌∷◌, length};
ghost use Rattle.nj_text.specs.Cited.{is_line_feed, after_dollar, in_braces, line_end_length, dollar_found, LandsIn};

use crate::runs::{Run, first_byte, run_length, split_run};

/// The unit that a `$` and the bytes after it make.
#[derive(Clone, Copy)]
pub enum Dollar<'a> {
    /// A join: how many bytes of its line end, and how many spaces after that.
    Join(usize, usize),
    /// The byte of an escape.
    Escape(u8),
    /// The name of a reference, and how many bytes it takes with its braces.
    Reference(&'a [u8], usize),
    /// Nothing that may follow a `$`.
    Bad,
}

/// Returns the length of the line end at the front, a line feed with or without a carriage return
/// before it, or 0.
pub fn line_end_length(bytes: &[u8]) -> usize
    ensures length { result ≡ line_end_length bytes.now }
    ensures within { result ≤ length bytes.now }
{
    match bytes {
        [b'\n', ..] => 1,
        [b'\r', b'\n', ..] => 2,
        [..] => 0,
    }
}

fn in_braces(bytes: &[u8]) -> Dollar<'_>
    ensures found { dollar_found result ≡ in_braces bytes.now }
    ensures lands { (b : ℕ) → is_line_feed b ≡ false → LandsIn result (b ∷ bytes.now) }
    ensures within { (dollar_found result).1 ≤ length bytes.now + 1 }
{
    let (name, remainder) = split_run(Run::Identifier, bytes);
    match first_byte(remainder) {
        Some((b'}', _)) if !name.is_empty() => Dollar::Reference(name, name.len() + 2),
        Some(_) | None => Dollar::Bad,
    }
}

/// The unit that a `$` and the bytes after it make.
pub fn after_dollar(bytes: &[u8]) -> Dollar<'_>
    ensures found { dollar_found result ≡ after_dollar bytes.now }
    ensures lands { LandsIn result bytes.now }
    ensures within { (dollar_found result).1 ≤ length bytes.now }
{
    let Some((byte, remainder)) = first_byte(bytes) else {
        return Dollar::Bad;
    };
    match byte {
        b'\n' => Dollar::Join(1, run_length(Run::Spaces, remainder)),
        b'\r' => match first_byte(remainder) {
            Some((b'\n', spaces)) => Dollar::Join(2, run_length(Run::Spaces, spaces)),
            Some(_) | None => Dollar::Bad,
        },
        b'{' => in_braces(remainder),
        b' ' | b':' | b'$' => Dollar::Escape(byte),
        _ => {
            let (name, _) = split_run(Run::Name, bytes);
            if name.is_empty() {
                return Dollar::Bad;
            }
            Dollar::Reference(name, name.len())
        }
    }
}
