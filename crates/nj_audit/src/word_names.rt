//! The names in a word.

ghost use Rattle.std.specs.Prelude.{◌≡◌, ℕ, ◌==◌, ◌<◌, ◌∷◌, length, position, IfSome, option_copied};
ghost use Rattle.nj_audit.specs.Cited.{after_sign, attached_to, is_bare, is_sign, list_any, parts_left, slice_split};

/// Returns the text after the first `=` of a word, if any.
pub fn after_sign(word: &[u8]) -> Option<&[u8]>
    ensures { option_copied result ≡ after_sign word.now }
{
    match equals_position(word) {
        Some(index) => Some(&word[index + 1..]),
        None => None,
    }
}

/// Returns the position of the first `=` of a word, if any.
fn equals_position(word: &[u8]) -> Option<usize>
    ensures position { result ≡ position (λ byte. byte == 61) word.now }
    ensures fits { IfSome result (λ index. index < length word.now) }
{
    word.iter().position(|byte| *byte == b'=')
}

/// Returns the value that is attached to an option of one letter, or to an `@`.
pub fn attached_to(text: &[u8]) -> Option<&[u8]>
    ensures { option_copied result ≡ attached_to text.now }
{
    match text {
        [b'-', _, value @ ..] => Some(value),
        [b'-'] => Some(b""),
        [b'@', value @ ..] => Some(value),
        _ => None,
    }
}

/// Whether a word has a sign between an option and its value, or between the values of a list.
pub fn has_sign(word: &[u8]) -> bool
    ensures { result ≡ list_any is_sign word.now }
{
    word.iter().any(|byte| is_sign(*byte))
}

/// Whether a byte is a sign: `=`, `:`, `,` or `;`.
fn is_sign(byte: u8) -> bool
    ensures { result ≡ is_sign byte }
{
    matches!(byte, b'=' | b':' | b',' | b';')
}

/// Returns the part of a text before its first sign, and the text after that sign, if any.
pub fn split_part(text: &[u8]) -> (&[u8], Option<&[u8]>)
    ensures { slice_split is_sign text.now
        ≡ result.0.now ∷ parts_left (option_copied result.1) }
{
    match sign_position(text) {
        Some(index) => (&text[..index], Some(&text[index + 1..])),
        None => (text, None),
    }
}

/// Returns the position of the first sign of a text, if any.
fn sign_position(text: &[u8]) -> Option<usize>
    ensures position { result ≡ position is_sign text.now }
    ensures fits { IfSome result (λ index. index < length text.now) }
{
    text.iter().position(|byte| is_sign(*byte))
}

/// Whether a name has neither a slash nor a dot: it may be a word with another meaning.
pub fn is_bare(name: &[u8]) -> bool
    ensures { result ≡ is_bare name.now }
{
    !name.iter().any(|byte| *byte == b'/' || *byte == b'.')
}
