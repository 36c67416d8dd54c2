//! The pieces of a depfile.

ghost use Rattle.std.specs.Prelude.{◌≡◌, ◌<◌, ◌≤◌, ◌+◌, ◌∷◌, [], true, length, MatchOption};
ghost use Rattle.nj_depfiles.specs.Cited.{after_backslashes, backslashes, byte_at, ends_targets, first_piece, is_dollar, line_end_at, literals, pieces, plain_piece, sign_piece, stands_for_itself, IsCutAs, piece_of};

/// What a piece means.
#[derive(Clone, Copy)]
pub(crate) enum Piece<'a> {
    /// Bytes of a name.
    NameBytes(&'a [u8]),
    /// The end of a name.
    NameEnd,
    /// The end of a line, and of a name.
    LineEnd,
}

/// Returns the first piece of a text, and the text after it, or `None` at the end of the text.
pub(crate) fn next_piece(text: &[u8]) -> Option<(Piece<'_>, &[u8])>
    ensures { MatchOption result (text.now ≡ []) (λ next.
        (pieces text.now ≡ piece_of next.0 ∷ pieces next.1.now)
        × (length next.1.now < length text.now)) }
{
    if text.is_empty() {
        return None;
    }
    let (piece, size) = first_piece(text);
    let (_, after) = text.split_at(size);
    Some((piece, after))
}

// The first piece of a text, and how many bytes it is made of.
fn first_piece(text: &[u8]) -> (Piece<'_>, usize)
    requires { 0 < length text.now }
    ensures { IsCutAs text.now (first_piece text.now) result }
{
    match backslashes(text) {
        0 => plain_piece(text),
        count => after_backslashes(text, count),
    }
}

// The piece of a text that does not begin with a backslash.
fn plain_piece(text: &[u8]) -> (Piece<'_>, usize)
    requires { 0 < length text.now }
    ensures { IsCutAs text.now (plain_piece text.now) result }
{
    match literals(text) {
        0 => sign_piece(text),
        count => (Piece::NameBytes(&text[..count]), count),
    }
}

// The piece of a text that begins with another sign.
fn sign_piece(text: &[u8]) -> (Piece<'_>, usize)
    requires { 0 < length text.now }
    ensures { IsCutAs text.now (sign_piece text.now) result }
{
    if is_dollar(text) {
        return (Piece::NameBytes(&text[..1]), 2);
    }
    match line_end_at(text, 0) {
        0 => (Piece::NameEnd, 1),
        size => (Piece::LineEnd, size),
    }
}

// Whether a text begins with a dollar, which is written twice.
fn is_dollar(text: &[u8]) -> bool
    ensures is { result ≡ is_dollar text.now }
    ensures within { result ≡ true → 2 ≤ length text.now }
{
    byte_at(text, 0) == b'$' && byte_at(text, 1) == b'$'
}

// The piece of a text that begins with so many backslashes.
fn after_backslashes(text: &[u8], count: usize) -> (Piece<'_>, usize)
    requires some { 0 < count }
    requires within { count ≤ length text.now }
    ensures { IsCutAs text.now (after_backslashes count text.now) result }
{
    match byte_at(text, count) {
        b' ' if count % 2 == 0 => (Piece::NameBytes(&text[..count]), count),
        b' ' => (Piece::NameBytes(&text[count / 2 + 1..=count]), count + 1),
        b'#' => (Piece::NameBytes(&text[1..=count]), count + 1),
        b':' if !ends_targets(byte_at(text, count + 1)) => (
            Piece::NameBytes(&text[1..=count]),
            count + 1,
        ),
        b'\n' | b'\r' | 0 if count == 1 => (Piece::NameEnd, 1 + line_end_at(text, 1)),
        b'\n' | b'\r' | 0 => (Piece::NameBytes(&text[..count]), count),
        _ => (Piece::NameBytes(&text[..=count]), count + 1),
    }
}

// Returns the length of the line end at the given place, or 0.
fn line_end_at(text: &[u8], place: usize) -> usize
    requires { place ≤ length text.now }
    ensures size { result ≡ line_end_at text.now place }
    ensures within { place + result ≤ length text.now }
{
    match &text[place..] {
        [b'\n', ..] => 1,
        [b'\r', b'\n', ..] => 2,
        _ => 0,
    }
}

// The byte at a place, or a zero byte past the end.
fn byte_at(text: &[u8], place: usize) -> u8
    ensures { result ≡ byte_at text.now place }
{
    match text.get(place) {
        Some(byte) => *byte,
        None => 0,
    }
}

// How many backslashes a text begins with.
fn backslashes(text: &[u8]) -> usize
    ensures count { result ≡ backslashes text.now }
    ensures within { result ≤ length text.now }
{
    let mut count = 0;
    for byte in text {
        if *byte != b'\\' {
            return count;
        }
        count += 1;
    }
    count
}

// How many bytes at the front of a text stand for themselves.
fn literals(text: &[u8]) -> usize
    ensures count { result ≡ literals text.now }
    ensures within { result ≤ length text.now }
{
    let mut count = 0;
    for byte in text {
        if !stands_for_itself(*byte) {
            return count;
        }
        count += 1;
    }
    count
}

// Whether a byte stands for itself.
fn stands_for_itself(byte: u8) -> bool
    ensures { result ≡ stands_for_itself byte }
{
    matches!(
        byte,
        b'a'..=b'z' | b'A'..=b'Z' | b'0'..=b'9' | 128..=255
            | b'+' | b',' | b'/' | b'_' | b':' | b'.' | b'~' | b'(' | b')' | b'{' | b'}' | b'%'
            | b'=' | b'@' | b'[' | b']' | b'!' | b'-' | b'?' | b'\'' | b'&' | b'"'
    )
}

// Whether a colon before the given byte ends the targets.
fn ends_targets(byte: u8) -> bool
    ensures { result ≡ ends_targets byte }
{
    matches!(byte, b' ' | b'\t' | b'\n' | b'\r' | 0)
}
