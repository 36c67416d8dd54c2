//! The words and the operators of a command, as `sh` cuts them.

ghost use Rattle.std.specs.Prelude.{◌≡◌, ◌≤◌, ◌∷◌, ◌++◌, [], IfOk, MatchOption, OnOk, length, position};
ghost use Rattle.nj_audit.specs.Cited.{position_or_len, ends_at, is_cut, is_gap, is_dropped, keeps_backslash, kept, next_bare, next_quoting, read_text, token_model, tokens_after, tokens_of, is_special, Bare, Between};

use std::alloc::AllocError;

/// How a byte of a command is read ("Quoting" in the standard of `sh`).
#[derive(Clone, Copy)]
pub enum Quoting {
    /// Between two words.
    Between,
    /// In a word, outside quotes.
    Bare,
    /// After a backslash outside quotes.
    Escaped,
    /// In single quotes.
    Single,
    /// In double quotes.
    Double,
    /// After a backslash in double quotes.
    DoubleEscaped,
    /// In a comment.
    Comment,
}

/// A word, or a byte of an operator.
#[derive(Clone, Copy)]
pub enum Token {
    /// The word in the buffer.
    Word,
    Operator(u8),
}

/// Returns the first word or operator of a command and the text after it, or `None` if the command
/// has neither. The text of a word, without its quotes, replaces `word`.
pub fn take_token<'a>(
    word: &mut Vec<u8>,
    text: &'a [u8],
) -> Result<Option<(Token, &'a [u8])>, AllocError>
    ensures { IfOk result (λ taken. MatchOption taken (tokens_of text.now ≡ [])
        (λ taken. tokens_of text.now
        ≡ token_model word.new.items taken.0 ∷ tokens_of taken.1.now)) }
{
    let (mut quoting, mut rest) = begin_word(word, text)?;
    'bytes: while let Some((byte, after)) = rest.split_first() {
        if ends_at(quoting, *byte) {
            if !word.as_slice().is_empty() {
                return Ok(Some((Token::Word, rest)));
            }
            if !is_gap(*byte) {
                return Ok(Some((Token::Operator(*byte), after)));
            }
            quoting = Quoting::Between;
            rest = after;
        } else {
            push_kept(word, quoting, *byte)?;
            quoting = next_quoting(quoting, *byte);
            rest = after;
        }
    }
    if word.as_slice().is_empty() {
        return Ok(None);
    }
    Ok(Some((Token::Word, b"")))
}

/// Skips spaces and tabs, and replaces `word` with the bytes before the next byte that ends a word
/// or quotes others. Returns how the rest is read.
fn begin_word<'a>(word: &mut Vec<u8>, text: &'a [u8]) -> Result<(Quoting, &'a [u8]), AllocError>
    ensures { IfOk result (λ begun.
        tokens_after word.new.items (read_text begun.0 begun.1.now) ≡ tokens_of text.now) }
{
    let text = after_gap(text);
    let count = plain_count(text);
    word.clear();
    if count == 0 {
        return Ok((Quoting::Between, text));
    }
    word.extend_from_slice(&text[..count])?;
    Ok((Quoting::Bare, &text[count..]))
}

/// Returns a text without the spaces and tabs in front.
fn after_gap(text: &[u8]) -> &[u8]
    ensures { tokens_of result.now ≡ tokens_of text.now }
{
    let mut rest = text;
    'bytes: while let Some((byte, after)) = rest.split_first() {
        if !is_gap(*byte) {
            return rest;
        }
        rest = after;
    }
    rest
}

/// Returns how many bytes come before the first byte that ends a word or quotes others.
fn plain_count(text: &[u8]) -> usize
    ensures count { result ≡ position_or_len is_special text.now }
    ensures fits { result ≤ length text.now }
{
    match special_position(text) {
        Some(index) => index,
        None => text.len(),
    }
}

/// Returns the position of the first byte that ends a word or quotes others, if any.
fn special_position(text: &[u8]) -> Option<usize>
    ensures position { result ≡ position is_special text.now }
{
    text.iter().position(|byte| is_special(*byte))
}

/// Whether a byte outside quotes ends a word, quotes others or begins a comment.
fn is_special(byte: u8) -> bool
    ensures { result ≡ is_special byte }
{
    is_cut(byte) || is_dropped(Quoting::Between, byte)
}

/// Returns how the byte after the given byte is read.
fn next_quoting(quoting: Quoting, byte: u8) -> Quoting
    ensures { result ≡ next_quoting quoting byte }
{
    match quoting {
        Quoting::Between => match byte {
            b'#' => Quoting::Comment,
            _ => next_bare(byte),
        },
        Quoting::Bare => next_bare(byte),
        Quoting::Escaped => Quoting::Bare,
        Quoting::Single => match byte {
            b'\'' => Quoting::Bare,
            _ => Quoting::Single,
        },
        Quoting::Double => match byte {
            b'\\' => Quoting::DoubleEscaped,
            b'"' => Quoting::Bare,
            _ => Quoting::Double,
        },
        Quoting::DoubleEscaped => Quoting::Double,
        Quoting::Comment => match byte {
            b'\n' => Quoting::Between,
            _ => Quoting::Comment,
        },
    }
}

/// Returns how the byte after a byte outside quotes is read.
fn next_bare(byte: u8) -> Quoting
    ensures { result ≡ next_bare byte }
{
    match byte {
        b'\\' => Quoting::Escaped,
        b'\'' => Quoting::Single,
        b'"' => Quoting::Double,
        _ => {
            if is_cut(byte) {
                Quoting::Between
            } else {
                Quoting::Bare
            }
        }
    }
}

/// Whether a byte ends a word or a comment.
fn ends_at(quoting: Quoting, byte: u8) -> bool
    ensures { result ≡ ends_at quoting byte }
{
    match quoting {
        Quoting::Between | Quoting::Bare => is_cut(byte),
        Quoting::Comment => byte == b'\n',
        _ => false,
    }
}

/// Whether a byte ends a word outside quotes.
fn is_cut(byte: u8) -> bool
    ensures { result ≡ is_cut byte }
{
    matches!(
        byte,
        b' ' | b'\t' | b'\n' | b'&' | b'(' | b')' | b';' | b'<' | b'>' | b'|'
    )
}

/// Whether a byte is a space or a tab.
fn is_gap(byte: u8) -> bool
    ensures { result ≡ is_gap byte }
{
    matches!(byte, b' ' | b'\t')
}

/// Appends the bytes that a word keeps of a byte.
fn push_kept(word: &mut Vec<u8>, quoting: Quoting, byte: u8) -> Result<(), AllocError>
    ensures { OnOk result (word.new.items ≡ word.old.items ++ kept quoting byte) }
{
    if is_dropped(quoting, byte) {
        return Ok(());
    }
    if keeps_backslash(quoting, byte) {
        word.push(b'\\')?;
    }
    word.push(byte)?;
    Ok(())
}

/// Whether a word drops a byte: a quote, a backslash before another byte, the end of a line after a
/// backslash, or a byte of a comment.
fn is_dropped(quoting: Quoting, byte: u8) -> bool
    ensures { result ≡ is_dropped quoting byte }
{
    match quoting {
        Quoting::Between => matches!(byte, b'#' | b'\\' | b'\'' | b'"'),
        Quoting::Bare => matches!(byte, b'\\' | b'\'' | b'"'),
        Quoting::Escaped => byte == b'\n',
        Quoting::Single => byte == b'\'',
        Quoting::Double => matches!(byte, b'\\' | b'"'),
        Quoting::DoubleEscaped => byte == b'\n',
        Quoting::Comment => true,
    }
}

/// Whether a word keeps the backslash before a byte.
fn keeps_backslash(quoting: Quoting, byte: u8) -> bool
    ensures { result ≡ keeps_backslash quoting byte }
{
    match quoting {
        Quoting::DoubleEscaped => !matches!(byte, b'$' | b'`' | b'"' | b'\\'),
        _ => false,
    }
}
