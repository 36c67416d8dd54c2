//! The words of a run, in one text.

ghost use Rattle.std.specs.Prelude.{◌≡◌, ◌≢◌, ◌∷◌, ◌<◌, [], IfErr, IfOk, OnOk, length, map, string_bytes, true};
ghost use Rattle.nj_c.specs.Cited.{given_words, is_utf8, WordsRefused};

use crate::status::Status;
use std::alloc::{AllocError, Global};

/// The arguments of a text; each ends before a zero byte or at the end of the text.
pub(crate) fn words_in(alloc: Global, text: &[u8]) -> Result<Vec<String>, Status>
    ensures words { IfOk result (λ words. map string_bytes words.items ≡ given_words text.now) }
    ensures text { OnOk result (is_utf8 text.now ≡ true) }
    ensures refused { IfErr result (WordsRefused text.now) }
{
    let Ok(text) = str::from_utf8(text) else {
        return Err(Status::NotUtf8);
    };
    Ok(split_words(alloc, text)?)
}

fn split_words(alloc: Global, text: &str) -> Result<Vec<String>, AllocError>
    ensures { IfOk result (λ words. map string_bytes words.items ≡ given_words text.now) }
{
    let mut words = Vec::new(alloc);
    let mut rest = text;
    'words: while !rest.is_empty() {
        let (word, after) = first_word(rest);
        words.push(String::from_str(alloc, word)?)?;
        rest = after;
    }
    Ok(words)
}

// The first argument of a text, and the text after the zero byte at its end.
fn first_word(text: &str) -> (&str, &str)
    requires { text.now ≢ [] }
    ensures words { given_words text.now ≡ result.0.now ∷ given_words result.1.now }
    ensures shorter { length result.1.now < length text.now }
{
    match text.split_once('\0') {
        Some((word, after)) => (word, after),
        None => (text, ""),
    }
}
