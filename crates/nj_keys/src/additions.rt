//! Texts that go into every key.

ghost use Rattle.std.specs.Prelude.{◌≡◌, ◌++◌, ◌∷◌, IfOk, OnOk, length, map};
ghost use Rattle.nj_keys.specs.Cited.{additions_text, content_addition, digest_of_additions, field, flat_map, key_after, number, sha256};

use crate::fields::{Key, push_field, push_number};
use sha2::{Digest, Sha256};
use std::alloc::{AllocError, Global};

/// Returns the addition for the content of a file: a zero byte, which no word of a command line
/// has, and the SHA-256 of the content.
///
/// # Errors
///
/// If an allocation failed.
pub fn content_addition(alloc: Global, content: &[u8]) -> Result<Vec<u8>, AllocError>
    ensures { IfOk result (λ addition. addition.items ≡ content_addition content.now) }
{
    let mut addition = Vec::new(alloc);
    addition.push(0)?;
    addition.extend_from_slice(&Sha256::digest(content))?;
    Ok(addition)
}

/// Returns the digest of the text of additions; `None` without additions.
pub(crate) fn digest_of_additions(
    alloc: Global,
    additions: &[&[u8]],
) -> Result<Option<Key>, AllocError>
    ensures { IfOk result (λ digest.
        digest ≡ digest_of_additions (map (λ text. text.now) additions.now)) }
{
    if additions.is_empty() {
        return Ok(None);
    }
    let text = additions_text(alloc, additions)?;
    Ok(Some(Sha256::digest(text.as_slice())))
}

// Returns the text of additions: how many there are, and a field for each.
fn additions_text(alloc: Global, additions: &[&[u8]]) -> Result<Vec<u8>, AllocError>
    ensures { IfOk result (λ text.
        text.items ≡ additions_text (map (λ text. text.now) additions.now)) }
{
    let mut text = Vec::new(alloc);
    push_number(&mut text, additions.len())?;
    push_additions(&mut text, additions)?;
    Ok(text)
}

// Appends a field for each addition.
fn push_additions(text: &mut Vec<u8>, additions: &[&[u8]]) -> Result<(), AllocError>
    ensures { OnOk result (text.new.items
        ≡ text.old.items ++ flat_map field (map (λ text. text.now) additions.now)) }
{
    'additions: for addition in additions {
        push_field(text, addition)?;
    }
    Ok(())
}

/// Returns a key with additions that have the given digest.
pub(crate) fn with_additions(
    alloc: Global,
    additions: Option<Key>,
    key: Key,
) -> Result<Key, AllocError>
    ensures { IfOk result (λ added. added ≡ key_after additions key) }
{
    match additions {
        Some(digest) => key_after(alloc, &digest, &key),
        None => Ok(key),
    }
}

// Returns the SHA-256 of a colon, the digest of additions, and a key.
fn key_after(alloc: Global, digest: &[u8], key: &[u8]) -> Result<Key, AllocError>
    ensures { IfOk result (λ added. added ≡ sha256 (58 ∷ digest.now ++ key.now)) }
{
    let mut text = Vec::new(alloc);
    text.push(b':')?;
    text.extend_from_slice(digest)?;
    text.extend_from_slice(key)?;
    Ok(Sha256::digest(text.as_slice()))
}
