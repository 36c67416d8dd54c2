//! Directories of builds, and the texts that name them.

ghost use Rattle.std.specs.Prelude.{◌≡◌, ◌++◌, [], ◌∷◌, true, ◌-◌, ◌<◌, ◌≤◌, if◌then◌else◌, length, take, drop, IfOk, IfSome, OnOk, OnErr, bytes_eq, decimal, map, position, unwrap_or};
ghost use Rattle.nj_keys.specs.Cited.{clean_path_of, is_absolute, is_quote, is_separator, is_path_byte, ends_before, begins_with_quote, stands_at, longest_at, front_mapped, mapped, may_begin_after, paths};

use itoa::Buffer;
use nj_text::{TextFault, clean_path};
use std::alloc::{AllocError, Global};
use std::marker::Model;

/// Directories by their clean absolute paths, numbered from 0. In a text a zero byte, which a
/// manifest does not contain, and the number stand for the path of a directory where the directory
/// counts: where no `/` stands between it and the last blank, quote, `=`, `:` or `,` before it, and
/// where `/`, a byte that is not part of a path, or the end follows. Of several directories the
/// longest counts. So texts of builds that lie in different directories agree.
#[derive(Drop)]
pub struct Bases {
    folders: Vec<Vec<u8>>,
}

impl Model for Bases {
    ghost use Rattle.std.specs.Prelude.{ℕ, List};
    ghost use Rattle.nj_keys.specs.Inside.Folders.{paths};

    ghost Value = { List (List ℕ) };

    ghost view = { λ b. paths b.folders.items };
}

impl Bases {
    /// Returns bases without directories.
    pub fn new(alloc: Global) -> Bases
        ensures { result ≡ [] }
    {
        Bases {
            folders: Vec::new(alloc),
        }
    }

    /// Adds the directory at a path, which is cleaned, unless the path is relative. Returns whether
    /// it was added.
    ///
    /// # Errors
    ///
    /// If an allocation failed; no directory is added then.
    pub fn add(&mut self, alloc: Global, path: &[u8]) -> Result<bool, AllocError>
        ensures absolute { IfOk result (λ added. added ≡ is_absolute path.now) }
        ensures added { OnOk result (self.new ≡ self.old
            ++ (if is_absolute path.now then clean_path_of path.now ∷ [] else [])) }
        ensures refused { OnErr result (self.new ≡ self.old) }
    {
        if !is_absolute(path) {
            return Ok(false);
        }
        match clean_path(alloc, path) {
            Ok(folder) => {
                self.folders.push(folder)?;
                Ok(true)
            }
            Err(_) => Err(AllocError),
        }
    }

    /// Appends a text with a zero byte and a number in place of each directory that counts.
    ///
    /// # Errors
    ///
    /// If an allocation failed.
    pub fn append_mapped(&self, out: &mut Vec<u8>, text: &[u8]) -> Result<(), AllocError>
        ensures { OnOk result (out.new.items ≡ out.old.items ++ mapped self.now text.now) }
    {
        if self.folders.as_slice().is_empty() {
            out.extend_from_slice(text)?;
            return Ok(());
        }
        append_mapped(&self.folders, out, text)
    }
}

// Whether a path begins at the root.
fn is_absolute(path: &[u8]) -> bool
    ensures { result ≡ is_absolute path.now }
{
    matches!(path, [b'/', ..])
}

// Appends a text with a zero byte and a number in place of each directory that counts.
fn append_mapped(folders: &[Vec<u8>], out: &mut Vec<u8>, text: &[u8]) -> Result<(), AllocError>
    ensures { OnOk result (out.new.items ≡ out.old.items ++ mapped (paths folders.now) text.now) }
{
    let mut rest = text;
    let mut may_begin = true;
    let mut left = 0;
    'bytes: while let Some((byte, after)) = rest.split_first() {
        if left == 0 {
            left = counted(folders, may_begin, rest);
            append_front(folders, out, left, rest)?;
        }
        left = left.saturating_sub(1);
        may_begin = may_begin_after(may_begin, *byte);
        rest = after;
    }
    Ok(())
}

// Whether a path may begin after a byte, given whether it may begin before the byte.
fn may_begin_after(may_begin: bool, byte: u8) -> bool
    ensures { result ≡ may_begin_after may_begin byte }
{
    is_separator(byte) || (may_begin && byte != b'/')
}

// Returns the length of the directory that counts at the front of a text, or 0 if no directory
// does.
fn counted(folders: &[Vec<u8>], may_begin: bool, text: &[u8]) -> usize
    ensures longest { result ≡ (if may_begin then longest_at (paths folders.now) text.now else 0) }
    ensures fits { result ≤ length text.now }
{
    if may_begin {
        longest_at(folders, text)
    } else {
        0
    }
}

// Returns the length of the longest directory at the front of a text, or 0 if no directory is
// there.
fn longest_at(folders: &[Vec<u8>], text: &[u8]) -> usize
    ensures longest { result ≡ longest_at (paths folders.now) text.now }
    ensures fits { result ≤ length text.now }
{
    let mut longest = 0;
    'folders: for folder in folders {
        if stands_at(text, folder) {
            longest = folder.len().max(longest);
        }
    }
    longest
}

// Whether a directory stands at the front of a text.
fn stands_at(text: &[u8], folder: &[u8]) -> bool
    ensures { result ≡ stands_at text.now folder.now }
{
    text.starts_with(folder) && ends_before(&text[folder.len()..])
}

// Whether the path of a directory ends before a text.
fn ends_before(text: &[u8]) -> bool
    ensures { result ≡ ends_before text.now }
{
    match text {
        [] => true,
        [b'/', ..] => true,
        [b'\\', quote, ..] if is_quote(*quote) => true,
        [byte, ..] => !is_path_byte(*byte),
    }
}

// Whether a byte may be part of a path.
fn is_path_byte(byte: u8) -> bool
    ensures { result ≡ is_path_byte byte }
{
    !is_separator(byte) && !matches!(byte, b'&' | b'(' | b')' | b';' | b'<' | b'>' | b'|')
}

// Whether a path may begin after a byte, whatever is before the byte.
fn is_separator(byte: u8) -> bool
    ensures { result ≡ is_separator byte }
{
    is_quote(byte) || matches!(byte, b' ' | b'\t' | b'\n' | b'\r' | b'=' | b':' | b',')
}

// Whether a byte is a quote.
fn is_quote(byte: u8) -> bool
    ensures { result ≡ is_quote byte }
{
    matches!(byte, b'"' | b'\'')
}

// Appends the text that stands for the front of a text: the token of a directory of the given
// length, or the first byte if the length is 0.
fn append_front(
    folders: &[Vec<u8>],
    out: &mut Vec<u8>,
    size: usize,
    text: &[u8],
) -> Result<(), AllocError>
    requires some { 0 < length text.now }
    requires fits { size ≤ length text.now }
    ensures { OnOk result (out.new.items
        ≡ out.old.items ++ front_mapped (paths folders.now) size text.now) }
{
    if size == 0 {
        out.extend_from_slice(&text[..1])
    } else {
        out.push(0)?;
        let number = number_of(folders, &text[..size]);
        out.extend_from_slice(Buffer::new().format(number).as_bytes())
    }
}

// Returns the number of the first directory at the given path, or 0 if no directory has the path.
fn number_of(folders: &[Vec<u8>], path: &[u8]) -> usize
    ensures { result ≡ unwrap_or (position (bytes_eq path.now) (paths folders.now)) 0 }
{
    'folders: for (number, folder) in folders.iter().enumerate() {
        if path == folder.as_slice() {
            return number;
        }
    }
    0
}
