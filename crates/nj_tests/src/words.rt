//! The paths that a word may name.

ghost use Rattle.std.specs.Prelude.{◌≡◌, ◌++◌, [], IfOk, OnOk, Some, map, option_copied};
ghost use Rattle.nj_tests.specs.Cited.{is_sign, is_cut, rests_of, stretches_of, attached_to, pieces_in, pieces_of, path_in, folder_of, path_of, names_of, clean_path_of, slice_split, list_any, filled};

use nj_text::{TextFault, clean_path};
use std::alloc::{AllocError, Global};

/// Whether the byte is a sign between an option or a variable and its value, or between the values
/// of a list.
fn is_sign(byte: u8) -> bool
    ensures { result ≡ is_sign byte }
{
    matches!(byte, b'=' | b':' | b',' | b';')
}

/// Whether a piece may end before the byte, and another piece begin after it.
fn is_cut(byte: u8) -> bool
    ensures { result ≡ is_cut byte }
{
    is_sign(byte) || matches!(byte, b' ' | b'\t' | b'\n' | b'"' | b'\'')
}

/// The parts of a word between its signs.
fn split_at_signs(alloc: Global, word: &[u8]) -> Result<Vec<&[u8]>, AllocError>
    ensures { IfOk result (λ stretches.
        map (λ stretch. stretch.now) stretches.items ≡ slice_split is_sign word.now) }
{
    word.split(|byte| is_sign(*byte)).collect(alloc)
}

/// The parts of a word between its signs, blanks and quotes.
fn split_at_cuts(alloc: Global, word: &[u8]) -> Result<Vec<&[u8]>, AllocError>
    ensures { IfOk result (λ stretches.
        map (λ stretch. stretch.now) stretches.items ≡ slice_split is_cut word.now) }
{
    word.split(|byte| is_cut(*byte)).collect(alloc)
}

/// The rest of a word after each of its signs.
fn rests_of(alloc: Global, word: &[u8]) -> Result<Vec<&[u8]>, AllocError>
    ensures { IfOk result (λ rests. map (λ rest. rest.now) rests.items ≡ rests_of word.now) }
{
    let mut rests = Vec::new(alloc);
    let mut left = word;
    'bytes: while let Some((byte, rest)) = left.split_first() {
        if is_sign(*byte) {
            rests.push(rest)?;
        }
        left = rest;
    }
    Ok(rests)
}

/// Whether a word has a sign, a blank or a quote.
fn has_cut(word: &[u8]) -> bool
    ensures { result ≡ list_any is_cut word.now }
{
    word.iter().any(|byte| is_cut(*byte))
}

/// Appends stretches.
fn push_all<'w>(stretches: &mut Vec<&'w [u8]>, others: &[&'w [u8]]) -> Result<(), AllocError>
    ensures { OnOk result (map (λ stretch. stretch.now) stretches.new.items
        ≡ map (λ stretch. stretch.now) stretches.old.items
        ++ map (λ stretch. stretch.now) others.now) }
{
    stretches.extend_from_slice(others)
}

/// Appends the rest of a word after each sign, the parts between its signs, and the parts between
/// its signs, blanks and quotes.
fn push_parts<'w>(
    alloc: Global,
    stretches: &mut Vec<&'w [u8]>,
    word: &'w [u8],
) -> Result<(), AllocError>
    ensures { OnOk result (map (λ stretch. stretch.now) stretches.new.items
        ≡ map (λ stretch. stretch.now) stretches.old.items ++ rests_of word.now
        ++ slice_split is_sign word.now ++ slice_split is_cut word.now) }
{
    push_all(stretches, &rests_of(alloc, word)?)?;
    push_all(stretches, &split_at_signs(alloc, word)?)?;
    push_all(stretches, &split_at_cuts(alloc, word)?)
}

/// The stretches of a word: the word, and if it can be cut, its parts.
fn stretches_of(alloc: Global, word: &[u8]) -> Result<Vec<&[u8]>, AllocError>
    ensures { IfOk result (λ stretches.
        map (λ stretch. stretch.now) stretches.items ≡ stretches_of word.now) }
{
    let mut stretches = Vec::new(alloc);
    stretches.push(word)?;
    if has_cut(word) {
        push_parts(alloc, &mut stretches, word)?;
    }
    Ok(stretches)
}

/// Appends a piece, unless it is empty.
fn push_piece<'w>(pieces: &mut Vec<&'w [u8]>, piece: &'w [u8]) -> Result<(), AllocError>
    ensures { OnOk result (map (λ piece. piece.now) pieces.new.items
        ≡ map (λ piece. piece.now) pieces.old.items ++ filled piece.now) }
{
    if !piece.is_empty() {
        pieces.push(piece)?;
    }
    Ok(())
}

/// Appends a stretch, and the value that is attached to an option of one letter or to an `@` in
/// it.
fn push_pieces<'w>(pieces: &mut Vec<&'w [u8]>, stretch: &'w [u8]) -> Result<(), AllocError>
    ensures { OnOk result (map (λ piece. piece.now) pieces.new.items
        ≡ map (λ piece. piece.now) pieces.old.items ++ pieces_in stretch.now) }
{
    push_piece(pieces, stretch)?;
    match stretch {
        [b'-', _, value @ ..] => push_piece(pieces, value),
        [b'@', value @ ..] => push_piece(pieces, value),
        _ => Ok(()),
    }
}

/// Returns the pieces of a word, any of which may be a path. They are the word itself; the rest of
/// the word after each sign, that is `=`, `:`, `,` or `;`; the parts between two signs; and the
/// parts between two signs, blanks or quotes. The ends of the word count as signs. If a piece
/// begins with `-` and one more byte, or with `@`, then the rest of the piece is a piece too. Empty
/// pieces are left out.
///
/// Takes time in proportion to the word and its pieces. Fails only if an allocation fails.
pub fn pieces_of(alloc: Global, word: &[u8]) -> Result<Vec<&[u8]>, AllocError>
    ensures { IfOk result (λ pieces.
        map (λ piece. piece.now) pieces.items ≡ pieces_of word.now) }
{
    let stretches = stretches_of(alloc, word)?;
    let mut pieces = Vec::new(alloc);
    'stretches: for stretch in &stretches {
        push_pieces(&mut pieces, stretch)?;
    }
    Ok(pieces)
}

/// Appends a path, resolved against a directory.
fn push_path_in(out: &mut Vec<u8>, folder: &[u8], path: &[u8]) -> Result<(), AllocError>
    ensures { OnOk result (out.new.items ≡ out.old.items ++ path_in folder.now path.now) }
{
    if !matches!(path, [b'/', ..]) {
        out.extend_from_slice(folder)?;
        out.push(b'/')?;
    }
    out.extend_from_slice(path)
}

/// The directory that a test runs in: the build directory, or a path that is resolved against it.
fn folder_of(alloc: Global, build: &[u8], folder: Option<&[u8]>) -> Result<Vec<u8>, AllocError>
    ensures { IfOk result (λ whole.
        whole.items ≡ folder_of build.now (option_copied folder.entry)) }
{
    let mut whole = Vec::new(alloc);
    match folder {
        Some(folder) => push_path_in(&mut whole, build, folder)?,
        None => whole.extend_from_slice(build)?,
    }
    Ok(whole)
}

/// Returns the path that a piece names for a test that runs in the given directory: clean, and
/// absolute. A relative piece is resolved against `folder`, and a relative `folder` against
/// `build`, the absolute path of the build directory; without `folder`, the piece is resolved
/// against `build`.
///
/// Fails only if an allocation fails.
pub fn path_of(
    alloc: Global,
    build: &[u8],
    folder: Option<&[u8]>,
    piece: &[u8],
) -> Result<Vec<u8>, AllocError>
    ensures { IfOk result (λ path.
        path.items ≡ path_of build.now (option_copied folder.entry) piece.now) }
{
    let folder = folder_of(alloc, build, folder)?;
    clean_in(alloc, &folder, piece)
}

/// A path, resolved against a directory and cleaned.
fn clean_in(alloc: Global, folder: &[u8], path: &[u8]) -> Result<Vec<u8>, AllocError>
    ensures { IfOk result (λ clean. clean.items ≡ clean_path_of (path_in folder.now path.now)) }
{
    let mut whole = Vec::new(alloc);
    push_path_in(&mut whole, folder, path)?;
    match clean_path(alloc, &whole) {
        Ok(clean) => Ok(clean),
        Err(TextFault::EmptyPath) => Ok(whole),
        Err(TextFault::OutOfMemory) => Err(AllocError),
    }
}

/// The paths that a word may name (see [`path_of`] and [`pieces_of`]).
///
/// Fails only if an allocation fails.
pub fn names_of(
    alloc: Global,
    build: &[u8],
    folder: Option<&[u8]>,
    word: &[u8],
) -> Result<Vec<Vec<u8>>, AllocError>
    ensures { IfOk result (λ names. map (λ name. name.items) names.items
        ≡ names_of build.now (option_copied folder.entry) word.now) }
{
    let folder = folder_of(alloc, build, folder)?;
    let pieces = pieces_of(alloc, word)?;
    clean_all_in(alloc, &folder, &pieces)
}

/// Paths, each resolved against a directory and cleaned.
fn clean_all_in(alloc: Global, folder: &[u8], paths: &[&[u8]]) -> Result<Vec<Vec<u8>>, AllocError>
    ensures { IfOk result (λ names. map (λ name. name.items) names.items
        ≡ map (λ path. clean_path_of (path_in folder.now path))
        (map (λ path. path.now) paths.now)) }
{
    let mut names = Vec::with_capacity(alloc, paths.len())?;
    'paths: for path in paths {
        names.push(clean_in(alloc, folder, path)?)?;
    }
    Ok(names)
}
