//! Paths of files in byte order, verbatim and quoted for a shell.

ghost use Rattle.std.specs.Prelude.{◌≡◌, not, map, filter, IfOk, OnOk};
ghost use Rattle.nj_tools.specs.Cited.{quoted, quote_strings, precedes_plain, sorted};

use nj_graph::Files;
use nj_text::quote_into;
use std::alloc::{AllocError, Global};

/// The paths of files, in byte order.
pub(crate) fn sorted_paths<'g>(alloc: Global, files: Files<'g>) -> Result<Vec<&'g [u8]>, AllocError>
    ensures { IfOk result (λ paths. map (λ path. path.now) paths.items
        ≡ sorted (map (λ file. file.path) files.entry)) }
{
    let mut paths = Vec::with_capacity(alloc, files.len())?;
    'files: for file in files {
        paths.push(file.path())?;
    }
    sort_slices(&mut paths)?;
    Ok(paths)
}

/// The paths of files quoted for a shell where necessary. Quoted paths come before all others,
/// since the quote is less than every byte that needs no quoting; so each kind is sorted
/// separately, and only the quoted paths are copied.
#[derive(Drop)]
pub(crate) struct Quotes<'g> {
    /// The paths in quotes.
    pub(crate) quoted: Vec<Vec<u8>>,
    /// The paths that need no quotes.
    pub(crate) plain: Vec<&'g [u8]>,
}

/// The paths of files, quoted for a shell, in byte order of the quotes.
pub(crate) fn sorted_quotes<'g>(alloc: Global, files: Files<'g>) -> Result<Quotes<'g>, AllocError>
    ensures { IfOk result (λ quotes. quote_strings quotes
        ≡ sorted (map quoted (map (λ file. file.path) files.entry))) }
{
    let mut quotes = quotes_of(alloc, files)?;
    sort_strings(&mut quotes.quoted)?;
    sort_slices(&mut quotes.plain)?;
    Ok(quotes)
}

// The paths of files, quoted for a shell, in the order of the files.
fn quotes_of<'g>(alloc: Global, files: Files<'g>) -> Result<Quotes<'g>, AllocError>
    ensures quoted { IfOk result (λ quotes. map (λ text. text.items) quotes.quoted.items
        ≡ filter precedes_plain (map quoted (map (λ file. file.path) files.entry))) }
    ensures plain { IfOk result (λ quotes. map (λ path. path.now) quotes.plain.items
        ≡ filter (λ text. not (precedes_plain text))
        (map quoted (map (λ file. file.path) files.entry))) }
{
    let mut quote = Vec::new(alloc);
    let mut quoted = Vec::new(alloc);
    let mut plain = Vec::with_capacity(alloc, files.len())?;
    'files: for file in files {
        let path = file.path();
        quote.clear();
        quote_into(&mut quote, path)?;
        if precedes_plain(&quote) {
            quoted.push(Vec::from_slice(alloc, &quote)?)?;
        } else {
            plain.push(path)?;
        }
    }
    Ok(Quotes { quoted, plain })
}

// Whether the quote of a path comes before all paths that need no quotes, in byte order.
fn precedes_plain(quote: &[u8]) -> bool
    ensures { result ≡ precedes_plain quote.now }
{
    match quote.first() {
        Some(byte) => *byte <= b'\'',
        None => true,
    }
}

// Sorts strings in byte order.
fn sort_strings(strings: &mut Vec<Vec<u8>>) -> Result<(), AllocError>
    ensures { OnOk result (map (λ text. text.items) strings.new.items
        ≡ sorted (map (λ text. text.items) strings.old.items)) }
{
    strings.sort_by(|one, other| one.as_slice().cmp(other.as_slice()))?;
    Ok(())
}

// Sorts slices in byte order.
fn sort_slices(slices: &mut Vec<&[u8]>) -> Result<(), AllocError>
    ensures { OnOk result (map (λ slice. slice.now) slices.new.items
        ≡ sorted (map (λ slice. slice.now) slices.old.items)) }
{
    slices.sort_by(|one, other| (*one).cmp(*other))?;
    Ok(())
}
