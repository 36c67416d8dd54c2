//! The makers of files: which edge makes each.

ghost use Rattle.std.specs.Prelude.{◌≡◌, ◌+◌, ◌<◌, ◌^◌, [], None, Some, length, replicate, slice_get, slice_index_or, slice_set, IfOk, IfSome, OnOk, OnErr};
ghost use Rattle.nj_edges.specs.Cited.{IsNamed, maker_held};

use nj_names::{FileNo, Files};
use std::alloc::{AllocError, Global};
use std::marker::Model;

/// The edge that makes each file, by the number of the file; `None` for a source.
#[derive(Drop)]
pub(crate) struct Makers {
    // the numbers of the edges, counted from 1; 0 for a source
    numbers: Vec<u32>,
}

impl Model for Makers {
    ghost use Rattle.std.specs.Prelude.{ℕ, List, Option};
    ghost use Rattle.nj_edges.specs.Inside.MakersHeld.{makers_held};

    ghost Value = { List (Option ℕ) };

    ghost view = { λ m. makers_held m.numbers.items };
}

impl Makers {
    /// No files. It allocates nothing.
    pub(crate) fn new(alloc: Global) -> Makers
        ensures { result ≡ [] }
    {
        Makers {
            numbers: Vec::new(alloc),
        }
    }

    /// This many files, all of them sources.
    pub(crate) fn of_sources(alloc: Global, count: usize) -> Result<Makers, AllocError>
        ensures { IfOk result (λ makers. makers ≡ replicate count None) }
    {
        let numbers = vec![in alloc; 0; count]?;
        Ok(Makers { numbers })
    }

    /// The edge that makes a file.
    pub(crate) fn maker(&self, file: FileNo) -> Option<usize>
        requires { file.0 < length self.now }
        ensures maker { result ≡ slice_index_or self.now file.0 None }
        ensures fits { IfSome result (λ edge. edge + 1 < 2 ^ 32) }
    {
        edge_of(number_at(&self.numbers, file))
    }

    /// Sets this edge as the maker of a file.
    pub(crate) fn set(&mut self, file: FileNo, edge: usize)
        requires file { file.0 < length self.old }
        requires fits { edge + 1 < 2 ^ 32 }
        ensures { self.new ≡ slice_set self.old file.0 (Some edge) }
    {
        self.numbers[file.0] = number_of(edge);
    }
}

/// Returns the number of the file at the given path, which is named from now on. A new file has no
/// maker.
pub(crate) fn name(
    files: &mut Files,
    makers: &mut Makers,
    path: &[u8],
) -> Result<FileNo, AllocError>
    requires { length makers.old ≡ length files.old }
    ensures named { IfOk result (λ file. IsNamed files.old makers.old path.now
        files.new makers.new file) }
    ensures refused { OnErr result (files.new ≡ files.old) }
    ensures makers_refused { OnErr result (makers.new ≡ makers.old) }
{
    makers.numbers.reserve(1)?;
    let file = files.name(path)?;
    if file.0 == makers.numbers.as_slice().len() {
        makers.numbers.push_reserved(0);
    }
    Ok(file)
}

// The number that is kept for a file.
fn number_at(numbers: &[u32], file: FileNo) -> u32
    requires { file.0 < length numbers.now }
    ensures { slice_get numbers.now file.0 ≡ Some result }
{
    numbers[file.0]
}

// The edge that is kept by this number.
fn edge_of(number: u32) -> Option<usize>
    ensures edge { result ≡ maker_held number }
    ensures fits { IfSome result (λ edge. edge + 1 < 2 ^ 32) }
{
    if number == 0 {
        return None;
    }
    Some(number as usize - 1)
}

// The number under which an edge is stored.
fn number_of(edge: usize) -> u32
    requires { edge + 1 < 2 ^ 32 }
    ensures { maker_held result ≡ Some edge }
{
    edge as u32 + 1
}
