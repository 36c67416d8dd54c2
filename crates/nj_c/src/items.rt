//! Items of lists, by their index.

ghost use Rattle.std.specs.Prelude.{◌≡◌, List, ℕ, slice_get, map};
ghost use Rattle.nj_c.specs.Cited.{AreFiles, GivesFile, GivesItem, kind_code, step_kind_code, code_of};

use crate::status::Status;
use nj_graph::{EdgeNo, FileNo, Kind};

/// Stores the number of the file at an index of a list.
pub(crate) fn give_file(list: &[FileNo], index: usize, file: &mut usize) -> Status
    ensures { (files paths : List (List ℕ)) → AreFiles files list.now paths
        → GivesFile files (slice_get paths index) (code_of result) file.new }
{
    match file_at(list, index) {
        Some(found) => {
            *file = found.0;
            Status::Done
        }
        None => Status::Nothing,
    }
}

fn file_at(list: &[FileNo], index: usize) -> Option<FileNo>
    ensures { result ≡ slice_get list.now index }
{
    list.get(index).copied()
}

/// Stores the number of the edge at an index of a list.
pub(crate) fn give_edge(list: &[EdgeNo], index: usize, edge: &mut usize) -> Status
    ensures { GivesItem (slice_get (map (λ e. e.0) list.now) index) (code_of result)
        (λ number. edge.new ≡ number) }
{
    match list.get(index) {
        Some(found) => {
            *edge = found.0;
            Status::Done
        }
        None => Status::Nothing,
    }
}

/// The number of a kind of inputs.
pub(crate) fn kind_number(kind: Kind) -> i32
    ensures { result ≡ kind_code kind }
{
    match kind {
        Kind::Explicit => 0,
        Kind::Implicit => 1,
        Kind::OrderOnly => 2,
    }
}

/// The number of a validation, beside the numbers of kinds.
const VALIDATION: i32 = 3;

/// The number of the kind of a step, which is `None` for a validation.
pub(crate) fn step_kind_number(kind: Option<Kind>) -> i32
    ensures { result ≡ step_kind_code kind }
{
    match kind {
        Some(kind) => kind_number(kind),
        None => VALIDATION,
    }
}
